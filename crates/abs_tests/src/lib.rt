//! Examples of definitions: what type and what result an expression has by them, where a program offends, how values
//! are printed, where control goes, which programs are not accepted, what the components and the paths of a graph are,
//! how names are bounded, what words ask for. A proof shows that the code does what a definition says; an example shows
//! what the definition says. Those on graphs, names and words are compared when the tests run, the others by their
//! proofs. What the programs do is tested from outside, by the files of `tests/`.
#![tactic(auto)]

#[cfg(test)]
mod accepted;
#[cfg(test)]
mod control;
#[cfg(test)]
mod graphs;
#[cfg(test)]
mod names;
#[cfg(test)]
mod typing;
#[cfg(test)]
mod values;
#[cfg(test)]
mod words;
