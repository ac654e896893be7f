//! What facts of the analysis are computed from, as lines. A script finds the parts of a line by `split`:
//!
//! - `class C active implements I J`, else `passive`, with all interfaces above the class
//! - `field C 1 all`, with what the field lets in, and `initial C 1 reads:s0`, with what its initial value reads
//! - `param C.m 0 interface:I` and `result C.m none`, with what they let in
//! - `reaches C.m m n`, with the methods of the class that calls on `this` reach, itself among them
//! - `body C.m first 3 params 1 slots 2`, with the index of the first statement
//! - `slot C.m 1 57`, with the offset of a parameter's name, or of the statement that declares a local
//! - `term C.m 3 80 get:s1 to:s2 accepts:none reads:s1 settled:s1`, with the index and the offset of the statement, its
//!   kind, its target, what that lets in, and what each of its expressions reads. A creation is `cog:C` or `new:C`; a
//!   message has its receiver, as `receiver:interface:I`, before what is settled.
ghost use Rattle.std.specs.Prelude.{◌≤◌, length};
ghost use Rattle.abs_tree.specs.Limits.{source_limit};

use crate::bounds::Bounds;
use crate::failure::Failure;
use crate::printer::Printer;
use abs_lexer::lexer::tokens;
use abs_names::resolve;
use abs_parser::parse;
use abs_program::BodyEntry;
use abs_tree::{Body, Decl, Member, Param, Signature, Slot};
use check_obj::check;
use circularity_test::{chains, pairs};
use contract_infer::infer;
use contract_terms::{Accepts, ClassTerms, Contracted, Term};
use report_printer::report_text;
use saturation::{Facts, saturate};
use std::alloc::Global;

/// What is done with a source.
#[derive(Clone, Copy, PartialEq, Eq)]
pub(crate) enum What {
    /// Its types are checked, and nothing is shown.
    Checked,
    /// Its contracts are found too, and nothing is shown.
    Inferred,
    /// Its contracts are shown.
    Terms,
    /// Its facts are found, and their number is shown.
    Saturated,
    /// Its facts are shown.
    Facts,
    /// Its pairs are found, and their number is shown.
    Paired,
    /// Its pairs are shown.
    Pairs,
    /// The links between its pairs are shown.
    Links,
    /// Its circular chains are found, and their number is shown.
    Chained,
    /// The report of its circular chains is shown.
    Report,
}

impl What {
    /// What a word of the command line names.
    pub(crate) fn named(word: &str) -> Option<What> {
        match word {
            "checked" => Some(What::Checked),
            "inferred" => Some(What::Inferred),
            "terms" => Some(What::Terms),
            "saturated" => Some(What::Saturated),
            "facts" => Some(What::Facts),
            "paired" => Some(What::Paired),
            "pairs" => Some(What::Pairs),
            "links" => Some(What::Links),
            "chained" => Some(What::Chained),
            "report" => Some(What::Report),
            _ => None,
        }
    }

    /// Whether bounds of facts may follow.
    pub(crate) fn has_bounds(self) -> bool {
        match self {
            What::Checked | What::Inferred | What::Terms => false,
            What::Saturated
            | What::Facts
            | What::Paired
            | What::Pairs
            | What::Links
            | What::Chained
            | What::Report => true,
        }
    }
}

/// The lines of a source that are asked for, once the work is done.
///
/// # Errors
/// [`Failure::Refused`] where the source is refused, [`Failure::TooManyFacts`] where facts are asked for and there are
/// more than their limit, and [`Failure::Memory`] where memory runs out.
pub(crate) fn shown(
    alloc: Global,
    what: What,
    bounds: &Bounds,
    source: &[u8],
) -> Result<String, Failure>
    requires { length source.now ≤ source_limit }
{
    let list = tokens(alloc, source)?;
    let program = check(alloc, resolve(alloc, parse(alloc, &list)?)?)?;
    if let What::Checked = what {
        return Ok(String::new(alloc));
    }
    let found = infer(alloc, program)?;
    let mut printer = Printer {
        alloc,
        program: found.checked().named(),
        terms: found.terms(),
        places: Vec::new(alloc),
        out: String::new(alloc),
        failed: false,
        class: None,
        method: None,
    };
    if what == What::Terms {
        printer.program();
    }
    if what.has_bounds() {
        let facts = saturate(alloc, &found, bounds.depth, bounds.limit)?;
        printer.analysis(what, source, &found, &facts)?;
    }
    if printer.failed {
        return Err(Failure::Memory);
    }
    Ok(printer.out)
}

impl Printer<'_, '_> {
    /// What is asked for of facts, and of the pairs that they give.
    ///
    /// # Errors
    /// [`Failure::Memory`] where memory runs out.
    fn analysis(
        &mut self,
        what: What,
        source: &[u8],
        program: &Contracted<'_>,
        facts: &Facts,
    ) -> Result<(), Failure> {
        match what {
            What::Saturated => {
                self.number("facts: ", facts.len());
                self.push("\n");
            }
            What::Facts => self.facts(source, facts),
            _ => self.waits(what, source, program, facts)?,
        }
        Ok(())
    }

    /// What is asked for of the pairs that facts give.
    ///
    /// # Errors
    /// [`Failure::Memory`] where memory runs out.
    fn waits(
        &mut self,
        what: What,
        source: &[u8],
        program: &Contracted<'_>,
        facts: &Facts,
    ) -> Result<(), Failure> {
        let pairs = pairs(self.alloc, program, facts)?;
        match what {
            What::Paired => self.counts(facts, &pairs),
            What::Pairs => {
                self.counts(facts, &pairs);
                self.pairs(source, &pairs);
            }
            What::Links => self.links(program, &pairs),
            What::Chained | What::Report => {
                let report = chains(self.alloc, program, &pairs)?;
                if what == What::Chained {
                    self.counts(facts, &pairs);
                    self.number("chains: ", report.len());
                    self.push("\n");
                } else {
                    let text = report_text(self.alloc, program, source, &report)?;
                    self.push(str::from_utf8(text.as_bytes()).unwrap_or("?"));
                }
            }
            _ => {}
        }
        Ok(())
    }

    /// The lines of all classes, and of main.
    fn program(&mut self) {
        for (class, declaration) in self.program.declarations.iter().enumerate() {
            if let Decl::Class { name, members, .. } = declaration {
                self.class = Some(name.name);
                let class = self.small(class);
                self.class(class, members.as_slice());
            }
        }
        self.class = None;
        let entry = self.program.main_body();
        self.body(entry, &[], &self.program.main, self.terms.main());
    }

    /// The lines of a class.
    fn class(&mut self, class: u32, members: &[Member]) {
        self.interfaces(class);
        match self.terms.class(class) {
            Some(found) => self.fields(found),
            None => self.failed = true,
        }
        for (member, declared) in members.iter().enumerate() {
            if let Member::Method(signature, body) = declared {
                self.method = Some(signature.name.name);
                let member = self.small(member);
                self.reached(class, member, members);
                self.method(class, member, signature, body);
            }
        }
        self.method = None;
    }

    /// The line with all interfaces above a class, in the order of their declarations.
    fn interfaces(&mut self, class: u32) {
        let entry = self.program.class_entry(class);
        let (Ok(mut above), Some(entry)) = (self.program.above(self.alloc, class), entry) else {
            self.failed = true;
            return;
        };
        above.sort_unstable();
        self.begin("class");
        self.push(if entry.run.is_some() {
            " active"
        } else {
            " passive"
        });
        self.push(" implements");
        for interface in above {
            match self.program.declarations.get(interface as usize) {
                Some(Decl::Interface { name, .. }) => self.named(" ", name.name),
                _ => self.failed = true,
            }
        }
        self.push("\n");
    }

    /// The lines of the fields of a class, and of their initial values. The parameters of the class have none.
    fn fields(&mut self, found: &ClassTerms) {
        self.accepting("field", found.fields.as_slice());
        let params = found.fields.len().saturating_sub(found.initials.len());
        for (initial, reads) in found.initials.iter().enumerate() {
            self.begin("initial");
            self.number(" ", params.saturating_add(initial));
            self.reads(reads);
            self.push("\n");
        }
    }

    /// Lines with what each of several things lets in.
    fn accepting(&mut self, word: &str, each: &[Accepts]) {
        for (index, accepts) in each.iter().enumerate() {
            self.begin(word);
            self.number(" ", index);
            self.accepts(" ", *accepts);
            self.push("\n");
        }
    }

    /// The line with the methods of a class that calls on `this` reach from one of them.
    fn reached(&mut self, class: u32, one: u32, members: &[Member]) {
        self.begin("reaches");
        for (other, declared) in members.iter().enumerate() {
            if let Member::Method(signature, _) = declared {
                let other = self.small(other);
                if self.terms.is_reached(class, one, other) {
                    self.named(" ", signature.name.name);
                }
            }
        }
        self.push("\n");
    }

    /// The lines of a method but that of what it reaches.
    fn method(&mut self, class: u32, member: u32, signature: &Signature, body: &Body) {
        let entry = self.program.body(class, member);
        let (Some(entry), Some(found)) = (entry, self.terms.method(class, member)) else {
            self.failed = true;
            return;
        };
        self.accepting("param", found.params.as_slice());
        self.begin("result");
        self.accepts(" ", found.result);
        self.push("\n");
        self.body(
            entry,
            signature.params.as_slice(),
            body,
            found.terms.as_slice(),
        );
    }

    /// The lines of a body with these parameters: where it begins, its named slots and its terms.
    fn body(&mut self, entry: BodyEntry, params: &[Param], body: &Body, terms: &[Term]) {
        self.begin("body");
        self.maybe(" first ", entry.first);
        self.number(" params ", entry.params as usize);
        self.number(" slots ", entry.slots as usize);
        self.push("\n");
        for (slot, declared) in body.slots.iter().enumerate() {
            self.begin("slot");
            self.number(" ", slot);
            self.maybe(" ", self.place(*declared, params));
            self.push("\n");
        }
        for term in terms {
            self.term(term);
        }
    }

    /// The offset of a parameter's name, or of the statement that declares a local.
    fn place(&self, slot: Slot, params: &[Param]) -> Option<u32> {
        match slot {
            Slot::Parameter(index) => Some(params.get(index as usize)?.place.offset),
            Slot::Local(index) => Some(self.program.instruction(index)?.place),
            Slot::Hidden(_) => None,
        }
    }

    /// The line of a term.
    fn term(&mut self, term: &Term) {
        let Some(instruction) = self.program.instruction(term.index) else {
            self.failed = true;
            return;
        };
        self.begin("term");
        self.number(" ", term.index as usize);
        self.number(" ", instruction.place as usize);
        self.effect(instruction.place, &instruction.effect);
        self.target(&instruction.effect);
        self.accepts(" accepts:", term.accepts);
        for reads in term.reads.iter() {
            self.reads(reads);
        }
        if let Some(objects) = term.receiver {
            self.objects(" receiver:", objects);
        }
        self.push(" settled");
        self.slots(term.settled.as_slice());
        self.push("\n");
    }
}
