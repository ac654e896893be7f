//! The dependency pairs of a program, in their order:
//!
//! - `facts: 12` and `pairs: 3`: how many facts and how many pairs there are
//! - `get at 3:36: C.m of 8:3 in [8:3] waits for C.k of 8:3 in [8:3], called at 3:16`
//!
//! and the links from one pair to another, of which each is a number, from 1 on:
//!
//! - `1 to 3: continues` or `1 to 3: held` or `1 to 3: continues, held`
//!
//! Places and kinds are as those of facts.
use crate::printer::Printer;
use circularity_test::{Link, Pairs, linked};
use contract_terms::{Contracted, Mode, Pair};
use saturation::Facts;

impl Printer<'_, '_> {
    /// How many facts and how many pairs there are.
    pub(crate) fn counts(&mut self, facts: &Facts, pairs: &Pairs) {
        self.number("facts: ", facts.len());
        self.number("\npairs: ", pairs.len());
        self.push("\n");
    }

    /// The lines of pairs.
    pub(crate) fn pairs(&mut self, source: &[u8], pairs: &Pairs) {
        self.locate(source);
        for index in 0..pairs.len() {
            self.pair(pairs.at(index));
        }
    }

    /// The line of a pair.
    fn pair(&mut self, pair: &Pair) {
        self.push(match pair.mode {
            Mode::Get => "get",
            Mode::Await => "await",
        });
        self.position(" at ", pair.place);
        self.kind(": ", &pair.source);
        self.kind(" waits for ", &pair.target);
        self.position(", called at ", pair.call);
        self.push("\n");
    }

    /// The lines of the links of pairs.
    pub(crate) fn links(&mut self, program: &Contracted<'_>, pairs: &Pairs) {
        for left in 0..pairs.len() {
            for right in 0..pairs.len() {
                let link = linked(program, pairs.at(left), pairs.at(right));
                self.link(left, right, link);
            }
        }
    }

    /// The line of a link, if there is one.
    fn link(&mut self, left: usize, right: usize, link: Link) {
        let words = match (link.continues, link.held) {
            (true, true) => ": continues, held\n",
            (true, false) => ": continues\n",
            (false, true) => ": held\n",
            (false, false) => return,
        };
        self.number("", left.saturating_add(1));
        self.number(" to ", right.saturating_add(1));
        self.push(words);
    }
}
