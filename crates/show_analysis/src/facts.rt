//! The facts of a program, as sorted lines:
//!
//! - `live D.go of 9:3 in [9:3]`: there may be tasks or frames of this kind, or `live main`
//! - `slot 1 of D.go of 9:3 in [9:3] holds object of 8:3 in []`: so may a parameter or a local, by its index
//! - `field 0 of 8:3 in [] holds future of 10:3 of D.go of 9:3 in [9:3]`: so may a field of the objects with a sign
//! - `D.go of 9:3 in [9:3] gives object of 8:3 in []`: so may the result of tasks or frames of a kind
//!
//! A place is the line and the column of a statement. A sign is the place at which objects are made, and between
//! brackets the name of their cog. Of a kind the class that is made at that place comes first, or several with `|`
//! between them.
use crate::printer::Printer;
use contract_terms::{Atom, Fact};
use name_bounding::{Kind, Sign};
use saturation::Facts;
use std::mem;

impl Printer<'_, '_> {
    /// The lines of facts.
    pub(crate) fn facts(&mut self, source: &[u8], facts: &Facts) {
        self.locate(source);
        let mut lines = Vec::new(self.alloc);
        for index in 0..facts.len() {
            self.fact(facts.at(index));
            let line = mem::replace(&mut self.out, String::new(self.alloc));
            self.failed = self.failed || lines.push(line).is_err();
        }
        lines.sort_unstable();
        for line in lines.iter() {
            self.push(line.as_str());
        }
    }

    /// Finds the line and the column of each byte of a source.
    pub(crate) fn locate(&mut self, source: &[u8]) {
        let (mut line, mut column) = (1u32, 1u32);
        for byte in source {
            self.failed = self.failed || self.places.push((line, column)).is_err();
            if *byte == b'\n' {
                line = line.saturating_add(1);
                column = 1;
            } else {
                column = column.saturating_add(1);
            }
        }
    }

    /// The line of a fact.
    fn fact(&mut self, fact: &Fact) {
        match fact {
            Fact::Live(kind) => self.kind("live ", kind),
            Fact::Holds(kind, slot, atom) => {
                self.number("slot ", *slot as usize);
                self.kind(" of ", kind);
                self.atom(" holds ", atom);
            }
            Fact::Field(sign, field, atom) => {
                self.number("field ", *field as usize);
                self.sign(" of ", sign);
                self.atom(" holds ", atom);
            }
            Fact::Gives(kind, atom) => {
                self.kind("", kind);
                self.atom(" gives ", atom);
            }
        }
        self.push("\n");
    }

    /// A piece, and after it objects or futures.
    fn atom(&mut self, before: &str, atom: &Atom) {
        self.push(before);
        match atom {
            Atom::Object(sign) => self.sign("object of ", sign),
            Atom::Future(call, kind) => {
                self.position("future of ", *call);
                self.kind(" of ", kind);
            }
        }
    }

    /// A piece, and after it the kind of a task.
    pub(crate) fn kind(&mut self, before: &str, kind: &Kind) {
        self.push(before);
        match kind {
            Kind::Main => self.push("main"),
            Kind::Method(sign, method) => {
                let mut between = "";
                for class in self.terms.classes_made(sign.place) {
                    self.named(between, *class);
                    between = "|";
                }
                self.named(".", *method);
                self.sign(" of ", sign);
            }
        }
    }

    /// A piece, and after it the sign of an object.
    fn sign(&mut self, before: &str, sign: &Sign) {
        self.position(before, sign.place);
        self.push(" in [");
        let mut between = "";
        for place in sign.cog.places() {
            self.position(between, *place);
            between = " ";
        }
        self.push("]");
    }

    /// A piece, and after it the line and the column of a byte of the source.
    pub(crate) fn position(&mut self, before: &str, offset: u32) {
        match self.places.get(offset as usize) {
            Some(place) => {
                let (line, column) = *place;
                self.number(before, line as usize);
                self.number(":", column as usize);
            }
            None => self.failed = true,
        }
    }
}
