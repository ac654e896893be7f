//! What was printed so far, and the parts of which lines are made.
use abs_program::{Effect, Named};
use abs_tree::{Mode, Symbol, Variable};
use contract_terms::{Accepts, Objects, Reads, Terms};
use std::alloc::Global;

/// What was printed so far, and what the lines are made from. Each method prints one part.
#[derive(Drop)]
pub(crate) struct Printer<'s, 'a> {
    pub(crate) alloc: Global,
    pub(crate) program: &'s Named<'a>,
    pub(crate) terms: &'s Terms,
    /// The line and the column of each byte of the source, where they are needed.
    pub(crate) places: Vec<(u32, u32)>,
    pub(crate) out: String,
    /// Whether a part is missing, since memory ran out.
    pub(crate) failed: bool,
    /// The class and the method of which lines are printed; neither for main.
    pub(crate) class: Option<Symbol>,
    pub(crate) method: Option<Symbol>,
}

impl Printer<'_, '_> {
    /// A piece as it is.
    pub(crate) fn push(&mut self, piece: &str) {
        self.failed = self.failed || self.out.push_str(piece).is_err();
    }

    /// An index in 32 bits. No program has more declarations or members than that; else a part is missing.
    pub(crate) fn small(&mut self, index: usize) -> u32 {
        match u32::try_from(index) {
            Ok(small) => small,
            Err(_) => {
                self.failed = true;
                u32::MAX
            }
        }
    }

    /// A piece, and a number after it.
    pub(crate) fn number(&mut self, before: &str, number: usize) {
        self.failed = self.failed || write!(self.out, "{before}{number}").is_err();
    }

    /// A piece, and after it a number, or `-` if there is none.
    pub(crate) fn maybe(&mut self, before: &str, number: Option<u32>) {
        self.push(before);
        match number {
            Some(number) => self.number("", number as usize),
            None => self.push("-"),
        }
    }

    /// A piece, and a name after it.
    pub(crate) fn named(&mut self, before: &str, name: Symbol) {
        self.push(before);
        self.push(str::from_utf8(self.program.symbols.name(name)).unwrap_or("?"));
    }

    /// What a line begins with: a word, and what the line is of.
    pub(crate) fn begin(&mut self, word: &str) {
        self.push(word);
        match self.class {
            Some(class) => self.named(" ", class),
            None => self.push(" main"),
        }
        if let Some(method) = self.method {
            self.named(".", method);
        }
    }

    /// Objects that are let in.
    pub(crate) fn objects(&mut self, before: &str, objects: Objects) {
        self.push(before);
        match objects {
            Objects::None => self.push("none"),
            Objects::Of(class) => self.named("class:", class),
            Objects::Implementing(interface) => self.named("interface:", interface),
            Objects::All => self.push("all"),
        }
    }

    /// What is let in.
    pub(crate) fn accepts(&mut self, before: &str, accepts: Accepts) {
        self.objects(before, accepts.objects);
        if accepts.futures {
            self.push("+futures");
        }
    }

    /// What an expression reads.
    pub(crate) fn reads(&mut self, reads: &Reads) {
        self.push(" reads");
        self.slots(reads.slots.as_slice());
        for field in reads.fields.iter() {
            self.number(":f", *field as usize);
        }
        if reads.this {
            self.push(":this");
        }
    }

    /// Slots.
    pub(crate) fn slots(&mut self, slots: &[u32]) {
        for slot in slots {
            self.number(":s", *slot as usize);
        }
    }

    /// What the statement at a place does that has a term.
    pub(crate) fn effect(&mut self, place: u32, effect: &Effect) {
        match effect {
            Effect::Make { mode, .. } => {
                self.push(if *mode == Mode::Cog { " cog" } else { " new" });
                for class in self.terms.classes_made(place) {
                    self.named(":", *class);
                }
            }
            Effect::Send { method, .. } => self.named(" send:", *method),
            Effect::CallOwn { method, .. } => self.named(" own:", *method),
            Effect::Get { slot, .. } => self.maybe(" get:s", *slot),
            Effect::Await(names) => {
                self.push(" await");
                for name in names.iter() {
                    self.maybe(":s", *name);
                }
            }
            Effect::Return => self.push(" return"),
            _ => self.push(" store"),
        }
    }

    /// The target of a statement.
    pub(crate) fn target(&mut self, effect: &Effect) {
        let target = match effect {
            Effect::Store(target)
            | Effect::Make { target, .. }
            | Effect::Send { target, .. }
            | Effect::CallOwn { target, .. }
            | Effect::Get { target, .. } => *target,
            _ => None,
        };
        match target {
            Some(Variable::Slot(slot)) => self.number(" to:s", slot as usize),
            Some(Variable::Field(field)) => self.number(" to:f", field as usize),
            _ => self.push(" to"),
        }
    }
}
