//! The printer of trees. It prints a line number only where a place is on another line than the place printed before.
use crate::sink::Sink;
use abs_tree::{Declared, Mode, Operator, Place, Prefix, Slot, Symbol, Symbols, Text, Variable};

/// What was printed so far, and what the rest is printed with. Each method prints one part of the tree. Where memory
/// runs out, the sink notes it.
#[derive(Drop)]
pub(crate) struct Printer<'s, 'a> {
    sink: Sink,
    symbols: &'s Symbols<'a>,
    /// The line of the place that was printed last.
    line: u32,
}

impl<'s, 'a> Printer<'s, 'a> {
    /// A printer into a sink, for a tree with these names.
    pub(crate) fn new(sink: Sink, symbols: &'s Symbols<'a>) -> Printer<'s, 'a> {
        Printer {
            sink,
            symbols,
            line: 1,
        }
    }

    /// The sink, after the end of a line.
    pub(crate) fn end_line(self) -> Sink {
        let mut sink = self.sink;
        sink.push("\n");
        sink
    }

    /// A piece as it is.
    pub(crate) fn push(&mut self, piece: &str) {
        self.sink.push(piece);
    }

    /// A place: its column, after its line where that is not the line of the place before.
    pub(crate) fn place(&mut self, place: Place) {
        if place.line != self.line {
            self.line = place.line;
            self.sink.print(&place.line);
            self.push(":");
        }
        self.sink.print(&place.column);
    }

    /// The place of a node, before the node.
    pub(crate) fn at(&mut self, place: Place) {
        self.place(place);
        self.push(":");
    }

    /// A word at its place.
    pub(crate) fn word_at(&mut self, place: Place, word: &str) {
        self.at(place);
        self.push(word);
    }

    /// The name of a symbol.
    pub(crate) fn name(&mut self, symbol: Symbol) {
        self.sink.bytes(self.symbols.name(symbol));
    }

    /// A name between two pieces.
    pub(crate) fn name_between(&mut self, before: &str, symbol: Symbol, after: &str) {
        self.push(before);
        self.name(symbol);
        self.push(after);
    }

    /// A name at its place.
    pub(crate) fn declared(&mut self, declared: &Declared) {
        self.at(declared.place);
        self.name(declared.name);
    }

    /// A variable: unresolved, its name; resolved, what it stands for and a number.
    pub(crate) fn variable(&mut self, variable: Variable) {
        let (word, number) = match variable {
            Variable::Unresolved(symbol) => return self.name(symbol),
            Variable::Slot(slot) => ("slot ", slot),
            Variable::Bound(depth) => ("bound ", depth),
            Variable::Field(field) => ("field ", field),
        };
        self.numbered(word, number);
    }

    /// A slot of a body, after a space: what it is of, and the index of that.
    pub(crate) fn slot(&mut self, slot: Slot) {
        let (word, index) = match slot {
            Slot::Parameter(index) => (" parameter ", index),
            Slot::Local(index) => (" local ", index),
            Slot::Hidden(index) => (" hidden ", index),
        };
        self.numbered(word, index);
    }

    /// The hidden slot of a call, where it has one.
    pub(crate) fn into_slot(&mut self, slot: Option<u32>) {
        if let Some(slot) = slot {
            self.numbered(" into slot ", slot);
        }
    }

    /// A word and a number after it.
    pub(crate) fn numbered(&mut self, word: &str, number: u32) {
        self.push(word);
        self.sink.print(&number);
    }

    /// A field of `this`: the word and a dot, and the name at its own place.
    pub(crate) fn field(&mut self, name_place: Place, name: Symbol) {
        self.push("this.");
        self.at(name_place);
        self.name(name);
    }

    /// The value of a number literal, in decimal.
    pub(crate) fn number(&mut self, number: i128) {
        self.sink.print(&number);
    }

    /// The value of a string literal, between apostrophes.
    pub(crate) fn literal(&mut self, literal: &Text) {
        self.push("'");
        self.sink.bytes(literal.as_bytes());
        self.push("'");
    }

    /// An operator between spaces.
    pub(crate) fn operator(&mut self, operator: Operator) {
        self.push(" ");
        self.sink.debug(&operator);
        self.push(" ");
    }

    /// An operator before its operand, and the bracket that opens that.
    pub(crate) fn prefix(&mut self, prefix: Prefix) {
        self.sink.debug(&prefix);
        self.push("[");
    }

    /// The word `new`, and where the object lives; `local` is at its place.
    pub(crate) fn mode(&mut self, mode: Mode) {
        self.push("new ");
        match mode {
            Mode::Plain => self.push("Plain "),
            Mode::Cog => self.push("Cog "),
            Mode::Local(place) => self.word_at(place, "local "),
        }
    }
}
