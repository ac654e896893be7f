//! Why and where a source is refused.
ghost use Rattle.std.specs.Prelude.{◌≡◌, Some};
ghost use Rattle.std.specs.Ordering.{is_lt};
ghost use Rattle.abs_tree.specs.Offences.{earlier, offence_cmp};
ghost use Rattle.abs_tree.specs.Refusals.{code_name, code_words, refusal_of};

use crate::Place;
use std::fmt;

/// The offence for which a source is refused. The letter says what it offends: tokens (L), the grammar (S), names (N),
/// types (T) or the profile of the language (P). They are checked in this order.
#[derive(Clone, Copy, Debug, PartialEq, Eq, PartialOrd, Ord)]
pub enum Code {
    /// A byte outside the alphabet.
    L1,
    /// A comment without an end.
    L2,
    /// A string without an end.
    L3,
    /// A number above 127 bits.
    L4,
    /// A token that no valid program continues with.
    S1,
    /// A token past the nesting limit.
    S2,
    /// A word outside the profile of the language.
    S3,
    /// A name that is declared twice.
    N1,
    /// A name without a declaration.
    N2,
    /// Another number of arguments than parameters.
    N3,
    /// An interface that extends itself.
    N4,
    /// A type that does not fit.
    T1,
    /// No method of this name and number of parameters.
    T2,
    /// A declaration without the value that it needs.
    T3,
    /// A class without a method that one of its interfaces asks for.
    T4,
    /// A `return` that is missing or misplaced.
    T5,
    /// A guard that is not a future.
    P1,
    /// A future in a field or in data.
    P2,
    /// `destiny`.
    P3,
    /// A synchronous call on another object.
    P4,
    /// `new local`.
    P5,
}

impl Code {
    /// The offence in words.
    pub fn words(self) -> &'static str
        ensures { result.now ≡ code_words self }
    {
        match self {
            Code::L1 => "byte outside the alphabet",
            Code::L2 => "comment without end",
            Code::L3 => "text without end",
            Code::L4 => "number past 128 bits",
            Code::S1 => "unexpected token",
            Code::S2 => "nesting above 100",
            Code::S3 => "word outside the profile",
            Code::N1 => "declared twice",
            Code::N2 => "unknown name",
            Code::N3 => "wrong number of arguments",
            Code::N4 => "interface extends itself",
            Code::T1 => "wrong type",
            Code::T2 => "no such method",
            Code::T3 => "value missing",
            Code::T4 => "interface not met",
            Code::T5 => "return missing or misplaced",
            Code::P1 => "Boolean guard",
            Code::P2 => "future in a field or data",
            Code::P3 => "destiny",
            Code::P4 => "call on another object",
            Code::P5 => "new local",
        }
    }
}

/// The code's name.
impl fmt::Display for Code {
    ghost output = { λ code. Some (code_name code) };

    fn fmt<W: fmt::Write>(&self, f: &mut fmt::Formatter<W>) -> fmt::Result {
        f.write_str(match self {
            Code::L1 => "L1",
            Code::L2 => "L2",
            Code::L3 => "L3",
            Code::L4 => "L4",
            Code::S1 => "S1",
            Code::S2 => "S2",
            Code::S3 => "S3",
            Code::N1 => "N1",
            Code::N2 => "N2",
            Code::N3 => "N3",
            Code::N4 => "N4",
            Code::T1 => "T1",
            Code::T2 => "T2",
            Code::T3 => "T3",
            Code::T4 => "T4",
            Code::T5 => "T5",
            Code::P1 => "P1",
            Code::P2 => "P2",
            Code::P3 => "P3",
            Code::P4 => "P4",
            Code::P5 => "P5",
        })
    }
}

/// An offence of a source, and its place. Offences are ordered by place, and at one place by code.
#[derive(Clone, Copy, Debug, PartialEq, Eq, PartialOrd, Ord)]
pub struct Offence {
    pub place: Place,
    pub code: Code,
}

impl Offence {
    /// Whether this offence comes before another.
    pub fn comes_before(self, other: Offence) -> bool
        ensures { result ≡ is_lt (offence_cmp self other) }
    {
        self < other
    }

    /// Notes this offence, if it comes before the one that was noted, or none was.
    pub fn note(self, first: &mut Option<Offence>)
        ensures { first.new ≡ earlier first.old self }
    {
        let comes_first = match first {
            Some(noted) => self.comes_before(*noted),
            None => true,
        };
        if comes_first {
            *first = Some(self);
        }
    }

    /// The refusal of a source for this offence.
    pub fn refusal(self) -> Refusal
        ensures { result ≡ refusal_of self }
    {
        Refusal {
            code: self.code,
            line: self.place.line,
            column: self.place.column,
        }
    }
}

/// The refusal of a source: the code of its first offence, with the line and the column of that.
#[derive(Clone, Copy, Debug, PartialEq, Eq)]
pub struct Refusal {
    pub code: Code,
    pub line: u32,
    pub column: u32,
}
