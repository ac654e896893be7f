//! What the words of the command line ask for.
ghost use Rattle.std.specs.Prelude.{◌≡◌, string_bytes};

use std::marker::Model;

/// The name of a file, as a word spells it. Contracts see its bytes.
#[derive(Drop)]
pub struct FileName {
    name: String,
}

impl Model for FileName {
    ghost use Rattle.std.specs.Prelude.{ℕ, List, string_bytes};

    ghost Value = { List ℕ };

    ghost view = { λ name. string_bytes name.name };
}

impl FileName {
    /// The name that a word spells.
    pub(crate) fn new(name: String) -> FileName
        ensures { result ≡ string_bytes name }
    {
        FileName { name }
    }

    /// The name as text.
    pub fn as_str(&self) -> &str
        ensures { result.now ≡ self.now }
    {
        self.name.as_str()
    }
}

/// What is analysed.
#[derive(Drop)]
pub enum Wanted {
    /// The source in this file.
    File(FileName),
    /// The generated program of this many classes, from 1 to 2,000.
    Make(u32),
}

/// What the words of the command line ask for.
#[derive(Drop)]
pub struct Options {
    /// Whether to analyse alone, and not to run.
    pub check: bool,
    /// Whether to print the history of the run.
    pub trace: bool,
    /// How many workers evaluate, from 1 to 16.
    pub workers: u8,
    /// How many places of a cog's name the analysis keeps, from 1 to 3.
    pub depth: u8,
    /// How many events a run may have, from 1 to 10,000,000.
    pub steps: u64,
    /// How many facts may be derived, from 1 to 4,000,000.
    pub facts: u64,
    /// What is analysed.
    pub input: Wanted,
}

/// Why words ask for nothing.
#[derive(Clone, Copy, Debug, PartialEq, Eq)]
pub enum OptionsError {
    /// They are not of the command.
    Usage,
    /// Memory ran out.
    Memory,
}
