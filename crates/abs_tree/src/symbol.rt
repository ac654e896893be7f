//! Symbols: the names of a source as numbers.
ghost use Rattle.std.specs.Prelude.{◌≡◌, ◌↔◌, ◌^◌, ◌<◌, ◌≤◌, [], length, IsTrue, IfOk, OnOk, OnErr};
ghost use Rattle.abs_tree.specs.Names.{with_name, number_of_name, symbol_in, name_of};

use indexmap::IndexSet;
use std::alloc::{AllocError, Global};
use std::marker::Model;

/// A name of a program, as its number in the program's table.
#[derive(Clone, Copy, Debug, PartialEq, Eq, PartialOrd, Ord, Hash)]
pub struct Symbol(pub u32);

/// The table of a program's names: each name once, in the order of first appearance. A name borrows its bytes from the
/// source. Contracts see the list of the names.
#[derive(Drop)]
pub struct Symbols<'a> {
    names: IndexSet<&'a [u8]>,
}

impl<'a> Model for Symbols<'a> {
    ghost use Rattle.std.specs.Prelude.{ℕ, List, map};

    ghost Value = { List (List ℕ) };

    ghost view = { λ s. map (λ name. name.now) s.names.keys };
}

impl<'a> Symbols<'a> {
    /// An empty table.
    pub fn new(alloc: Global) -> Symbols<'a>
        ensures { result ≡ [] }
    {
        Symbols {
            names: IndexSet::new(alloc),
        }
    }

    /// The number of names.
    pub fn len(&self) -> usize
        ensures { result ≡ length self.now }
    {
        self.names.len()
    }

    /// Whether two tables have the same names in the same order. It takes no memory.
    pub fn same_names(&self, other: &Symbols<'_>) -> bool
        ensures { IsTrue result ↔ (self.now ≡ other.now) }
    {
        self.names.as_slice() == other.names.as_slice()
    }

    /// The name of a symbol. A symbol that this table does not have gets the empty name.
    pub fn name(&self, symbol: Symbol) -> &'a [u8]
        ensures { result.now ≡ name_of self.now symbol }
    {
        match self.names.get_index(symbol.0 as usize) {
            Some(name) => *name,
            None => &[],
        }
    }

    /// A number for the name of a symbol: it is the same for two symbols exactly where their names are the same
    /// ([`numbers_tell_names`](crate::numbers_tell_names)). For a symbol of the table it is its own.
    pub fn number(&self, symbol: Symbol) -> u32
        ensures number { result ≡ number_of_name self.now (name_of self.now symbol) }
        ensures own { symbol.0 < length self.now → result ≡ symbol.0 }
    {
        let count = self.names.len();
        if (symbol.0 as usize) < count {
            return symbol.0;
        }
        match self.find(&[]) {
            Some(empty) => empty.0,
            None => count as u32,
        }
    }

    /// The symbol of a name, if the table has it.
    pub fn find(&self, name: &[u8]) -> Option<Symbol>
        requires { length self.now ≤ 2 ^ 32 }
        ensures { result ≡ symbol_in self.now name.now }
    {
        match self.names.get_index_of(name) {
            Some(index) => Some(Symbol(index as u32)),
            None => None,
        }
    }

    /// The symbol of a name. A name that the table does not have gets the symbol after all others.
    pub fn symbol_of(&self, name: &[u8]) -> Symbol
        requires { length self.now < 2 ^ 32 }
        ensures { result.0 ≡ number_of_name self.now name.now }
    {
        match self.find(name) {
            Some(symbol) => symbol,
            None => Symbol(self.names.len() as u32),
        }
    }

    /// The symbol of a name. A new name is added after the others.
    ///
    /// # Errors
    /// [`AllocError`] if an allocation fails. The table is unchanged then.
    pub fn intern(&mut self, name: &'a [u8]) -> Result<Symbol, AllocError>
        requires { length self.old < 2 ^ 32 }
        ensures symbol { IfOk result (λ symbol. symbol.0 ≡ number_of_name self.old name.now) }
        ensures names { OnOk result (self.new ≡ with_name self.old name.now) }
        ensures err { OnErr result (self.new ≡ self.old) }
    {
        let (index, _) = self.names.insert_full(name)?;
        Ok(Symbol(index as u32))
    }
}
