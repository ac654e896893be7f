//! What names mean, by their numbers. A newer meaning of a name hides the older ones until it is taken away.
ghost use Rattle.std.specs.Prelude.{◌≡◌, ◌<◌, ◌-◌, [], ◌∷◌, length, drop, is_some, if◌then◌else◌, IfOk, OnOk, OnErr};
ghost use Rattle.abs_program.specs.Numbered.{looked_up, newest_of, SaysTheSame};

use abs_tree::limits::TABLE_LIMIT;
use std::alloc::{AllocError, Global};
use std::marker::Model;

/// A name with what it means.
#[derive(Clone, Copy)]
struct Entry<T> {
    number: u32,
    meaning: T,
    /// What the number meant before this entry.
    before: Option<T>,
}

/// Names with what they mean, each by its number. Contracts see the list of both, the newest first.
#[derive(Drop)]
pub struct Meanings<T> {
    /// What each number means now.
    newest: Vec<Option<T>>,
    /// All names, the newest last.
    entries: Vec<Entry<T>>,
}

impl<T> Model for Meanings<T> {
    ghost use Rattle.std.specs.Prelude.{ℕ, List};
    ghost use Rattle.abs_program.specs.Linked.{AreLinked, pairs_of};

    ghost Value = { List (ℕ × T) };

    ghost view = { λ m. pairs_of m.entries.items };

    ghost invariant = { λ m. AreLinked m.newest.items m.entries.items };
}

impl<T: Copy> Meanings<T> {
    /// No names.
    pub fn new(alloc: Global) -> Meanings<T>
        ensures { result ≡ [] }
    {
        Meanings {
            newest: Vec::new(alloc),
            entries: Vec::new(alloc),
        }
    }

    /// How many names there are.
    pub fn len(&self) -> usize
        ensures { result ≡ length self.now }
    {
        self.entries.len()
    }

    /// What the newest name means.
    pub fn newest(&self) -> Option<T>
        ensures { result ≡ newest_of self.now }
    {
        match self.entries.last() {
            Some(entry) => Some(entry.meaning),
            None => None,
        }
    }

    /// What a number means.
    pub fn look_up(&self, number: u32) -> Option<T>
        ensures { result ≡ looked_up self.now number }
    {
        match self.newest.get(number as usize) {
            Some(meaning) => *meaning,
            None => None,
        }
    }

    /// Adds a name, which is the newest.
    ///
    /// # Errors
    /// [`AllocError`] if an allocation fails, or if there are [`TABLE_LIMIT`] names already.
    pub fn push(&mut self, number: u32, meaning: T) -> Result<(), AllocError>
        ensures added { OnOk result (self.new ≡ (number, meaning) ∷ self.old) }
        ensures err { OnErr result (self.new ≡ self.old) }
    {
        if self.entries.len() >= TABLE_LIMIT as usize {
            return Err(AllocError);
        }
        let before = self.look_up(number);
        make_room(&mut self.newest, number)?;
        self.entries.push(Entry {
            number,
            meaning,
            before,
        })?;
        self.newest[number as usize] = Some(meaning);
        Ok(())
    }

    /// Adds a name, which is the newest, unless it means something already. Returns whether it does.
    ///
    /// # Errors
    /// [`AllocError`] if an allocation fails, or if there are [`TABLE_LIMIT`] names already.
    pub fn push_first(&mut self, number: u32, meaning: T) -> Result<bool, AllocError>
        ensures known { IfOk result (λ known. known ≡ is_some (looked_up self.old number)) }
        ensures added { OnOk result (self.new
            ≡ if is_some (looked_up self.old number) then self.old else (number, meaning) ∷ self.old) }
        ensures err { OnErr result (self.new ≡ self.old) }
    {
        let known = self.look_up(number).is_some();
        if !known {
            self.push(number, meaning)?;
        }
        Ok(known)
    }

    /// Takes the newest names away, so that this many are left.
    pub fn shorten(&mut self, count: usize)
        ensures { self.new ≡ drop (length self.old - count) self.old }
    {
        let excess = self.entries.len().saturating_sub(count);
        for _ in 0..excess {
            self.pop();
        }
    }

    /// Takes the newest name away, if there is one.
    fn pop(&mut self)
        ensures { self.new ≡ drop 1 self.old }
    {
        if let Some(entry) = self.entries.pop() {
            self.newest[entry.number as usize] = entry.before;
        }
    }
}

/// Makes room in a table for what a number means. The new numbers mean nothing.
fn make_room<T: Copy>(newest: &mut Vec<Option<T>>, number: u32) -> Result<(), AllocError>
    ensures room { OnOk result (number < length newest.new.items) }
    ensures same { SaysTheSame newest.old.items newest.new.items }
{
    if newest.len() <= number as usize {
        newest.resize(number as usize + 1, None)?;
    }
    Ok(())
}
