//! The graph of the parts of links: what pairs wait for, what runs while its cog is let go, the cogs, and the methods
//! between which calls on `this` lead. No two kinds are written out as a pair: calls are followed one by one.
ghost use Rattle.std.specs.Prelude.{◌≡◌, [], IfOk, OnOk, slice_get};
ghost use Rattle.circularity_test.specs.Parts.{Joins, TakesNumber, entry_part, joined};

use contract_terms::{Mode, Pair};
use indexmap::IndexSet;
use name_bounding::{Kind, Name, Sign};
use std::alloc::{AllocError, Global};

/// Where a link begins, where it ends, and what is between.
#[derive(Drop, PartialEq, Eq, Hash)]
pub(crate) enum Part {
    /// A task of this kind, for which a pair waits.
    Target(Kind),
    /// What runs as this kind and waits at an `await`.
    Running(Kind),
    /// The cog with this name.
    Cog(Name),
    /// The method at an index among the members of the class with an index, of objects with a sign.
    Method(Sign, u32, u32),
}

/// An edge, by the numbers of the parts from which and to which it leads.
#[derive(Clone, Copy)]
pub(crate) struct Edge {
    pub(crate) from: u32,
    pub(crate) to: u32,
}

/// Parts, each with a number, and edges between them.
#[derive(Drop)]
pub(crate) struct Parts {
    pub(crate) parts: IndexSet<Part>,
    pub(crate) edges: Vec<Edge>,
}

impl Part {
    /// The same part again. It takes no memory.
    pub(crate) fn copied(&self) -> Part
        ensures { result ≡ self.now }
    {
        match self {
            Part::Target(kind) => Part::Target(kind.copied()),
            Part::Running(kind) => Part::Running(kind.copied()),
            Part::Cog(name) => Part::Cog(name.copied()),
            Part::Method(sign, class, member) => Part::Method(sign.copied(), *class, *member),
        }
    }

    /// Where a pair waits: at the cog that its source holds, or at its source, which lets the cog go.
    pub(crate) fn entry(pair: &Pair) -> Part
        ensures { result ≡ entry_part pair.now }
    {
        match pair.mode {
            Mode::Get => Part::Cog(pair.source.cog()),
            Mode::Await => Part::Running(pair.source.copied()),
        }
    }
}

impl Parts {
    /// No parts.
    pub(crate) fn new(alloc: Global) -> Parts
        ensures keys { result.parts.keys ≡ [] }
        ensures edges { result.edges.items ≡ [] }
    {
        Parts {
            parts: IndexSet::new(alloc),
            edges: Vec::new(alloc),
        }
    }

    /// The part with a number.
    pub(crate) fn at(&self, number: usize) -> Option<Part>
        ensures { result ≡ slice_get self.now.parts.keys number }
    {
        Some(self.parts.get_index(number)?.copied())
    }

    /// The number of a part, which gets one if it has none.
    ///
    /// # Errors
    /// [`AllocError`] if an allocation fails, or if a number takes more than 32 bits. So it is for each function here.
    fn number(&mut self, part: Part) -> Result<u32, AllocError>
        ensures { IfOk result (TakesNumber self.old self.new part) }
    {
        let (number, _) = self.parts.insert_full(part)?;
        match u32::try_from(number) {
            Ok(number) => Ok(number),
            Err(_) => Err(AllocError),
        }
    }

    /// Adds an edge from one part to another.
    pub(crate) fn lead(&mut self, one: Part, other: Part) -> Result<(), AllocError>
        ensures { OnOk result (Joins self.old self.new (one, other)) }
    {
        let from = self.number(one)?;
        let to = self.number(other)?;
        self.edges.push(Edge { from, to })?;
        Ok(())
    }

    /// Adds an edge between a kind and one of its methods: calls on `this` begin at a target, and lead to what runs.
    pub(crate) fn join(&mut self, kind: &Part, method: Part) -> Result<(), AllocError>
        ensures { OnOk result (Joins self.old self.new (joined kind.now method)) }
    {
        match kind {
            Part::Target(_) => self.lead(kind.copied(), method),
            Part::Running(_) | Part::Cog(_) | Part::Method(..) => self.lead(method, kind.copied()),
        }
    }
}
