//! The network of pairs that stay in a component: the nodes at which they wait, and the nodes to which their targets
//! lead. From one pair to another of its component there is a link just where the target of the one leads to the node
//! at which the other waits. So a search goes over nodes, and not over pairs times pairs, and stays in a component.
ghost use Rattle.std.specs.List.{AllZip};
ghost use Rattle.std.specs.Prelude.{◌≡◌, ◌<◌, ◌≤◌, ◌+◌, ◌∷◌, ◌++◌, ◌↔◌, ℕ, true, List, [], length, vec_capacity, Contains, Some, slice_get, IfOk};
ghost use Rattle.abs_graph.specs.Views.{graph_of};
ghost use Rattle.abs_program.specs.NamedViews.{program_tree};
ghost use Rattle.circularity_test.specs.Adding.{Adds, OfEach};
ghost use Rattle.circularity_test.specs.Network.{AreGrouped, AreIn, AreLed, AreNumbers, IsCogNode, IsNetwork, IsNodeReached, KeepsComponent, LeadsAs, ReachesNode, TakesOneAtMost, group_by, group_of, nodes_in, node_by, node_of, program_of};
ghost use Rattle.circularity_test.specs.declared.network.Node.{Node as ANode};
ghost use Rattle.contract_terms.specs.declared.pair.Pair.{Pair as One};

use crate::level_pairs::LevelPairs;
use crate::linking::is_reached;
use crate::tables::{before_of, members_of};
use contract_terms::{Contracted, Mode, Pair};
use indexmap::IndexSet;
use name_bounding::{Kind, Name, Sign};
use std::alloc::{AllocError, Global};

/// Where pairs wait that stay in the component with a number.
#[derive(Drop, PartialEq, Eq, Hash)]
pub(crate) enum Node {
    /// At a `get`, in the cog with this name.
    Cog(Name, u32),
    /// At an `await` of this kind.
    Waiting(Kind, u32),
}

/// What a pair waits for, and the number of the component in which it stays.
#[derive(Drop)]
struct Target<'t> {
    kind: &'t Kind,
    component: u32,
}

/// The tables of the network. Nodes are numbered, and pairs have the indices of their list.
#[derive(Drop)]
pub(crate) struct Network {
    /// For each pair, the node at which it waits.
    pub(crate) entries: Vec<usize>,
    /// For each node, the pairs that wait there, in ascending order.
    pub(crate) members: Vec<Vec<usize>>,
    /// For each pair, the nodes to which its target leads.
    pub(crate) exits: Vec<Vec<usize>>,
    /// For each node, those from which a pair leads to it.
    pub(crate) before: Vec<Vec<usize>>,
}

/// What calls on `this` keep in a component: they lead from a kind to kinds of its group alone.
#[derive(Drop, PartialEq, Eq, Hash)]
enum Group {
    /// That of the nodes of cogs, to which no calls lead.
    Cogs,
    /// That of main.
    Main,
    /// That of the methods of objects with a sign, in the component with a number.
    Object(Sign, u32),
}

/// The nodes by their groups.
#[derive(Drop)]
struct Groups {
    groups: IndexSet<Group>,
    /// For each group, the numbers of its nodes.
    rows: Vec<Vec<usize>>,
}

/// What tells to which nodes a kind leads.
#[derive(Drop)]
struct Ways<'n, 'a> {
    program: &'n Contracted<'a>,
    nodes: &'n IndexSet<Node>,
    groups: &'n Groups,
}

impl Network {
    /// The network of some pairs.
    ///
    /// # Errors
    /// [`AllocError`] if an allocation fails.
    pub(crate) fn new(
        alloc: Global,
        program: &Contracted<'_>,
        pairs: &LevelPairs,
    ) -> Result<Network, AllocError>
        ensures { (component : One → ℕ) → AreIn component pairs.now
            → KeepsComponent (program_tree program.now.checked.named) pairs.now.pairs component
            → IfOk result (IsNetwork (program_tree program.now.checked.named) pairs.now.pairs) }
    {
        let mut nodes = IndexSet::new(alloc);
        let entries = enter(alloc, pairs, &mut nodes)?;
        let groups = Groups::new(alloc, &nodes)?;
        let ways = Ways {
            program,
            nodes: &nodes,
            groups: &groups,
        };
        let exits = ways.exits(alloc, pairs)?;
        let count = nodes.len();
        let members = members_of(alloc, count, entries.as_slice())?;
        let before = before_of(alloc, count, entries.as_slice(), exits.as_slice())?;
        Ok(Network {
            entries,
            members,
            exits,
            before,
        })
    }
}

/// Makes the nodes of some pairs. For each pair, the number of its node.
///
/// # Errors
/// [`AllocError`] if an allocation fails.
fn enter(
    alloc: Global,
    pairs: &LevelPairs,
    nodes: &mut IndexSet<Node>,
) -> Result<Vec<usize>, AllocError>
    ensures { (component : One → ℕ) → AreIn component pairs.now
        → IfOk result (λ entries. AreNumbers (node_of component) pairs.now.pairs nodes.new.keys entries.items) }
{
    let mut entries = Vec::new(alloc);
    for index in 0..pairs.pairs.len() {
        let node = Node::of(pairs.pairs.at(index), pairs.component(index));
        let (number, _) = nodes.insert_full(node)?;
        entries.push(number)?;
    }
    Ok(entries)
}

impl Node {
    /// The node at which a pair waits that stays in a component.
    fn of(pair: &Pair, component: u32) -> Node
        ensures { result ≡ node_by pair.now.mode pair.now.source component }
    {
        match pair.mode {
            Mode::Get => Node::Cog(pair.source.cog(), component),
            Mode::Await => Node::Waiting(pair.source.copied(), component),
        }
    }
}

impl Group {
    /// The group of a node.
    fn of(node: &Node) -> Group
        ensures { result ≡ group_of node.now }
    {
        match node {
            Node::Cog(..) => Group::Cogs,
            Node::Waiting(kind, component) => Group::with(kind, *component),
        }
    }

    /// The group of a kind in a component.
    fn with(kind: &Kind, component: u32) -> Group
        ensures { result ≡ group_by kind.now component }
    {
        match kind {
            Kind::Main => Group::Main,
            Kind::Method(sign, _) => Group::Object(sign.copied(), component),
        }
    }
}

impl Groups {
    /// Some nodes by their groups.
    ///
    /// # Errors
    /// [`AllocError`] if an allocation fails. So it is for each function here.
    fn new(alloc: Global, nodes: &IndexSet<Node>) -> Result<Groups, AllocError>
        ensures { IfOk result (AreGrouped nodes.now.keys) }
    {
        let mut groups = IndexSet::new(alloc);
        let numbers = Groups::enter(alloc, nodes.as_slice(), &mut groups)?;
        let rows = members_of(alloc, groups.len(), numbers.as_slice())?;
        Ok(Groups { groups, rows })
    }

    /// Makes the groups of some nodes. For each node, the number of its group.
    fn enter(
        alloc: Global,
        nodes: &[Node],
        groups: &mut IndexSet<Group>,
    ) -> Result<Vec<usize>, AllocError>
        ensures { IfOk result (λ numbers. AreNumbers group_of nodes.now groups.new.keys numbers.items) }
    {
        let mut numbers = Vec::new(alloc);
        for node in nodes {
            let (number, _) = groups.insert_full(Group::of(node))?;
            numbers.push(number)?;
        }
        Ok(numbers)
    }

    /// The number of the group of a target.
    fn number(&self, target: &Target<'_>) -> Option<usize>
        ensures { (number : ℕ) → (result ≡ Some number)
            ↔ (slice_get self.now.groups.keys number ≡ Some (group_by target.now.kind.now target.now.component)) }
    {
        // This call says that no two groups are equal.
        let _count = self.groups.len();
        self.groups
            .get_index_of(&Group::with(target.kind, target.component))
    }

    /// The numbers of the nodes in the group of a target.
    fn alike(&self, target: &Target<'_>) -> &[usize]
        ensures { (nodes : List ANode) → AreGrouped nodes self.now → (number : ℕ) (node : ANode)
            → slice_get nodes number ≡ Some node
            → group_of node ≡ group_by target.now.kind.now target.now.component → Contains result.now number }
    {
        let Some(number) = self.number(target) else {
            return &[];
        };
        match self.rows.get(number) {
            Some(row) => row.as_slice(),
            None => &[],
        }
    }
}

impl<'n, 'a> Ways<'n, 'a> {
    /// For each pair, the numbers of the nodes to which its target leads.
    ///
    /// # Errors
    /// [`AllocError`] if an allocation fails. So it is for each function here.
    fn exits(&self, alloc: Global, pairs: &LevelPairs) -> Result<Vec<Vec<usize>>, AllocError>
        requires { AreGrouped (nodes_in self.now) self.now.groups.now }
        ensures { (component : One → ℕ) → AreIn component pairs.now
            → IfOk result (λ exits. AllZip (LeadsAs (program_of self.now) (nodes_in self.now) component)
            pairs.now.pairs (graph_of exits.items)) }
    {
        let mut exits = Vec::new(alloc);
        for index in 0..pairs.pairs.len() {
            let target = Target {
                kind: &pairs.pairs.at(index).target,
                component: pairs.component(index),
            };
            exits.push(self.numbers(alloc, &target)?)?;
        }
        Ok(exits)
    }

    /// The numbers of the nodes to which a target leads.
    fn numbers(&self, alloc: Global, target: &Target<'_>) -> Result<Vec<usize>, AllocError>
        requires { AreGrouped (nodes_in self.now) self.now.groups.now }
        ensures { IfOk result (λ numbers. AreLed (program_of self.now) (nodes_in self.now) target.now.kind.now
            target.now.component numbers.items) }
    {
        let among = self.groups.alike(target);
        let mut numbers = Vec::with_capacity(alloc, among.len() + 1)?;
        self.add_cog(target, &mut numbers);
        self.add_reached(target, among, &mut numbers);
        Ok(numbers)
    }

    /// Adds the number of the node of the cog that a target needs, if there is one in its component.
    fn add_cog(&self, target: &Target<'_>, numbers: &mut Vec<usize>)
        requires { length numbers.old.items < vec_capacity numbers.old }
        ensures added { Adds (IsCogNode (nodes_in self.now) target.now.kind.now target.now.component)
            numbers.old.items numbers.new.items }
        ensures room { TakesOneAtMost numbers.old numbers.new }
    {
        if let Some(number) = self.number_of_cog(target) {
            put(number, numbers);
        }
    }

    /// The number of the node of the cog that a target needs.
    fn number_of_cog(&self, target: &Target<'_>) -> Option<usize>
        ensures { (number : ℕ) → (result ≡ Some number)
            ↔ IsCogNode (nodes_in self.now) target.now.kind.now target.now.component number }
    {
        // This call says that no two nodes are equal.
        let _count = self.nodes.len();
        self.nodes
            .get_index_of(&Node::Cog(target.kind.cog(), target.component))
    }

    /// Adds those of some numbers whose nodes a target reaches by calls on `this`.
    fn add_reached(&self, target: &Target<'_>, among: &[usize], numbers: &mut Vec<usize>)
        requires { length numbers.old.items + length among.now ≤ vec_capacity numbers.old }
        ensures { Adds (OfEach (IsNodeReached (program_of self.now) (nodes_in self.now) target.now.kind.now
            target.now.component) among.now) numbers.old.items numbers.new.items }
    {
        for number in among {
            self.add_node(target, *number, numbers);
        }
    }

    /// Adds a number if a target reaches its node by calls on `this`.
    fn add_node(&self, target: &Target<'_>, number: usize, numbers: &mut Vec<usize>)
        requires { length numbers.old.items < vec_capacity numbers.old }
        ensures added { Adds (IsNodeReached (program_of self.now) (nodes_in self.now) target.now.kind.now
            target.now.component number) numbers.old.items numbers.new.items }
        ensures room { TakesOneAtMost numbers.old numbers.new }
    {
        if self.reaches(target, number) {
            put(number, numbers);
        }
    }

    /// Whether a target reaches the node with a number by calls on `this`, in its component.
    fn reaches(&self, target: &Target<'_>, number: usize) -> bool
        ensures { (result ≡ true) ↔ ReachesNode (program_of self.now) (nodes_in self.now) target.now.kind.now
            target.now.component number }
    {
        match self.nodes.get_index(number) {
            Some(Node::Waiting(other, component)) => {
                *component == target.component && is_reached(self.program, target.kind, other)
            }
            _ => false,
        }
    }
}

/// Puts a number after some, for which there is room.
fn put(number: usize, numbers: &mut Vec<usize>)
    requires { length numbers.old.items < vec_capacity numbers.old }
    ensures items { numbers.new.items ≡ numbers.old.items ++ number ∷ [] }
    ensures room { TakesOneAtMost numbers.old numbers.new }
{
    numbers.push(number).unwrap();
}
