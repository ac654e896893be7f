//! Sets of tasks. They take no memory beside links, which their users hand in and get back. A set is a search tree in
//! which no task stands below one of a lower rank. The rank of a task is its number, with the bits stirred, so the tree
//! is about as deep as if the tasks had come in a random order, whatever their order was.
ghost use Rattle.std.specs.Prelude.{◌≡◌, ◌<◌, ◌≤◌, ℕ, suc, true, false, not, ◌&&◌, ◌||◌, [], ◌∷◌, ◌++◌, length, nat_eq, None, IfSome, IfNone};
ghost use Rattle.future_cells.specs.TaskSets.{has, Rises, IsFirstAfter};
ghost use Rattle.future_cells.specs.TaskTrees.{tasks_of};
ghost use Rattle.future_cells.specs.TaskLists.{Each, with_task, without_task, first_of, first_above};

use std::alloc::{AllocError, Global};
use std::marker::Model;
use std::mem;

/// A set of tasks, which contracts see as the list of them in rising order.
#[derive(Drop)]
pub(crate) struct TaskSet {
    tree: Tree,
}

/// The tree of a set.
#[cycle(task_tree)]
#[derive(Drop)]
enum Tree {
    Empty,
    Fork(Box<Branch>),
}

/// The root of a tree: a task, and the trees of those below and above it.
#[cycle(task_tree)]
#[derive(Drop)]
struct Branch {
    below: Tree,
    task: u32,
    above: Tree,
}

/// The memory that a task takes in a set.
#[derive(Drop)]
pub(crate) struct Link {
    branch: Box<Branch>,
}

impl Model for TaskSet {
    ghost use Rattle.std.specs.Prelude.{ℕ, List};
    ghost use Rattle.future_cells.specs.TaskSets.{Rises};
    ghost use Rattle.future_cells.specs.TaskTrees.{tasks_of};

    ghost Value = { List ℕ };

    ghost view = { λ set. tasks_of set.tree };

    ghost invariant = { λ set. Rises (tasks_of set.tree) };
}

/// The rank of a task: its number, with the bits stirred. No two tasks have the same.
fn rank(task: u32) -> u32 {
    let halves = (task ^ (task >> 16)).wrapping_mul(0x85eb_ca6b);
    let parts = (halves ^ (halves >> 13)).wrapping_mul(0xc2b2_ae35);
    parts ^ (parts >> 16)
}

/// Whether a task has a higher rank than another.
fn outranks(task: u32, other: u32) -> bool {
    rank(task) > rank(other)
}

impl Link {
    /// The memory for one task.
    ///
    /// # Errors
    /// [`AllocError`] if memory runs out.
    pub fn new(alloc: Global) -> Result<Link, AllocError> {
        let branch = Box::new(
            alloc,
            Branch {
                below: Tree::Empty,
                task: 0,
                above: Tree::Empty,
            },
        )?;
        Ok(Link { branch })
    }

    /// The tree with a task at its root.
    fn forked(self, below: Tree, task: u32, above: Tree) -> Tree
        ensures { tasks_of result ≡ tasks_of below ++ task ∷ tasks_of above }
    {
        let mut branch = self.branch;
        *branch = Branch { below, task, above };
        Tree::Fork(branch)
    }
}

impl Tree {
    /// The least task of the tree.
    fn first(&self) -> Option<u32>
        ensures { result ≡ first_of None (tasks_of self.now) }
    {
        let mut tree = self;
        let mut found = None;
        while let Tree::Fork(root) = tree {
            let branch: &Branch = root;
            found = Some(branch.task);
            tree = &branch.below;
        }
        found
    }

    /// The least task of the tree above another.
    fn first_after(&self, from: u32) -> Option<u32>
        requires rises { Rises (tasks_of self.now) }
        ensures first { result ≡ first_above from None (tasks_of self.now) }
    {
        let mut tree = self;
        let mut found = None;
        while let Tree::Fork(root) = tree {
            let branch: &Branch = root;
            if from < branch.task {
                found = Some(branch.task);
                tree = &branch.below;
            } else {
                tree = &branch.above;
            }
        }
        found
    }

    /// The tree of two, of which the tasks of this one come first.
    fn joined(self, above: Tree) -> Tree
        ensures { tasks_of result ≡ tasks_of self ++ tasks_of above }
    {
        let Tree::Fork(mut left) = self else {
            return above;
        };
        let Tree::Fork(mut right) = above else {
            return Tree::Fork(left);
        };
        let left_branch: &mut Branch = &mut left;
        let right_branch: &mut Branch = &mut right;
        if outranks(left_branch.task, right_branch.task) {
            let between = mem::replace(&mut left_branch.above, Tree::Empty);
            left_branch.above = between.joined(Tree::Fork(right));
            Tree::Fork(left)
        } else {
            let between = mem::replace(&mut right_branch.below, Tree::Empty);
            right_branch.below = Tree::Fork(left).joined(between);
            Tree::Fork(right)
        }
    }

    /// The trees of the tasks below and above one that is not in the tree.
    fn split(self, task: u32) -> (Tree, Tree)
        requires rises { Rises (tasks_of self) }
        requires is_new { has (tasks_of self) task ≡ false }
        ensures same { tasks_of self ≡ tasks_of result.0 ++ tasks_of result.1 }
        ensures below { Each (λ other. other < task) (tasks_of result.0) }
        ensures above { Each (λ other. task < other) (tasks_of result.1) }
    {
        let Tree::Fork(mut root) = self else {
            return (Tree::Empty, Tree::Empty);
        };
        let branch: &mut Branch = &mut root;
        if task < branch.task {
            let (below, between) = mem::replace(&mut branch.below, Tree::Empty).split(task);
            branch.below = between;
            (below, Tree::Fork(root))
        } else {
            let (between, above) = mem::replace(&mut branch.above, Tree::Empty).split(task);
            branch.above = between;
            (Tree::Fork(root), above)
        }
    }

    /// The tree with a task that is not in it.
    fn with(self, task: u32, link: Link) -> Tree
        requires rises { Rises (tasks_of self) }
        requires is_new { has (tasks_of self) task ≡ false }
        ensures tasks { tasks_of result ≡ with_task task (tasks_of self) }
    {
        let Tree::Fork(mut root) = self else {
            return link.forked(Tree::Empty, task, Tree::Empty);
        };
        let branch: &mut Branch = &mut root;
        if outranks(task, branch.task) {
            let (below, above) = Tree::Fork(root).split(task);
            link.forked(below, task, above)
        } else if task < branch.task {
            let below = mem::replace(&mut branch.below, Tree::Empty);
            branch.below = below.with(task, link);
            Tree::Fork(root)
        } else {
            let above = mem::replace(&mut branch.above, Tree::Empty);
            branch.above = above.with(task, link);
            Tree::Fork(root)
        }
    }

    /// The tree without a task that is in it, and the memory of the task.
    fn without(self, task: u32) -> (Tree, Link)
        requires rises { Rises (tasks_of self) }
        requires is_in { has (tasks_of self) task ≡ true }
        ensures tasks { tasks_of result.0 ≡ without_task task (tasks_of self) }
    {
        let Tree::Fork(mut root) = self else {
            unreachable!()
        };
        let branch: &mut Branch = &mut root;
        if task < branch.task {
            let (below, link) = mem::replace(&mut branch.below, Tree::Empty).without(task);
            branch.below = below;
            (Tree::Fork(root), link)
        } else if branch.task < task {
            let (above, link) = mem::replace(&mut branch.above, Tree::Empty).without(task);
            branch.above = above;
            (Tree::Fork(root), link)
        } else {
            let below = mem::replace(&mut branch.below, Tree::Empty);
            let above = mem::replace(&mut branch.above, Tree::Empty);
            (below.joined(above), Link { branch: root })
        }
    }
}

impl TaskSet {
    /// The empty set.
    pub fn new() -> TaskSet
        ensures { result ≡ [] }
    {
        TaskSet { tree: Tree::Empty }
    }

    /// The least task of the set.
    pub fn first(&self) -> Option<u32>
        ensures is_in { IfSome result (λ task. has self.now task ≡ true) }
        ensures least { IfSome result (λ task. (other : ℕ) → has self.now other ≡ true → task ≤ other) }
        ensures none { IfNone result (self.now ≡ []) }
    {
        self.tree.first()
    }

    /// The least task of the set above another.
    pub fn first_after(&self, from: u32) -> Option<u32>
        ensures some { IfSome result (λ task. IsFirstAfter self.now from task) }
        ensures none { IfNone result ((other : ℕ) → has self.now other ≡ true → other ≤ from) }
    {
        self.tree.first_after(from)
    }

    /// Adds a task that is not in the set.
    pub fn insert(&mut self, task: u32, link: Link)
        requires is_new { has self.old task ≡ false }
        ensures has { (other : ℕ) → has self.new other ≡ (nat_eq task other || has self.old other) }
        ensures length { length self.new ≡ suc (length self.old) }
    {
        let tree = mem::replace(&mut self.tree, Tree::Empty);
        self.tree = tree.with(task, link);
    }

    /// Takes out a task that is in the set. Its memory is given back.
    pub fn remove(&mut self, task: u32) -> Link
        requires is_in { has self.old task ≡ true }
        ensures has { (other : ℕ) → has self.new other ≡ (not (nat_eq task other) && has self.old other) }
        ensures length { length self.old ≡ suc (length self.new) }
    {
        let (tree, link) = mem::replace(&mut self.tree, Tree::Empty).without(task);
        self.tree = tree;
        link
    }
}
