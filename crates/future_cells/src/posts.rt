//! The posts of the tasks: what each is by itself. For each cog there is the set of the tasks that go in it, and for
//! each task the set of those that wait for it.
ghost use Rattle.std.specs.Prelude.{◌≡◌, ◌≢◌, ◌<◌, ◌≤◌, ◌+◌, ◌++◌, ◌^◌, ◌∷◌, [], ◌&&◌, ◌||◌, ℕ, true, false, not, nat_eq, length, set, slice_get, Some, IfSome, IfNone, OnOk};
ghost use Rattle.future_cells.specs.Posts.{goes_by, goes_in, waits_by, waits_for};
ghost use Rattle.future_cells.specs.SetLists.{has_at};
ghost use Rattle.future_cells.specs.Turns.{IsFirstOf};
ghost use Rattle.future_cells.specs.declared.posts.Standing.TheVariants.{Ended, Goes, Waits};

use crate::set_lists::{insert_at, remove_at};
use crate::task_set::{Link, TaskSet};
use crate::turns::first_going_round;
use std::alloc::{AllocError, Global};
use std::marker::Model;

/// What a task is by itself.
#[derive(Clone, Copy, Debug, PartialEq, Eq)]
pub enum Standing {
    /// It has a result.
    Ended,
    /// Its next statement names this future, which is unresolved, and it has no event before that is resolved.
    Waits(u32),
    /// It has an event while nobody else holds its cog.
    Goes,
}

/// What is kept of a task: its cog, and what it is by itself.
#[derive(Clone, Copy, Debug, PartialEq, Eq)]
pub struct Post {
    pub cog: u32,
    pub standing: Standing,
}

/// The posts of all tasks, with the sets of the tasks that go and of those that wait. Each task that has no result is
/// in just one of these.
#[derive(Drop)]
pub(crate) struct Posts {
    items: Vec<Post>,
    /// By cog.
    goers: Vec<TaskSet>,
    /// By task.
    waiters: Vec<TaskSet>,
}

impl Model for Posts {
    ghost use Rattle.std.specs.Prelude.{◌-◌, length, min, vec_len, vec_capacity};
    ghost use Rattle.future_cells.specs.Posts.{AreFiled, KeptPosts};

    ghost Value = { KeptPosts };

    ghost view = { λ p. record {
      posts = p.items.items;
      cogs = length p.goers.items;
      task_room = min (vec_capacity p.items - vec_len p.items) (vec_capacity p.waiters - vec_len p.waiters);
      cog_room = vec_capacity p.goers - vec_len p.goers;
    } };

    ghost invariant = { λ p. AreFiled p.items.items p.goers.items p.waiters.items };
}

impl Posts {
    /// No task, and no cog.
    pub fn new(alloc: Global) -> Posts
        ensures posts { result.posts ≡ [] }
        ensures cogs { result.cogs ≡ 0 }
    {
        Posts {
            items: Vec::new(alloc),
            goers: Vec::new(alloc),
            waiters: Vec::new(alloc),
        }
    }

    /// Makes room for this many further tasks and cogs.
    ///
    /// # Errors
    /// [`AllocError`] if memory runs out. Nothing is lost then.
    pub fn reserve(&mut self, room: usize) -> Result<(), AllocError>
        ensures posts { self.new.posts ≡ self.old.posts }
        ensures cogs { self.new.cogs ≡ self.old.cogs }
        ensures task_room { OnOk result (room ≤ self.new.task_room) }
        ensures cog_room { OnOk result (room ≤ self.new.cog_room) }
        ensures task_room_stays { self.old.task_room ≤ self.new.task_room }
        ensures cog_room_stays { self.old.cog_room ≤ self.new.cog_room }
    {
        self.items.reserve(room)?;
        self.waiters.reserve(room)?;
        self.goers.reserve(room)
    }

    /// The number of tasks.
    pub fn len(&self) -> usize
        ensures { result ≡ length self.now.posts }
    {
        self.items.len()
    }

    /// The post of a task.
    pub fn at(&self, task: u32) -> Post
        requires { task < length self.now.posts }
        ensures post { slice_get self.now.posts task ≡ Some result }
        ensures cog { result.cog < self.now.cogs }
    {
        self.items[task as usize]
    }

    /// Adds a cog without tasks.
    pub fn push_cog(&mut self)
        requires room { 1 ≤ self.old.cog_room }
        ensures posts { self.new.posts ≡ self.old.posts }
        ensures cogs { self.new.cogs ≡ self.old.cogs + 1 }
        ensures no_goers { (task : ℕ) → goes_in self.new.posts self.old.cogs task ≡ false }
        ensures task_room { self.old.task_room ≤ self.new.task_room }
        ensures cog_room { self.old.cog_room ≤ self.new.cog_room + 1 }
    {
        self.goers.push_reserved(TaskSet::new());
    }

    /// Adds a task that goes in a cog.
    pub fn push_task(&mut self, cog: u32, link: Link)
        requires room { 1 ≤ self.old.task_room }
        requires cog { cog < self.old.cogs }
        requires few { length self.old.posts < 2 ^ 32 }
        ensures posts { self.new.posts ≡ self.old.posts ++ record { cog = cog; standing = Goes } ∷ [] }
        ensures cogs { self.new.cogs ≡ self.old.cogs }
        ensures task_room { self.old.task_room ≤ self.new.task_room + 1 }
        ensures cog_room { self.old.cog_room ≤ self.new.cog_room }
    {
        let task = self.items.len() as u32;
        let post = Post {
            cog,
            standing: Standing::Goes,
        };
        self.waiters.push_reserved(TaskSet::new());
        enter(&mut self.goers, &mut self.waiters, task, post, link);
        self.items.push_reserved(post);
    }

    /// Changes what a task that has no result is by itself.
    pub fn stand(&mut self, task: u32, standing: Standing)
        requires open { IfSome (slice_get self.old.posts task) (λ post. post.standing ≢ Ended) }
        requires there { task < length self.old.posts }
        requires future_there { (future : ℕ) → standing ≡ Waits future → future < length self.old.posts }
        ensures posts { IfSome (slice_get self.old.posts task)
            (λ post. self.new.posts ≡ set self.old.posts task (record { cog = post.cog; standing = standing })) }
        ensures cogs { self.new.cogs ≡ self.old.cogs }
        ensures task_room { self.old.task_room ≤ self.new.task_room }
        ensures cog_room { self.old.cog_room ≤ self.new.cog_room }
    {
        let before = self.items[task as usize];
        if before.standing != standing {
            let now = Post {
                cog: before.cog,
                standing,
            };
            change(&mut self.goers, &mut self.waiters, task, before, now);
            self.items[task as usize] = now;
        }
    }

    /// A task that waits for the task of a future.
    pub fn waiter(&self, future: u32) -> Option<u32>
        requires { future < length self.now.posts }
        ensures some { IfSome result (λ task. waits_for self.now.posts future task ≡ true) }
        ensures none { IfNone result ((task : ℕ) → waits_for self.now.posts future task ≡ false) }
    {
        self.waiters[future as usize].first()
    }

    /// Of the tasks that go in a cog, the first after another one, going round.
    pub fn goer(&self, cog: u32, last: u32) -> Option<u32>
        requires { cog < self.now.cogs }
        ensures some { IfSome result (λ task. IsFirstOf (goes_in self.now.posts cog) last task) }
        ensures none { IfNone result ((task : ℕ) → goes_in self.now.posts cog task ≡ false) }
    {
        first_going_round(&self.goers[cog as usize], last)
    }
}

/// Moves a task from the set that its post before puts it into to that of its post now, if this one puts it into a set.
fn change(goers: &mut [TaskSet], waiters: &mut [TaskSet], task: u32, before: Post, now: Post)
    requires open { before.standing ≢ Ended }
    requires goers { (cog : ℕ) → has_at goers.old cog task ≡ goes_by cog (Some before) }
    requires waiters { (future : ℕ) → has_at waiters.old future task ≡ waits_by future (Some before) }
    requires cog_there { now.cog < length goers.old }
    requires future_there { (future : ℕ) → now.standing ≡ Waits future → future < length waiters.old }
    ensures goers_length { length goers.new ≡ length goers.old }
    ensures waiters_length { length waiters.new ≡ length waiters.old }
    ensures goers { (cog other : ℕ) → has_at goers.new cog other
        ≡ ((nat_eq task other && goes_by cog (Some now))
        || (not (nat_eq task other && goes_by cog (Some before)) && has_at goers.old cog other)) }
    ensures waiters { (future other : ℕ) → has_at waiters.new future other
        ≡ ((nat_eq task other && waits_by future (Some now))
        || (not (nat_eq task other && waits_by future (Some before)) && has_at waiters.old future other)) }
{
    let link = leave(goers, waiters, task, before);
    enter(goers, waiters, task, now, link);
}

/// Takes a task out of the set that its post puts it into. Its memory is given back.
fn leave(goers: &mut [TaskSet], waiters: &mut [TaskSet], task: u32, post: Post) -> Link
    requires open { post.standing ≢ Ended }
    requires goers { (cog : ℕ) → has_at goers.old cog task ≡ goes_by cog (Some post) }
    requires waiters { (future : ℕ) → has_at waiters.old future task ≡ waits_by future (Some post) }
    ensures goers_length { length goers.new ≡ length goers.old }
    ensures waiters_length { length waiters.new ≡ length waiters.old }
    ensures goers { (cog other : ℕ) → has_at goers.new cog other
        ≡ (not (nat_eq task other && goes_by cog (Some post)) && has_at goers.old cog other) }
    ensures waiters { (future other : ℕ) → has_at waiters.new future other
        ≡ (not (nat_eq task other && waits_by future (Some post)) && has_at waiters.old future other) }
{
    match post.standing {
        Standing::Goes => remove_at(goers, post.cog as usize, task),
        Standing::Waits(future) => remove_at(waiters, future as usize, task),
        Standing::Ended => unreachable!(),
    }
}

/// Puts a task into the set that its post puts it into, if it puts it into one.
fn enter(goers: &mut [TaskSet], waiters: &mut [TaskSet], task: u32, post: Post, link: Link)
    requires cog_there { post.cog < length goers.old }
    requires future_there { (future : ℕ) → post.standing ≡ Waits future → future < length waiters.old }
    requires goers { (cog : ℕ) → has_at goers.old cog task ≡ false }
    requires waiters { (future : ℕ) → has_at waiters.old future task ≡ false }
    ensures goers_length { length goers.new ≡ length goers.old }
    ensures waiters_length { length waiters.new ≡ length waiters.old }
    ensures goers { (cog other : ℕ) → has_at goers.new cog other
        ≡ ((nat_eq task other && goes_by cog (Some post)) || has_at goers.old cog other) }
    ensures waiters { (future other : ℕ) → has_at waiters.new future other
        ≡ ((nat_eq task other && waits_by future (Some post)) || has_at waiters.old future other) }
{
    match post.standing {
        Standing::Goes => insert_at(goers, post.cog as usize, task, link),
        Standing::Waits(future) => insert_at(waiters, future as usize, task, link),
        Standing::Ended => {}
    }
}
