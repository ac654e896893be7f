//! The ready set: the tasks that have an event, with what is kept to change it.
ghost use Rattle.std.specs.Prelude.{◌≡◌, ◌≢◌, ◌<◌, ◌≤◌, ◌+◌, ◌^◌, [], ℕ, true, false, length, set, slice_get, Some, IfSome, IfNone, OnOk};
ghost use Rattle.future_cells.specs.Posts.{waits_for};
ghost use Rattle.future_cells.specs.Ready.{able_tasks, holders_with, is_free_able, posts_with};
ghost use Rattle.future_cells.specs.TaskSets.{has};
ghost use Rattle.future_cells.specs.Turns.{IsFirstOf};
ghost use Rattle.future_cells.specs.declared.posts.Post.{Post as TaskPost};
ghost use Rattle.future_cells.specs.declared.posts.Standing.TheVariants.{Ended, Waits};

use crate::candidates::Candidates;
use crate::growth::{add_cog, make_room, take_link};
use crate::posts::{Posts, Standing};
use crate::reseat::{reseat, turned};
use crate::search::{has_event, next_by_index, next_seated};
use crate::task_set::Link;
use std::alloc::{AllocError, Global};
use std::marker::Model;

/// The tasks that have an event in a configuration. Contracts see their list, how many more events there is room for,
/// and what is kept with it.
#[derive(Drop)]
pub struct Ready {
    /// Where further memory comes from.
    alloc: Global,
    posts: Posts,
    /// By cog.
    holders: Vec<Option<u32>>,
    candidates: Candidates,
    /// The memory of further tasks and cogs.
    links: Vec<Link>,
    /// The task of the last event. Candidates are the first ones after it.
    last: u32,
    /// How many more events there is room for.
    spare: u64,
}

impl Model for Ready {
    ghost use Rattle.std.specs.Prelude.{◌≡◌, ◌≤◌, ◌<◌, ◌+◌, ◌*◌, ◌^◌, length, vec_len, vec_capacity};
    ghost use Rattle.future_cells.specs.Ready.{AreCandidates, KeptReady, able_tasks};

    ghost Value = { KeptReady };

    ghost view = { λ r. record {
      tasks = able_tasks r.posts.posts r.holders.items;
      spare = r.spare;
      posts = r.posts.posts;
      holders = r.holders.items;
      last = r.last;
    } };

    ghost invariant = { λ r. AreCandidates r.posts.posts r.holders.items r.last r.candidates.seats
        × (r.posts.cogs ≡ length r.holders.items)
        × (length r.posts.posts ≤ 2 ^ 32) × (length r.holders.items < 2 ^ 32)
        × (r.spare ≤ r.posts.task_room) × (r.spare ≤ r.posts.cog_room) × (r.spare ≤ r.candidates.room)
        × (vec_len r.holders + r.spare ≤ vec_capacity r.holders) × (2 * r.spare ≤ vec_len r.links) };
}

impl Ready {
    /// No task, and no cog.
    pub(crate) fn new(alloc: Global) -> Ready
        ensures posts { result.posts ≡ [] }
        ensures holders { result.holders ≡ [] }
    {
        Ready {
            alloc,
            posts: Posts::new(alloc),
            holders: Vec::new(alloc),
            candidates: Candidates::new(alloc),
            links: Vec::new(alloc),
            last: 0,
            spare: 0,
        }
    }

    /// Makes room for this many further events, so that [`Ready::after`] takes no memory. Nothing else changes.
    ///
    /// # Errors
    /// [`AllocError`] if memory runs out. What is seen of the set is as it was then.
    pub fn reserve(&mut self, room: u64) -> Result<(), AllocError>
        ensures room { OnOk result (room ≤ self.new.spare) }
        ensures rest { self.new ≡ record self.old { spare = self.new.spare } }
        ensures stays { self.old.spare ≤ self.new.spare }
    {
        if self.spare < room {
            make_room(
                self.alloc,
                &mut self.posts,
                &mut self.holders,
                &mut self.candidates,
                &mut self.links,
                room as usize,
            )?;
            self.spare = room;
        }
        Ok(())
    }

    /// Adds a cog, if an event makes one, and then a task that goes in this cog, if it makes one.
    pub(crate) fn grow(&mut self, new_cog: bool, home: Option<u32>)
        requires room { 1 ≤ self.old.spare }
        requires home_there { (cog : ℕ) → home ≡ Some cog → cog < length (holders_with new_cog self.old.holders) }
        requires few { length (posts_with home self.old.posts) ≤ 2 ^ 32 }
        requires few_cogs { new_cog ≡ true → length self.old.holders + 1 < 2 ^ 32 }
        ensures posts { self.new.posts ≡ posts_with home self.old.posts }
        ensures holders { self.new.holders ≡ holders_with new_cog self.old.holders }
        ensures last { self.new.last ≡ self.old.last }
        ensures spare { self.old.spare ≤ self.new.spare + 1 }
    {
        if !new_cog && home.is_none() {
            return;
        }
        self.spare -= 1;
        add_cog(
            &mut self.posts,
            &mut self.holders,
            &mut self.candidates,
            &mut self.links,
            new_cog,
        );
        let Some(cog) = home else {
            return;
        };
        let link = take_link(&mut self.links);
        self.posts.push_task(cog, link);
        reseat(
            &mut self.candidates,
            &self.posts,
            &self.holders,
            self.last,
            cog,
        );
    }

    /// What is kept gives the list.
    pub(crate) fn tell(&self)
        ensures { self.now.tasks ≡ able_tasks self.now.posts self.now.holders }
    {
        let _ = &self.posts;
    }

    /// The number of tasks.
    pub(crate) fn task_count(&self) -> usize
        ensures { result ≡ length self.now.posts }
    {
        self.posts.len()
    }

    /// The number of cogs.
    pub(crate) fn cog_count(&self) -> usize
        ensures { result ≡ length self.now.holders }
    {
        self.holders.len()
    }

    /// Changes what a task that has no result is by itself.
    pub(crate) fn stand(&mut self, task: u32, standing: Standing)
        requires there { task < length self.old.posts }
        requires open { (post : TaskPost) → slice_get self.old.posts task ≡ Some post → post.standing ≢ Ended }
        requires future_there { (future : ℕ) → standing ≡ Waits future → future < length self.old.posts }
        ensures posts { (post : TaskPost) → slice_get self.old.posts task ≡ Some post
            → self.new.posts ≡ set self.old.posts task (record post { standing = standing }) }
        ensures holders { self.new.holders ≡ self.old.holders }
        ensures last { self.new.last ≡ self.old.last }
        ensures spare { self.old.spare ≤ self.new.spare }
    {
        let before = self.posts.at(task);
        if before.standing == standing {
            return;
        }
        let cog = before.cog;
        self.posts.stand(task, standing);
        reseat(
            &mut self.candidates,
            &self.posts,
            &self.holders,
            self.last,
            cog,
        );
    }

    /// Changes the holder of a cog.
    pub(crate) fn hold(&mut self, cog: u32, holder: Option<u32>)
        requires there { cog < length self.old.holders }
        ensures posts { self.new.posts ≡ self.old.posts }
        ensures holders { self.new.holders ≡ set self.old.holders cog holder }
        ensures last { self.new.last ≡ self.old.last }
        ensures spare { self.old.spare ≤ self.new.spare }
    {
        if self.holders[cog as usize] == holder {
            return;
        }
        self.holders[cog as usize] = holder;
        reseat(
            &mut self.candidates,
            &self.posts,
            &self.holders,
            self.last,
            cog,
        );
    }

    /// Lets a task be that of the last event. It takes a few steps where this task is the next one after that of the
    /// event before, and otherwise goes over the cogs.
    pub(crate) fn turn(&mut self, task: u32)
        ensures tasks { self.new.tasks ≡ self.old.tasks }
        ensures posts { self.new.posts ≡ self.old.posts }
        ensures holders { self.new.holders ≡ self.old.holders }
        ensures last { self.new.last ≡ task }
        ensures spare { self.old.spare ≤ self.new.spare }
    {
        if task != self.last {
            turned(
                &mut self.candidates,
                &self.posts,
                &self.holders,
                self.last,
                task,
            );
            self.last = task;
        }
    }

    /// A task that waits for the task of a future.
    pub(crate) fn waiter(&self, future: u32) -> Option<u32>
        requires { future < length self.now.posts }
        ensures some { IfSome result (λ task. waits_for self.now.posts future task ≡ true) }
        ensures none { IfNone result ((task : ℕ) → waits_for self.now.posts future task ≡ false) }
    {
        self.posts.waiter(future)
    }

    /// The first task of the list after another one, going round. That one itself comes last. It takes a few steps
    /// where the other one is the task of the last event, and otherwise goes over the tasks.
    pub fn next(&self, from: u32) -> Option<u32>
        ensures some { IfSome result (λ task. IsFirstOf (has self.now.tasks) from task) }
        ensures none { IfNone result (self.now.tasks ≡ []) }
    {
        // The proof sees here that the list has no task beyond the posts.
        let _ = &self.posts;
        self.next_free(from, &[])
    }

    /// Whether a task has an event.
    pub fn contains(&self, task: u32) -> bool
        ensures { result ≡ has self.now.tasks task }
    {
        has_event(&self.posts, &self.holders, task)
    }

    /// The first task of the list after another one, going round, whose cog is not busy. A cog is busy where the entry
    /// with its index says so; one without an entry is not.
    pub fn next_free(&self, from: u32, busy: &[bool]) -> Option<u32>
        ensures some { IfSome result (λ task. IsFirstOf (is_free_able self.now busy.now) from task) }
        ensures none { IfNone result ((task : ℕ) → is_free_able self.now busy.now task ≡ false) }
    {
        if from == self.last {
            next_seated(&self.posts, &self.candidates, from, busy)
        } else {
            next_by_index(&self.posts, &self.holders, from, busy)
        }
    }
}
