//! The ready set of a configuration, and how it follows events.
ghost use Rattle.std.specs.Prelude.{◌≡◌, ◌≢◌, ◌<◌, ◌≤◌, ◌+◌, ◌^◌, [], ℕ, length, map, slice_get, Some, IfOk, MatchBool};
ghost use Rattle.std.specs.Option.{option_map};
ghost use Rattle.abs_program.specs.NamedViews.{program_tree};
ghost use Rattle.config_state.specs.ConfigViews.{configuration};
ghost use Rattle.config_state.specs.Configurations.{TaskState};
ghost use Rattle.config_state.specs.OfProgram.{IsConfigOf};
ghost use Rattle.future_cells.specs.Following.{AgreesBut, Follows, going_posts};
ghost use Rattle.future_cells.specs.Standings.{IsStanding, StandsFor, holders_of};
ghost use Rattle.future_cells.specs.TaskEvents.{HasMoved};
ghost use Rattle.step_rules.specs.declared.kind.Did.TheVariants.{Finished};
ghost use Rattle.future_cells.specs.declared.posts.Standing.TheVariants.{Goes, Waits};

use crate::posts::Standing;
use crate::ready::Ready;
use abs_program::Named;
use config_state::Config;
use std::alloc::{AllocError, Global};
use step_rules::{Did, waited_future};

/// What a task is by itself.
fn standing_of(program: &Named<'_>, config: &Config, task: u32) -> Standing
    requires of_program { ∥ IsConfigOf (program_tree program.now) (configuration program.now.symbols config.now) ∥₁ }
    requires there { task < length config.now.tasks }
    ensures standing { (state : TaskState)
        → slice_get (configuration program.now.symbols config.now).tasks task ≡ Some state
        → IsStanding (program_tree program.now) (configuration program.now.symbols config.now) state result }
    ensures future_there { (future : ℕ) → result ≡ Waits future → future < length config.now.tasks }
{
    if config.tasks.at(task as usize).outcome.is_some() {
        return Standing::Ended;
    }
    match waited_future(program, config, task) {
        Some(future) => Standing::Waits(future),
        None => Standing::Goes,
    }
}

impl Ready {
    /// The ready set of a configuration.
    ///
    /// # Errors
    /// [`AllocError`] if memory runs out.
    pub fn build(alloc: Global, program: &Named<'_>, config: &Config) -> Result<Ready, AllocError>
        requires of_program { ∥ IsConfigOf (program_tree program.now)
            (configuration program.now.symbols config.now) ∥₁ }
        ensures { IfOk result (λ ready. ∥ StandsFor (program_tree program.now)
            (configuration program.now.symbols config.now) ready ∥₁) }
    {
        let mut ready = Ready::new(alloc);
        ready.reserve(config.cogs.len() as u64 + config.tasks.len() as u64)?;
        ready.add_cogs(config);
        ready.add_tasks(config);
        ready.stand_all(program, config);
        Ok(ready)
    }

    /// Adds the cogs of a configuration, with their holders.
    fn add_cogs(&mut self, config: &Config)
        requires none { self.old.holders ≡ [] }
        requires few { length self.old.posts ≤ 2 ^ 32 }
        requires room { length config.now.cogs ≤ self.old.spare }
        ensures posts { self.new.posts ≡ self.old.posts }
        ensures holders { self.new.holders ≡ holders_of config.now.cogs }
        ensures spare { self.old.spare ≤ self.new.spare + length config.now.cogs }
    {
        for cog in 0..config.cogs.len() as u32 {
            self.grow(true, None);
            self.hold(cog, config.cogs.at(cog as usize).holder);
        }
    }

    /// Adds the tasks of a configuration, as if all went.
    fn add_tasks(&mut self, config: &Config)
        requires none { self.old.posts ≡ [] }
        requires holders { self.old.holders ≡ holders_of config.now.cogs }
        requires room { length config.now.tasks ≤ self.old.spare }
        ensures posts { self.new.posts ≡ going_posts config.now.tasks }
        ensures holders { self.new.holders ≡ self.old.holders }
    {
        for task in 0..config.tasks.len() as u32 {
            self.grow(false, Some(config.tasks.at(task as usize).cog));
        }
    }

    /// Lets each task be what it is by itself.
    fn stand_all(&mut self, program: &Named<'_>, config: &Config)
        requires of_program { ∥ IsConfigOf (program_tree program.now)
            (configuration program.now.symbols config.now) ∥₁ }
        requires posts { self.old.posts ≡ going_posts config.now.tasks }
        requires holders { self.old.holders ≡ holders_of config.now.cogs }
        ensures { ∥ StandsFor (program_tree program.now) (configuration program.now.symbols config.now) self.new ∥₁ }
    {
        for task in 0..config.tasks.len() as u32 {
            self.stand(task, standing_of(program, config, task));
        }
        self.tell();
    }

    /// Follows an event of a task, or several of which all but the last are local: given the configuration after it,
    /// and what the last one did. It takes no memory.
    pub fn after(&mut self, program: &Named<'_>, config: &Config, task: u32, did: &Did)
        requires of_program { ∥ IsConfigOf (program_tree program.now)
            (configuration program.now.symbols config.now) ∥₁ }
        requires room { 1 ≤ self.old.spare }
        requires moved { ∥ HasMoved (program_tree program.now) (configuration program.now.symbols config.now) task
            did.now self.old ∥₁ }
        ensures stands { ∥ StandsFor (program_tree program.now) (configuration program.now.symbols config.now)
            self.new ∥₁ }
        ensures spare { self.old.spare ≤ self.new.spare + 1 }
    {
        self.turn(task);
        self.follow(program, config, task, did);
        if is_finished(did) {
            self.wake(program, config, task);
        }
        self.tell();
    }

    /// Follows events of a task, but for the tasks that waited for it.
    fn follow(&mut self, program: &Named<'_>, config: &Config, task: u32, did: &Did)
        requires of_program { ∥ IsConfigOf (program_tree program.now)
            (configuration program.now.symbols config.now) ∥₁ }
        requires room { 1 ≤ self.old.spare }
        requires moved { ∥ HasMoved (program_tree program.now) (configuration program.now.symbols config.now) task
            did.now self.old ∥₁ }
        ensures follows { ∥ Follows (program_tree program.now) (configuration program.now.symbols config.now) task
            did.now self.new ∥₁ }
        ensures spare { self.old.spare ≤ self.new.spare + 1 }
    {
        let home = new_home(config, self.task_count());
        self.grow(config.cogs.len() > self.cog_count(), home);
        self.stand(task, standing_of(program, config, task));
        let cog = config.tasks.at(task as usize).cog;
        self.hold(cog, config.cogs.at(cog as usize).holder);
    }

    /// Lets each task that waited for one that has ended be what it is now.
    fn wake(&mut self, program: &Named<'_>, config: &Config, ended: u32)
        requires of_program { ∥ IsConfigOf (program_tree program.now)
            (configuration program.now.symbols config.now) ∥₁ }
        requires agrees { ∥ AgreesBut (program_tree program.now) (configuration program.now.symbols config.now) ended
            self.old ∥₁ }
        ensures stands { ∥ StandsFor (program_tree program.now) (configuration program.now.symbols config.now)
            self.new ∥₁ }
        ensures spare { self.old.spare ≤ self.new.spare }
    {
        while let Some(waiter) = self.waiter(ended) {
            self.stand(waiter, standing_of(program, config, waiter));
        }
        self.tell();
    }
}

/// The cog of the task with an index, if there is one.
fn new_home(config: &Config, index: usize) -> Option<u32>
    ensures home { result ≡ option_map (λ task. task.cog) (slice_get config.now.tasks index) }
    ensures few { length config.now.tasks < 2 ^ 32 }
{
    if index < config.tasks.len() {
        Some(config.tasks.at(index).cog)
    } else {
        None
    }
}

/// Whether a task got its result.
fn is_finished(did: &Did) -> bool
    ensures { MatchBool result (did.now ≡ Finished) (did.now ≢ Finished) }
{
    match did {
        Did::Finished => true,
        Did::Took | Did::Went | Did::Made | Did::Called | Did::Printed | Did::Released => false,
    }
}
