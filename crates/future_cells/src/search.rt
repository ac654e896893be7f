//! The search for the next task, over what the ready set keeps: by the seats of the cogs, in a few steps from the task
//! of the last event on, or by index, from any task on.
ghost use Rattle.std.specs.Prelude.{◌≡◌, ◌≤◌, ◌<◌, ◌^◌, ℕ, true, false, length, slice_get, IfSome, IfNone};
ghost use Rattle.future_cells.specs.Ready.{is_able, is_busy, is_free_for, is_idle_by};
ghost use Rattle.future_cells.specs.Search.{HasNoneWithin, IsFirstWithin, is_idle_able, is_idle_seated};
ghost use Rattle.future_cells.specs.Seats.{is_seated};
ghost use Rattle.future_cells.specs.Turns.{IsFirstOf};

use crate::candidates::Candidates;
use crate::posts::{Posts, Standing};

/// The first seated task after another one, going round, whose cog is not busy. It tries each seated task at most once.
pub(crate) fn next_seated(
    posts: &Posts,
    candidates: &Candidates,
    from: u32,
    busy: &[bool],
) -> Option<u32>
    requires few { length posts.now.posts ≤ 2 ^ 32 }
    ensures some { IfSome result
        (λ task. IsFirstOf (is_idle_seated posts.now.posts candidates.now.seats busy.now) from task) }
    ensures none { IfNone result
        ((task : ℕ) → is_idle_seated posts.now.posts candidates.now.seats busy.now task ≡ false) }
{
    let count = posts.len() as u64;
    let after = u64::from(from) + 1;
    match idle_seated_within(posts, candidates, busy, after, count) {
        Some(task) => Some(task),
        None => idle_seated_within(posts, candidates, busy, 0, after.min(count)),
    }
}

/// The first task after another one, going round, that has an event and whose cog is not busy. It goes over the tasks.
pub(crate) fn next_by_index(
    posts: &Posts,
    holders: &[Option<u32>],
    from: u32,
    busy: &[bool],
) -> Option<u32>
    requires few { length posts.now.posts ≤ 2 ^ 32 }
    ensures some { IfSome result (λ task. IsFirstOf (is_idle_able posts.now.posts holders.now busy.now) from task) }
    ensures none { IfNone result ((task : ℕ) → is_idle_able posts.now.posts holders.now busy.now task ≡ false) }
{
    let count = posts.len() as u64;
    let after = u64::from(from) + 1;
    match idle_able_within(posts, holders, busy, after, count) {
        Some(task) => Some(task),
        None => idle_able_within(posts, holders, busy, 0, after.min(count)),
    }
}

/// The first seated task from one on and before another whose cog is not busy.
fn idle_seated_within(
    posts: &Posts,
    candidates: &Candidates,
    busy: &[bool],
    from: u64,
    to: u64,
) -> Option<u32>
    requires small { to ≤ 2 ^ 32 }
    ensures some { IfSome result
        (λ task. IsFirstWithin (is_idle_seated posts.now.posts candidates.now.seats busy.now) from to task) }
    ensures none { IfNone result
        (HasNoneWithin (is_idle_seated posts.now.posts candidates.now.seats busy.now) from to) }
{
    let mut at = from;
    while at < to {
        let Some(task) = seated_within(candidates, at, to) else {
            return None;
        };
        if has_idle_cog(posts, busy, task) {
            return Some(task);
        }
        at = u64::from(task) + 1;
    }
    None
}

/// The first seated task from one on and before another.
fn seated_within(candidates: &Candidates, from: u64, to: u64) -> Option<u32>
    requires ordered { from < to }
    requires small { to ≤ 2 ^ 32 }
    ensures some { IfSome result (λ task. IsFirstWithin (is_seated candidates.now.seats) from to task) }
    ensures none { IfNone result (HasNoneWithin (is_seated candidates.now.seats) from to) }
{
    let last = if from == 0 {
        u32::MAX
    } else {
        (from - 1) as u32
    };
    match candidates.first(last) {
        Some(task) if from <= u64::from(task) && u64::from(task) < to => Some(task),
        _ => None,
    }
}

/// The first task from one on and before another that has an event and whose cog is not busy.
fn idle_able_within(
    posts: &Posts,
    holders: &[Option<u32>],
    busy: &[bool],
    from: u64,
    to: u64,
) -> Option<u32>
    requires small { to ≤ 2 ^ 32 }
    ensures some { IfSome result
        (λ task. IsFirstWithin (is_idle_able posts.now.posts holders.now busy.now) from to task) }
    ensures none { IfNone result (HasNoneWithin (is_idle_able posts.now.posts holders.now busy.now) from to) }
{
    for task in from..to {
        let task = task as u32;
        if has_event(posts, holders, task) && has_idle_cog(posts, busy, task) {
            return Some(task);
        }
    }
    None
}

/// Whether a task goes while nobody else holds its cog.
pub(crate) fn has_event(posts: &Posts, holders: &[Option<u32>], task: u32) -> bool
    ensures { result ≡ is_able posts.now.posts holders.now task }
{
    if posts.len() <= task as usize {
        return false;
    }
    let post = posts.at(task);
    match post.standing {
        Standing::Goes => is_free(holders, post.cog, task),
        Standing::Waits(_) | Standing::Ended => false,
    }
}

/// Whether there is a cog with this index, and nobody else than the task holds it.
fn is_free(holders: &[Option<u32>], cog: u32, task: u32) -> bool
    ensures { result ≡ is_free_for task (slice_get holders.now cog) }
{
    match holders.get(cog as usize) {
        Some(Some(holder)) => *holder == task,
        Some(None) => true,
        None => false,
    }
}

/// Whether there is a task with this index, and its cog is not busy.
fn has_idle_cog(posts: &Posts, busy: &[bool], task: u32) -> bool
    ensures { result ≡ is_idle_by busy.now (slice_get posts.now.posts task) }
{
    if posts.len() <= task as usize {
        return false;
    }
    !is_cog_busy(busy, posts.at(task).cog)
}

/// Whether a cog is busy. One without an entry is not.
fn is_cog_busy(busy: &[bool], cog: u32) -> bool
    ensures { result ≡ is_busy (slice_get busy.now cog) }
{
    match busy.get(cog as usize) {
        Some(entry) => *entry,
        None => false,
    }
}
