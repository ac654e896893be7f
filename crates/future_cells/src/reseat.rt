//! Seats found anew: what gives the seats of cogs to their candidates once what is kept of the tasks has changed.
ghost use Rattle.std.specs.Prelude.{◌≡◌, ◌<◌, ◌≤◌, ◌^◌, true, length};
ghost use Rattle.future_cells.specs.Posts.{goes_in, is_going};
ghost use Rattle.future_cells.specs.Ready.{AreCandidates, IsCandidate};
ghost use Rattle.future_cells.specs.Reseats.{GoAtHome, GoAtHomeBut, IsReseated};
ghost use Rattle.future_cells.specs.Seats.{is_seated};
ghost use Rattle.future_cells.specs.Turns.{IsFirstOf};

use crate::candidates::Candidates;
use crate::posts::{Posts, Standing};

/// Whether a task that is so by itself goes.
fn goes(standing: Standing) -> bool
    ensures { result ≡ is_going standing }
{
    match standing {
        Standing::Goes => true,
        Standing::Waits(_) => false,
        Standing::Ended => false,
    }
}

/// Whether a task, if it is one, is in the cog and goes.
fn is_goer(posts: &Posts, cog: u32, task: u32) -> bool
    ensures { result ≡ goes_in posts.now.posts cog task }
{
    if task as usize >= posts.len() {
        return false;
    }
    let post = posts.at(task);
    post.cog == cog && goes(post.standing)
}

/// The task that is next, after the last one, of those of a cog that have an event, if one has.
fn candidate_of(posts: &Posts, holders: &[Option<u32>], last: u32, cog: u32) -> Option<u32>
    requires there { cog < length holders.now }
    requires cogs { posts.now.cogs ≡ length holders.now }
    ensures { IsCandidate posts.now.posts holders.now last cog result }
{
    match holders[cog as usize] {
        None => posts.goer(cog, last),
        Some(holder) => {
            if is_goer(posts, cog, holder) {
                Some(holder)
            } else {
                None
            }
        }
    }
}

/// Gives the seat of a cog to its candidate.
pub(crate) fn reseat(
    candidates: &mut Candidates,
    posts: &Posts,
    holders: &[Option<u32>],
    last: u32,
    cog: u32,
)
    requires there { cog < length holders.now }
    requires cogs { posts.now.cogs ≡ length holders.now }
    requires seats { length candidates.old.seats ≡ length holders.now }
    requires others { GoAtHomeBut cog posts.now.posts candidates.old.seats }
    ensures seats { IsReseated posts.now.posts holders.now last cog candidates.old.seats candidates.new.seats }
    ensures room { candidates.old.room ≤ candidates.new.room }
{
    let candidate = candidate_of(posts, holders, last, cog);
    candidates.seat(cog, candidate);
}

/// Gives the seat of each cog to its candidate.
fn reseat_all(
    candidates: &mut Candidates,
    posts: &Posts,
    holders: &[Option<u32>],
    last: u32,
    cogs: u32,
)
    requires all { cogs ≡ length holders.now }
    requires cogs { posts.now.cogs ≡ length holders.now }
    requires seats { length candidates.old.seats ≡ length holders.now }
    requires home { GoAtHome posts.now.posts candidates.old.seats }
    ensures candidates { AreCandidates posts.now.posts holders.now last candidates.new.seats }
    ensures room { candidates.old.room ≤ candidates.new.room }
{
    for cog in 0..cogs {
        reseat(candidates, posts, holders, last, cog);
    }
}

/// Whether a task is the first of the seated ones after the last one.
fn is_first(candidates: &Candidates, last: u32, task: u32) -> bool
    ensures { result ≡ true → IsFirstOf (is_seated candidates.now.seats) last task }
{
    match candidates.first(last) {
        Some(first) => first == task,
        None => false,
    }
}

/// Lets the candidates be the first ones after a task. It takes a few steps where the task is the first candidate,
/// and otherwise goes over the cogs.
pub(crate) fn turned(
    candidates: &mut Candidates,
    posts: &Posts,
    holders: &[Option<u32>],
    last: u32,
    task: u32,
)
    requires cogs { posts.now.cogs ≡ length holders.now }
    requires few { length holders.now < 2 ^ 32 }
    requires candidates { AreCandidates posts.now.posts holders.now last candidates.old.seats }
    ensures candidates { AreCandidates posts.now.posts holders.now task candidates.new.seats }
    ensures room { candidates.old.room ≤ candidates.new.room }
{
    if is_first(candidates, last, task) {
        let cog = posts.at(task).cog;
        reseat(candidates, posts, holders, task, cog);
        return;
    }
    reseat_all(candidates, posts, holders, task, holders.len() as u32);
}
