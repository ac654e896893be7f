//! The growth of the ready set: memory is made ready first, and then cogs are added without taking any.
ghost use Rattle.std.specs.Prelude.{◌≡◌, ◌<◌, ◌≤◌, ◌+◌, ◌*◌, ℕ, length, vec_len, vec_capacity, OnOk};
ghost use Rattle.future_cells.specs.Ready.{AreCandidates, holders_with};

use crate::candidates::Candidates;
use crate::posts::Posts;
use crate::task_set::Link;
use std::alloc::{AllocError, Global};

/// Takes out the memory for one task.
pub(crate) fn take_link(links: &mut Vec<Link>) -> Link
    requires { 1 ≤ vec_len links.old }
    ensures { vec_len links.new + 1 ≡ vec_len links.old }
{
    match links.pop() {
        Some(link) => link,
        None => unreachable!(),
    }
}

/// Adds a cog without tasks, if an event makes one. Nobody holds it.
pub(crate) fn add_cog(
    posts: &mut Posts,
    holders: &mut Vec<Option<u32>>,
    candidates: &mut Candidates,
    links: &mut Vec<Link>,
    new_cog: bool,
)
    requires cogs { posts.old.cogs ≡ length holders.old.items }
    requires cog_room { 1 ≤ posts.old.cog_room }
    requires holder_room { vec_len holders.old < vec_capacity holders.old }
    requires seat_room { 1 ≤ candidates.old.room }
    requires link_there { 1 ≤ vec_len links.old }
    ensures posts { posts.new.posts ≡ posts.old.posts }
    ensures cogs { posts.new.cogs ≡ length holders.new.items }
    ensures holders { holders.new.items ≡ holders_with new_cog holders.old.items }
    ensures candidates { (last : ℕ) → AreCandidates posts.old.posts holders.old.items last candidates.old.seats
        → AreCandidates posts.new.posts holders.new.items last candidates.new.seats }
    ensures task_room { posts.old.task_room ≤ posts.new.task_room }
    ensures cog_room { posts.old.cog_room ≤ posts.new.cog_room + 1 }
    ensures one_holder { vec_len holders.new ≤ vec_len holders.old + 1 }
    ensures capacity { vec_capacity holders.old ≤ vec_capacity holders.new }
    ensures seat_room { candidates.old.room ≤ candidates.new.room + 1 }
    ensures one_link { vec_len links.old ≤ vec_len links.new + 1 }
{
    if !new_cog {
        return;
    }
    let link = take_link(links);
    posts.push_cog();
    holders.push_reserved(None);
    candidates.push(link);
}

/// Makes memory for tasks, until there is some for this many.
fn fill_links(alloc: Global, links: &mut Vec<Link>, count: usize) -> Result<(), AllocError>
    ensures filled { OnOk result (count ≤ vec_len links.new) }
    ensures stays { vec_len links.old ≤ vec_len links.new }
{
    while links.len() < count {
        links.push(Link::new(alloc)?)?;
    }
    Ok(())
}

/// Makes room for this many further events, each of which adds at most a cog and a task.
///
/// # Errors
/// [`AllocError`] if memory runs out. Nothing is lost then.
pub(crate) fn make_room(
    alloc: Global,
    posts: &mut Posts,
    holders: &mut Vec<Option<u32>>,
    candidates: &mut Candidates,
    links: &mut Vec<Link>,
    room: usize,
) -> Result<(), AllocError>
    ensures posts { posts.new.posts ≡ posts.old.posts }
    ensures cogs { posts.new.cogs ≡ posts.old.cogs }
    ensures holders { holders.new.items ≡ holders.old.items }
    ensures seats { candidates.new.seats ≡ candidates.old.seats }
    ensures task_room { OnOk result (room ≤ posts.new.task_room) }
    ensures task_room_stays { posts.old.task_room ≤ posts.new.task_room }
    ensures cog_room { OnOk result (room ≤ posts.new.cog_room) }
    ensures cog_room_stays { posts.old.cog_room ≤ posts.new.cog_room }
    ensures holder_room { OnOk result (vec_len holders.new + room ≤ vec_capacity holders.new) }
    ensures holder_room_stays { vec_capacity holders.old ≤ vec_capacity holders.new }
    ensures seat_room { OnOk result (room ≤ candidates.new.room) }
    ensures seat_room_stays { candidates.old.room ≤ candidates.new.room }
    ensures links { OnOk result (2 * room ≤ vec_len links.new) }
    ensures links_stay { vec_len links.old ≤ vec_len links.new }
{
    let Some(count) = room.checked_mul(2) else {
        return Err(AllocError);
    };
    posts.reserve(room)?;
    holders.reserve(room)?;
    candidates.reserve(room)?;
    fill_links(alloc, links, count)
}
