//! The seats of the cogs, each of which at most one task has. The seated tasks are found in their order.
ghost use Rattle.std.specs.Prelude.{◌≡◌, ◌≢◌, ◌<◌, ◌≤◌, ◌+◌, ◌++◌, ◌∷◌, [], ◌&&◌, ◌||◌, ℕ, true, false, not, nat_eq, length, set, slice_get, Some, None, IfSome, IfNone, OnOk};
ghost use Rattle.future_cells.specs.SeatViews.{seat_task};
ghost use Rattle.future_cells.specs.Seats.{is_in_seat, is_seated};
ghost use Rattle.future_cells.specs.TaskSets.{has};
ghost use Rattle.future_cells.specs.Turns.{IsFirstOf};

use crate::task_set::{Link, TaskSet};
use crate::turns::first_going_round;
use std::alloc::{AllocError, Global};
use std::marker::Model;
use std::mem;

/// The seat of a cog.
#[derive(Drop)]
enum Seat {
    /// No task has it. Here is the memory that one takes.
    Free(Link),
    /// A task has it.
    Taken(u32),
}

/// The seats of all cogs, with the set of the tasks that have one.
#[derive(Drop)]
pub(crate) struct Candidates {
    /// By cog.
    seats: Vec<Seat>,
    set: TaskSet,
}

impl Model for Candidates {
    ghost use Rattle.std.specs.Prelude.{◌≡◌, ◌-◌, ℕ, map, vec_len, vec_capacity};
    ghost use Rattle.future_cells.specs.Seats.{HaveOneEach, KeptSeats, is_seated};
    ghost use Rattle.future_cells.specs.SeatViews.{seat_task};
    ghost use Rattle.future_cells.specs.TaskSets.{has};

    ghost Value = { KeptSeats };

    ghost view = { λ c. record {
      seats = map seat_task c.seats.items;
      room = vec_capacity c.seats - vec_len c.seats;
    } };

    ghost invariant = { λ c. ((task : ℕ) → has c.set task ≡ is_seated (map seat_task c.seats.items) task)
        × HaveOneEach (map seat_task c.seats.items) };
}

impl Candidates {
    /// No seat.
    pub fn new(alloc: Global) -> Candidates
        ensures { result.seats ≡ [] }
    {
        Candidates {
            seats: Vec::new(alloc),
            set: TaskSet::new(),
        }
    }

    /// Makes room for this many further seats.
    ///
    /// # Errors
    /// [`AllocError`] if memory runs out. Nothing is lost then.
    pub fn reserve(&mut self, room: usize) -> Result<(), AllocError>
        ensures seats { self.new.seats ≡ self.old.seats }
        ensures room { OnOk result (room ≤ self.new.room) }
        ensures stays { self.old.room ≤ self.new.room }
    {
        self.seats.reserve(room)
    }

    /// Adds a free seat.
    pub fn push(&mut self, link: Link)
        requires { 1 ≤ self.old.room }
        ensures seats { self.new.seats ≡ self.old.seats ++ None ∷ [] }
        ensures room { self.old.room ≤ self.new.room + 1 }
    {
        self.seats.push_reserved(Seat::Free(link));
    }

    /// Gives the seat of a cog to a task that has none, or frees it.
    pub fn seat(&mut self, cog: u32, task: Option<u32>)
        requires there { cog < length self.old.seats }
        requires has_none { (other : ℕ) → other ≢ cog → (given : ℕ) → task ≡ Some given
            → slice_get self.old.seats other ≢ Some (Some given) }
        ensures seats { self.new.seats ≡ set self.old.seats cog task }
        ensures room { self.old.room ≤ self.new.room }
    {
        change(&mut self.set, &mut self.seats[cog as usize], task);
    }

    /// Of the seated tasks the first after another one, going round.
    pub fn first(&self, last: u32) -> Option<u32>
        ensures some { IfSome result (λ task. IsFirstOf (is_seated self.now.seats) last task) }
        ensures none { IfNone result ((task : ℕ) → is_seated self.now.seats task ≡ false) }
    {
        first_going_round(&self.set, last)
    }
}

/// Gives a seat to a task, which has no other, or frees it. The task before goes out of the set, and this one comes in.
fn change(tasks: &mut TaskSet, seat: &mut Seat, task: Option<u32>)
    requires is_in { (before : ℕ) → seat_task seat.old ≡ Some before → has tasks.old before ≡ true }
    requires is_new { (given : ℕ) → task ≡ Some given → seat_task seat.old ≢ Some given → has tasks.old given ≡ false }
    ensures seat { seat_task seat.new ≡ task }
    ensures has { (other : ℕ) → has tasks.new other
        ≡ (is_in_seat other task || (not (is_in_seat other (seat_task seat.old)) && has tasks.old other)) }
{
    match task {
        Some(task) => give(tasks, seat, task),
        None => free(tasks, seat),
    }
}

/// Gives a seat to a task. The task before goes out of the set, and this one comes in.
fn give(tasks: &mut TaskSet, seat: &mut Seat, task: u32)
    requires is_in { (before : ℕ) → seat_task seat.old ≡ Some before → has tasks.old before ≡ true }
    requires is_new { seat_task seat.old ≢ Some task → has tasks.old task ≡ false }
    ensures seat { seat_task seat.new ≡ Some task }
    ensures has { (other : ℕ) → has tasks.new other
        ≡ (nat_eq task other || (not (is_in_seat other (seat_task seat.old)) && has tasks.old other)) }
{
    match mem::replace(seat, Seat::Taken(task)) {
        Seat::Free(link) => tasks.insert(task, link),
        Seat::Taken(before) => {
            if before != task {
                let link = tasks.remove(before);
                tasks.insert(task, link);
            }
        }
    }
}

/// Frees a seat. The task before goes out of the set.
fn free(tasks: &mut TaskSet, seat: &mut Seat)
    requires { (before : ℕ) → seat_task seat.old ≡ Some before → has tasks.old before ≡ true }
    ensures seat { seat_task seat.new ≡ None }
    ensures has { (other : ℕ) → has tasks.new other
        ≡ (not (is_in_seat other (seat_task seat.old)) && has tasks.old other) }
{
    if let Seat::Taken(task) = *seat {
        let link = tasks.remove(task);
        *seat = Seat::Free(link);
    }
}
