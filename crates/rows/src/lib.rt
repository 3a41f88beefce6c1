// What is turned away: the table, a row for each number, over what a row looks at.
#![tactic(auto)]

mod applies;
mod asking;

pub use asking::makes;
use numbers::TaskSlot;
use slots::{Kind, Place};

// What the rows look at: the task and the object that the call names; the slot that a create or make takes, 0 for any other call; whether what is to be deleted
// or removed is in use, and whether a take closes a circle; the caller, the hold and the pended ticks.
#[derive(Clone, Copy, PartialEq, Eq, Debug)]
pub struct Seen {
    pub place: Place,
    pub kind: Kind,
    pub new: u8,
    pub used: bool,
    pub circle: bool,
    pub running: TaskSlot,
    pub hold: u8,
    pub pended: u16,
}
