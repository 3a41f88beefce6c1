// The kernel: a value that goes in with a call, and comes back with the next state, the running task and an answer.
#![tactic(auto)]

mod effects;
mod events;
mod lines;
mod loans;
mod parts;
mod queues;
mod refusals;
mod rings;
mod sessions;
mod sound;
mod steps;
mod tables;
mod ticks;
mod waits;

use calls::{Answer, Uses};
use cuts::Cut;
use numbers::TaskSlot;
use objects::Objects;
use order::Order;
use tasks::Tasks;

// The store that a caller lends, of this length alone.
pub(crate) type Store = [u8; 9216];

// What the step works on: slots alone.
#[derive(Clone, Copy, PartialEq, Eq, Debug)]
pub struct Core {
    pub tasks: Tasks,
    pub objects: Objects,
    pub order: Order,
    pub running: TaskSlot,
    pub tick: u32,
    pub hold: u8,
    pub pended: u16,
}

// Beside it the uses, which say what number each slot has.
#[derive(Clone, Copy, PartialEq, Eq, Debug)]
pub struct Kernel {
    pub core: Core,
    pub uses: Uses,
}

// What comes of a call: the next kernel, with the task that then runs, and the answer.
#[derive(Clone, Copy, PartialEq, Eq, Debug)]
pub struct Step {
    pub kernel: Kernel,
    pub answer: Answer,
}

// Where a sent item goes: to the first waiting receiver, into the queue, or to the slip of the caller, who waits.
#[derive(Clone, Copy, PartialEq, Eq, Debug)]
pub(crate) enum Outlet {
    Waiter(TaskSlot),
    Ring,
    Caller,
}

// What goes on from block to block: the kernel, and what there is of a line whose newline has not come yet.
#[derive(Clone, Copy, PartialEq, Eq, Debug)]
pub struct Session {
    pub kernel: Kernel,
    pub cut: Cut,
}

// What comes of a block: the session afterwards, how many of the block's bytes it took and how many bytes of answers it wrote.
#[derive(Clone, Copy, PartialEq, Eq, Debug)]
pub struct Served {
    pub session: Session,
    pub taken: usize,
    pub written: usize,
}
