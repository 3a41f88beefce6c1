// What is asked of the kernel, and what it answers: two kinds of number, the 23 calls, the four answers.
#![tactic(auto)]

mod behind;
mod door;
mod named;
mod refusals;
mod table;
mod words;

use numbers::{ObjSlot, TaskSlot};
pub use refusals::Refusal;

// A task number and an object number are two types, so that neither can stand for the other.
#[derive(Clone, Copy, PartialEq, Eq, Debug)]
pub struct TaskNo(pub u32);

#[derive(Clone, Copy, PartialEq, Eq, Debug)]
pub struct ObjNo(pub u32);

// How often what stood in each slot was given up. A number is slot + 16 × use, so that an old one names nothing.
#[derive(Clone, Copy, PartialEq, Eq, Debug)]
pub struct Uses {
    pub tasks: [u16; 16],
    pub objects: [u16; 16],
}

// The 23 calls. The bytes of a sent item are lent beside the call.
#[derive(Clone, Copy, PartialEq, Eq, Debug)]
pub enum Call {
    Create(u32),
    Delete(TaskNo),
    Suspend(TaskNo),
    Resume(TaskNo),
    SetPriority(TaskNo, u32),
    Delay(u32),
    Yield,
    Hold,
    Release,
    MakeQueue(u32, u32),
    MakeMutex,
    Remove(ObjNo),
    Send(ObjNo, u32),
    Receive(ObjNo, u32),
    Take(ObjNo, u32),
    Give(ObjNo),
    Tick,
    Advance(u32),
    MakeRecursive,
    MakeGroup,
    SetBits(ObjNo, u32),
    ClearBits(ObjNo, u32),
    Await(ObjNo, u32, u32, u32, u32),
}

#[derive(Clone, Copy, PartialEq, Eq, Debug)]
pub enum Answer {
    Done,
    Made(u32),
    Waiting,
    Refused(u32),
}

// What a call must name: nothing, a task, an object of any kind, a queue, a mutex, or an event group.
#[derive(Clone, Copy, PartialEq, Eq, Debug)]
pub enum Names {
    Nothing,
    Task,
    Object,
    Queue,
    Mutex,
    Group,
}

// A call in words: its number, what it names, and the numbers among its arguments with zeros after them.
#[derive(Clone, Copy, PartialEq, Eq, Debug)]
pub struct Frame {
    pub number: u8,
    pub names: Names,
    pub words: [u32; 5],
}

// How the arguments of a call stand: so many numbers, then an item if there is one, then so many numbers more.
#[derive(Clone, Copy, PartialEq, Eq, Debug)]
pub struct Shape {
    pub before: usize,
    pub item: bool,
    pub after: usize,
}

// A call behind the door: its number and arguments, each in its own field, and slots where the caller wrote numbers; `last` says that the slot
// stands at its last use.
// An argument that the call does not have stands at a value that is never turned away. The rules go by the number, as their document does.
#[derive(Clone, Copy, PartialEq, Eq, Debug)]
pub struct Asked {
    pub number: u8,
    pub names: Names,
    pub task: TaskSlot,
    pub object: ObjSlot,
    pub last: bool,
    pub priority: u32,
    pub ticks: u32,
    pub capacity: u32,
    pub size: u32,
    pub wait: u32,
    pub bits: u32,
    pub all: u32,
    pub clear: u32,
}
