// The journal: a call's line read and written, an answer's line written.
#![tactic(auto)]

mod reader;
mod writer;

use calls::{Call, Refusal};
pub use reader::read_call;
pub use writer::{put_answer, write_answer, write_call};

// What was read: a line's call, or why it is none; and the call's item in the first `len` bytes, with zeros after it.
#[derive(Clone, Copy, PartialEq, Eq, Debug)]
pub struct Read {
    pub answer: Result<Call, Refusal>,
    pub item: [u8; 64],
    pub len: usize,
}
