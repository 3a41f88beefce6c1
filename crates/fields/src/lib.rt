// The fields of a line: numbers in decimal and items in hexadecimal. A field is read at a place of a line, or written from a place on.
#![tactic(auto)]

mod bytes;
mod decimal;
mod digit;
mod hex;

pub use bytes::{put, put_all};
pub use decimal::{put_number, read_number};
pub use hex::{put_hex, read_item};

// A number that stands at a place, and the place after it.
#[derive(Clone, Copy, PartialEq, Eq, Debug)]
pub struct Number {
    pub value: u32,
    pub next: usize,
}

// An item that stands at a place: its bytes with zeros after them, how many they are, and the place after it.
#[derive(Clone, Copy, PartialEq, Eq, Debug)]
pub struct Item {
    pub bytes: [u8; 64],
    pub len: usize,
    pub next: usize,
}
