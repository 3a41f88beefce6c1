// An item in lower-case hexadecimal, two digits a byte.
ghost use Rattle.std.specs.Prelude.{◌≡◌, ◌<◌, drop};
ghost use Rattle.fields.specs.Digit.{below};
ghost use Rattle.fields.specs.Hex.{hex_digit, two_digits, hex};
ghost use Rattle.fields.specs.Item.{pair_of, byte_of, read_item};
ghost use Rattle.fields.specs.Wrote.{Wrote};

use crate::Item;
use crate::bytes::put;
use crate::digit::nibble;

// The byte that two digits stand for, and 256 where they are not both digits.
#[tactic(auto, using(crate::proofs::Pairs::nibble_fits), unfolding(crate::specs::Item::pair_of))]
fn pair(x: u8, y: u8) -> u32
    ensures { result ≡ pair_of x y }
{
    (nibble(x) * 16 + nibble(y)).min(256)
}

// The byte whose two digits stand at a place.
fn byte_at(line: &[u8], at: usize) -> Option<u8>
    ensures { result ≡ below 256 (byte_of (drop at line.now)) }
{
    match line.get(at..)? {
        [x, y, ..] => u8::try_from(pair(*x, *y)).ok(),
        _ => None,
    }
}

// The longest item at a place, of up to 64 bytes. A 65th is left, and whatever is to come next refuses it.
pub fn read_item(line: &[u8], at: usize) -> Item
    ensures { result ≡ read_item at (drop at line.now) }
{
    let mut bytes = [0u8; 64];
    let mut next = at;
    for n in 0..64 {
        match byte_at(line, next) {
            Some(b) => bytes[n] = b,
            None => return Item {
                bytes,
                len: n,
                next,
            },
        }
        next += 2;
    }
    Item {
        bytes,
        len: 64,
        next,
    }
}

// The digit of a number below 16.
#[tactic(auto, unfolding(crate::specs::Hex::hex_digit))]
fn hex_of(n: u8) -> u8
    requires { n < 16 }
    ensures { result ≡ hex_digit n }
{
    if n < 10 { b'0' + n } else { b'a' + (n - 10) }
}

// A byte's two digits.
fn put_byte(line: &mut [u8], at: usize, b: u8) -> usize
    ensures { Wrote line.old at (two_digits b) result line.new }
{
    let low = put(line, at, hex_of(b / 16));
    put(line, low, hex_of(b % 16))
}

// An item's bytes.
pub fn put_hex(line: &mut [u8], at: usize, item: &[u8]) -> usize
    ensures { Wrote line.old at (hex item.now) result line.new }
{
    let mut next = at;
    for &b in item {
        next = put_byte(line, next, b);
    }
    next
}
