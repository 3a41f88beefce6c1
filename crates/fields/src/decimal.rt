// A number in decimal.
ghost use Rattle.std.specs.Prelude.{◌≡◌, drop};
ghost use Rattle.fields.specs.Decimal.{dec};
ghost use Rattle.fields.specs.Digit.{below};
ghost use Rattle.fields.specs.Number.{grow, read_number};
ghost use Rattle.fields.specs.Wrote.{Wrote};

use crate::Number;
use crate::bytes::put;
use crate::digit::digit;

// v with the digit b after it, if b is one and the number fits 32 bits.
#[tactic(auto, unfolding(crate::specs::Number::grow))]
fn grown(v: u32, b: u8) -> Option<u32>
    ensures { result ≡ below 4294967296 (grow v b) }
{
    v.checked_mul(10)?.checked_add(digit(b)?)
}

// The longest number at a place. What is needless or too large is left, and whatever is to come next refuses it.
pub fn read_number(line: &[u8], at: usize) -> Option<Number>
    ensures { result ≡ read_number at (drop at line.now) }
{
    let mut value = digit(*line.get(at)?)?;
    let mut next = at + 1;
    if value == 0 {
        return Some(Number { value, next });
    }
    for &b in &line[next..] {
        let Some(more) = grown(value, b) else { break };
        value = more;
        next += 1;
    }
    Some(Number { value, next })
}

// A number's digits, from the last one back.
fn put_digits(line: &mut [u8], at: usize, n: u64) -> usize
    ensures { Wrote line.old at (dec n) result line.new }
{
    if n < 10 {
        put(line, at, b'0' + n as u8)
    } else {
        let last = put_digits(line, at, n / 10);
        put(line, last, b'0' + (n % 10) as u8)
    }
}

// A number's digits. Most numbers have one, and a call of a function that calls itself costs more than that digit.
pub fn put_number(line: &mut [u8], at: usize, n: u64) -> usize
    ensures { Wrote line.old at (dec n) result line.new }
{
    if n < 10 {
        return put(line, at, b'0' + n as u8);
    }
    put_digits(line, at, n)
}
