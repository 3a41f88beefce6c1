// The reader. Each part of a line begins at the place after the part before it.
ghost use Rattle.std.specs.Prelude.{◌≡◌, ℕ, length, drop};
ghost use Rattle.std.specs.Option.{unwrap_or};
ghost use Rattle.journal.specs.Promise.{ReadsAs};
ghost use Rattle.journal.specs.Reader.{after_tab, no_number, no_item, number_at, nums, NumbersRead, sent_at, end_of, read_or_none, read_of};

use crate::Read;
use calls::{Call, Refusal, Shape};
use fields::{Item, Number, read_item, read_number};

// The place after a tab.
fn after_tab(line: &[u8], at: usize) -> Option<usize>
    ensures { unwrap_or result (length line.now) ≡ after_tab line.now at }
{
    if *line.get(at)? == b'\t' {
        Some(at + 1)
    } else {
        None
    }
}

// A tab and a number.
fn tabbed_number(line: &[u8], at: usize) -> Option<Number>
    ensures { unwrap_or result (no_number line.now) ≡ number_at line.now (after_tab line.now at) }
{
    read_number(line, after_tab(line, at)?)
}

// A tab and a number for each of `values`. Answers the place after them.
fn read_numbers(line: &[u8], at: usize, values: &mut [u32]) -> Option<usize>
    ensures { NumbersRead line.now (nums line.now (length values.old) 0 values.old at) values.new result }
{
    let mut next = at;
    for value in values.iter_mut() {
        let number = tabbed_number(line, next)?;
        *value = number.value;
        next = number.next;
    }
    Some(next)
}

// A tab and an item, where there is to be one.
fn read_sent(line: &[u8], at: usize, item: bool) -> Option<Item>
    ensures { unwrap_or result (no_item line.now) ≡ sent_at line.now at item }
{
    if item {
        Some(read_item(line, after_tab(line, at)?))
    } else {
        Some(Item {
            bytes: [0; 64],
            len: 0,
            next: at,
        })
    }
}

// Whether a newline and no more is left.
fn at_end(line: &[u8], at: usize) -> bool
    ensures { result ≡ end_of (drop at line.now) }
{
    matches!(line.get(at..), Some([b'\n']))
}

// A line's call and its item.
fn call_in(line: &[u8]) -> Option<(Call, Item)>
    ensures { read_or_none result ≡ read_of line.now }
{
    let number = read_number(line, 0)?;
    let shape = Shape::of(number.value)?;
    let mut words = [0; 5];
    let first = read_numbers(line, number.next, &mut words[..shape.before])?;
    let sent = read_sent(line, first, shape.item)?;
    let last = read_numbers(
        line,
        sent.next,
        &mut words[shape.before..shape.before + shape.after],
    )?;
    if at_end(line, last) {
        Some((Call::of(number.value, words), sent))
    } else {
        None
    }
}

// The call of a line, or refusal 3 with no bytes.
pub fn read_call(line: &[u8]) -> Read
    ensures { ReadsAs line.now result }
{
    match call_in(line) {
        Some((call, sent)) => {
            let item = sent.bytes;
            Read {
                answer: Ok(call),
                item,
                len: sent.len,
            }
        }
        None => Read {
            answer: Err(Refusal::NoCall),
            item: [0; 64],
            len: 0,
        },
    }
}
