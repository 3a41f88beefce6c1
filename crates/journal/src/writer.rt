// The writers. The places of the parts follow from each other, so none asks for room; the whole line fits in 256 bytes.
ghost use Rattle.std.specs.Prelude.{◌≡◌, Some};
ghost use Rattle.fields.specs.Texts.{texts};
ghost use Rattle.fields.specs.Wrote.{Wrote};
ghost use Rattle.calls.specs.Said.{said};
ghost use Rattle.calls.specs.Shapes.{shape_told};
ghost use Rattle.calls.specs.Words.{shape_of};
ghost use Rattle.journal.specs.Line.{its_item};
ghost use Rattle.journal.specs.Reply.{word_of, reply_of};
ghost use Rattle.journal.specs.Writer.{tabbed, sent_text, frame_text};
ghost use Rattle.journal.specs.Promise.{WritesCall, WritesAnswer};

use calls::{Answer, Call, Frame, Refusal, Shape, TaskNo};
use fields::{put, put_all, put_hex, put_number};

// A tab and a number.
fn put_field(line: &mut [u8], at: usize, n: u32) -> usize
    ensures { Wrote line.old at (tabbed n) result line.new }
{
    let digits = put(line, at, b'\t');
    put_number(line, digits, u64::from(n))
}

// A tab and a number for each of `values`.
fn put_numbers(line: &mut [u8], at: usize, values: &[u32]) -> usize
    ensures { Wrote line.old at (texts tabbed values.now) result line.new }
{
    let mut next = at;
    for &n in values {
        next = put_field(line, next, n);
    }
    next
}

// A tab and an item, where there is to be one.
fn put_sent(line: &mut [u8], at: usize, sent: bool, item: &[u8]) -> usize
    ensures { Wrote line.old at (sent_text sent item.now) result line.new }
{
    if sent {
        let digits = put(line, at, b'\t');
        return put_hex(line, digits, item);
    }
    at
}

// The whole line of a frame.
#[tactic(auto, using(calls::proofs::CallAgain::shape_small))]
fn put_frame(line: &mut [u8], f: Frame, shape: Shape, item: &[u8]) -> usize
    requires { shape_told (Some shape) ≡ shape_of f.number }
    ensures { Wrote line.old 0 (frame_text f.number f.words item.now) result line.new }
{
    let words = f.words;
    let first = put_number(line, 0, u64::from(f.number));
    let sent = put_numbers(line, first, &words[..shape.before]);
    let last = put_sent(line, sent, shape.item, item);
    let end = put_numbers(line, last, &words[shape.before..shape.before + shape.after]);
    put(line, end, b'\n')
}

// The line of a call, in the first bytes of the lent line: how many they are. An item lent beside a call that carries none is passed over.
pub fn write_call(call: Call, item: &[u8], line: &mut [u8]) -> Result<usize, Refusal>
    ensures { WritesCall call (its_item call item.now) line.old result line.new }
{
    let f = call.frame();
    let shape = call.shape();
    if line.len() != 256 {
        return Err(Refusal::StoreLength);
    }
    if shape.item && item.len() > 64 {
        return Err(Refusal::WrongSize);
    }
    Ok(put_frame(line, f, shape, item))
}

// The word of an answer.
fn put_word(line: &mut [u8], at: usize, answer: Answer) -> usize
    ensures { Wrote line.old at (word_of (said answer).word) result line.new }
{
    match answer {
        Answer::Done | Answer::Made(_) => put_all(line, at, b"ok"),
        Answer::Waiting => put_all(line, at, b"wait"),
        Answer::Refused(_) => put_all(line, at, b"no"),
    }
}

// The new number, the refusal number, or 0.
fn number_of(answer: Answer) -> u32
    ensures { result ≡ (said answer).number }
{
    match answer {
        Answer::Made(n) | Answer::Refused(n) => n,
        Answer::Done | Answer::Waiting => 0,
    }
}

// The line of an answer and of the task that runs afterwards, from a place of `line` on, as far as it goes.
pub fn put_answer(line: &mut [u8], at: usize, answer: Answer, running: TaskNo) -> usize
    ensures { Wrote line.old at (reply_of answer running) result line.new }
{
    let word = put_word(line, at, answer);
    let number = put_field(line, word, number_of(answer));
    let last = put_field(line, number, running.number());
    put(line, last, b'\n')
}

// The same in the first bytes of a lent line.
pub fn write_answer(answer: Answer, running: TaskNo, line: &mut [u8]) -> Result<usize, Refusal>
    ensures { WritesAnswer answer running line.old result line.new }
{
    if line.len() != 256 {
        return Err(Refusal::StoreLength);
    }
    Ok(put_answer(line, 0, answer, running))
}
