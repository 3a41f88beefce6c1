// A line read and stepped; and a session: bytes come in blocks, cut anywhere, and each line that ends among them is answered.
// Soundness is tested once a block; a step keeps it.
ghost use Rattle.std.specs.Prelude.{◌≡◌, ◌≤◌, true, nat_lt, if◌then◌else◌};
ghost use Rattle.calls.specs.Refusals.{number_of};
ghost use Rattle.rules.specs.Sound.{sound};
ghost use Rattle.rules.specs.Sessions.{no_line_of, step_read};
ghost use Rattle.kernel.specs.Stands.{kernel_of, shown};
ghost use Rattle.kernel.specs.Promises.{Is, came, ReadsAndSteps, Answers, Closes, new_session};

use crate::steps::told;
use crate::{Kernel, Served, Session, Step};
use calls::{Answer, Refusal};
use cuts::Cut;
use journal::{Read, put_answer, read_call};

// How many of a line's bytes are read: all of them, or none, if it is too long. (No call's line is empty.)
fn whole(len: usize) -> usize
    ensures { (result ≡ if nat_lt 256 len then 0 else len) × (result ≤ 256) × (result ≤ len) }
{
    if 256 < len { 0 } else { len }
}

// Why a line that is no call's is turned away: 1 and 2 stand before 3.
fn no_line(fine: bool, len: usize) -> Refusal
    ensures { number_of result ≡ no_line_of fine len }
{
    if !fine {
        Refusal::Unsound
    } else if len != 9216 {
        Refusal::StoreLength
    } else {
        Refusal::NoCall
    }
}

impl Kernel {
    // The step of a line; `fine` says whether the kernel is sound.
    fn line_step(&mut self, fine: bool, line: Read, store: &mut [u8]) -> Result<Answer, Refusal>
        requires { (fine ≡ sound (shown self.old)) × (sound (shown self.old) ≡ true → self.old ≡ kernel_of (shown self.old)) × (line.len ≤ 64) }
        ensures { Is self.old (step_read (shown self.old) store.old line) (came self.new result) store.new }
    {
        match line.answer {
            Ok(call) if fine => self.step_sound(call, &line.item[..line.len], store),
            Ok(_) => Err(Refusal::Unsound),
            Err(_) => Err(no_line(fine, store.len())),
        }
    }

    // The step of a line: any bytes, of whatever length.
    pub fn step_line(mut self, line: &[u8], store: &mut [u8]) -> Step
        ensures { ReadsAndSteps self line.now store.old result store.new }
    {
        let n = whole(line.len());
        let read = read_call(&line[..n]);
        let fine = self.is_sound();
        let answer = told(self.line_step(fine, read, store));
        Step {
            kernel: self,
            answer,
        }
    }
}

impl Session {
    // "The program starts from the fresh kernel".
    #[tactic(auto, unfolding(crate::specs::Promises::new_session))]
    pub fn fresh() -> Session
        ensures { result ≡ new_session }
    {
        Session {
            kernel: Kernel::fresh(),
            cut: Cut::none(),
        }
    }

    // Answers each line that ends in the block, as far as the answers fit.
    pub fn answer(mut self, block: &[u8], store: &mut [u8], out: &mut [u8]) -> Served
        ensures { Answers self block.now store.old out.old result store.new out.new }
    {
        let fine = self.kernel.is_sound();
        let mut at = 0usize;
        let mut written = 0usize;
        loop {
            let next = match self.cut.gather(block, at) {
                Ok(next) => next,
                Err(taken) => {
                    return Served {
                        session: self,
                        taken,
                        written,
                    };
                }
            };
            if out.len() - written < 256 {
                return Served {
                    session: self,
                    taken: next,
                    written,
                };
            }
            self.cut.keep(10);
            let m = whole(self.cut.len);
            let line = read_call(&self.cut.bytes[..m]);
            let answer = told(self.kernel.line_step(fine, line, store));
            written = put_answer(out, written, answer, self.kernel.runs());
            self.cut.len = 0; // for the next line
            at = next + 1;
        }
    }

    // The input has ended: a last line without a newline is answered.
    pub fn end(mut self, store: &[u8], out: &mut [u8]) -> Served
        ensures { Closes self store.now out.old result out.new }
    {
        if self.cut.is_empty() || out.len() < 256 {
            return Served {
                session: self,
                taken: 0,
                written: 0,
            };
        }
        let answer = told(Err(no_line(self.kernel.is_sound(), store.len())));
        let written = put_answer(out, 0, answer, self.kernel.runs());
        self.cut.len = 0; // none is left
        Served {
            session: self,
            taken: 0,
            written,
        }
    }
}
