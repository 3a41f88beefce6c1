// The lines that tasks stand in, as the bits of a word; the highest of them is found with the processor's count of leading zeros.
#![tactic(auto)]

ghost use Rattle.std.specs.Prelude.{◌<◌, ◌≡◌};
ghost use Rattle.heights.specs.Heights.{lit, top, no_lines, noted, height};

// A bit for each of the 32 lines. `over` is the highest priority past them, 0 where there is none: no sound kernel has one, but the highest is found in every table.
#[derive(Clone, Copy, PartialEq, Eq, Debug)]
pub struct Lines {
    pub word: u32,
    pub over: u8,
}

#[tactic(auto, using(crate::proofs::Counts::lit_is))]
fn lit(w: u32, p: u8) -> u32
    requires { p < 32 }
    ensures { result ≡ lit w p }
{
    w | 1u32 << p as u32
}

// The line of the highest bit; 0 where no bit is set.
#[tactic(auto, unfolding(crate::specs::Heights::top))]
fn top(w: u32) -> u8
    ensures { result ≡ top w }
{
    31u32.saturating_sub(w.leading_zeros()) as u8
}

impl Lines {
    pub fn none() -> Lines
        ensures { result ≡ no_lines }
    {
        Lines { word: 0, over: 0 }
    }

    // One task more, of priority `p`: it stands in a line if it is ready.
    pub fn note(&mut self, ready: bool, p: u8)
        ensures { self.new ≡ noted self.old ready p }
    {
        if ready {
            if p < 32 {
                self.word = lit(self.word, p);
            } else {
                self.over = self.over.max(p);
            }
        }
    }

    // The highest occupied line; 0 where none is.
    pub fn height(self) -> u8
        ensures { result ≡ height self }
    {
        top(self.word).max(self.over)
    }
}
