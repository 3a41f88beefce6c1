// Lines cut out of bytes that come in blocks: what there is of a line whose newline has not come yet.
#![tactic(auto)]

ghost use Rattle.std.specs.Prelude.{◌≡◌, drop};
ghost use Rattle.std.specs.List.{position};
ghost use Rattle.lists.specs.Lists.{foldl};
ghost use Rattle.cuts.specs.Keeping.{no_byte, is_blank, with_byte, is_newline, gathered, Gathers};

// The first `len` bytes of a line; above 256, it is only known to be too long.
#[derive(Clone, Copy, PartialEq, Eq, Debug)]
pub struct Cut {
    pub bytes: [u8; 256],
    pub len: usize,
}

// The place of the first newline.
fn newline(block: &[u8]) -> Option<usize>
    ensures { result ≡ position is_newline block.now }
{
    block.iter().position(|&b| b == b'\n')
}

// What a block has from `at` on; nothing past its end.
#[tactic(auto, using(crate::proofs::Storing::drop_min))]
fn rest(block: &[u8], at: usize) -> &[u8]
    ensures { result.now ≡ drop at block.now }
{
    &block[at.min(block.len())..]
}

impl Cut {
    #[tactic(auto, unfolding(crate::specs::Keeping::no_byte))]
    pub fn none() -> Cut
        ensures { result ≡ no_byte }
    {
        Cut {
            bytes: [0u8; 256],
            len: 0,
        }
    }

    pub fn is_empty(&self) -> bool
        ensures { result ≡ is_blank self.now }
    {
        self.len == 0
    }

    // One more byte of the line.
    #[tactic(auto, unfolding(crate::specs::Keeping::with_byte))]
    pub fn keep(&mut self, b: u8)
        ensures { self.new ≡ with_byte self.old b }
    {
        if self.len < 256 {
            self.bytes[self.len] = b;
            self.len += 1;
        } else {
            self.len = 257;
        }
    }

    // More bytes of the line: what there is room for is copied.
    fn extend(&mut self, more: &[u8])
        ensures { self.new ≡ foldl with_byte self.old more.now }
    {
        let from = self.len.min(256);
        let n = more.len().min(256 - from);
        self.bytes[from..from + n].copy_from_slice(&more[..n]);
        self.len = if n < more.len() { 257 } else { self.len + n };
    }

    // The bytes of a block from `at` on are kept as far as its next newline: the newline's place, or, as an `Err`, the place where the block ended.
    pub fn gather(&mut self, block: &[u8], at: usize) -> Result<usize, usize>
        ensures { Gathers (gathered at self.old (drop at block.now)) result self.new }
    {
        let rest = rest(block, at);
        let found = newline(rest);
        let n = found.unwrap_or(rest.len());
        self.extend(&rest[..n]);
        if found.is_some() {
            Ok(at + n)
        } else {
            Err(at + n)
        }
    }
}
