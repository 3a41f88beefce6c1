// Bytes stored in a lent line, as far as it goes.
ghost use Rattle.std.specs.Prelude.{[], ◌∷◌};
ghost use Rattle.fields.specs.Wrote.{Wrote};

// One byte. Past the line's end nothing is stored, so that no writer has to ask for room.
pub fn put(line: &mut [u8], at: usize, b: u8) -> usize
    ensures { Wrote line.old at (b ∷ []) result line.new }
{
    if at < line.len() {
        line[at] = b;
        return at + 1;
    }
    at
}

// Several bytes.
pub fn put_all(line: &mut [u8], at: usize, bytes: &[u8]) -> usize
    ensures { Wrote line.old at bytes.now result line.new }
{
    let mut next = at;
    for &b in bytes {
        next = put(line, next, b);
    }
    next
}
