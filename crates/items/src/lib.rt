// An item's bytes put into a part of the lent store, and fetched from one. What is out of reach is left as it is.
#![tactic(auto)]

ghost use Rattle.std.specs.Prelude.{◌≡◌, take, replicate};
ghost use Rattle.std.proofs.lemmas.List.Edits.{sets};
ghost use Rattle.items.specs.Bytes.{bytes_at, put_at};

// The first `n` bytes of `item` over the first of `part`.
#[tactic(auto, using(crate::proofs::Copies::put_first))]
fn put(part: &mut [u8], item: &[u8], n: usize)
    ensures { part.new ≡ sets part.old 0 (take n item.now) }
{
    let e = n.min(part.len()).min(item.len());
    part[..e].copy_from_slice(&item[..e]);
}

// The first `n` bytes of `item` put into the part from `at` on.
#[tactic(auto, using(crate::proofs::Copies::put_back, crate::proofs::Copies::put_past))]
pub fn put_at(part: &mut [u8], at: usize, item: &[u8], n: usize)
    ensures { part.new ≡ put_at at (take n item.now) part.old }
{
    if at <= part.len() {
        put(&mut part[at..], item, n);
    }
}

// The `n` bytes of the part from `at` on, first in such a buffer; zeros behind them.
#[tactic(auto, using(crate::proofs::Copies::from_tail, crate::proofs::Copies::from_none))]
pub fn fetch_at(part: &[u8], at: usize, n: usize) -> [u8; 64]
    ensures { result ≡ put_at 0 (bytes_at at n part.now) (replicate 64 0) }
{
    let mut out = [0u8; 64];
    if at <= part.len() {
        put(&mut out, &part[at..], n);
    }
    out
}
