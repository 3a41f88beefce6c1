// What soundness asks of the objects and must know of them, in numbers: no Kind is made, so that the compiler does many rows at once.
// These take the table by value and its columns one by one: read in place behind a reference they are not done at once.
ghost use Rattle.std.specs.Prelude.{◌≡◌, false, leb, replicate, if◌then◌else◌};
ghost use Rattle.lists.specs.Lists.{all_below, foldl};
ghost use Rattle.slots.specs.SoundSlots.{ring_fine};
ghost use Rattle.objects.specs.Columns.{HoldersAre, ring};
ghost use Rattle.objects.specs.Fine.{marking, count_right, row_fine, fine_at, open_at, taken_at, Each, MarksAre, HoldingsAre};

use crate::{Cells, Holdings, Marks, Objects};

fn ring_fine(c: u8, z: u8, f: u8, k: u8) -> bool
    ensures { result ≡ ring_fine (ring c z f k) }
{
    let few = (1 <= c) & (c <= 64);
    let small = (z <= 64) & (u16::from(c) * u16::from(z) <= 512);
    let places = (f < c) & (k <= c);
    few & small & places
}

// A queue's count is asked with its ring. Only a held recursive mutex has another than 0: the bits of an event group have no fourth byte.
fn count_right(s: u8, k: u8) -> bool
    ensures { result ≡ count_right s k }
{
    if s == 7 { 1 <= k } else { (s == 1) | (k == 0) }
}

// Who holds it; 16 where nobody does.
fn holder(s: u8, h: u8) -> u8
    ensures { result ≡ if leb 6 s then h else 16 }
{
    if 6 <= s { h } else { 16 }
}

// For each task slot whether its task is among these.
#[tactic(auto, using(lists::proofs::Folds::fold_none, lists::proofs::Folds::fold_more, lists::proofs::Folds::fold_all, crate::proofs::Fines::unmarked))]
fn marked(by: &[u8]) -> [bool; 16]
    ensures { result ≡ foldl marking (replicate 16 false) by.now }
{
    let mut held = [false; 16];
    for &t in by {
        if t < 16 {
            held[usize::from(t)] = true;
        }
    }
    held
}

impl Cells {
    #[tactic(auto, unfolding(crate::specs::Fine::row_fine))]
    fn is_fine(self) -> bool
        ensures { result ≡ row_fine self }
    {
        let s = self.state;
        let none = (self.capacity == 0) & (self.size == 0) & (self.first == 0);
        let rings = (s == 1) | (s == 5) | none;
        let holds = (6 <= s) | (self.holder == 0);
        let ring = (s != 1) | ring_fine(self.capacity, self.size, self.first, self.count);
        (s <= 7) & rings & count_right(s, self.count) & holds & ring & (self.holder < 16)
    }
}

impl Objects {
    #[tactic(auto, using(lists::proofs::Turns::all_below_none, lists::proofs::Turns::all_below_more))]
    fn rows_fine(self) -> bool
        ensures { result ≡ all_below 16 (fine_at self) }
    {
        let state = self.state;
        let capacity = self.capacity;
        let size = self.size;
        let first = self.first;
        let count = self.count;
        let holder = self.holder;
        let mut ok = true;
        for i in 0..16 {
            let cells = Cells {
                state: state[i],
                capacity: capacity[i],
                size: size[i],
                first: first[i],
                count: count[i],
                holder: holder[i],
            };
            ok &= cells.is_fine();
        }
        ok
    }

    // Who holds: by task slot and by object. Mostly nobody does, and then there is nothing to mark.
    fn marks(self) -> Marks
        ensures { MarksAre self result }
    {
        let by = self.holders();
        let held = if by == [16; 16] {
            [false; 16]
        } else {
            marked(&by)
        };
        Marks { held, by }
    }

    // The queues that are empty or full.
    fn opens(self) -> [bool; 16]
        ensures { Each (open_at self) result }
    {
        let state = self.state;
        let capacity = self.capacity;
        let count = self.count;
        let mut out = [false; 16];
        for i in 0..16 {
            out[i] = (state[i] == 1) & ((count[i] == 0) | (count[i] == capacity[i]));
        }
        out
    }

    // The mutexes that somebody holds.
    fn takes(self) -> [bool; 16]
        ensures { Each (taken_at self) result }
    {
        let state = self.state;
        let mut out = [false; 16];
        for i in 0..16 {
            out[i] = 6 <= state[i];
        }
        out
    }

    // Who holds each object; 16 where nobody does.
    pub fn holders(self) -> [u8; 16]
        ensures { HoldersAre self result }
    {
        let state = self.state;
        let by = self.holder;
        let mut out = [16u8; 16];
        for i in 0..16 {
            out[i] = holder(state[i], by[i]);
        }
        out
    }

    // Who holds, who may be waited on, and whether each object is fine. What is fine stands for the list that it reads as.
    pub fn holdings(self) -> Holdings
        ensures { HoldingsAre self result }
    {
        let Marks { held, by } = self.marks();
        let open = self.opens();
        let taken = self.takes();
        let holder = self.holder;
        let fine = self.rows_fine();
        Holdings {
            held,
            open,
            taken,
            holder,
            by,
            fine,
        }
    }
}
