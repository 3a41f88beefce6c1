// What each row wants, in numbers.
ghost use Rattle.std.specs.Prelude.{◌≡◌, replicate};
ghost use Rattle.slots.specs.declared.Want.TheVariants.{OwnTurn};
ghost use Rattle.tasks.specs.Masks.{flagged, flags_of, mask_of, want_of, wants_of, want_put, want_at};

use crate::Wants;
use slots::Want;

fn flagged(all: bool, clear: bool) -> u8
    ensures { result ≡ flagged all clear }
{
    match (all, clear) {
        (false, false) => 1,
        (true, false) => 2,
        (false, true) => 3,
        (true, true) => 4,
    }
}

fn numbers(w: Want) -> (u32, u8)
    ensures mask { result.0 ≡ mask_of w }
    ensures flags { result.1 ≡ flags_of w }
{
    match w {
        Want::OwnTurn => (0, 0),
        Want::Bits(mask, all, clear) => (mask, flagged(all, clear)),
    }
}

fn want(mask: u32, flags: u8) -> Want
    ensures { result ≡ want_of mask flags }
{
    match flags {
        0 => Want::OwnTurn,
        _ => Want::Bits(mask, flags == 2 || flags == 4, 3 <= flags),
    }
}

impl Wants {
    #[tactic(auto, unfolding(crate::specs::Masks::wants_of))]
    pub(crate) fn none() -> Wants
        ensures { result ≡ wants_of (replicate 16 OwnTurn) }
    {
        Wants {
            mask: [0; 16],
            flags: [0; 16],
        }
    }

    #[tactic(auto, unfolding(crate::specs::Masks::want_at))]
    pub(crate) fn get(&self, i: usize) -> Want
        ensures { result ≡ want_at self.now i }
    {
        if i < 16 {
            want(self.mask[i], self.flags[i])
        } else {
            Want::OwnTurn
        }
    }

    // What is stored past the table is lost.
    #[tactic(auto, unfolding(crate::specs::Masks::want_put))]
    pub(crate) fn set(&mut self, i: usize, w: Want)
        ensures { self.new ≡ want_put self.old i w }
    {
        if i < 16 {
            (self.mask[i], self.flags[i]) = numbers(w);
        }
    }
}
