// What is wanted of an event group.
ghost use Rattle.std.specs.Prelude.{◌≡◌};
ghost use Rattle.slots.specs.Wants.{holds_of, satisfied, cleared, clears};
ghost use Rattle.slots.specs.SoundSlots.{awaits_bits};

use crate::{Kind, Want};

// All bits of the mask are among the bits, or any.
pub fn holds_of(bits: u32, mask: u32, all: bool) -> bool
    ensures { result ≡ holds_of bits mask all }
{
    let hit = bits & mask;
    if all { hit == mask } else { hit != 0 }
}

// The bits without those of the mask.
pub fn cleared(bits: u32, mask: u32) -> u32
    ensures { result ≡ cleared bits mask }
{
    bits - (bits & mask)
}

impl Want {
    pub fn satisfied(self, bits: u32) -> bool
        ensures { result ≡ satisfied bits self }
    {
        match self {
            Want::OwnTurn => false,
            Want::Bits(m, all, _) => holds_of(bits, m, all),
        }
    }

    // What it asks to have cleared.
    pub fn clears(self) -> u32
        ensures { result ≡ clears self }
    {
        match self {
            Want::Bits(m, _, true) => m,
            _ => 0,
        }
    }
}

impl Kind {
    // One may wait here for these bits.
    pub fn awaits_bits(self, m: u32, all: bool) -> bool
        ensures { result ≡ awaits_bits m all self }
    {
        match self {
            Kind::Group(bits) => {
                let mask = 1 <= m && m <= 16777215;
                mask && !holds_of(bits, m, all)
            }
            _ => false,
        }
    }
}
