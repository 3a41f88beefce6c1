// A queue's ring within its object's part of the store.
ghost use Rattle.std.specs.Prelude.{◌≡◌, ◌+◌, ◌*◌, ◌%◌, ◌<◌, ◌≤◌};
ghost use Rattle.rules.specs.Rings.{one_more, one_less, room_or};
ghost use Rattle.rules.specs.Sentences.{RingFits};
ghost use Rattle.kernel.specs.Stands.{outlet_of};

use crate::Outlet;
use slots::Ring;

pub(crate) fn one_more(q: Ring) -> Ring
    requires { q.count < 255 }
    ensures { result ≡ one_more q }
{
    Ring {
        count: q.count + 1,
        ..q
    }
}

pub(crate) fn one_less(q: Ring) -> Ring
    requires { RingFits q × (0 < q.count) }
    ensures { result ≡ one_less q }
{
    Ring {
        first: (q.first + 1) % q.capacity,
        count: q.count - 1,
        ..q
    }
}

// The place in the ring of item `i` from the oldest.
fn place(q: Ring, i: u8) -> usize
    requires { RingFits q }
    ensures { (result ≡ (q.first + i) % q.capacity) × (result < q.capacity) }
{
    (usize::from(q.first) + usize::from(i)) % usize::from(q.capacity)
}

// How far into its object's part it begins.
pub(crate) fn begins(q: Ring, i: u8) -> usize
    requires { RingFits q }
    ensures { (result ≡ (q.first + i) % q.capacity * q.size) × (result + q.size ≤ 512) }
{
    place(q, i) * usize::from(q.size)
}

pub(crate) fn room_or(q: Ring) -> Outlet
    ensures { outlet_of result ≡ room_or q }
{
    if q.count < q.capacity {
        Outlet::Ring
    } else {
        Outlet::Caller
    }
}
