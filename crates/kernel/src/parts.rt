// The parts of the lent store: a task's slip of 64 bytes, and an object's 512. A part, and no byte beside it, is lent on to the copy of an item.
ghost use Rattle.std.specs.Prelude.{◌≡◌, ◌<◌, ◌≤◌, take};
ghost use Rattle.items.specs.Bytes.{bytes_at, put_at};
ghost use Rattle.rules.specs.Parts.{slip_of, item_at};
ghost use Rattle.rules.specs.Sentences.{RingFits};

use crate::{Store, rings};
use numbers::{ObjSlot, TaskSlot};
use slots::Ring;

// The first `n` bytes of `item`, to the first bytes of the task's slip.
pub(crate) fn to_slip(t: TaskSlot, item: &[u8], n: usize, store: &mut Store)
    requires { (t.0 < 16) × (n ≤ 64) }
    ensures { store.new ≡ put_at (slip_of t) (take n item.now) store.old }
{
    let from = 8192 + 64 * t.slot();
    let end = from + 64;
    items::put_at(&mut store[from..end], 0, item, n);
}

// `item`, to the place of item `i` in the queue's part.
pub(crate) fn to_ring(o: ObjSlot, q: Ring, i: u8, item: &[u8], store: &mut Store)
    requires { (o.0 < 16) × RingFits q }
    ensures { store.new ≡ put_at (item_at o q i) (take q.size item.now) store.old }
{
    let n = usize::from(q.size);
    let at = rings::begins(q, i);
    let from = 512 * o.slot();
    let end = from + 512;
    items::put_at(&mut store[from..end], at, item, n);
}

// The first `n` bytes of the task's slip.
pub(crate) fn of_slip(t: TaskSlot, n: usize, store: &Store) -> [u8; 64]
    requires { (t.0 < 16) × (n ≤ 64) }
    ensures { take n result ≡ bytes_at (slip_of t) n store.now }
{
    let from = 8192 + 64 * t.slot();
    let end = from + 64;
    items::fetch_at(&store[from..end], 0, n)
}

// Item `i` of the queue.
pub(crate) fn of_ring(o: ObjSlot, q: Ring, i: u8, store: &Store) -> [u8; 64]
    requires { (o.0 < 16) × RingFits q }
    ensures { take q.size result ≡ bytes_at (item_at o q i) q.size store.now }
{
    let n = usize::from(q.size);
    let at = rings::begins(q, i);
    let from = 512 * o.slot();
    let end = from + 512;
    items::fetch_at(&store[from..end], at, n)
}
