// The table: a method for each row, and the first row that applies. A row that speaks of one call looks at the call's number first.
ghost use Rattle.std.specs.Prelude.{◌≡◌, if◌then◌else◌};
ghost use Rattle.calls.specs.Refusals.{number_of};
ghost use Rattle.rows.specs.Applies.{not_so_many, no_such_bits, out_of_range, names_none, size_differs, wrong_size, not_for_idle, not_with_hold, not_his};
ghost use Rattle.rows.specs.Applies.{his_already, count_full, not_suspended, is_full, is_empty, is_unmet, stops_at, must_wait, no_depth, no_tick};
ghost use Rattle.rows.specs.Applies.{first_row, table, number_or_0};

use crate::{Seen, asking};
use calls::{Asked, Names, Refusal};
use numbers::TaskSlot;
use slots::Kind;

fn not_so_many(a: &Asked) -> bool
    ensures { result ≡ not_so_many a.now }
{
    a.number == 18 && (a.ticks < 1 || 65535 < a.ticks)
}

// Only set, clear and wait, calls 21 to 23, have bits and flags.
fn no_such_bits(a: &Asked) -> bool
    ensures { result ≡ no_such_bits a.now }
{
    21 <= a.number
        && (16777215 < a.bits || 1 < a.all || 1 < a.clear || (a.number == 23 && a.bits == 0))
}

#[tactic(auto, unfolding(crate::specs::Applies::out_of_range))]
fn out_of_range(a: &Asked) -> bool
    ensures { result ≡ out_of_range a.now }
{
    31 < a.priority
        || 4294967295 <= a.ticks
        || not_so_many(a)
        || a.capacity < 1
        || 64 < a.capacity
        || 64 < a.size
        || 512 < a.capacity * a.size
        || no_such_bits(a)
}

fn size_differs(x: Kind, n: usize) -> bool
    ensures { result ≡ size_differs n x }
{
    match x {
        Kind::Queue(ring) => n != usize::from(ring.size),
        _ => false,
    }
}

fn is_full(x: Kind) -> bool
    ensures { result ≡ is_full x }
{
    match x {
        Kind::Queue(ring) => ring.count == ring.capacity,
        _ => false,
    }
}

fn is_empty(x: Kind) -> bool
    ensures { result ≡ is_empty x }
{
    match x {
        Kind::Queue(ring) => ring.count == 0,
        _ => false,
    }
}

fn is_unmet(a: &Asked, x: Kind) -> bool
    ensures { result ≡ is_unmet a.now x }
{
    match x {
        Kind::Group(bits) => !slots::wants::holds_of(bits, a.bits, a.all == 1),
        _ => false,
    }
}

fn stops_at(a: &Asked, t: TaskSlot, x: Kind) -> bool
    ensures { result ≡ stops_at a.now t x }
{
    match a.number {
        13 => is_full(x),
        14 => is_empty(x),
        15 => x.is_held() && !x.recursive_by(t),
        23 => is_unmet(a, x),
        _ => false,
    }
}

// This row's refusal, if it applies; else that of the rows after it.
fn row_or(refusal: Refusal, applies: bool, rest: Option<Refusal>) -> Option<Refusal>
    ensures { number_or_0 result ≡ if applies then number_of refusal else number_or_0 rest }
{
    if applies { Some(refusal) } else { rest }
}

impl Seen {
    #[tactic(auto, unfolding(crate::specs::Applies::names_none))]
    fn names_none(&self, a: &Asked) -> bool
        ensures { result ≡ names_none self.now a.now }
    {
        match a.names {
            Names::Nothing => false,
            Names::Task => self.place.is_free(),
            Names::Object => self.kind.is_unused(),
            Names::Queue => !self.kind.is_queue(),
            Names::Mutex => !self.kind.is_mutex(),
            Names::Group => !self.kind.is_group(),
        }
    }

    #[tactic(auto, unfolding(crate::specs::Applies::wrong_size))]
    fn wrong_size(&self, a: &Asked, n: usize) -> bool
        ensures { result ≡ wrong_size self.now a.now n }
    {
        a.number == 13 && size_differs(self.kind, n)
    }

    #[tactic(auto, unfolding(crate::specs::Applies::not_for_idle))]
    fn not_for_idle(&self, a: &Asked) -> bool
        ensures { result ≡ not_for_idle self.now a.now }
    {
        let of_idle = a.task.is_idle();
        (asking::stops(a) && of_idle)
            || (a.number == 5 && of_idle && a.priority != 0)
            || (asking::blocks(a) && self.running.is_idle())
    }

    #[tactic(auto, unfolding(crate::specs::Applies::not_with_hold))]
    fn not_with_hold(&self, a: &Asked) -> bool
        ensures { result ≡ not_with_hold self.now a.now }
    {
        0 < self.hold
            && (matches!(a.number, 6 | 7 | 18)
                || a.wait != 0
                || (asking::stops(a) && a.task == self.running))
    }

    #[tactic(auto, unfolding(crate::specs::Applies::not_his))]
    fn not_his(&self, a: &Asked) -> bool
        ensures { result ≡ not_his self.now a.now }
    {
        a.number == 16 && !self.kind.held_by(self.running)
    }

    #[tactic(auto, unfolding(crate::specs::Applies::his_already))]
    fn his_already(&self, a: &Asked) -> bool
        ensures { result ≡ his_already self.now a.now }
    {
        let u = self.running;
        a.number == 15 && self.kind.held_by(u) && !self.kind.recursive_by(u)
    }

    #[tactic(auto, unfolding(crate::specs::Applies::count_full))]
    fn count_full(&self, a: &Asked) -> bool
        ensures { result ≡ count_full self.now a.now }
    {
        a.number == 15 && self.kind.recursive_by(self.running) && self.kind.count() == 255
    }

    #[tactic(auto, unfolding(crate::specs::Applies::not_suspended))]
    fn not_suspended(&self, a: &Asked) -> bool
        ensures { result ≡ not_suspended self.now a.now }
    {
        a.number == 4 && !self.place.is_suspended()
    }

    #[tactic(auto, unfolding(crate::specs::Applies::must_wait))]
    fn must_wait(&self, a: &Asked) -> bool
        ensures { result ≡ must_wait self.now a.now }
    {
        a.wait == 0 && stops_at(a, self.running, self.kind)
    }

    #[tactic(auto, unfolding(crate::specs::Applies::no_depth))]
    fn no_depth(&self, a: &Asked) -> bool
        ensures { result ≡ no_depth self.now a.now }
    {
        (a.number == 8 && self.hold == 255) || (a.number == 9 && self.hold == 0)
    }

    #[tactic(auto, unfolding(crate::specs::Applies::no_tick))]
    fn no_tick(&self, a: &Asked) -> bool
        ensures { result ≡ no_tick self.now a.now }
    {
        a.number == 17 && 0 < self.hold && self.pended == 65535
    }

    // The first row that applies, of rows 2 to 18. They are asked from the last to the first. No row is passed over: which one applies cannot be foretold, and most calls
    // pass them all.
    #[tactic(auto, unfolding(crate::specs::Applies::table, crate::specs::Applies::none_free))]
    pub fn row(&self, a: &Asked, item: usize, store: usize) -> Option<Refusal>
        ensures { number_or_0 result ≡ first_row (table self.now a.now item store) }
    {
        let row = row_or(Refusal::NoTick, self.no_tick(a), None);
        let row = row_or(Refusal::NoDepth, self.no_depth(a), row);
        let row = row_or(Refusal::MustWait, self.must_wait(a), row);
        let row = row_or(Refusal::Circle, self.circle, row);
        let row = row_or(Refusal::NotSuspended, self.not_suspended(a), row);
        let row = row_or(Refusal::CountFull, self.count_full(a), row);
        let row = row_or(Refusal::HisAlready, self.his_already(a), row);
        let row = row_or(Refusal::NotHis, self.not_his(a), row);
        let row = row_or(Refusal::InUse, self.used, row);
        let row = row_or(Refusal::NoneFree, self.new == 16, row);
        let row = row_or(Refusal::NotWithHold, self.not_with_hold(a), row);
        let row = row_or(Refusal::NotForIdle, self.not_for_idle(a), row);
        let row = row_or(Refusal::WrongSize, self.wrong_size(a, item), row);
        let row = row_or(Refusal::NamesNone, self.names_none(a), row);
        let row = row_or(Refusal::OutOfRange, out_of_range(a), row);
        row_or(Refusal::StoreLength, store != 9216, row)
    }
}
