// Whether a kernel value is sound: the order walked once, then each table, column by column; nothing is searched for each slot.
ghost use Rattle.std.specs.Prelude.{◌≡◌, ◌*◌, min, true, length};
ghost use Rattle.lists.specs.Lists.{all_below};
ghost use Rattle.tasks.specs.Fine.{wanting_in};
ghost use Rattle.kernel.specs.Waited.{awaits_at};
ghost use Rattle.rules.specs.Sound.{counted, sound};
ghost use Rattle.kernel.specs.Stands.{core_of, kernel_of, shown_core, shown};

use crate::{Core, Kernel};
use numbers::TaskSlot;
use slots::{Place, Want};

impl Core {
    // Who waits for bits may wait for them where it does.
    fn await_fine(self, t: TaskSlot) -> bool
        ensures { result ≡ awaits_at self.tasks self.objects t.0 }
    {
        let x = self.tasks.get(t);
        let p = x.place;
        match p {
            Place::Waiting(y, _) => match y.want {
                Want::Bits(m, all, _) => self.objects.get(y.object).awaits_bits(m, all),
                Want::OwnTurn => true,
            },
            _ => true,
        }
    }

    // A walk over as many as there may be.
    fn each_await_fine(self, n: usize) -> bool
        requires { n ≡ min 16 (16 * wanting_in self.tasks) }
        ensures { result ≡ all_below 16 (awaits_at self.tasks self.objects) }
    {
        let mut ok = true;
        for i in 0..n {
            ok &= self.await_fine(TaskSlot::of(i as u8));
        }
        ok
    }

    // Where nobody wants bits there is nothing to walk.
    fn awaits_fine(self) -> bool
        ensures { result ≡ all_below 16 (awaits_at self.tasks self.objects) }
    {
        let n = lists::bound(self.tasks.wanting());
        if n == 0 {
            return true;
        }
        self.each_await_fine(n)
    }

    // What the types say already: the order's places, and the ranges of tick, hold and pended.
    fn shaped(self) -> bool
        ensures { (result ≡ true) × (length self.order.places ≡ 16) × (counted self.tick self.hold self.pended ≡ true) }
    {
        true
    }

    pub(crate) fn fine(self) -> bool
        ensures { (result ≡ sound (shown_core self)) × (result ≡ true → self ≡ core_of (shown_core self)) }
    {
        let o = self.order;
        let walk = o.tallied();
        let tallies = walk.tallies;
        let runs = self.tasks.runs_fine(o, self.running, 0 < self.hold);
        let tidy = (o.living <= 16) & (walk.numbers & o.zeros());
        let pends = (0 < self.hold) | (self.pended == 0);
        let holdings = self.objects.holdings();
        let held = holdings.held;
        let open = holdings.open;
        let taken = holdings.taken;
        let holder = holdings.holder;
        let rows = self.tasks.fine(self.tick, tallies, held);
        let turns = self.tasks.waits_fine(open, taken, holder);
        // Asked last: here alone the test branches, and by now what it has found is one answer.
        let by = holdings.by;
        let levels = self.tasks.levels_fine(by);
        let waits = turns & self.awaits_fine();
        self.shaped() & (rows & (waits & (levels & holdings.fine))) & (runs & (tidy & pends))
    }
}

impl Kernel {
    // By value, as all that is asked below, so that sixteen rows are read at once.
    pub fn sound(self) -> bool
        ensures { (result ≡ sound (shown self)) × (result ≡ true → self ≡ kernel_of (shown self)) }
    {
        self.core.fine() & self.uses.fine()
    }

    // The same of the kernel where it stands, which a step then writes.
    pub(crate) fn is_sound(&self) -> bool
        ensures { (result ≡ sound (shown self.now)) × (result ≡ true → self.now ≡ kernel_of (shown self.now)) }
    {
        self.sound()
    }
}
