// The wake ticks: how long until the next, and who is due.
ghost use Rattle.std.specs.Prelude.{◌≡◌, not, if◌then◌else◌};
ghost use Rattle.lists.specs.Lists.{all_below};
ghost use Rattle.tasks.specs.Columns.{row_at};
ghost use Rattle.order.specs.Order.{listed};
ghost use Rattle.slots.specs.Places.{ahead};
ghost use Rattle.tasks.specs.Dues.{timed, ended_of, due_in, until_in, wake_now, wait_ends, wake_in, wakes_in, woken};

use crate::Tasks;
use numbers::TaskSlot;
use order::Order;
use slots::Place;
use slots::places::ahead;

// The state has a wake tick.
fn timed(state: u8) -> bool
    ensures { result ≡ timed state }
{
    matches!(state, 2 | 3)
}

// How many ticks pass before the one on which a row is due.
fn away(state: u8, wake: u32, now: u32) -> u32
    ensures { result ≡ if timed state then ahead now wake else 4294967295 }
{
    if timed(state) {
        ahead(now, wake)
    } else {
        u32::MAX
    }
}

// With which outcome a task in this state is made ready when it is due.
fn ended(state: u8) -> Option<u8>
    ensures { result ≡ ended_of state }
{
    match state {
        2 => Some(1),
        3 => Some(2),
        _ => None,
    }
}

impl Tasks {
    // How many ticks pass before the one on which a task is next due.
    #[tactic(auto, using(lists::proofs::Turns::up_to_none, lists::proofs::Turns::up_to_more, crate::proofs::Wakes::until_is, crate::proofs::Lengths::full_of))]
    pub fn until_due(self, now: u32) -> u32
        ensures { result ≡ until_in now self }
    {
        let state = self.state;
        let wake = self.wake;
        let mut n = u32::MAX;
        for i in 0..16 {
            n = n.min(away(state[i], wake[i], now));
        }
        n
    }

    // Some row's wake tick is `now`, whether its state uses it or not.
    #[tactic(auto, unfolding(crate::specs::Dues::wake_now, lists::specs::Lists::any))]
    pub fn someone_due(self, now: u32) -> bool
        ensures { result ≡ wake_now self now }
    {
        self.wake.contains(&now)
    }

    // No wait ends at the tick `now`: of those that are due each was delayed.
    #[tactic(auto, using(lists::proofs::Turns::all_below_none, lists::proofs::Turns::all_below_more, crate::proofs::Wakes::ends_are))]
    pub fn waits_last(self, now: u32) -> bool
        ensures { result ≡ all_below 16 (λ i. not (wait_ends now (row_at self i).place)) }
    {
        let state = self.state;
        let wake = self.wake;
        let mut ok = true;
        for i in 0..16 {
            ok &= !((state[i] == 3) & (wake[i] == now));
        }
        ok
    }

    // Whether the task `t` is due, and with which outcome.
    #[tactic(auto, using(crate::proofs::Wakes::due_now, crate::proofs::Wakes::due_never, crate::proofs::Wakes::due_past))]
    fn due(&self, t: TaskSlot, now: u32) -> Option<u8>
        ensures { result ≡ due_in now self.now t }
    {
        let s = t.slot();
        if s < 16 && self.wake[s] == now {
            ended(self.state[s])
        } else {
            None
        }
    }

    // The task `t` is made ready, if it is due.
    #[tactic(auto, using(crate::proofs::Wakes::due_turn, crate::proofs::Wakes::other_turn))]
    fn wake_one(&mut self, order: &mut Order, t: TaskSlot, now: u32)
        ensures { woken self.new order.new ≡ wake_in now (woken self.old order.old) t }
    {
        if let Some(outcome) = self.due(t, now) {
            self.place(t, Place::Ready, outcome);
            order.to_tail(t);
        }
    }

    // The due are made ready. Whoever stands earlier in the order is made ready first: it lists the delayed and the waiting as they began.
    #[tactic(auto, using(lists::proofs::Folds::fold_none, lists::proofs::Folds::fold_more, lists::proofs::Folds::fold_all), unfolding(crate::specs::Dues::wakes_in))]
    pub fn wake_due(&mut self, order: &mut Order, now: u32)
        ensures { woken self.new order.new ≡ wakes_in now (woken self.old order.old) (listed order.old) }
    {
        let began = *order;
        for &t in began.listed() {
            self.wake_one(order, t, now);
        }
    }
}
