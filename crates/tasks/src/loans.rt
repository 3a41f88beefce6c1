// The effective priorities, worked out by the chains of waits.
ghost use Rattle.std.specs.Prelude.{◌<◌, ◌≡◌, ◌&&◌, eqb, get_or, if◌then◌else◌};
ghost use Rattle.lists.specs.Lists.{all_below, up_to};
ghost use Rattle.tasks.specs.Columns.{row_at};
ghost use Rattle.tasks.specs.Dues.{woken};
ghost use Rattle.tasks.specs.Known.{waits_state};
ghost use Rattle.tasks.specs.Loans.{levels_in, ended_in, reaches_in, moved, level_in, OntosAre, LevelsAre, Worked};

use crate::Tasks;
use crate::fine::waits;
use chains::AllLent;
use numbers::TaskSlot;
use order::Order;

// The object that a row waits on; 16 where it waits on none.
fn onto(state: u8, object: u8) -> u8
    ensures { result ≡ if waits_state state then object else 16 }
{
    if waits(state) { object } else { 16 }
}

// Whose level has changed goes to the tail of its new line; the running task `r` goes to the front.
fn move_in(order: &mut Order, t: TaskSlot, r: TaskSlot)
    ensures { order.new ≡ moved order.old t r }
{
    if t == r {
        order.to_front(t);
    } else {
        order.to_tail(t);
    }
}

impl Tasks {
    // The object that each row waits on.
    #[tactic(auto, using(crate::proofs::Worked::ontos_end))]
    fn ontos(self) -> [u8; 16]
        ensures { OntosAre self result }
    {
        let state = self.state;
        let object = self.object;
        let mut out = [16; 16];
        for i in 0..16 {
            out[i] = onto(state[i], object[i]);
        }
        out
    }

    // The level of each task, where `by` has the holder of each object, and whether every chain ends. Where nobody waits on an object each has its own, and there is no
    // chain to go along. (Compiled into its callers, so that the table is not copied for it.)
    #[inline(always)]
    fn levels(self, by: [u8; 16]) -> AllLent
        ensures { LevelsAre self by result }
    {
        let own = self.own;
        if !self.is_waiting() {
            return AllLent {
                levels: own,
                ended: true,
            };
        }
        chains::levels(own, self.ontos(), by, 16)
    }

    // Each task is at its level.
    #[tactic(auto, using(crate::proofs::Worked::at_levels_is, crate::proofs::Lengths::full_of))]
    fn at_levels(self, levels: [u8; 16]) -> bool
        ensures { result ≡ all_below 16 (λ n. eqb (row_at self n).effective (get_or levels n 0)) }
    {
        self.effective == levels
    }

    // Each task is at its level, and no chain leads back to where it began.
    pub fn levels_fine(self, by: [u8; 16]) -> bool
        ensures { result ≡ (ended_in self by && all_below 16 (λ n. eqb (row_at self n).effective (get_or (levels_in self by) n 0))) }
    {
        // Asked here, so that where nobody waits nothing is called.
        if !self.is_waiting() {
            return self.at_levels(self.own);
        }
        let lent = self.levels(by);
        lent.ended & self.at_levels(lent.levels)
    }

    // Whether the chain from the task h leads to u.
    #[tactic(auto, using(crate::proofs::Worked::reaches_is, crate::proofs::Lengths::full_of))]
    pub fn reaches(self, by: [u8; 16], h: TaskSlot, u: TaskSlot) -> bool
        ensures { result ≡ reaches_in self by h.0 u.0 }
    {
        chains::reaches(self.ontos(), by, h.0, u.slot())
    }

    // The row `n` gets its level.
    #[tactic(auto, using(crate::proofs::Worked::level_keeps, crate::proofs::Worked::level_moves, crate::proofs::Worked::level_stays), unfolding(crate::specs::Columns::levelled_at))]
    fn set_level(&mut self, order: &mut Order, levels: &[u8; 16], n: u8, r: TaskSlot)
        requires { n < 16 }
        ensures { woken self.new order.new ≡ level_in r levels.now (woken self.old order.old) n }
    {
        let i = usize::from(n);
        if self.effective[i] == levels[i] {
            return;
        }
        self.effective[i] = levels[i];
        if self.state[i] == 1 {
            move_in(order, TaskSlot::of(n), r);
        }
    }

    // All sixteen, from the lowest slot on.
    #[tactic(auto, using(lists::proofs::Turns::up_to_none, lists::proofs::Turns::up_to_more))]
    fn set_levels(&mut self, order: &mut Order, levels: [u8; 16], r: TaskSlot)
        ensures { woken self.new order.new ≡ up_to (level_in r levels) 16 (woken self.old order.old) }
    {
        for n in 0..16 {
            self.set_level(order, &levels, n, r);
        }
    }

    // Every task gets its level. Where each is at it already there is nothing to walk.
    #[tactic(auto, unfolding(crate::specs::Loans::worked_in))]
    pub fn work_out(&mut self, order: &mut Order, by: [u8; 16], r: TaskSlot)
        ensures { Worked self.old order.old by r (woken self.new order.new) }
    {
        let levels = self.levels(by).levels;
        if !self.at_levels(levels) {
            self.set_levels(order, levels, r);
        }
    }
}
