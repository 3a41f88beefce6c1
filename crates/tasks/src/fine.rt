// What soundness asks of the tasks, tested in numbers: no Task is made, so that the compiler does all sixteen rows at once.
ghost use Rattle.std.specs.Prelude.{◌≡◌, false, ◌&&◌, eqb, nat_lt, get_or};
ghost use Rattle.lists.specs.Lists.{all_below};
ghost use Rattle.order.specs.Order.{listed};
ghost use Rattle.tasks.specs.Columns.{row_at};
ghost use Rattle.tasks.specs.Masks.{mask_fine};
ghost use Rattle.tasks.specs.Walks.{level_at};
ghost use Rattle.tasks.specs.Known.{waits_state};
ghost use Rattle.tasks.specs.Fine.{row_fine, idle_if, idle_alone, wake_fine, rows_fine, wakes_fine, waiting_in, wanting_in, waits_at, heads_in, runs_in, Fine};

use crate::Tasks;
use numbers::TaskSlot;
use order::Order;

// The state has an object.
pub(crate) fn waits(s: u8) -> bool
    ensures { result ≡ waits_state s }
{
    (s == 3) | (s == 4)
}

// It waits for its turn.
fn turns(s: u8, f: u8) -> bool
    ensures { result ≡ (waits_state s && eqb f 0) }
{
    waits(s) & (f == 0)
}

#[tactic(auto, unfolding(crate::specs::Fine::row_fine))]
fn row_fine(
    s: u8,
    o: u8,
    f: u8,
    own: u8,
    level: u8,
    outcome: u8,
    n: u8,
    held: bool,
    idle: bool,
) -> bool
    ensures { result ≡ (idle_if idle s own level held && row_fine s o f own level outcome n held) }
{
    let waits = waits(s);
    let blocked = (s == 2) | waits;
    let listed = (s == 1) | blocked;
    let idles = !idle | ((s == 1) & (own == 0) & (level == 0) & !held);
    let known = (s <= 6) & (f <= 4) & (waits | ((o == 0) & (f == 0)));
    let ends = (outcome <= 3) & (!blocked | (outcome == 0));
    let free = (s == 0) | (s == 5);
    let fresh = !free | ((own == 0) & (level == 0) & (outcome == 0) & !held);
    idles & known & (n == u8::from(listed)) & (own <= 31) & ends & fresh
}

// A wake tick that is used is not the count, and one that is not used is 0.
#[tactic(auto, unfolding(crate::specs::Fine::wake_fine))]
fn wake_fine(s: u8, w: u32, tick: u32) -> bool
    ensures { result ≡ wake_fine s w tick }
{
    let timed = (s == 2) | (s == 3);
    if timed { w != tick } else { w == 0 }
}

// A mask is used only with flags.
fn mask_fine(m: u32, f: u8) -> bool
    ensures { result ≡ mask_fine m f }
{
    (f != 0) | (m == 0)
}

impl Tasks {
    // Idle is ready at priority 0 and holds nothing; asked of the first row among the others, it costs nothing more.
    #[tactic(auto, using(lists::proofs::Turns::all_below_none, lists::proofs::Turns::all_below_more))]
    fn rows_fine(self, stands: [u8; 16], holds: [bool; 16]) -> bool
        ensures { result ≡ (idle_alone (get_or holds 0 false) (row_at self 0) && all_below 16 (rows_fine self stands holds)) }
    {
        let state = self.state;
        let object = self.object;
        let flags = self.wants.flags;
        let own = self.own;
        let effective = self.effective;
        let outcome = self.outcome;
        let mut ok = true;
        for i in 0..16 {
            ok &= row_fine(
                state[i],
                object[i],
                flags[i],
                own[i],
                effective[i],
                outcome[i],
                stands[i],
                holds[i],
                i == 0,
            );
        }
        ok
    }

    #[tactic(auto, using(lists::proofs::Turns::all_below_none, lists::proofs::Turns::all_below_more))]
    fn wakes_fine(self, tick: u32) -> bool
        ensures { result ≡ all_below 16 (wakes_fine self tick) }
    {
        let state = self.state;
        let wake = self.wake;
        let masks = self.wants.mask;
        let flags = self.wants.flags;
        let mut ok = true;
        for i in 0..16 {
            ok &= wake_fine(state[i], wake[i], tick) & mask_fine(masks[i], flags[i]);
        }
        ok
    }

    // Each row is fine by itself, where it stands as often in the order as `stands` says, and holds a mutex or not as `holds` says. What is fine stands for the list that
    // it reads as.
    pub fn fine(self, tick: u32, stands: [u8; 16], holds: [bool; 16]) -> bool
        ensures { Fine self tick stands holds result }
    {
        self.rows_fine(stands, holds) & self.wakes_fine(tick)
    }

    // Whether somebody waits on an object.
    #[tactic(auto, using(lists::proofs::Turns::up_to_none, lists::proofs::Turns::up_to_more, crate::proofs::Fines::one_more), unfolding(crate::specs::Fine::waiting_in))]
    pub(crate) fn is_waiting(self) -> bool
        ensures { result ≡ nat_lt 0 (waiting_in self) }
    {
        let state = self.state;
        let mut any = false;
        for i in 0..16 {
            any |= waits(state[i]);
        }
        any
    }

    #[tactic(auto, using(lists::proofs::Turns::all_below_none, lists::proofs::Turns::all_below_more, crate::proofs::Fines::waits_are))]
    fn turns_fine(self, opens: [bool; 16], takes: [bool; 16], holder: [u8; 16]) -> bool
        ensures { result ≡ all_below 16 (waits_at self opens takes holder) }
    {
        let state = self.state;
        let object = self.object;
        let flags = self.wants.flags;
        let mut ok = true;
        for i in 0..16 {
            if turns(state[i], flags[i]) {
                let o = usize::from(object[i]);
                ok &= o < 16 && (opens[o] | (takes[o] & (usize::from(holder[o]) != i)));
            }
        }
        ok
    }

    // Each that waits for its turn waits on an object that is open, or taken by another. Where nobody waits nothing is asked.
    pub fn waits_fine(self, opens: [bool; 16], takes: [bool; 16], holder: [u8; 16]) -> bool
        ensures { result ≡ all_below 16 (waits_at self opens takes holder) }
    {
        if !self.is_waiting() {
            return true;
        }
        self.turns_fine(opens, takes, holder)
    }

    // How many want bits of an event group.
    #[tactic(auto, using(lists::proofs::Turns::up_to_none, lists::proofs::Turns::up_to_more), unfolding(crate::specs::Fine::wanting_in))]
    pub fn wanting(self) -> u8
        ensures { result ≡ wanting_in self }
    {
        let flags = self.wants.flags;
        let mut n = 0;
        for i in 0..16 {
            n += u8::from(flags[i] != 0);
        }
        n
    }

    // The task `u` heads its line.
    fn heads(self, o: Order, u: TaskSlot) -> bool
        ensures { result ≡ heads_in self (listed o) u }
    {
        self.head(o, self.level(u)) == Some(u)
    }

    // The running task `u` heads its line, and no higher line is occupied, unless `held`.
    pub fn runs_fine(self, o: Order, u: TaskSlot, held: bool) -> bool
        ensures { result ≡ runs_in self (listed o) u held }
    {
        self.heads(o, u) && (held || self.top(o) <= self.level(u))
    }
}
