// Walks of the order and of the rows. They read columns: a Task made for each turn would cost more than the walk.
ghost use Rattle.std.specs.Prelude.{◌≡◌, ◌&&◌, None, eqb, slice_index_or, take};
ghost use Rattle.std.specs.List.{find};
ghost use Rattle.order.specs.Order.{listed, ordered};
ghost use Rattle.slots.specs.Leads.{is_who};
ghost use Rattle.slots.specs.Types.{waiters_of, those_satisfied_on};
ghost use Rattle.slots.specs.Values.{in_line};
ghost use Rattle.tasks.specs.Columns.{row_at, free_in};
ghost use Rattle.tasks.specs.Walks.{who_on, level_at, lead_in, line_in, head_or, lines_in, top_in, waited_in};

use crate::Tasks;
use crate::fine::waits;
use heights::Lines;
use numbers::{ObjSlot, TaskSlot};
use order::Order;
use slots::Lead;

// What a column says of `t`; 0 past the table, as of a free slot.
fn at(column: &[u8; 16], t: TaskSlot) -> u8
    ensures { result ≡ slice_index_or column.now t.0 0 }
{
    column.get(t.slot()).copied().unwrap_or(0)
}

// It is ready.
fn is_ready(state: &[u8; 16], t: TaskSlot) -> bool
    ensures { result ≡ eqb (slice_index_or state.now t.0 0) 1 }
{
    at(state, t) == 1
}

// It is ready, with priority `p`.
fn in_line(state: &[u8; 16], effective: &[u8; 16], t: TaskSlot, p: u8) -> bool
    ensures { result ≡ (eqb (slice_index_or state.now t.0 0) 1 && eqb (slice_index_or effective.now t.0 0) p) }
{
    is_ready(state, t) && at(effective, t) == p
}

// The first of them in the line of priority `p`.
fn first_in_line(
    tasks: &[TaskSlot],
    state: &[u8; 16],
    effective: &[u8; 16],
    p: u8,
) -> Option<TaskSlot>
    ensures { result ≡ find (λ t. eqb (slice_index_or state.now t.0 0) 1 && eqb (slice_index_or effective.now t.0 0) p) tasks.now }
{
    tasks
        .iter()
        .copied()
        .find(|&t| in_line(state, effective, t, p))
}

// The tasks that an order lists, of its places by themselves.
fn among(places: &[TaskSlot; 16], living: u8) -> &[TaskSlot]
    ensures { result.now ≡ take living places.now }
{
    &places[..usize::from(living).min(16)]
}

// The walks that soundness makes look into columns of their own: a table that is looked into by a number is kept in memory, and copied there.
impl Tasks {
    #[tactic(auto, unfolding(crate::specs::Columns::row_at))]
    pub(crate) fn level(self, t: TaskSlot) -> u8
        ensures { result ≡ level_at self t }
    {
        let effective = self.effective;
        at(&effective, t)
    }

    // It waits on `x`, and the bits satisfy it, where there are bits.
    #[tactic(auto, using(crate::proofs::StateTests::row_waits, crate::proofs::StateTests::row_satisfied))]
    fn waits_for(&self, t: TaskSlot, x: ObjSlot, bits: Option<u32>) -> bool
        ensures { result ≡ is_who (who_on x bits) (row_at self.now t.0).place }
    {
        let waits = waits(at(&self.state, t)) & (at(&self.object, t) == x.0);
        match bits {
            None => waits,
            Some(b) => waits && self.wants.get(t.slot()).satisfied(b),
        }
    }

    // The first, in the order, of the ready tasks of priority `p`.
    pub(crate) fn head(self, o: Order, p: u8) -> Option<TaskSlot>
        ensures { result ≡ find (λ t. in_line p (row_at self t.0)) (listed o) }
    {
        let state = self.state;
        let effective = self.effective;
        let places = o.places;
        first_in_line(among(&places, o.living), &state, &effective, p)
    }

    // The ready tasks of priority `p`, as they stand in the order.
    #[tactic(auto, using(lists::proofs::Folds::fold_none, lists::proofs::Folds::fold_more, lists::proofs::Folds::fold_all, crate::proofs::Heads::line_gathered, crate::proofs::StateTests::row_line))]
    pub fn line(&self, o: Order, p: u8) -> Order
        ensures { result ≡ ordered (line_in self.now p (listed o)) }
    {
        let mut line = Order::empty();
        for &t in o.listed() {
            if in_line(&self.state, &self.effective, t, p) {
                line.push(t);
            }
        }
        line
    }

    // The lines that the ready tasks of the order stand in.
    #[tactic(auto, using(lists::proofs::Folds::fold_none, lists::proofs::Folds::fold_more, lists::proofs::Folds::fold_all, crate::proofs::StateTests::row_ready), unfolding(crate::specs::Walks::lines_in, heights::specs::Heights::occupied, crate::specs::Columns::row_at))]
    fn lines(self, o: Order) -> Lines
        ensures { result ≡ lines_in self (listed o) }
    {
        let state = self.state;
        let effective = self.effective;
        let mut lines = Lines::none();
        let places = o.places;
        for &t in among(&places, o.living) {
            lines.note(is_ready(&state, t), at(&effective, t));
        }
        lines
    }

    // The highest occupied line of the order; 0 where nobody is ready.
    pub fn top(self, o: Order) -> u8
        ensures { result ≡ top_in self (listed o) }
    {
        self.lines(o).height()
    }

    // Who stands first in the highest occupied line; `u` where nobody is ready.
    #[tactic(auto, using(crate::proofs::Heads::head_found))]
    pub fn leader(self, o: Order, u: TaskSlot) -> TaskSlot
        ensures { result ≡ head_or (line_in self (top_in self (listed o)) (listed o)) u }
    {
        self.head(o, self.top(o)).unwrap_or(u)
    }

    // Some row waits on `o`.
    #[tactic(auto, using(lists::proofs::Turns::up_to_none, lists::proofs::Turns::up_to_more))]
    pub fn waits_on(self, o: ObjSlot) -> bool
        ensures { result ≡ waited_in self o }
    {
        let state = self.state;
        let object = self.object;
        let mut found = false;
        for i in 0..16 {
            found |= waits(state[i]) & (object[i] == o.0);
        }
        found
    }

    // The first, in the order, of the highest effective priority among those that wait on `x`, and that the bits satisfy, where there are bits.
    #[tactic(auto, using(lists::proofs::Folds::fold_none, lists::proofs::Folds::fold_more, lists::proofs::Folds::fold_all), unfolding(crate::specs::Walks::lead_in, slots::specs::Leads::better))]
    fn lead(&self, x: ObjSlot, bits: Option<u32>, o: Order) -> Option<Lead>
        ensures { result ≡ lead_in self.now (who_on x bits) (listed o) }
    {
        let mut best = None;
        for &t in o.listed() {
            if self.waits_for(t, x, bits) {
                best = Lead::over(best, t, self.level(t));
            }
        }
        best
    }

    // The first, likewise, of all that wait on `x`. Where no row does the order is not walked.
    pub fn waiter(self, x: ObjSlot, o: Order) -> Option<Lead>
        ensures { result ≡ lead_in self (waiters_of x) (listed o) }
    {
        if self.waits_on(x) {
            self.lead(x, None, o)
        } else {
            None
        }
    }

    // The first of those that the bits satisfy.
    pub fn satisfied(&self, x: ObjSlot, bits: u32, o: Order) -> Option<Lead>
        ensures { result ≡ lead_in self.now (those_satisfied_on x bits) (listed o) }
    {
        self.lead(x, Some(bits), o)
    }

    // The lowest free slot; 16 where there is none.
    pub fn free_slot(self) -> u8
        ensures { result ≡ free_in self }
    {
        lists::first_zero(self.state)
    }
}
