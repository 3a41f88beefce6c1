// The turn of a line in one go: the tasks that have had their turn go to the tail, in their order.
ghost use Rattle.std.specs.Prelude.{◌≡◌, take};
ghost use Rattle.lists.specs.Lists.{foldl};
ghost use Rattle.order.specs.Order.{listed, ordered, appended_to};
ghost use Rattle.order.specs.Turns.{less_those, turned_of, times_turned, head_after};

use crate::Order;
use numbers::TaskSlot;

impl Order {
    // The first `n` of those listed.
    fn first(&self, n: usize) -> &[TaskSlot]
        ensures { result.now ≡ take n (listed self.now) }
    {
        let listed = self.listed();
        &listed[..n.min(listed.len())]
    }

    // The first `n` of a line leave. They stand here as in the line, so the next one to leave is all that a task is compared with.
    #[tactic(auto, using(lists::proofs::Folds::fold_none, lists::proofs::Folds::fold_more, lists::proofs::Folds::fold_all))]
    fn remove_first(&mut self, line: &Order, n: usize)
        ensures { self.new ≡ ordered (less_those (listed self.old) (take n (listed line.now))) }
    {
        let all = *self;
        let leaving = line.first(n);
        let mut j = 0;
        *self = Order::empty();
        for &x in all.listed() {
            if j < leaving.len() && x == leaving[j] {
                j += 1;
            } else {
                self.push(x);
            }
        }
    }

    // The first `n` of a line come behind.
    #[tactic(auto, using(lists::proofs::Folds::fold_none, lists::proofs::Folds::fold_more, lists::proofs::Folds::fold_all))]
    fn push_first(&mut self, line: &Order, n: usize)
        ensures { self.new ≡ foldl appended_to self.old (take n (listed line.now)) }
    {
        for &x in line.first(n) {
            self.push(x);
        }
    }

    // The first `n` of a line go to the tail.
    #[tactic(auto, using(crate::proofs::Walks::appended_all))]
    fn turn_first(&mut self, line: &Order, n: usize)
        ensures { self.new ≡ turned_of self.old (take n (listed line.now)) }
    {
        self.remove_first(line, n);
        self.push_first(line, n);
    }

    // The head of a line goes to the tail, `n` times over.
    #[tactic(auto, using(crate::proofs::Walks::less_than_round, crate::proofs::Walks::more_rounds, crate::proofs::Walks::none_there))]
    pub fn turn(&mut self, line: &Order, n: usize)
        ensures { self.new ≡ times_turned self.old (listed line.now) n }
    {
        let all = line.listed().len();
        if n < all {
            self.turn_first(line, n);
            return;
        }
        self.turn_first(line, all);
        if all != 0 {
            self.turn_first(line, n % all);
        }
    }

    // Who heads the line after that; idle where nobody stands in it.
    pub fn head_after(&self, n: usize) -> TaskSlot
        ensures { result ≡ head_after (listed self.now) n }
    {
        let listed = self.listed();
        if listed.is_empty() {
            return TaskSlot::of(0);
        }
        listed[n % listed.len()]
    }
}
