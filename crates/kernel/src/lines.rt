// Who stands first, who runs, and moves within the order.
ghost use Rattle.slots.specs.Who.{waiters_of};
ghost use Rattle.slots.specs.Leads.{whom};
ghost use Rattle.rules.specs.Lines.{first, chosen, to_tail, leaves};
ghost use Rattle.kernel.specs.Does.{Reads, Does};

use crate::Core;
use numbers::{ObjSlot, TaskSlot};

impl Core {
    // The first, in the order, of the highest effective priority among those that wait on `o`.
    pub(crate) fn first_waiter(&self, o: ObjSlot) -> Option<TaskSlot>
        ensures { Reads self.now (λ s. first s (waiters_of o)) (whom result) }
    {
        Some(self.tasks.waiter(o, self.order)?.task)
    }

    // With no hold, the head of the highest occupied line runs. No line changes: who is overtaken stays at the head of its own.
    pub(crate) fn chosen(&mut self)
        ensures { Does self.old chosen self.new }
    {
        if self.hold == 0 {
            self.running = self.tasks.leader(self.order, self.running);
        }
    }

    #[tactic(auto, unfolding(rules::specs::Lines::to_tail, crate::specs::Stands::core_of))]
    pub(crate) fn to_tail(&mut self, t: TaskSlot)
        ensures { Does self.old (λ s. to_tail s t) self.new }
    {
        self.order.to_tail(t);
    }

    #[tactic(auto, unfolding(rules::specs::Lines::leaves, crate::specs::Stands::core_of))]
    pub(crate) fn leaves(&mut self, t: TaskSlot)
        ensures { Does self.old (λ s. leaves s t) self.new }
    {
        self.order.remove(t);
    }
}
