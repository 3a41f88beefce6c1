// How a priority comes about: given to the task, and lent along the chain of those who wait.
ghost use Rattle.std.specs.Prelude.{◌≡◌};
ghost use Rattle.rules.specs.Loans.{worked_out, new_priority};
ghost use Rattle.rules.specs.Steps.{may_lend};
ghost use Rattle.kernel.specs.Does.{Does};

use crate::Core;
use calls::Asked;
use numbers::TaskSlot;

// The call may change an own priority, a holder or a wait on a mutex.
#[tactic(auto, unfolding(rules::specs::Steps::may_lend))]
pub(crate) fn may_lend(a: Asked) -> bool
    ensures { result ≡ may_lend a }
{
    matches!(a.number, 2 | 3 | 5 | 15 | 16)
}

impl Core {
    #[tactic(auto, unfolding(rules::specs::Loans::new_priority))]
    pub(crate) fn new_priority(&mut self, t: TaskSlot, p: u8)
        ensures { Does self.old (λ s. new_priority s t p) self.new }
    {
        self.owned(t, p);
    }

    // Every task gets the effective priority that the rule gives it; ready tasks whose line changes move in order of slot.
    pub(crate) fn worked_out(&mut self)
        ensures { Does self.old worked_out self.new }
    {
        let by = self.objects.holders();
        let u = self.running;
        self.tasks.work_out(&mut self.order, by, u);
    }
}
