// The step: any kernel value, any call, an item and a store of whatever length.
ghost use Rattle.std.specs.Prelude.{◌≡◌, true};
ghost use Rattle.calls.specs.Door.{task_no};
ghost use Rattle.calls.specs.Behind.{asked};
ghost use Rattle.calls.specs.Said.{said};
ghost use Rattle.rules.specs.Sound.{sound};
ghost use Rattle.rules.specs.Steps.{new_number, uses_after};
ghost use Rattle.kernel.specs.Stands.{kernel_of, shown};
ghost use Rattle.kernel.specs.Does.{Reads, answer_of};
ghost use Rattle.kernel.specs.Promises.{told_of, came, SoundSteps, Steps};

use crate::{Core, Kernel, Step};
use calls::{Answer, Asked, Call, ObjNo, Refusal, TaskNo, Uses};
use numbers::{ObjSlot, TaskSlot};

// The number of the slot `n` that a create or make took.
fn new_number(uses: &Uses, a: Asked, n: u8) -> u32
    ensures { result ≡ new_number uses.now a n }
{
    if a.number == 1 {
        return TaskNo::of_slot(&uses.tasks, TaskSlot::of(n)).number();
    }
    ObjNo::of_slot(&uses.objects, ObjSlot::of(n)).number()
}

// A refusal is answered by its number.
pub(crate) fn told(r: Result<Answer, Refusal>) -> Answer
    ensures { result ≡ told_of r }
{
    match r {
        Ok(answer) => answer,
        Err(refusal) => Answer::Refused(refusal.into()),
    }
}

impl Core {
    // A create or make answers with the number of its slot `n`; any other call waiting, exactly if the caller is now delayed or waits on an object.
    pub(crate) fn answered(&self, a: Asked, caller: TaskSlot, uses: &Uses, n: u8) -> Answer
        ensures { Reads self.now (answer_of a (new_number uses.now a n) caller) (said result) }
    {
        if rows::makes(&a) {
            return Answer::Made(new_number(uses, a, n));
        }
        if self.task(caller).place.is_blocked() {
            Answer::Waiting
        } else {
            Answer::Done
        }
    }
}

impl Kernel {
    // The number of the task that runs.
    pub fn runs(self) -> TaskNo
        ensures { result ≡ task_no self.uses self.core.running }
    {
        TaskNo::of_slot(&self.uses.tasks, self.core.running)
    }

    // A delete or remove gives its slot up; no other call changes the uses.
    #[tactic(auto, unfolding(rules::specs::Steps::uses_after))]
    fn give_up(&mut self, a: Asked)
        ensures { self.new ≡ record { core = self.old.core; uses = uses_after self.old.uses a } }
    {
        if a.number == 2 {
            self.uses.give_up_task(a.task);
        } else if a.number == 12 {
            self.uses.give_up_object(a.object);
        }
    }

    // The step of a kernel that is known to be sound: what a session of many calls uses.
    pub(crate) fn step_sound(
        &mut self,
        call: Call,
        item: &[u8],
        store: &mut [u8],
    ) -> Result<Answer, Refusal>
        requires { (sound (shown self.old) ≡ true) × (self.old ≡ kernel_of (shown self.old)) }
        ensures { SoundSteps self.old (asked self.old.uses call) item.now store.old (came self.new result) store.new }
    {
        // Row 2 stands first in the table: a store of another length is turned away, whatever else applies.
        let Some(store) = store.as_mut_array::<9216>() else {
            return Err(Refusal::StoreLength);
        };
        let a = call.asked(&self.uses);
        let s = self.core.seen(a);
        if let Some(refusal) = s.row(&a, item.len(), store.len()) {
            return Err(refusal);
        }
        let u = self.core.running;
        self.core.served(a, s.new, item, store);
        let answer = self.core.answered(a, u, &self.uses, s.new);
        if crate::loans::may_lend(a) {
            self.core.worked_out();
        }
        self.core.chosen();
        self.give_up(a);
        Ok(answer)
    }

    // The step of any kernel.
    fn step_any(&mut self, call: Call, item: &[u8], store: &mut [u8]) -> Result<Answer, Refusal>
        ensures { Steps self.old call item.now store.old (came self.new result) store.new }
    {
        if self.is_sound() {
            self.step_sound(call, item, store)
        } else {
            Err(Refusal::Unsound)
        }
    }

    pub fn step(mut self, call: Call, item: &[u8], store: &mut [u8]) -> Step
        ensures { Steps self call item.now store.old result store.new }
    {
        let answer = told(self.step_any(call, item, store));
        Step {
            kernel: self,
            answer,
        }
    }
}
