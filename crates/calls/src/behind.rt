// A call behind the door.
ghost use Rattle.std.specs.Prelude.{◌≡◌};
ghost use Rattle.calls.specs.Door.{last_in, task_slot, obj_slot};
ghost use Rattle.calls.specs.Behind.{asked, nothing, on_task, on_object, on_group};

use crate::{Asked, Call, Names, ObjNo, TaskNo, Uses, door};
use numbers::{ObjSlot, TaskSlot};

impl Asked {
    // A call that names nothing: its slots are 16, which no table has.
    fn nothing(number: u8) -> Asked
        ensures { result ≡ nothing number 0 0 1 0 }
    {
        Asked {
            number,
            names: Names::Nothing,
            task: TaskSlot(16),
            object: ObjSlot(16),
            last: false,
            priority: 0,
            ticks: 0,
            capacity: 1,
            size: 0,
            wait: 0,
            bits: 0,
            all: 0,
            clear: 0,
        }
    }

    fn on_task(number: u8, n: TaskNo, priority: u32, uses: &Uses) -> Asked
        ensures { result ≡ on_task number (task_slot uses.now n) (last_in uses.now.tasks (task_slot uses.now n).0) priority }
    {
        let task = n.slot(&uses.tasks);
        Asked {
            names: Names::Task,
            task,
            last: door::last(&uses.tasks, task.0),
            priority,
            ..Asked::nothing(number)
        }
    }

    fn on_object(number: u8, names: Names, n: ObjNo, wait: u32, uses: &Uses) -> Asked
        ensures { result ≡ on_object number names (obj_slot uses.now n) (last_in uses.now.objects (obj_slot uses.now n).0) wait }
    {
        let object = n.slot(&uses.objects);
        Asked {
            names,
            object,
            last: door::last(&uses.objects, object.0),
            wait,
            ..Asked::nothing(number)
        }
    }

    // `bits` are those to set or to clear, or the mask.
    fn on_group(
        number: u8,
        n: ObjNo,
        bits: u32,
        all: u32,
        clear: u32,
        wait: u32,
        uses: &Uses,
    ) -> Asked
        ensures { result ≡ on_group number (obj_slot uses.now n) (last_in uses.now.objects (obj_slot uses.now n).0) bits all clear wait }
    {
        Asked {
            bits,
            all,
            clear,
            ..Asked::on_object(number, Names::Group, n, wait, uses)
        }
    }
}

impl Call {
    // Each argument in its field, and slots for the numbers of tasks and objects.
    #[tactic(auto, unfolding(crate::specs::Behind::asked))]
    pub fn asked(self, uses: &Uses) -> Asked
        ensures { result ≡ asked uses.now self }
    {
        match self {
            Call::Create(priority) => Asked {
                priority,
                ..Asked::nothing(1)
            },
            Call::Delete(t) => Asked::on_task(2, t, 0, uses),
            Call::Suspend(t) => Asked::on_task(3, t, 0, uses),
            Call::Resume(t) => Asked::on_task(4, t, 0, uses),
            Call::SetPriority(t, priority) => Asked::on_task(5, t, priority, uses),
            Call::Delay(ticks) => Asked {
                ticks,
                ..Asked::nothing(6)
            },
            Call::Yield => Asked::nothing(7),
            Call::Hold => Asked::nothing(8),
            Call::Release => Asked::nothing(9),
            Call::MakeQueue(capacity, size) => Asked {
                capacity,
                size,
                ..Asked::nothing(10)
            },
            Call::MakeMutex => Asked::nothing(11),
            Call::Remove(o) => Asked::on_object(12, Names::Object, o, 0, uses),
            Call::Send(o, wait) => Asked::on_object(13, Names::Queue, o, wait, uses),
            Call::Receive(o, wait) => Asked::on_object(14, Names::Queue, o, wait, uses),
            Call::Take(o, wait) => Asked::on_object(15, Names::Mutex, o, wait, uses),
            Call::Give(o) => Asked::on_object(16, Names::Mutex, o, 0, uses),
            Call::Tick => Asked::nothing(17),
            Call::Advance(n) => Asked {
                ticks: n,
                ..Asked::nothing(18)
            },
            Call::MakeRecursive => Asked::nothing(19),
            Call::MakeGroup => Asked::nothing(20),
            Call::SetBits(o, bits) => Asked::on_group(21, o, bits, 0, 0, 0, uses),
            Call::ClearBits(o, bits) => Asked::on_group(22, o, bits, 0, 0, 0, uses),
            Call::Await(o, mask, all, clear, wait) => Asked::on_group(
                23, o, mask, all, clear, wait, uses,
            ),
        }
    }
}
