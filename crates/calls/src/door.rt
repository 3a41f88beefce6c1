// The door: a number that a caller writes names the slot that has it now, or none; and a slot's number is what a caller reads.
ghost use Rattle.std.specs.Prelude.{◌≡◌};
ghost use Rattle.numbers.specs.Numbers.{task, object};
ghost use Rattle.calls.specs.Named.{task_of, object_of};
ghost use Rattle.calls.specs.Door.{slot_in, number_in, last_in, next_use, given_up, fresh_uses, uses_fine, without_task, without_object};

use crate::{ObjNo, TaskNo, Uses};
use numbers::{ObjSlot, TaskSlot};

// A number's slot is its remainder by 16, and its use what is left. No table has a slot 16.
fn slot(uses: &[u16; 16], n: u32) -> u8
    ensures { result ≡ slot_in uses.now n }
{
    let s = n % 16;
    if n / 16 == u32::from(uses[s as usize]) {
        s as u8
    } else {
        16
    }
}

fn number(uses: &[u16; 16], slot: u8) -> u32
    ensures { result ≡ number_in uses.now slot }
{
    let times = uses.get(usize::from(slot)).copied().unwrap_or(0);
    u32::from(slot) + 16 * u32::from(times)
}

// Whether a slot stands at its last use.
pub(crate) fn last(uses: &[u16; 16], slot: u8) -> bool
    ensures { result ≡ last_in uses.now slot }
{
    uses.get(usize::from(slot)).copied() == Some(65535)
}

// A slot at its last use is spent, which its table says.
fn next_use(times: u16) -> u16
    ensures { result ≡ next_use times }
{
    times.saturating_add(1)
}

fn give_up(uses: &mut [u16; 16], slot: usize)
    ensures { uses.new ≡ given_up uses.old slot }
{
    if slot < 16 {
        uses[slot] = next_use(uses[slot]);
    }
}

impl TaskNo {
    pub fn slot(self, uses: &[u16; 16]) -> TaskSlot
        ensures { result ≡ task (slot_in uses.now self.0) }
    {
        TaskSlot(slot(uses, self.0))
    }

    pub fn of_slot(uses: &[u16; 16], t: TaskSlot) -> TaskNo
        ensures { result ≡ task_of (number_in uses.now t.0) }
    {
        TaskNo(number(uses, t.0))
    }
}

impl ObjNo {
    pub fn slot(self, uses: &[u16; 16]) -> ObjSlot
        ensures { result ≡ object (slot_in uses.now self.0) }
    {
        ObjSlot(slot(uses, self.0))
    }

    pub fn of_slot(uses: &[u16; 16], o: ObjSlot) -> ObjNo
        ensures { result ≡ object_of (number_in uses.now o.0) }
    {
        ObjNo(number(uses, o.0))
    }
}

impl Uses {
    // Nothing was given up yet.
    #[tactic(auto, unfolding(crate::specs::Door::fresh_uses))]
    pub fn fresh() -> Uses
        ensures { result ≡ fresh_uses }
    {
        Uses {
            tasks: [0; 16],
            objects: [0; 16],
        }
    }

    // What stands in the slot is given up.
    pub fn give_up_task(&mut self, t: TaskSlot)
        ensures { self.new ≡ without_task self.old t }
    {
        give_up(&mut self.tasks, t.slot());
    }

    pub fn give_up_object(&mut self, o: ObjSlot)
        ensures { self.new ≡ without_object self.old o }
    {
        give_up(&mut self.objects, o.slot());
    }

    // All but idle's is what the types say already.
    pub fn fine(self) -> bool
        ensures { result ≡ uses_fine self }
    {
        self.tasks[0] == 0
    }
}
