// A task's slot and an object's slot: two types of one byte each, so that neither can stand for the other. The only place where a number is taken apart.
#![tactic(auto)]

ghost use Rattle.std.specs.Prelude.{◌≡◌};
ghost use Rattle.numbers.specs.Numbers.{task, object, is_idle};

#[derive(Clone, Copy, PartialEq, Eq, Debug)]
pub struct TaskSlot(pub u8);

#[derive(Clone, Copy, PartialEq, Eq, Debug)]
pub struct ObjSlot(pub u8);

impl TaskSlot {
    pub fn of(n: u8) -> TaskSlot
        ensures { result ≡ task n }
    {
        TaskSlot(n)
    }

    pub fn slot(self) -> usize
        ensures { result ≡ self.0 }
    {
        usize::from(self.0)
    }

    pub fn is_idle(self) -> bool
        ensures { result ≡ is_idle self }
    {
        self == TaskSlot(0)
    }
}

impl ObjSlot {
    pub fn of(n: u8) -> ObjSlot
        ensures { result ≡ object n }
    {
        ObjSlot(n)
    }

    pub fn slot(self) -> usize
        ensures { result ≡ self.0 }
    {
        usize::from(self.0)
    }
}
