// The two kinds of number that callers write and read.
ghost use Rattle.std.specs.Prelude.{◌≡◌};
ghost use Rattle.calls.specs.Named.{task_of, object_of};

use crate::{ObjNo, TaskNo};

impl TaskNo {
    pub fn of(n: u32) -> TaskNo
        ensures { result ≡ task_of n }
    {
        TaskNo(n)
    }

    pub fn number(self) -> u32
        ensures { result ≡ self.0 }
    {
        self.0
    }
}

impl ObjNo {
    pub fn of(n: u32) -> ObjNo
        ensures { result ≡ object_of n }
    {
        ObjNo(n)
    }

    pub fn number(self) -> u32
        ensures { result ≡ self.0 }
    {
        self.0
    }
}
