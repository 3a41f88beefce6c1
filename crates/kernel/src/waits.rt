// How a task is made ready, and how the caller begins to wait.
ghost use Rattle.std.specs.Prelude.{◌≡◌};
ghost use Rattle.rules.specs.Waits.{wake_of, arrives, wait_for};
ghost use Rattle.kernel.specs.Does.{Does};

use crate::Core;
use numbers::{ObjSlot, TaskSlot};
use slots::{Place, Wait, Want};

// A wait of 4,294,967,295 is for ever, and has no wake tick.
fn wake_of(now: u32, w: u32) -> Option<u32>
    ensures { result ≡ wake_of now w }
{
    if 4294967295 <= w {
        None
    } else {
        Some(now.wrapping_add(w))
    }
}

impl Core {
    // Made ready, or begins a delay or a wait: at the tail of its line, last in the list.
    pub(crate) fn arrives(&mut self, t: TaskSlot, p: Place, n: u8)
        ensures { Does self.old (λ s. arrives s t p n) self.new }
    {
        self.tasks.place(t, p, n);
        self.order.to_tail(t);
    }

    pub(crate) fn wait_for(&mut self, object: ObjSlot, want: Want, w: u32)
        ensures { Does self.old (λ s. wait_for s object want w) self.new }
    {
        let u = self.running;
        let wake = wake_of(self.tick, w);
        self.arrives(u, Place::Waiting(Wait { object, want }, wake), 0);
    }
}
