// A kernel value made by hand, part by part, and the parts.
ghost use Rattle.std.specs.Prelude.{◌<◌};

use kernel::Kernel;
use numbers::{ObjSlot, TaskSlot};
use slots::{Kind, Place, Ring, Sort, Task, Wait, Want};
use std::io::{Print, Stdout};

pub(crate) fn task(place: Place, own: u8, effective: u8, outcome: u8) -> Task {
    Task {
        place,
        own,
        effective,
        outcome,
    }
}

pub(crate) fn ready(own: u8, effective: u8, outcome: u8) -> Task {
    task(Place::Ready, own, effective, outcome)
}

pub(crate) fn ring(capacity: u8, size: u8, first: u8, count: u8) -> Kind {
    Kind::Queue(Ring {
        capacity,
        size,
        first,
        count,
    })
}

pub(crate) fn held_by(n: u8) -> Kind {
    Kind::Mutex(Sort::Ordinary, Some(TaskSlot::of(n)))
}

pub(crate) fn recursive_held(n: u8, count: u8) -> Kind {
    Kind::Mutex(Sort::Recursive(count), Some(TaskSlot::of(n)))
}

fn wanting(o: u8, want: Want, wake: Option<u32>) -> Place {
    let object = ObjSlot::of(o);
    Place::Waiting(Wait { object, want }, wake)
}

// For its turn; for bits of an event group.
pub(crate) fn waiting(o: u8, wake: Option<u32>) -> Place {
    wanting(o, Want::OwnTurn, wake)
}

pub(crate) fn awaiting(o: u8, mask: u32, all: bool, wake: Option<u32>) -> Place {
    wanting(o, Want::Bits(mask, all, true), wake)
}

#[derive(Clone, Copy)]
pub(crate) struct Made {
    pub(crate) kernel: Kernel,
}

impl Made {
    pub(crate) fn fresh() -> Made {
        let kernel = Kernel::fresh();
        Made { kernel }
    }

    // Task 1 runs and holds mutex 2 for task 6; 2 is ready; 3 is delayed; 4 receives on queue 0; 5 sends on queue 1; 7 is suspended, and listed nowhere.
    pub(crate) fn parlour() -> Made {
        let mut made = Made::fresh()
            .task(1, ready(3, 5, 0))
            .task(2, ready(3, 3, 1))
            .task(3, task(Place::Delayed(10), 4, 4, 0))
            .task(4, task(waiting(0, Some(20)), 4, 4, 0))
            .task(5, task(waiting(1, None), 2, 2, 0))
            .task(6, task(waiting(2, Some(30)), 5, 5, 0))
            .task(7, task(Place::Suspended, 6, 6, 3))
            .object(0, ring(4, 8, 1, 0))
            .object(1, ring(2, 0, 0, 2))
            .object(2, held_by(1))
            .object(3, Kind::Mutex(Sort::Ordinary, None))
            .runs(1)
            .at(5);
        for t in 1..7 {
            made = made.listed(t);
        }
        made
    }

    // The parlour with event group 4, on which task 4 waits.
    pub(crate) fn gate(bits: u32, mask: u32, all: bool) -> Made {
        Made::parlour()
            .task(4, task(awaiting(4, mask, all, Some(20)), 4, 4, 0))
            .object(4, Kind::Group(bits))
    }

    pub(crate) fn task(mut self, t: u8, x: Task) -> Made {
        self.kernel.core.tasks.set(TaskSlot::of(t), x);
        self
    }

    pub(crate) fn object(mut self, o: u8, kind: Kind) -> Made {
        self.kernel.core.objects.set(ObjSlot::of(o), kind);
        self
    }

    pub(crate) fn runs(mut self, t: u8) -> Made {
        self.kernel.core.running = TaskSlot::of(t);
        self
    }

    pub(crate) fn at(mut self, tick: u32) -> Made {
        self.kernel.core.tick = tick;
        self
    }

    // What stood in a task's slot was given up so often.
    pub(crate) fn given_up(mut self, t: usize, times: u16) -> Made
        requires { t < 16 }
    {
        self.kernel.uses.tasks[t] = times;
        self
    }

    // The number `t` once more, at the end.
    pub(crate) fn listed(mut self, t: u8) -> Made {
        self.kernel.core.order.push(TaskSlot::of(t));
        self
    }

    pub(crate) fn unlisted(mut self, t: u8) -> Made {
        self.kernel.core.order.remove(TaskSlot::of(t));
        self
    }

    pub(crate) fn first_listed(mut self, t: u8) -> Made {
        self.kernel.core.order.to_front(TaskSlot::of(t));
        self
    }
}

// What is made, in words, and what the soundness test says of it.
pub(crate) fn say(out: Stdout, what: &str, made: Made) {
    let verdict = if made.kernel.sound() {
        "sound"
    } else {
        "not sound"
    };
    let _ = println!(out; "{what}: {verdict}");
}
