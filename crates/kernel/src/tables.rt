// The fresh kernel, the rows of the two tables, and a kernel with one part changed.
ghost use Rattle.std.specs.Prelude.{◌≡◌};
ghost use Rattle.slots.specs.Values.{task_at, placed, owned};
ghost use Rattle.slots.specs.Kinds.{kind_at};
ghost use Rattle.rules.specs.Tables.{fresh, holds, with_task, with_object, with_tick, with_hold};
ghost use Rattle.kernel.specs.Stands.{core_of, kernel_of};
ghost use Rattle.kernel.specs.Does.{Reads, Does};

use crate::{Core, Kernel};
use calls::Uses;
use numbers::{ObjSlot, TaskSlot};
use objects::Objects;
use order::Order;
use slots::{Kind, Place, Task};
use tasks::Tasks;

impl Core {
    // Idle alone, tick 0, hold 0, no objects.
    #[tactic(auto, unfolding(crate::specs::Stands::core_of, rules::specs::Tables::fresh, order::specs::Order::ordered))]
    pub(crate) fn fresh() -> Core
        ensures { result ≡ core_of fresh }
    {
        let idle = TaskSlot::of(0);
        let mut order = Order::empty();
        order.push(idle);
        Core {
            tasks: Tasks::fresh(),
            objects: Objects::fresh(),
            order,
            running: idle,
            tick: 0,
            hold: 0,
            pended: 0,
        }
    }

    pub(crate) fn task(&self, t: TaskSlot) -> Task
        ensures { Reads self.now (λ s. task_at s.tasks t) result }
    {
        self.tasks.get(t)
    }

    pub(crate) fn kind(&self, o: ObjSlot) -> Kind
        ensures { Reads self.now (λ s. kind_at s.objects o) result }
    {
        self.objects.get(o)
    }

    pub(crate) fn placed(&mut self, t: TaskSlot, p: Place, n: u8)
        ensures { Does self.old (λ s. with_task s t (placed (task_at s.tasks t) p n)) self.new }
    {
        self.tasks.place(t, p, n);
    }

    pub(crate) fn owned(&mut self, t: TaskSlot, own: u8)
        ensures { Does self.old (λ s. with_task s t (owned (task_at s.tasks t) own)) self.new }
    {
        self.tasks.set_own(t, own);
    }

    pub(crate) fn with_object(&mut self, o: ObjSlot, kind: Kind)
        ensures { Does self.old (λ s. with_object s o kind) self.new }
    {
        self.objects.set(o, kind);
    }

    #[tactic(auto, unfolding(crate::specs::Stands::core_of))]
    pub(crate) fn with_tick(&mut self, n: u32)
        ensures { Does self.old (λ s. with_tick s n) self.new }
    {
        self.tick = n;
    }

    #[tactic(auto, unfolding(crate::specs::Stands::core_of))]
    pub(crate) fn with_hold(&mut self, h: u8, p: u16)
        ensures { Does self.old (λ s. with_hold s h p) self.new }
    {
        self.hold = h;
        self.pended = p;
    }

    pub(crate) fn holds(&self, t: TaskSlot) -> bool
        ensures { Reads self.now (λ s. holds s.objects t) result }
    {
        self.objects.holds(t)
    }
}

impl Kernel {
    // Idle alone, tick 0, hold 0, no objects, nothing given up yet.
    #[tactic(auto, unfolding(rules::specs::Tables::fresh))]
    pub fn fresh() -> Kernel
        ensures { result ≡ kernel_of fresh }
    {
        Kernel {
            core: Core::fresh(),
            uses: Uses::fresh(),
        }
    }
}
