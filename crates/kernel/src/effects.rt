// The 23 calls, accepted: each does its row of the call table.
ghost use Rattle.std.specs.Prelude.{◌≡◌, ◌≤◌, true, false, ◌&&◌, length, ◌==◌, nat_lt, if◌then◌else◌};
ghost use Rattle.slots.specs.Kinds.{kind_at};
ghost use Rattle.rules.specs.Tables.{free_slot, free_object, with_object};
ghost use Rattle.rows.specs.Asking.{is, makes};
ghost use Rattle.rules.specs.Refusals.{new_slot};
ghost use Rattle.rows.specs.Applies.{size_differs, takes_full};
ghost use Rattle.numbers.specs.Numbers.{object};
ghost use Rattle.slots.specs.declared.Kind.TheVariants.{Unused, Spent as SpentObject, Mutex};
ghost use Rattle.slots.specs.Values.{free_task, spent_task};
ghost use Rattle.kernel.specs.Made.{new_object};
ghost use Rattle.rules.specs.Refusals.{later_row};
ghost use Rattle.rules.specs.Ticks.{ticked, held, released, advanced};
ghost use Rattle.rules.specs.Queues.{sent_to, received_from, store_sent_to, store_received_from};
ghost use Rattle.rules.specs.Effects.{created, deleted, suspended, resumed, delayed, removed, taken_from, taken, given_back, given, yielded, effect};
ghost use Rattle.rules.specs.Steps.{stored};
ghost use Rattle.kernel.specs.Stands.{shown_core};
ghost use Rattle.kernel.specs.Does.{Reads, Does, Firm, Turning, Reckons};

use crate::{Core, Store};
use calls::Asked;
use numbers::{ObjSlot, TaskSlot};
use slots::{Kind, Place, Ring, Sort, Task, Want};

// How many ticks pass.
fn so_many(a: Asked, pended: u16) -> u32
    ensures { result ≡ if is 18 a then a.ticks else pended }
{
    if a.number == 18 {
        a.ticks
    } else {
        u32::from(pended)
    }
}

// What a delete leaves in its slot, and what a remove does.
fn gone_task(last: bool) -> Task
    ensures { result ≡ if last then spent_task else free_task }
{
    let place = if last { Place::Spent } else { Place::Free };
    Task {
        place,
        own: 0,
        effective: 0,
        outcome: 0,
    }
}

fn gone_object(last: bool) -> Kind
    ensures { result ≡ if last then SpentObject else Unused }
{
    if last { Kind::Spent } else { Kind::Unused }
}

// What a make puts into its slot.
#[tactic(auto, unfolding(crate::specs::Made::new_object))]
fn new_object(a: Asked) -> Kind
    requires { (a.capacity ≤ 64) × (a.size ≤ 64) }
    ensures { result ≡ new_object a }
{
    match a.number {
        10 => Kind::Queue(Ring {
            capacity: a.capacity as u8,
            size: a.size as u8,
            first: 0,
            count: 0,
        }),
        11 => Kind::Mutex(Sort::Ordinary, None),
        19 => Kind::Mutex(Sort::Recursive(0), None),
        _ => Kind::Group(0),
    }
}

impl Core {
    fn create(&mut self, n: u8, p: u8)
        requires { Reads self.old (λ s. free_slot s.tasks) n }
        ensures { Does self.old (λ s. created s p) self.new }
    {
        let t = TaskSlot::of(n);
        self.tasks.set(t, Task::ready_at(p));
        self.order.to_tail(t);
    }

    fn delete(&mut self, t: TaskSlot, last: bool)
        ensures { Does self.old (λ s. deleted s t last) self.new }
    {
        self.tasks.set(t, gone_task(last));
        self.order.remove(t);
    }

    #[tactic(auto, unfolding(rules::specs::Effects::suspended))]
    fn suspend(&mut self, t: TaskSlot)
        ensures { Does self.old (λ s. suspended s t) self.new }
    {
        let x = self.task(t);
        if x.place.is_listed() {
            self.placed(t, Place::Suspended, x.broken_off().outcome);
            self.leaves(t);
        }
    }

    #[tactic(auto, unfolding(rules::specs::Effects::resumed))]
    fn resume(&mut self, t: TaskSlot)
        ensures { Does self.old (λ s. resumed s t) self.new }
    {
        let x = self.task(t);
        self.arrives(t, Place::Ready, x.outcome);
    }

    fn delay(&mut self, n: u32)
        ensures { Does self.old (λ s. delayed s n) self.new }
    {
        let u = self.running;
        if n == 0 {
            self.to_tail(u);
        } else {
            let wake = self.tick.wrapping_add(n);
            self.arrives(u, Place::Delayed(wake), 0);
        }
    }

    fn yields(&mut self)
        ensures { Does self.old yielded self.new }
    {
        let u = self.running;
        self.to_tail(u);
    }

    fn hold_deeper(&mut self)
        requires { (self.old.hold == 255) ≡ false }
        ensures { Does self.old held self.new }
    {
        self.with_hold(self.hold + 1, self.pended);
    }

    // Time passes: at the last release the pended ticks, in an advance those asked for, with their turns. Both here, so that the ticks stand in one place of the
    // compiled step.
    fn time_passes(&mut self, a: Asked)
        requires { (is 18 a ≡ true → Turning self.old) × (is 18 a ≡ false → (self.old.hold == 0) ≡ false) × Reckons self.old }
        ensures { Does self.old (λ s. if is 18 a then advanced s a.ticks else released s) self.new }
    {
        if 1 < self.hold {
            self.with_hold(self.hold - 1, self.pended);
            return;
        }
        let n = so_many(a, self.pended);
        self.with_hold(0, 0);
        self.ticks(n, a.number == 18);
    }

    // A make takes the slot `n`, a remove gives its object's up: one place for both, since each writes an object and nothing else.
    #[tactic(auto, unfolding(rules::specs::Effects::removed))]
    fn make_or_remove(&mut self, a: Asked, n: u8)
        requires { (is 12 a ≡ false → Reads self.old (λ s. free_object s.objects) n) × (a.capacity ≤ 64) × (a.size ≤ 64) }
        ensures { Does self.old (λ s. if is 12 a then removed s a.object a.last else with_object s (object (free_object s.objects)) (new_object a)) self.new }
    {
        if a.number == 12 {
            self.with_object(a.object, gone_object(a.last));
        } else {
            self.with_object(ObjSlot::of(n), new_object(a));
        }
    }

    fn send(&mut self, o: ObjSlot, w: u32, item: &[u8], store: &mut Store)
        requires { Firm self.old × (size_differs (length item.now) (kind_at (shown_core self.old).objects o) ≡ false) }
        ensures { Does self.old (λ s. sent_to s o (kind_at s.objects o) w) self.new
            × Reads self.old (λ s. store_sent_to s o (kind_at s.objects o) item.now store.old) store.new }
    {
        if let Kind::Queue(q) = self.kind(o) {
            self.send_to(o, q, w, item, store);
        }
    }

    fn receive(&mut self, o: ObjSlot, w: u32, store: &mut Store)
        requires { Firm self.old }
        ensures { Does self.old (λ s. received_from s o (kind_at s.objects o) w) self.new
            × Reads self.old (λ s. store_received_from s o (kind_at s.objects o) store.old) store.new }
    {
        if let Kind::Queue(q) = self.kind(o) {
            self.receive_from(o, q, w, store);
        }
    }

    // Who has it takes it once more; where another has it the caller waits; a free one is the caller's.
    fn take_mutex(&mut self, o: ObjSlot, m: Sort, h: Option<TaskSlot>, w: u32)
        requires { takes_full self.old.running (Mutex m h) ≡ false }
        ensures { Does self.old (λ s. taken_from s o (Mutex m h) w) self.new }
    {
        let u = self.running;
        match h {
            Some(t) if t == u => self.with_object(o, Kind::Mutex(m.counting(m.count() + 1), h)),
            Some(_) => self.wait_for(o, Want::OwnTurn, w),
            None => self.with_object(o, Kind::Mutex(m.counting(1), Some(u))),
        }
    }

    #[tactic(auto, unfolding(rules::specs::Effects::taken))]
    fn take(&mut self, o: ObjSlot, w: u32)
        requires { Firm self.old × (takes_full self.old.running (kind_at (shown_core self.old).objects o) ≡ false) }
        ensures { Does self.old (λ s. taken s o w) self.new }
    {
        if let Kind::Mutex(m, h) = self.kind(o) {
            self.take_mutex(o, m, h, w);
        }
    }

    // One off the count, which only a recursive one has; given for the last time, it is free, or the first waiter's.
    #[tactic(auto, unfolding(rules::specs::Lines::first, rules::specs::Waits::arrives, rules::specs::Lines::to_tail))]
    fn give_back(&mut self, o: ObjSlot, m: Sort, h: Option<TaskSlot>)
        ensures { Does self.old (λ s. given_back s o (Mutex m h)) self.new }
    {
        let n = m.count();
        if 1 < n {
            self.with_object(o, Kind::Mutex(m.counting(n - 1), h));
            return;
        }
        match self.first_waiter(o) {
            None => self.with_object(o, Kind::Mutex(m.counting(0), None)),
            Some(t) => {
                self.arrives(t, Place::Ready, 1);
                self.with_object(o, Kind::Mutex(m.counting(1), Some(t)));
            }
        }
    }

    #[tactic(auto, unfolding(rules::specs::Effects::given))]
    fn give(&mut self, o: ObjSlot)
        ensures { Does self.old (λ s. given s o) self.new }
    {
        if let Kind::Mutex(m, h) = self.kind(o) {
            self.give_back(o, m, h);
        }
    }

    fn tick_on(&mut self)
        requires { ((nat_lt 0 self.old.hold && self.old.pended == 65535) ≡ false) × Reckons self.old }
        ensures { Does self.old ticked self.new }
    {
        if 0 < self.hold {
            self.with_hold(self.hold, self.pended + 1);
        } else {
            self.one_tick();
            self.turned();
        }
    }

    // The call is one that no row of the table turns away; `n` is the slot that a create or make takes.
    #[tactic(auto, unfolding(rules::specs::Effects::effect, rules::specs::Steps::stored))]
    pub(crate) fn served(&mut self, a: Asked, n: u8, item: &[u8], store: &mut Store)
        requires { Firm self.old × (later_row (shown_core self.old) a (length item.now) (length store.old) ≡ 0) × (makes a ≡ true → Reads self.old (λ s. new_slot s a) n) }
        ensures { Does self.old (λ s. effect s a) self.new × Reads self.old (λ s. stored s a item.now store.old) store.new }
    {
        let number = a.number;
        match number {
            1 => self.create(n, a.priority as u8),
            2 => self.delete(a.task, a.last),
            3 => self.suspend(a.task),
            4 => self.resume(a.task),
            5 => self.new_priority(a.task, a.priority as u8),
            6 => self.delay(a.ticks),
            7 => self.yields(),
            8 => self.hold_deeper(),
            9 | 18 => self.time_passes(a),
            10..=12 | 19..=20 => self.make_or_remove(a, n),
            13 => self.send(a.object, a.wait, item, store),
            14 => self.receive(a.object, a.wait, store),
            15 => self.take(a.object, a.wait),
            16 => self.give(a.object),
            17 => self.tick_on(),
            21..=23 => self.event(a, store),
            _ => {}
        }
    }
}
