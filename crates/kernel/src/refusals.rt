// What the rows of the refusal table look at. The new slot, whether something is in use and whether a circle closes are searched once, for their calls alone.
ghost use Rattle.std.specs.Prelude.{if◌then◌else◌};
ghost use Rattle.rows.specs.Asking.{makes};
ghost use Rattle.rules.specs.Refusals.{new_slot, held_or_waited, in_use, seen};
ghost use Rattle.slots.specs.Kinds.{holder_of};
ghost use Rattle.rules.specs.Circles.{leads_to, closes_circle};
ghost use Rattle.kernel.specs.Does.{Reads, Firm};

use crate::Core;
use calls::Asked;
use numbers::ObjSlot;
use rows::Seen;
use slots::Kind;

impl Core {
    // The slot that a create or make takes; 16 where none is free, 0 for any other call.
    fn new_slot(&self, a: Asked) -> u8
        ensures { Reads self.now (λ s. if makes a then new_slot s a else 0) result }
    {
        if a.number == 1 {
            return self.tasks.free_slot();
        }
        if rows::makes(&a) {
            return self.objects.free_object();
        }
        0
    }

    // Whoever waits stands in the order, so it is enough to walk the rows.
    fn held_or_waited(&self, o: ObjSlot) -> bool
        requires { Firm self.now }
        ensures { Reads self.now (λ s. held_or_waited s o) result }
    {
        self.kind(o).is_held() || self.tasks.waits_on(o)
    }

    // A task to be deleted holds a mutex; an object to be removed is held or has waiters.
    #[tactic(auto, unfolding(rules::specs::Refusals::in_use))]
    fn used(&self, a: Asked) -> bool
        requires { Firm self.now }
        ensures { Reads self.now (λ s. in_use s a) result }
    {
        if a.number == 2 {
            return self.holds(a.task);
        }
        if a.number == 12 {
            return self.held_or_waited(a.object);
        }
        false
    }

    // The chain from the holder of a mutex leads back to the caller.
    fn leads_back(&self, x: Kind) -> bool
        requires { Firm self.now }
        ensures { Reads self.now (λ s. leads_to s.tasks s.objects (holder_of x) s.running) result }
    {
        match x {
            Kind::Mutex(_, holder) => match holder {
                None => false,
                Some(t) => {
                    let by = self.objects.holders();
                    self.tasks.reaches(by, t, self.running)
                }
            },
            _ => false,
        }
    }

    // A take that would close a circle. Of a mutex that nobody holds, or that the caller takes again, there is no chain to follow.
    #[tactic(auto, unfolding(rules::specs::Circles::closes_circle))]
    fn closes_circle(&self, a: Asked) -> bool
        requires { Firm self.now }
        ensures { Reads self.now (λ s. closes_circle s a) result }
    {
        if a.number == 15 {
            let x = self.kind(a.object);
            if x.recursive_by(self.running) {
                return false;
            }
            return self.leads_back(x);
        }
        false
    }

    pub(crate) fn seen(&self, a: Asked) -> Seen
        requires { Firm self.now }
        ensures { Reads self.now (λ s. seen s a) result }
    {
        Seen {
            place: self.task(a.task).place,
            kind: self.kind(a.object),
            new: self.new_slot(a),
            used: self.used(a),
            circle: self.closes_circle(a),
            running: self.running,
            hold: self.hold,
            pended: self.pended,
        }
    }
}
