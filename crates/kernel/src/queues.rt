// Send to a queue and receive from one: the kernel's part, and the store's.
ghost use Rattle.std.specs.Prelude.{◌≡◌, ◌<◌, [], ◌∷◌, length};
ghost use Rattle.slots.specs.Leads.{whom};
ghost use Rattle.numbers.specs.declared.TaskSlot.{TaskSlot};
ghost use Rattle.slots.specs.Who.{waiters_of};
ghost use Rattle.rules.specs.Lines.{first};
ghost use Rattle.rules.specs.Queues.{outlet, sent, store_sent, refilled_by, store_refilled_by, received, store_received};
ghost use Rattle.rules.specs.Sentences.{RingFits};
ghost use Rattle.kernel.specs.Stands.{outlet_of};
ghost use Rattle.kernel.specs.Does.{Reads, Does, Firm};

use crate::{Core, Outlet, Store, parts, rings};
use numbers::{ObjSlot, TaskSlot};
use slots::{Kind, Place, Ring, Want};

impl Core {
    #[tactic(auto, unfolding(rules::specs::Queues::outlet))]
    fn outlet(&self, o: ObjSlot, q: Ring) -> Outlet
        ensures { Reads self.now (λ s. outlet s o q) (outlet_of result) }
    {
        match self.first_waiter(o) {
            Some(t) if q.count == 0 => Outlet::Waiter(t),
            _ => rings::room_or(q),
        }
    }

    #[tactic(auto, unfolding(rules::specs::Queues::sent, rules::specs::Queues::store_sent))]
    pub(crate) fn send_to(&mut self, o: ObjSlot, q: Ring, w: u32, item: &[u8], store: &mut Store)
        requires { (o.0 < 16) × RingFits q × Firm self.old × (length item.now ≡ q.size) }
        ensures { Does self.old (λ s. sent s o q w) self.new × Reads self.old (λ s. store_sent s o q item.now store.old) store.new }
    {
        let u = self.running;
        let n = item.len();
        match self.outlet(o, q) {
            Outlet::Waiter(t) => {
                parts::to_slip(t, item, n, store);
                self.arrives(t, Place::Ready, 1);
            }
            Outlet::Ring => {
                parts::to_ring(o, q, q.count, item, store);
                self.with_object(o, Kind::Queue(rings::one_more(q)));
            }
            Outlet::Caller => {
                parts::to_slip(u, item, n, store);
                self.wait_for(o, Want::OwnTurn, w);
            }
        }
    }

    // If a sender waits, the first waiter's item goes from its slip into the queue, and it is made ready.
    fn refilled(&mut self, o: ObjSlot, q: Ring, f: Option<TaskSlot>, store: &mut Store)
        requires { RingFits q × (o.0 < 16) × ((t : TaskSlot) → whom f ≡ t ∷ [] → t.0 < 16) }
        ensures { Does self.old (λ s. refilled_by s o q (whom f)) self.new × (store.new ≡ store_refilled_by o q (whom f) store.old) }
    {
        match f {
            None => self.with_object(o, Kind::Queue(q)),
            Some(t) => {
                let item = parts::of_slip(t, usize::from(q.size), store);
                parts::to_ring(o, q, q.count, &item, store);
                self.with_object(o, Kind::Queue(rings::one_more(q)));
                self.arrives(t, Place::Ready, 1);
            }
        }
    }

    // The first waiter, who has a slot.
    fn waiter(&self, o: ObjSlot) -> Option<TaskSlot>
        requires { Firm self.now }
        ensures { Reads self.now (λ s. first s (waiters_of o)) (whom result) × ((t : TaskSlot) → whom result ≡ t ∷ [] → t.0 < 16) }
    {
        self.first_waiter(o)
    }

    #[tactic(auto, unfolding(rules::specs::Queues::received, rules::specs::Queues::store_received))]
    pub(crate) fn receive_from(&mut self, o: ObjSlot, q: Ring, w: u32, store: &mut Store)
        requires { (o.0 < 16) × RingFits q × Firm self.old }
        ensures { Does self.old (λ s. received s o q w) self.new × Reads self.old (λ s. store_received s o q store.old) store.new }
    {
        if q.count == 0 {
            self.wait_for(o, Want::OwnTurn, w);
            return;
        }
        let u = self.running;
        let f = self.waiter(o);
        let rest = rings::one_less(q);
        let item = parts::of_ring(o, q, 0, store);
        parts::to_slip(u, &item, usize::from(q.size), store);
        self.refilled(o, rest, f, store);
    }
}
