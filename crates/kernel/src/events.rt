// Event groups: set, clear and wait.
ghost use Rattle.std.specs.Prelude.{◌≡◌, ◌<◌, ◌≤◌, []};
ghost use Rattle.slots.specs.Kinds.{kind_at};
ghost use Rattle.slots.specs.Leads.{whom};
ghost use Rattle.slots.specs.Values.{task_at};
ghost use Rattle.slots.specs.Wants.{clears, want_in};
ghost use Rattle.slots.specs.Who.{those_satisfied_on};
ghost use Rattle.rules.specs.Lines.{first};
ghost use Rattle.rules.specs.Effects.{effect};
ghost use Rattle.rules.specs.Steps.{stored};
ghost use Rattle.rules.specs.Events.{woken_by, all_woken, clears_of, bits_set, store_set, want_by, awaited, store_awaited};
ghost use Rattle.rules.specs.Events.{set_on, store_set_on, cleared_on, awaited_on, store_awaited_on};
ghost use Rattle.kernel.specs.Does.{Reads, Does, Firm};

use crate::{Core, Store, parts};
use calls::Asked;
use numbers::{ObjSlot, TaskSlot};
use slots::{Kind, Place, Want};

// What a wait asks for.
fn want_by(a: Asked) -> Want
    ensures { result ≡ want_by a }
{
    Want::Bits(a.bits, a.all == 1, a.clear == 1)
}

impl Core {
    // The first waiter of those on `o` that the bits satisfy.
    fn first_satisfied(&self, o: ObjSlot, bits: u32) -> Option<TaskSlot>
        ensures { Reads self.now (λ s. first s (those_satisfied_on o bits)) (whom result) }
    {
        Some(self.tasks.satisfied(o, bits, self.order)?.task)
    }

    // What the task asks to have cleared.
    fn clears(&self, t: TaskSlot) -> u32
        ensures { Reads self.now (λ s. clears (want_in (task_at s.tasks t).place)) result }
    {
        self.task(t).place.want().clears()
    }

    // Everyone on `o` that the bits satisfy is woken, the first waiter first, and has them in its slip; the answer is what the woken ask to have cleared.
    // All are judged before anything is cleared.
    fn rouse(&mut self, o: ObjSlot, bits: u32, store: &mut Store) -> u32
        requires { Firm self.old }
        ensures { Does self.old (λ s. all_woken s (woken_by s o bits)) self.new × Reads self.old (λ s. clears_of s.tasks (woken_by s o bits)) result
            × Reads self.old (λ s. store_set s o bits store.old) store.new }
    {
        let four = lists::four_bytes(bits);
        let mut clears = 0u32;
        for _ in 0..16u8 {
            let Some(t) = self.first_satisfied(o, bits) else {
                break;
            };
            clears = clears | self.clears(t);
            parts::to_slip(t, &four, 4, store);
            self.arrives(t, Place::Ready, 1);
        }
        clears
    }

    // The bits of the call are joined in already.
    #[tactic(auto, unfolding(rules::specs::Events::bits_set))]
    fn set_bits(&mut self, o: ObjSlot, bits: u32, store: &mut Store)
        requires { Firm self.old }
        ensures { Does self.old (λ s. bits_set s o bits) self.new × Reads self.old (λ s. store_set s o bits store.old) store.new }
    {
        let clears = self.rouse(o, bits, store);
        let left = slots::wants::cleared(bits, clears);
        self.with_object(o, Kind::Group(left));
    }

    fn set_on(&mut self, o: ObjSlot, m: u32, store: &mut Store)
        requires { Firm self.old }
        ensures { Does self.old (λ s. set_on s o (kind_at s.objects o) m) self.new × Reads self.old (λ s. store_set_on s o (kind_at s.objects o) m store.old) store.new }
    {
        if let Kind::Group(b) = self.kind(o) {
            self.set_bits(o, b | m, store);
        }
    }

    fn clear_on(&mut self, o: ObjSlot, m: u32)
        ensures { Does self.old (λ s. cleared_on s o (kind_at s.objects o) m) self.new }
    {
        if let Kind::Group(b) = self.kind(o) {
            self.with_object(o, Kind::Group(slots::wants::cleared(b, m)));
        }
    }

    // Satisfied at once, the caller does not wait: its slip has the bits as they were judged, and then its clear comes.
    #[tactic(auto, unfolding(rules::specs::Events::awaited, rules::specs::Events::store_awaited, rules::specs::Events::slip_bits))]
    fn await_bits(&mut self, o: ObjSlot, b: u32, x: Want, w: u32, store: &mut Store)
        requires { (self.old.running.0 < 16) }
        ensures { Does self.old (λ s. awaited s o b x w) self.new × Reads self.old (λ s. store_awaited s b x store.old) store.new }
    {
        if x.satisfied(b) {
            let four = lists::four_bytes(b);
            parts::to_slip(self.running, &four, 4, store);
            self.with_object(o, Kind::Group(slots::wants::cleared(b, x.clears())));
        } else {
            self.wait_for(o, x, w);
        }
    }

    fn await_on(&mut self, a: Asked, store: &mut Store)
        requires { (self.old.running.0 < 16) }
        ensures { Does self.old (λ s. awaited_on s a.object (kind_at s.objects a.object) (want_by a) a.wait) self.new
            × Reads self.old (λ s. store_awaited_on s (kind_at s.objects a.object) (want_by a) store.old) store.new }
    {
        if let Kind::Group(b) = self.kind(a.object) {
            self.await_bits(a.object, b, want_by(a), a.wait, store);
        }
    }

    // The three calls on a group.
    #[tactic(auto, unfolding(rules::specs::Effects::effect, rules::specs::Steps::stored))]
    pub(crate) fn event(&mut self, a: Asked, store: &mut Store)
        requires { Firm self.old × (21 ≤ a.number) × (a.number ≤ 23) }
        ensures { Does self.old (λ s. effect s a) self.new × Reads self.old (λ s. stored s a [] store.old) store.new }
    {
        match a.number {
            21 => self.set_on(a.object, a.bits, store),
            22 => self.clear_on(a.object, a.bits),
            _ => self.await_on(a, store),
        }
    }
}
