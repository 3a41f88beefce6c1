// The tick's count and wakes, the turn of the line, and several ticks one by one.
ghost use Rattle.std.specs.Prelude.{◌≡◌, ◌<◌, ◌≤◌, true};
ghost use Rattle.order.specs.Order.{listed};
ghost use Rattle.rules.specs.Tables.{with_tick};
ghost use Rattle.rules.specs.Lines.{begun};
ghost use Rattle.rules.specs.Loans.{worked_out};
ghost use Rattle.rules.specs.Waits.{later};
ghost use Rattle.rules.specs.Ticks.{wakes, one_tick, until_due, until_some, turned, turned_if, turnings, ticks, sleeps};
ghost use Rattle.kernel.specs.Stands.{shown};
ghost use Rattle.kernel.specs.Does.{Reads, Does, Turning, Reckons};
ghost use Rattle.kernel.specs.Promises.{ticks_of};

use crate::{Core, Kernel};

impl Core {
    // The due are made ready, first whoever began its delay or wait earlier; then the effective priorities are worked out, if a wait ended.
    fn wakes(&mut self)
        requires { Reckons self.old }
        ensures { Does self.old (λ s. worked_out (wakes s (begun s.tasks (listed s.order)))) self.new }
    {
        let now = self.tick;
        let last = self.tasks.waits_last(now);
        self.tasks.wake_due(&mut self.order, now);
        if !last {
            self.worked_out();
        }
    }

    // Where nobody is due only the count goes up: no wait ends, so the effective priorities are what they were.
    pub(crate) fn one_tick(&mut self)
        requires { Reckons self.old }
        ensures { Does self.old one_tick self.new }
    {
        let next = self.tick.wrapping_add(1);
        self.with_tick(next);
        if self.tasks.someone_due(next) {
            self.wakes();
        }
    }

    // How many ticks pass before the one on which a task is next due.
    fn until_due(&self) -> u32
        ensures { Reads self.now (λ s. until_due s.tick s.tasks) result × (self.now.tick ≤ 4294967295) }
    {
        self.tasks.until_due(self.tick)
    }

    // If no higher line is occupied, the running task goes to the tail of its line.
    pub(crate) fn turned(&mut self)
        ensures { Does self.old turned self.new }
    {
        let u = self.running;
        let y = self.task(u);
        if self.tasks.top(self.order) <= y.effective {
            self.to_tail(u);
        }
    }

    // The line of the running task turned `n` times in one go, with the choose after each: whoever then heads it runs.
    fn turned_by(&mut self, n: u32)
        requires { Turning self.old × (0 < n) }
        ensures { Does self.old (turnings true n) self.new }
    {
        let y = self.task(self.running);
        let line = self.tasks.line(self.order, y.effective);
        let times = n as usize;
        self.order.turn(&line, times);
        self.running = line.head_after(times);
    }

    // `n` ticks on which nobody is due: only the count and the turn change.
    fn passed(&mut self, n: u32, turns: bool)
        requires { turns ≡ true → Turning self.old }
        ensures { Does self.old (λ s. with_tick (turnings turns n s) (later s.tick n)) self.new }
    {
        let then = self.tick.wrapping_add(n);
        if turns && 0 < n {
            self.turned_by(n);
        }
        self.with_tick(then);
    }

    // A tick on which somebody may be due. Who then outranks the running task runs; where nobody does, the line turns. (`turned` and `chosen` are the tick's and the
    // step's: called from here too, they would no longer be compiled into these.)
    #[tactic(auto, unfolding(lists::specs::Lists::up_to))]
    fn tick_turned(&mut self, turns: bool)
        requires { Reckons self.old × (turns ≡ true → Turning self.old) }
        ensures { Does self.old (λ s. turned_if turns (one_tick s)) self.new }
    {
        self.one_tick();
        if !turns {
            return;
        }
        let y = self.task(self.running);
        let top = self.tasks.top(self.order);
        if y.effective < top {
            self.running = self.tasks.line(self.order, top).head_after(0);
            return;
        }
        self.turned_by(1);
    }

    // The next `n` ticks one by one, with each one's turn of the line and choose or without: a jump to the next tick on which somebody is due, that tick, and so on. Each
    // round but the last wakes somebody, so there are at most 16.
    pub(crate) fn ticks(&mut self, n: u32, turns: bool)
        requires { Reckons self.old × (turns ≡ true → Turning self.old) }
        ensures { Does self.old (ticks turns n) self.new }
    {
        let mut left = n;
        while 0 < left {
            let d = self.until_due();
            if left <= d {
                self.passed(left, turns);
                return;
            }
            self.passed(d, turns);
            self.tick_turned(turns);
            left = left - d - 1;
        }
    }

    // How many ticks from now somebody is due; for ever where nobody is.
    fn sleeps(&self) -> Option<u32>
        ensures { Reads self.now (λ s. until_some (until_due s.tick s.tasks)) (ticks_of result) }
    {
        let d = self.until_due();
        if d < 4294967295 { Some(d + 1) } else { None }
    }
}

impl Kernel {
    // For the board: how many ticks from now the next one is on which somebody is due; none where nobody is, for ever. Nobody ever is in a kernel that is not sound, which refuses every call.
    #[tactic(auto, unfolding(rules::specs::Ticks::sleeps))]
    pub fn sleeps(self) -> Option<u32>
        ensures { ticks_of result ≡ sleeps (shown self) }
    {
        if self.is_sound() {
            self.core.sleeps()
        } else {
            None
        }
    }
}
