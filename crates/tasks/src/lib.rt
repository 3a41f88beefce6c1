// The table of tasks: columns of plain numbers, which no other crate sees. A row goes in and comes out as a Task, in the words of the rules.
// A walk of the rows takes the columns that it reads out of the table first, so that the compiler does all sixteen rows at once.
#![tactic(auto)]

ghost use Rattle.std.specs.Prelude.{◌<◌, ◌≡◌, replicate, ◌∷◌};
ghost use Rattle.slots.specs.Values.{free_task, ready_at};
ghost use Rattle.tasks.specs.Columns.{tasks_of, row_at, put, placed_at, owned_at};

use numbers::TaskSlot;
use slots::{Place, Task, Want};

mod dues;
mod fine;
mod loans;
mod masks;
mod numbering;
mod walks;

#[derive(Clone, Copy, PartialEq, Eq, Debug)]
pub struct Tasks {
    state: [u8; 16],
    object: [u8; 16],
    wake: [u32; 16],
    wants: Wants,
    own: [u8; 16],
    effective: [u8; 16],
    outcome: [u8; 16],
}

// What each row wants: bits of a mask, where the flags are not 0.
#[derive(Clone, Copy, PartialEq, Eq, Debug)]
pub struct Wants {
    mask: [u32; 16],
    flags: [u8; 16],
}

// What the columns say of one place. A number that a state does not use is 0.
#[derive(Clone, Copy, PartialEq, Eq, Debug)]
struct Cells {
    state: u8,
    object: u8,
    wake: u32,
    want: Want,
}

impl Tasks {
    // Idle alone.
    #[tactic(auto, unfolding(crate::specs::Columns::tasks_of))]
    pub fn fresh() -> Tasks
        ensures { result ≡ tasks_of (ready_at 0 ∷ replicate 15 free_task) }
    {
        let mut state = [0; 16];
        state[0] = 1;
        Tasks {
            state,
            object: [0; 16],
            wake: [0; 16],
            wants: Wants::none(),
            own: [0; 16],
            effective: [0; 16],
            outcome: [0; 16],
        }
    }

    // A number past the table names a free slot.
    #[tactic(auto, unfolding(crate::specs::Columns::row_at))]
    pub fn get(&self, t: TaskSlot) -> Task
        ensures { result ≡ row_at self.now t.0 }
    {
        let i = t.slot();
        let cells = Cells {
            state: self.state.get(i).copied().unwrap_or(0),
            object: self.object.get(i).copied().unwrap_or(0),
            wake: self.wake.get(i).copied().unwrap_or(0),
            want: self.wants.get(i),
        };
        Task {
            place: Place::from(cells),
            own: self.own.get(i).copied().unwrap_or(0),
            effective: self.effective.get(i).copied().unwrap_or(0),
            outcome: self.outcome.get(i).copied().unwrap_or(0),
        }
    }

    // What is stored past the table is lost.
    #[tactic(auto, unfolding(crate::specs::Columns::put))]
    pub fn set(&mut self, t: TaskSlot, x: Task)
        ensures { self.new ≡ put self.old t.0 x }
    {
        let i = t.slot();
        if i < 16 {
            let cells = Cells::from(x.place);
            self.state[i] = cells.state;
            self.object[i] = cells.object;
            self.wake[i] = cells.wake;
            self.wants.set(i, cells.want);
            self.own[i] = x.own;
            self.effective[i] = x.effective;
            self.outcome[i] = x.outcome;
        }
    }

    // The row of `t` gets another place and outcome.
    #[tactic(auto, unfolding(crate::specs::Columns::placed_at))]
    pub fn place(&mut self, t: TaskSlot, p: Place, n: u8)
        ensures { self.new ≡ placed_at self.old t.0 p n }
    {
        let i = t.slot();
        if i < 16 {
            let cells = Cells::from(p);
            self.state[i] = cells.state;
            self.object[i] = cells.object;
            self.wake[i] = cells.wake;
            self.wants.set(i, cells.want);
            self.outcome[i] = n;
        }
    }

    // The row of `t` gets another own priority.
    #[tactic(auto, unfolding(crate::specs::Columns::owned_at))]
    pub fn set_own(&mut self, t: TaskSlot, own: u8)
        ensures { self.new ≡ owned_at self.old t.0 own }
    {
        let i = t.slot();
        if i < 16 {
            self.own[i] = own;
        }
    }
}
