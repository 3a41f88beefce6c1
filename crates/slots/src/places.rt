// Where a task stands.
ghost use Rattle.std.specs.Prelude.{◌≡◌};
ghost use Rattle.slots.specs.Wants.{want_in};
ghost use Rattle.slots.specs.Places.{is_free, is_ready, is_suspended, is_blocked, is_listed, ahead};

use crate::{Place, Want};

// How many ticks come before the one that makes the count `w`, from `now` on. A smaller `w` is not past: the count wraps before it comes.
pub fn ahead(now: u32, w: u32) -> u32
    ensures { result ≡ ahead now w }
{
    w.wrapping_sub(now).wrapping_sub(1)
}

impl Place {
    pub fn is_free(self) -> bool
        ensures { result ≡ is_free self }
    {
        matches!(self, Place::Free | Place::Spent)
    }

    pub fn is_ready(self) -> bool
        ensures { result ≡ is_ready self }
    {
        matches!(self, Place::Ready)
    }

    pub fn is_suspended(self) -> bool
        ensures { result ≡ is_suspended self }
    {
        matches!(self, Place::Suspended)
    }

    pub fn is_blocked(self) -> bool
        ensures { result ≡ is_blocked self }
    {
        matches!(self, Place::Delayed(_) | Place::Waiting(_, _))
    }

    // The order lists it.
    pub fn is_listed(self) -> bool
        ensures { result ≡ is_listed self }
    {
        self.is_ready() || self.is_blocked()
    }

    // What it waits for; its turn, if it does not wait.
    pub fn want(self) -> Want
        ensures { result ≡ want_in self }
    {
        match self {
            Place::Waiting(wait, _) => wait.want,
            _ => Want::OwnTurn,
        }
    }
}
