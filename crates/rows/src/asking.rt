// What a call asks, as the rows of the refusal table speak of it.
ghost use Rattle.std.specs.Prelude.{◌≡◌, ◌||◌};
ghost use Rattle.rows.specs.Asking.{is, makes, stops, waits};

use calls::Asked;

pub fn makes(a: &Asked) -> bool
    ensures { result ≡ makes a.now }
{
    matches!(a.number, 1 | 10 | 11 | 19 | 20)
}

pub(crate) fn stops(a: &Asked) -> bool
    ensures { result ≡ stops a.now }
{
    matches!(a.number, 2 | 3)
}

// What idle may not do: delay, take, or any wait.
pub(crate) fn blocks(a: &Asked) -> bool
    ensures { result ≡ (is 6 a.now || (is 15 a.now || waits a.now)) }
{
    matches!(a.number, 6 | 15) || a.wait != 0
}
