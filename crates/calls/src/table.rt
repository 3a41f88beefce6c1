// The table of calls, by number: the call that some words make. Other rooms read the calls off this and off their words.
ghost use Rattle.std.specs.Prelude.{◌≡◌};
ghost use Rattle.calls.specs.Table.{call_of};

use crate::{Call, ObjNo, TaskNo};

impl Call {
    // The call of a number that has a shape. Any other number makes a tick, so that there is always a call.
    #[tactic(auto, unfolding(crate::specs::Table::call_of))]
    pub fn of(number: u32, words: [u32; 5]) -> Call
        ensures { result ≡ call_of number words }
    {
        let a = words[0];
        let b = words[1];
        match number {
            1 => Call::Create(a),
            2 => Call::Delete(TaskNo(a)),
            3 => Call::Suspend(TaskNo(a)),
            4 => Call::Resume(TaskNo(a)),
            5 => Call::SetPriority(TaskNo(a), b),
            6 => Call::Delay(a),
            7 => Call::Yield,
            8 => Call::Hold,
            9 => Call::Release,
            10 => Call::MakeQueue(a, b),
            11 => Call::MakeMutex,
            12 => Call::Remove(ObjNo(a)),
            13 => Call::Send(ObjNo(a), b),
            14 => Call::Receive(ObjNo(a), b),
            15 => Call::Take(ObjNo(a), b),
            16 => Call::Give(ObjNo(a)),
            17 => Call::Tick,
            18 => Call::Advance(a),
            19 => Call::MakeRecursive,
            20 => Call::MakeGroup,
            21 => Call::SetBits(ObjNo(a), b),
            22 => Call::ClearBits(ObjNo(a), b),
            23 => Call::Await(ObjNo(a), b, words[2], words[3], words[4]),
            _ => Call::Tick,
        }
    }
}
