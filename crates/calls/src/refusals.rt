// Why a call or a line is turned away.
ghost use Rattle.std.specs.Prelude.{◌≡◌};
ghost use Rattle.calls.specs.Refusals.{number_of};

// Each has its number in the refusal table.
#[derive(Clone, Copy, PartialEq, Eq, Debug)]
pub enum Refusal {
    // The kernel value is not sound.
    Unsound = 1,
    // The store is not 9,216 bytes long; for a line's writer, the lent line is not 256 bytes.
    StoreLength = 2,
    // The line is no call's line.
    NoCall = 3,
    // Priority, capacity, size or product out of range; a delay of 4,294,967,295; an advance of no tick or of more than 65,535; bits above the 24, a flag above 1, an empty
    // wait mask.
    OutOfRange = 4,
    // A task or object number names none, or an object of the wrong kind.
    NamesNone = 5,
    // The item's length is not the queue's item size; for a line's writer, it is above 64.
    WrongSize = 6,
    // Delete or suspend of idle; idle set to a priority other than 0; delay, take, or any wait other than 0 by idle.
    NotForIdle = 7,
    // With a hold: delay, yield, advance, any wait other than 0, delete or suspend of the caller.
    NotWithHold = 8,
    // Create or make with no free slot.
    NoneFree = 9,
    // Delete of a task that holds a mutex; remove of a held mutex or of an object with waiters.
    InUse = 10,
    // Give of a mutex that the caller does not hold.
    NotHis = 11,
    // Take by the holder.
    HisAlready = 12,
    // Resume of a task not suspended.
    NotSuspended = 13,
    // Wait 0 where the caller would have to wait.
    MustWait = 14,
    // Hold at depth 255; release at depth 0.
    NoDepth = 15,
    // Tick with a hold and 65,535 pended.
    NoTick = 16,
    // A take of which the chain of holders leads back to the caller; it stands directly before 14.
    Circle = 17,
    // A take by the holder of a recursive mutex, who has it 255 times; it stands directly after 12.
    CountFull = 18,
}

impl From<Refusal> for u32 {
    ghost from_gives = { λ r n. n ≡ number_of r };

    fn from(r: Refusal) -> u32 {
        r as u32
    }
}
