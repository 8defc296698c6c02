//! Why the search ends before each variable has a value.

ghost use Rattle.std.specs.Prelude.{◌≡◌};

use jesc_text::OutOfMemory;

/// A row of the table: its number, the place of its step in the log, and a mark that rows of one form share.
#[derive(Clone, Copy, Debug, Drop)]
pub struct Slot {
    pub number: u32,
    pub at: u32,
    pub mark: u64,
}

/// Why the elimination ends before every variable is gone, or finds no value on the way back.
#[derive(Clone, Copy, Debug, Drop)]
pub enum Stop {
    Memory,
    /// The last step of the log says that 0 is at most a negative number.
    Absurd,
    Forms(u32),
    Pairs(u32),
    Number(i128),
    /// A lower and an upper row, or the other way round, by number.
    Gap(Slot, Slot),
}

impl From<OutOfMemory> for Stop {
    ghost use Rattle.jesc_linear.specs.declared.stop.Stop.TheVariants.{Memory};

    ghost from_gives = { λ error stop. stop ≡ Memory };

    fn from(_error: OutOfMemory) -> Stop {
        Stop::Memory
    }
}
