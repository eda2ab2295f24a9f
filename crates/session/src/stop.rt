// Why a script isn't run to its end.
use mdc_values::Memory;
use sql_reader::ReadStop;
use store_api::{Damage, Mute, StoreFault};

/// Why a script isn't run to its end on a file. The first three refuse the file, and end no script that was begun.
#[derive(Clone, Copy, Debug, PartialEq, Eq)]
pub enum Stop {
    /// The file isn't made as a database.
    Unmade,
    /// The file isn't a database's.
    NotMdc,
    /// The file is of another version.
    Version(u32),
    /// A read of the source failed.
    Unread,
    /// The script has more bytes than its limit.
    TooLong,
    /// A reply could not be told.
    Unsaid,
    /// A call of the disk failed.
    Device,
    /// A page breaks a rule.
    Damaged(Damage),
    /// Want of memory.
    Memory,
}

impl From<Memory> for Stop {
    ghost use Rattle.std.specs.Prelude.{◌≡◌};
    ghost use Rattle.session.specs.declared.stop.Stop.TheVariants.{Memory};

    ghost from_gives = { λ _ stop. stop ≡ Memory };

    fn from(_: Memory) -> Stop {
        Stop::Memory
    }
}

impl From<ReadStop> for Stop {
    ghost use Rattle.std.specs.Prelude.{◌≡◌};
    ghost use Rattle.session.specs.Stops.{stop_of_reader};

    ghost from_gives = { λ read stop. stop ≡ stop_of_reader read };

    fn from(read: ReadStop) -> Stop {
        match read {
            ReadStop::Source => Stop::Unread,
            ReadStop::TooLong => Stop::TooLong,
            ReadStop::Memory => Stop::Memory,
        }
    }
}

impl From<StoreFault> for Stop {
    ghost use Rattle.std.specs.Prelude.{◌≡◌};
    ghost use Rattle.session.specs.Stops.{stop_of_fault};

    ghost from_gives = { λ fault stop. stop ≡ stop_of_fault fault };

    fn from(fault: StoreFault) -> Stop {
        match fault {
            StoreFault::Device => Stop::Device,
            StoreFault::Damaged(damage) => Stop::Damaged(damage),
            StoreFault::Memory => Stop::Memory,
        }
    }
}

impl From<Mute> for Stop {
    ghost use Rattle.std.specs.Prelude.{◌≡◌};
    ghost use Rattle.session.specs.declared.stop.Stop.TheVariants.{Unsaid};

    ghost from_gives = { λ _ stop. stop ≡ Unsaid };

    fn from(_: Mute) -> Stop {
        Stop::Unsaid
    }
}
