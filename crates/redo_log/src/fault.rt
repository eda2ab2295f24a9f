// Why a record was not added.
use mdc_outside::Failed;

/// Why a record was not added.
#[derive(Clone, Copy, Debug, PartialEq, Eq)]
pub enum LogFault {
    /// The disk failed.
    Device,
    /// The record needs more pages than are free, or all gates are used.
    NoRoom { need: u32, free: u32, gates: u8 },
}

impl From<Failed> for LogFault {
    ghost use Rattle.std.specs.Prelude.{◌≡◌};
    ghost use Rattle.redo_log.specs.declared.fault.LogFault.TheVariants as fault;

    ghost from_gives = { λ _ e. e ≡ fault.Device };

    fn from(_: Failed) -> Self {
        LogFault::Device
    }
}
