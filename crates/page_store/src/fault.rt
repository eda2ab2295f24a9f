// Why a file isn't made or isn't opened.
use mdc_outside::Failed;
use mdc_values::Memory;
use redo_journal::ReplayFault;
use store_api::Damage;

/// Why a file isn't made or isn't opened.
#[derive(Clone, Copy, Debug, PartialEq, Eq)]
pub enum OpenFault {
    /// The file to be made has a byte already.
    Exists,
    /// The file isn't made, or its making was cut off.
    Unmade,
    /// The file isn't a database.
    NotMdc,
    /// The file is of this version, which isn't served.
    Version(u32),
    /// The disk failed.
    Device,
    /// A page breaks a rule.
    Damaged(Damage),
    /// Memory ran out.
    Memory,
}

impl From<Failed> for OpenFault {
    ghost use Rattle.std.specs.Prelude.{◌≡◌};
    ghost use Rattle.page_store.specs.declared.fault.OpenFault.TheVariants.{Device};

    ghost from_gives = { λ _ e. e ≡ Device };

    fn from(_: Failed) -> Self {
        OpenFault::Device
    }
}

impl From<Memory> for OpenFault {
    ghost use Rattle.std.specs.Prelude.{◌≡◌};
    ghost use Rattle.page_store.specs.declared.fault.OpenFault.TheVariants as fault;

    ghost from_gives = { λ _ e. e ≡ fault.Memory };

    fn from(_: Memory) -> Self {
        OpenFault::Memory
    }
}

impl From<ReplayFault> for OpenFault {
    ghost use Rattle.std.specs.Prelude.{◌≡◌};
    ghost use Rattle.page_store.specs.Faults.{open_fault_of};

    ghost from_gives = { λ fault e. e ≡ open_fault_of fault };

    fn from(fault: ReplayFault) -> Self {
        match fault {
            ReplayFault::Device => OpenFault::Device,
            ReplayFault::Damaged(damage) => OpenFault::Damaged(damage),
            ReplayFault::Memory => OpenFault::Memory,
        }
    }
}
