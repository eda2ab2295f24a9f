// Why a claim failed.
use mdc_values::Memory;
use std::alloc::{AllocError, AllocFailed};
use store_api::{PageFault, StoreFault};

/// Why an extent or a page wasn't claimed.
#[derive(Clone, Copy, Debug, PartialEq, Eq)]
pub enum SpaceFault {
    /// None of so many extents is free.
    Full(u32),
    /// The store failed.
    Store(StoreFault),
}

impl From<StoreFault> for SpaceFault {
    ghost use Rattle.std.specs.Prelude.{◌≡◌};
    ghost use Rattle.extent_map.specs.declared.fault.SpaceFault.TheVariants.{Store};

    ghost from_gives = { λ fault e. e ≡ Store fault };

    fn from(fault: StoreFault) -> Self {
        SpaceFault::Store(fault)
    }
}

impl From<PageFault> for SpaceFault {
    ghost use Rattle.std.specs.Prelude.{◌≡◌};
    ghost use Rattle.store_api.specs.Faults.{store_fault_of};
    ghost use Rattle.extent_map.specs.declared.fault.SpaceFault.TheVariants.{Store};

    ghost from_gives = { λ fault e. e ≡ Store (store_fault_of fault) };

    fn from(fault: PageFault) -> Self {
        SpaceFault::Store(StoreFault::from(fault))
    }
}

impl From<Memory> for SpaceFault {
    ghost use Rattle.std.specs.Prelude.{◌≡◌};
    ghost use Rattle.store_api.specs.declared.fault.StoreFault.TheVariants.{Memory};
    ghost use Rattle.extent_map.specs.declared.fault.SpaceFault.TheVariants.{Store};

    ghost from_gives = { λ _ e. e ≡ Store Memory };

    fn from(_: Memory) -> Self {
        SpaceFault::Store(StoreFault::Memory)
    }
}

impl From<AllocError> for SpaceFault {
    ghost use Rattle.std.specs.Prelude.{◌≡◌};
    ghost use Rattle.store_api.specs.declared.fault.StoreFault.TheVariants.{Memory};
    ghost use Rattle.extent_map.specs.declared.fault.SpaceFault.TheVariants.{Store};

    ghost from_gives = { λ _ e. e ≡ Store Memory };

    fn from(_: AllocError) -> Self {
        SpaceFault::Store(StoreFault::Memory)
    }
}

impl<T: Drop> From<AllocFailed<T>> for SpaceFault {
    ghost use Rattle.std.specs.Prelude.{◌≡◌};
    ghost use Rattle.store_api.specs.declared.fault.StoreFault.TheVariants.{Memory};
    ghost use Rattle.extent_map.specs.declared.fault.SpaceFault.TheVariants.{Store};

    ghost from_gives = { λ _ e. e ≡ Store Memory };

    fn from(_: AllocFailed<T>) -> Self {
        SpaceFault::Store(StoreFault::Memory)
    }
}
