// Why a run stopped.
use extent_map::SpaceFault;
use mdc_outside::Failed;
use mdc_values::Memory;
use page_store::OpenFault;
use std::io;
use store_api::{DeviceFault, PageFault, StoreFault};

/// Why a run stopped.
#[derive(Debug, Drop)]
pub enum Stop {
    /// A call to the standard streams failed.
    Outside(io::Error),
    /// The file couldn't be attached, or a line wasn't said.
    Failed(Failed),
    /// The file wasn't opened.
    Unopened(OpenFault),
    /// The pages couldn't be read, changed or committed.
    Store(StoreFault),
    /// None of so many extents is free.
    Full(u32),
    /// There is a table where one is to be made.
    Taken,
    /// No row lies where one was put.
    NoRow,
    /// A table has had too many rows.
    TooMany,
    /// There are fewer pages than a database has.
    TooFewPages,
    /// Page 0 states another number of pages.
    Uncounted,
    /// Memory ran out.
    Memory,
    /// The extents are more than a database may have.
    Shape,
}

impl From<io::Error> for Stop {
    fn from(error: io::Error) -> Self {
        Stop::Outside(error)
    }
}

impl From<Failed> for Stop {
    fn from(failed: Failed) -> Self {
        Stop::Failed(failed)
    }
}

impl From<StoreFault> for Stop {
    fn from(fault: StoreFault) -> Self {
        Stop::Store(fault)
    }
}

impl From<PageFault> for Stop {
    fn from(fault: PageFault) -> Self {
        Stop::Store(StoreFault::from(fault))
    }
}

impl From<DeviceFault> for Stop {
    fn from(_: DeviceFault) -> Self {
        Stop::Store(StoreFault::Device)
    }
}

impl From<SpaceFault> for Stop {
    fn from(fault: SpaceFault) -> Self {
        match fault {
            SpaceFault::Full(cap) => Stop::Full(cap),
            SpaceFault::Store(fault) => Stop::Store(fault),
        }
    }
}

impl From<Memory> for Stop {
    fn from(_: Memory) -> Self {
        Stop::Memory
    }
}

impl From<std::alloc::AllocError> for Stop {
    fn from(_: std::alloc::AllocError) -> Self {
        Stop::Memory
    }
}

impl<T: Drop> From<std::alloc::AllocFailed<T>> for Stop {
    fn from(_: std::alloc::AllocFailed<T>) -> Self {
        Stop::Memory
    }
}
