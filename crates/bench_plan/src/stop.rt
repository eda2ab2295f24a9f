// Why a run stopped.
use extent_map::SpaceFault;
use mdc_outside::Failed;
use page_store::OpenFault;
use std::alloc::AllocError;
use std::io;
use store_api::{DeviceFault, PageFault, StoreFault};

/// Why a run stopped.
#[derive(Debug, Drop)]
pub enum Stop {
    /// A call to the outside failed.
    Outside(io::Error),
    /// The file couldn't be attached.
    Unattached(Failed),
    /// The file wasn't made or opened.
    Unopened(OpenFault),
    /// A call on pages, on a tree or on the extents failed.
    Store(StoreFault),
    /// None of so many extents is free.
    Full(u32),
    /// Memory ran out before there was a store.
    Memory,
    /// The size is more than the store has or can have.
    TooLarge,
    /// Page 0 states another number of pages.
    Uncounted,
    /// The extents are more than a database may have.
    Shape,
}

impl From<io::Error> for Stop {
    fn from(error: io::Error) -> Self {
        Stop::Outside(error)
    }
}

impl From<AllocError> for Stop {
    fn from(_: AllocError) -> Self {
        Stop::Memory
    }
}

impl From<Failed> for Stop {
    fn from(failed: Failed) -> Self {
        Stop::Unattached(failed)
    }
}

impl From<OpenFault> for Stop {
    fn from(fault: OpenFault) -> Self {
        Stop::Unopened(fault)
    }
}

impl From<StoreFault> for Stop {
    fn from(fault: StoreFault) -> Self {
        Stop::Store(fault)
    }
}

impl From<PageFault> for Stop {
    fn from(fault: PageFault) -> Self {
        Stop::Store(StoreFault::from(fault))
    }
}

impl From<DeviceFault> for Stop {
    fn from(fault: DeviceFault) -> Self {
        Stop::Store(StoreFault::from(fault))
    }
}

impl From<SpaceFault> for Stop {
    fn from(fault: SpaceFault) -> Self {
        match fault {
            SpaceFault::Full(cap) => Stop::Full(cap),
            SpaceFault::Store(fault) => Stop::Store(fault),
        }
    }
}
