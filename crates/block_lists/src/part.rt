// One block of lists.
use crate::slots::Slots;

/// A block: whole where it has no slots, and else these slots of it.
#[derive(Debug, Drop)]
pub struct Part {
    pub block: u32,
    pub slots: Option<Slots>,
}
