// Why a statement isn't done.
use crate::Name;

/// A refusal. `place` and `kept` are 0 and `name` is empty where its number keeps none.
#[derive(Debug, Drop)]
pub struct Refusal {
    pub number: u16,
    pub place: u32,
    pub name: Name,
    pub kept: u64,
}
