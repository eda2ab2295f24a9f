/// The place of a row: a block, and a slot in it.
#[derive(Clone, Copy, Debug, PartialEq, Eq)]
pub struct Rid {
    pub block: u32,
    pub slot: u16,
}
