// What a pass keeps between two steps.
use entry_tree::Entry;
use mdc_values::Blocks;

/// A pass over blocks of a table that are Pending.
#[derive(Drop)]
pub struct Pass {
    /// The number of the table.
    pub table: u8,
    /// The blocks, each of which was Pending when the pass began.
    pub blocks: Blocks,
    /// The record index that it works on. All before it are done.
    pub index: u8,
    /// How far that index is done: each entry below this bound. None where the pass is still to begin with it.
    pub bound: Option<Entry>,
}
