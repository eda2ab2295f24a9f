// What was seen of the rows of a block.
/// What was seen of the rows of a block: how many there are, and whether all are of the given cell, or of one where none was given.
#[derive(Clone, Copy, Debug)]
pub struct SeenRows {
    pub rows: u32,
    pub in_cell: bool,
}
