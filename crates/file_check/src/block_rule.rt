// The rules on the blocks of a table.

/// A rule that is judged block by block.
#[derive(Clone, Copy, Debug)]
pub(crate) enum BlockRule {
    /// The pages of Used blocks are row pages, and their rows fit.
    RowPages,
    /// The block map counts the rows of each block.
    Counts,
    /// The rows of a Used block are of one cell.
    Cells,
}
