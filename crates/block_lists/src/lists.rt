// Lists of whole blocks and of places of rows.
ghost use Rattle.block_lists.specs.Places.{AreApart};

use mdc_values::{Blocks, Rids};

/// All rows of these blocks, and the rows in these places, none of which lies in one of the blocks.
#[derive(Debug, Drop)]
pub struct Lists {
    pub blocks: Blocks,
    pub rids: Rids,
    ghost apart: { AreApart blocks rids },
}
