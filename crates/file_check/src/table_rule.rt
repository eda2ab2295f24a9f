// The rules on what lies in the tables.
ghost use Rattle.std.specs.Prelude.{◌≡◌};
ghost use Rattle.file_check.specs.RulesOfTables.{rule_number};

use crate::block_rule::BlockRule;
use crate::table_index::IndexKind;
use store_api::rules::{
    BLOCK_INDEXES_RULE, CELLS_RULE, KEYS_RULE, RECORD_INDEXES_RULE, ROW_COUNTS_RULE, ROW_PAGES_RULE,
};

/// A rule that is judged table by table.
#[derive(Clone, Copy, Debug)]
pub(crate) enum TableRule {
    /// Rules 7 to 9, of its blocks.
    Block(BlockRule),
    /// Rules 10 and 11, of its indexes: each has the entry of each row, and no other but those that name spare blocks.
    Index(IndexKind),
    /// Rule 12: the numbers of its rows differ and lie below the next one, and no two have equal keys in a UNIQUE index.
    Keys,
}

/// All of them, in their order.
pub(crate) const TABLE_RULES: [TableRule; 6] = [
    TableRule::Block(BlockRule::RowPages),
    TableRule::Block(BlockRule::Counts),
    TableRule::Block(BlockRule::Cells),
    TableRule::Index(IndexKind::Blocks),
    TableRule::Index(IndexKind::Rows),
    TableRule::Keys,
];

impl TableRule {
    /// The number of the rule.
    pub(crate) fn number(self) -> u16
        ensures { result ≡ rule_number self }
    {
        match self {
            TableRule::Block(BlockRule::RowPages) => ROW_PAGES_RULE,
            TableRule::Block(BlockRule::Counts) => ROW_COUNTS_RULE,
            TableRule::Block(BlockRule::Cells) => CELLS_RULE,
            TableRule::Index(IndexKind::Blocks) => BLOCK_INDEXES_RULE,
            TableRule::Index(IndexKind::Rows) => RECORD_INDEXES_RULE,
            TableRule::Keys => KEYS_RULE,
        }
    }
}
