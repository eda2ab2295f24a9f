// What was found of the rules on what lies in the tables.
ghost use Rattle.std.specs.Prelude.{◌≡◌, None, Some};
ghost use Rattle.file_check.specs.Judging.{lower};
ghost use Rattle.file_check.specs.RulesOfTables.{found_of};
ghost use Rattle.file_check.specs.declared.table_rule.TableRule.{TableRule};

use crate::block_rule::BlockRule;
use crate::lowest::lower;
use crate::table_index::IndexKind;
use crate::table_rule::TableRule;

/// The lowest page that breaks each of the rules, where one was found. A rule's stands only where none breaks a rule before it.
#[derive(Clone, Copy, Debug)]
pub(crate) struct Findings {
    pub(crate) row_pages: Option<u32>,
    pub(crate) counts: Option<u32>,
    pub(crate) cells: Option<u32>,
    pub(crate) block_indexes: Option<u32>,
    pub(crate) record_indexes: Option<u32>,
    pub(crate) keys: Option<u32>,
}

impl Findings {
    /// No page.
    pub(crate) fn none() -> Findings
        ensures { (rule : TableRule) → found_of rule result ≡ None }
    {
        Findings {
            row_pages: None,
            counts: None,
            cells: None,
            block_indexes: None,
            record_indexes: None,
            keys: None,
        }
    }

    /// A page that isn't a row page, or has a row that doesn't fit.
    pub(crate) fn of_row_page(page: u32) -> Findings
        ensures { result.row_pages ≡ Some page }
    {
        Findings {
            row_pages: Some(page),
            counts: None,
            cells: None,
            block_indexes: None,
            record_indexes: None,
            keys: None,
        }
    }

    /// The page that was found for a rule.
    pub(crate) fn page(&self, rule: TableRule) -> Option<u32>
        ensures { result ≡ found_of rule self.now }
    {
        match rule {
            TableRule::Block(BlockRule::RowPages) => self.row_pages,
            TableRule::Block(BlockRule::Counts) => self.counts,
            TableRule::Block(BlockRule::Cells) => self.cells,
            TableRule::Index(IndexKind::Blocks) => self.block_indexes,
            TableRule::Index(IndexKind::Rows) => self.record_indexes,
            TableRule::Keys => self.keys,
        }
    }

    /// For each rule the lower of two pages.
    pub(crate) fn lower(&self, other: &Findings) -> Findings
        ensures { (rule : TableRule) → found_of rule result ≡ lower (found_of rule self.now) (found_of rule other.now) }
    {
        Findings {
            row_pages: lower(self.row_pages, other.row_pages),
            counts: lower(self.counts, other.counts),
            cells: lower(self.cells, other.cells),
            block_indexes: lower(self.block_indexes, other.block_indexes),
            record_indexes: lower(self.record_indexes, other.record_indexes),
            keys: lower(self.keys, other.keys),
        }
    }
}
