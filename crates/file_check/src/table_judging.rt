// The rules on what lies in the tables, all of them table by table.
ghost use Rattle.std.specs.Prelude.{◌≡◌, false, IfOk, IsTrue};
ghost use Rattle.store_api.specs.Causes.{fault_of};
ghost use Rattle.store_api.specs.Frame.{NoPage};
ghost use Rattle.store_api.specs.RunsOverPages.{RunsOverPages};
ghost use Rattle.entry_tree.specs.Forest.{Forest};
ghost use Rattle.stored_catalog.specs.StoredDefinitions.{AreWithinLimits};
ghost use Rattle.mdc_ast.specs.TableLimits.{IsTableDef};
ghost use Rattle.mdc_sound.specs.SpaceRules.{DatabaseView};
ghost use Rattle.file_check.specs.Judging.{Judges, JudgesRule};
ghost use Rattle.file_check.specs.Known.{ViewHasBlocks};
ghost use Rattle.file_check.specs.KnownTables.{TableHasRows, TellsTable, TellsTrees};
ghost use Rattle.file_check.specs.Looking.{AnyPage, Unless};
ghost use Rattle.file_check.specs.RowsJudged.{JudgesTable};
ghost use Rattle.file_check.specs.RulesOfTables.{TableBreaks, TableKeeps, TableKnownFor, ViewKeeps, ViewKnownFor, found_of, rule_number};
ghost use Rattle.file_check.specs.declared.table_rule.TableRule.{TableRule};

use crate::block_entries::judge_entry_counts;
use crate::block_judging::judge_used_blocks;
use crate::counts::judge_idle_counts;
use crate::findings::Findings;
use crate::lowest::lower;
use crate::record_indexes::judge_record_indexes;
use crate::row_pages::judge_row_pages;
use crate::table_keys::judge_keys_of_table;
use mdc_ast::TableDef;
use std::alloc::Global;
use store_api::{Pages, Shape, StoreFault};

/// Judges the rules over all tables: for each the lowest page that breaks it, if there is one. A table breaks one at pages of its
/// blocks, at the roots of its indexes, or at its table page. What is found for a rule stands where the rules before it are kept.
pub(crate) fn judge_all_tables<P: Pages>(
    alloc: Global,
    shape: Shape,
    pages: &mut P,
    defs: &[Option<TableDef>],
) -> Result<Findings, StoreFault>
    requires limits { AreWithinLimits defs.now }
    requires going { (P.state pages.old).ended ≡ false }
    ensures judged { IfOk result (λ found. IsTrue (P.state pages.old).is_told → (rule : TableRule) (view : DatabaseView) → ViewKnownFor rule shape (P.state pages.old).work defs.now view
        → JudgesRule shape (P.state pages.old).work (rule_number rule) (ViewKeeps rule shape (P.state pages.old).work view) (found_of rule found)) }
    ensures same { (P.state pages.new).work ≡ (P.state pages.old).work }
    ensures runs { RunsOverPages P.Pages NoPage AnyPage
        (Unless P.Pages pages.old (λ told. (view : DatabaseView) × ViewHasBlocks shape told defs.now view)) pages.old pages.new (fault_of result) }
{
    let mut lowest = Findings::none();
    for def in defs {
        let Some(def) = def else {
            continue;
        };
        let here = judge_table(alloc, shape, pages, def)?;
        lowest = lowest.lower(&here);
    }
    Ok(lowest)
}

/// Judges the rules on one table. Where its row pages break rule 7, none of its rows is read.
fn judge_table<P: Pages>(
    alloc: Global,
    shape: Shape,
    pages: &mut P,
    def: &TableDef,
) -> Result<Findings, StoreFault>
    requires defined { IsTableDef def.now.number def.now }
    requires going { (P.state pages.old).ended ≡ false }
    ensures judged { IfOk result (λ found. IsTrue (P.state pages.old).is_told → (rule : TableRule) (map_tree : Forest) → TableKnownFor rule shape (P.state pages.old).work def.now map_tree
        → Judges (TableKeeps rule shape (P.state pages.old).work def.now map_tree) (TableBreaks rule shape (P.state pages.old).work def.now map_tree) (found_of rule found)) }
    ensures same { (P.state pages.new).work ≡ (P.state pages.old).work }
    ensures runs { RunsOverPages P.Pages NoPage AnyPage (Unless P.Pages pages.old (TellsTrees shape def.now)) pages.old pages.new (fault_of result) }
{
    match judge_row_pages(alloc, shape, pages, def)? {
        Some(page) => Ok(Findings::of_row_page(page)),
        None => judge_rows_of_table(alloc, shape, pages, def),
    }
}

/// Judges rules 8 to 12 on a table whose row pages are sound.
fn judge_rows_of_table<P: Pages>(
    alloc: Global,
    shape: Shape,
    pages: &mut P,
    def: &TableDef,
) -> Result<Findings, StoreFault>
    requires defined { IsTableDef def.now.number def.now }
    requires going { (P.state pages.old).ended ≡ false }
    ensures judged { IfOk result (λ found. IsTrue (P.state pages.old).is_told → (map_tree : Forest) → TableHasRows shape (P.state pages.old).work def.now map_tree
        → JudgesTable shape (P.state pages.old).work def.now map_tree found) }
    ensures same { (P.state pages.new).work ≡ (P.state pages.old).work }
    ensures runs { RunsOverPages P.Pages NoPage AnyPage (Unless P.Pages pages.old (TellsTable shape def.now)) pages.old pages.new (fault_of result) }
{
    let mut used = judge_used_blocks(alloc, shape, pages, def)?;
    let idle = judge_idle_counts(alloc, shape, pages, def)?;
    let others = judge_entry_counts(alloc, pages, def, used.blocks)?;
    let record_indexes = judge_record_indexes(alloc, shape, pages, def)?;
    let keys = judge_keys_of_table(alloc, shape, pages, def, &mut used.numbers)?;
    Ok(Findings {
        row_pages: None,
        counts: lower(used.counts, idle),
        cells: used.cells,
        block_indexes: lower(used.entries, others),
        record_indexes,
        keys,
    })
}
