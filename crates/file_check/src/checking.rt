// All rules, one after the other.
ghost use Rattle.std.specs.Prelude.{◌≡◌, false, IfOk, IsTrue};
ghost use Rattle.store_api.specs.Causes.{NoDamage, fault_of, fault_of_pages};
ghost use Rattle.store_api.specs.Frame.{NoPage};
ghost use Rattle.store_api.specs.RunsOverPages.{RunsOverPages};
ghost use Rattle.stored_catalog.specs.StoredDefinitions.{AreWithinLimits};
ghost use Rattle.file_check.specs.Kept.{KeepsBlockMaps, KeepsTables, KeepsTrees};
ghost use Rattle.file_check.specs.Looking.{AnyPage, Unless, UnlessTold};
ghost use Rattle.file_check.specs.Verdicts.{IsVerdictOf};
ghost use Rattle.file_check.specs.declared.verdict.Verdict.TheVariants.{Broken};

use crate::block_maps::judge_block_maps;
use crate::definitions::{TablePages, judge_table_pages};
use crate::extents::judge_extents;
use crate::root::judge_root;
use crate::table_judging::judge_all_tables;
use crate::table_rule::TABLE_RULES;
use crate::tree_pages::judge_tree_pages;
use crate::trees::judge_trees;
use crate::verdict::Verdict;
use mdc_ast::TableDef;
use std::alloc::Global;
use store_api::rules::{
    BLOCK_MAPS_RULE, EXTENTS_RULE, ROOT_PAGE_RULE, TABLE_PAGES_RULE, TREE_PAGES_RULE, TREES_RULE,
};
use store_api::{Damage, PageFault, Pages, Shape, StoreFault};

/// Judges all pages of a database by the twelve rules. Where they aren't sound, the first rule that is broken is named, with the
/// lowest page that breaks it.
pub fn check<P: Pages>(alloc: Global, shape: Shape, pages: &mut P) -> Result<Verdict, PageFault>
    requires going { (P.state pages.old).ended ≡ false }
    ensures verdict { IfOk result (λ verdict. IsTrue (P.state pages.old).is_told → IsVerdictOf shape (P.state pages.old).work verdict) }
    ensures same { (P.state pages.new).work ≡ (P.state pages.old).work }
    ensures runs { RunsOverPages P.Pages NoPage AnyPage NoDamage pages.old pages.new (fault_of_pages result) }
{
    match judge_rules(alloc, shape, pages) {
        Ok(verdict) => Ok(verdict),
        // where pages are told, no call below meets damage that the rules before don't name
        Err(StoreFault::Damaged(damage)) => Ok(Verdict::Broken(damage)),
        Err(StoreFault::Device) => Err(PageFault::Device),
        Err(StoreFault::Memory) => Err(PageFault::Memory),
    }
}

/// Judges rules 1 to 3, of the root page, the extent map and the table pages, and then the others.
fn judge_rules<P: Pages>(alloc: Global, shape: Shape, pages: &mut P) -> Result<Verdict, StoreFault>
    requires going { (P.state pages.old).ended ≡ false }
    ensures verdict { IfOk result (λ verdict. IsTrue (P.state pages.old).is_told → IsVerdictOf shape (P.state pages.old).work verdict) }
    ensures same { (P.state pages.new).work ≡ (P.state pages.old).work }
    ensures runs { RunsOverPages P.Pages NoPage AnyPage (UnlessTold P.Pages pages.old) pages.old pages.new (fault_of result) }
{
    if let Some(page) = judge_root(shape, pages)? {
        return Ok(broken(ROOT_PAGE_RULE, page));
    }
    if let Some(page) = judge_extents(shape, pages)? {
        return Ok(broken(EXTENTS_RULE, page));
    }
    match judge_table_pages(alloc, shape, pages)? {
        TablePages::Broken(page) => Ok(broken(TABLE_PAGES_RULE, page)),
        TablePages::Sound(defs) => judge_tables(alloc, shape, pages, &defs),
    }
}

/// Judges rules 4 and 5, of the trees of these tables and their pages, and then the others.
fn judge_tables<P: Pages>(
    alloc: Global,
    shape: Shape,
    pages: &mut P,
    defs: &[Option<TableDef>],
) -> Result<Verdict, StoreFault>
    requires limits { AreWithinLimits defs.now }
    requires going { (P.state pages.old).ended ≡ false }
    ensures verdict { IfOk result (λ verdict. IsTrue (P.state pages.old).is_told → KeepsTables shape defs.now (P.state pages.old).work → IsVerdictOf shape (P.state pages.old).work verdict) }
    ensures same { (P.state pages.new).work ≡ (P.state pages.old).work }
    ensures runs { RunsOverPages P.Pages NoPage AnyPage (Unless P.Pages pages.old (KeepsTables shape defs.now)) pages.old pages.new (fault_of result) }
{
    let trees = judge_trees(alloc, pages, defs)?;
    if let Some(page) = trees.broken {
        return Ok(broken(TREES_RULE, page));
    }
    if let Some(page) = judge_tree_pages(shape, pages, &trees.times)? {
        return Ok(broken(TREE_PAGES_RULE, page));
    }
    judge_blocks(alloc, shape, pages, defs)
}

/// Judges rule 6, of the block maps of these tables, and then the others.
fn judge_blocks<P: Pages>(
    alloc: Global,
    shape: Shape,
    pages: &mut P,
    defs: &[Option<TableDef>],
) -> Result<Verdict, StoreFault>
    requires limits { AreWithinLimits defs.now }
    requires going { (P.state pages.old).ended ≡ false }
    ensures verdict { IfOk result (λ verdict. IsTrue (P.state pages.old).is_told → KeepsTrees shape defs.now (P.state pages.old).work → IsVerdictOf shape (P.state pages.old).work verdict) }
    ensures same { (P.state pages.new).work ≡ (P.state pages.old).work }
    ensures runs { RunsOverPages P.Pages NoPage AnyPage (Unless P.Pages pages.old (KeepsTrees shape defs.now)) pages.old pages.new (fault_of result) }
{
    if let Some(page) = judge_block_maps(alloc, shape, pages, defs)? {
        return Ok(broken(BLOCK_MAPS_RULE, page));
    }
    judge_contents(alloc, shape, pages, defs)
}

/// Judges rules 7 to 12, of what lies in these tables.
fn judge_contents<P: Pages>(
    alloc: Global,
    shape: Shape,
    pages: &mut P,
    defs: &[Option<TableDef>],
) -> Result<Verdict, StoreFault>
    requires limits { AreWithinLimits defs.now }
    requires going { (P.state pages.old).ended ≡ false }
    ensures verdict { IfOk result (λ verdict. IsTrue (P.state pages.old).is_told → KeepsBlockMaps shape defs.now (P.state pages.old).work → IsVerdictOf shape (P.state pages.old).work verdict) }
    ensures same { (P.state pages.new).work ≡ (P.state pages.old).work }
    ensures runs { RunsOverPages P.Pages NoPage AnyPage (Unless P.Pages pages.old (KeepsBlockMaps shape defs.now)) pages.old pages.new (fault_of result) }
{
    let found = judge_all_tables(alloc, shape, pages, defs)?;
    for rule in TABLE_RULES {
        if let Some(page) = found.page(rule) {
            return Ok(broken(rule.number(), page));
        }
    }
    Ok(Verdict::Sound)
}

/// A rule is broken at a page.
fn broken(rule: u16, page: u32) -> Verdict
    ensures { result ≡ Broken (record { page = page; rule = rule }) }
{
    Verdict::Broken(Damage { page, rule })
}
