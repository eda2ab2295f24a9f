// A file that is full at each claim of a row: that of its block, and those of the trees in which a leaf is cut for it.
//
// The narrow table by D and S has the rows of D = 0, 1, 2 and so on, each of a cell of its own, so each in a block of its own, and
// its entries come last in every tree. A leaf has room for 4,080 bytes: for 582 entries of the block map (width 7), for 291 of
// the index of D and S (14), and for 453 of that of D and that of S (9 each). An extent has two pages.
//
// - The four roots fill two extents, so with 291 rows 291 + 2 extents are in use, and no index page is unused. The next row
//   asks for an extent as its block. Then the index of D and S asks for two pages, since its full leaf is the root: for an extent.
// - 146 entries go into the upper leaf, which is full with 437 rows and is cut for the next one; that asks for one page. So with
//   453 rows 4 + 2 + 1 index pages fill four extents but for one page, and 453 + 4 extents are in use. The next row asks for an
//   extent as its block. Then the index of D, and behind it that of S, asks for two pages, of which one is there: for an extent.
// - No other leaf is cut up to 582 rows: 4 + 2 + 1 + 2 + 2 index pages fill six extents but for one page, and 582 + 6 extents
//   are in use. The next row asks for an extent as its block. Then the block map asks for two pages, of which one is there.
//
// What the next row meets where there are so many extents:
//
// | rows | as many as are in use | one more | two more | three more |
// |---|---|---|---|---|
// | 291 | 293: no block | 294: no page for D and S | 295: done | |
// | 453 | 457: no block | 458: no page for D | 459: no page for S | 460: done |
// | 582 | 588: no block | 589: no page for the block map | 590: done | |
ghost use Rattle.std.specs.Prelude.{◌≡◌, false, None, OnOk};
ghost use Rattle.mdc_ast.specs.TableLimits.{IsTableDef};

use crate::changes::{insert, try_insert};
use crate::stores::{fresh_store, store_with_map};
use crate::tables::{Table, TableKind, table_of};
use crate::wrong::Wrong;
use entry_tree_tests::extents_of;
use extent_map::SpaceFault;
use mdc_values::Rid;
use std::alloc::Global;
use std::test::Fail;
use store_api::{Page, Pages};

// What the next row meets where there are so many extents: what its insert answers, and by how many pages the file has grown then.
#[derive(Clone, Copy)]
struct Claim {
    extents: u32,
    answer: Result<Rid, SpaceFault>,
    grown: u32,
}

// All pages of the work.
fn all_pages<P: Pages>(alloc: Global, pages: &mut P) -> Result<Vec<Page>, Fail>
    requires going { (P.state pages.old).ended ≡ false }
    ensures going { (P.state pages.new).ended ≡ false }
    ensures marked { (P.state pages.new).marked ≡ (P.state pages.old).marked }
{
    let mut all = Vec::new(alloc);
    for p in 0..pages.count() {
        all.push(page_of(pages, p)?)?;
    }
    Ok(all)
}

// A page of the work.
fn page_of<P: Pages>(pages: &mut P, p: u32) -> Result<Page, Fail>
    requires going { (P.state pages.old).ended ≡ false }
    ensures going { (P.state pages.new).ended ≡ false }
    ensures marked { (P.state pages.new).marked ≡ (P.state pages.old).marked }
{
    if p >= pages.count() {
        return Err(Fail::new("no such page"));
    }
    pages.fetch(p)?;
    Ok(*pages.page())
}

// Inserts so many rows of a cell each.
fn fill<P: Pages>(alloc: Global, table: &mut Table, pages: &mut P, rows: u64) -> Result<(), Fail>
    requires defined { IsTableDef table.old.def.number table.old.def }
    requires going { (P.state pages.old).ended ≡ false }
    ensures defined { IsTableDef table.new.def.number table.new.def }
    ensures going { (P.state pages.new).ended ≡ false }
    ensures marked { (P.state pages.new).marked ≡ (P.state pages.old).marked }
{
    for seed in 0..rows {
        insert(alloc, table, pages, seed)?;
    }
    Ok(())
}

// Inserts a row of a new cell and undoes that. Answers what the insert answered, and by how many pages the file had grown.
fn insert_and_undo<P: Pages>(
    alloc: Global,
    table: &mut Table,
    pages: &mut P,
) -> Result<(Result<Rid, SpaceFault>, u32), Fail>
    requires defined { IsTableDef table.old.def.number table.old.def }
    requires going { (P.state pages.old).ended ≡ false }
    requires unmarked { (P.state pages.old).marked ≡ None }
    ensures defined { IsTableDef table.new.def.number table.new.def }
    ensures going { (P.state pages.new).ended ≡ false }
    ensures unmarked { OnOk result ((P.state pages.new).marked ≡ None) }
{
    pages.mark();
    let before = pages.count();
    let seed = table.def.next;
    let answer = try_insert(alloc, table, pages, seed)?;
    let grown = pages.count().wrapping_sub(before);
    pages.undo();
    table.rooms.forget();
    Ok((answer, grown))
}

// The row meets what it should, and all pages are what they were once it is undone.
fn check_claim<P: Pages>(
    alloc: Global,
    table: &mut Table,
    pages: &mut P,
    before: &[Page],
    claim: Claim,
) -> Result<(), Fail>
    requires defined { IsTableDef table.old.def.number table.old.def }
    requires going { (P.state pages.old).ended ≡ false }
    requires unmarked { (P.state pages.old).marked ≡ None }
    ensures defined { IsTableDef table.new.def.number table.new.def }
    ensures going { (P.state pages.new).ended ≡ false }
    ensures unmarked { OnOk result ((P.state pages.new).marked ≡ None) }
{
    let (answer, grown) = insert_and_undo(alloc, table, pages)?;
    let is_undone = all_pages(alloc, pages)?.as_slice() == before;
    if answer != claim.answer || grown != claim.grown || !is_undone {
        return Err(Fail::from(Wrong::Extents(claim.extents)));
    }
    Ok(())
}

// The same where there are as many extents as it says.
fn try_claim<P: Pages>(
    alloc: Global,
    table: &mut Table,
    pages: &mut P,
    claim: Claim,
) -> Result<(), Fail>
    requires defined { IsTableDef table.old.def.number table.old.def }
    requires going { (P.state pages.old).ended ≡ false }
    requires unmarked { (P.state pages.old).marked ≡ None }
    ensures defined { IsTableDef table.new.def.number table.new.def }
    ensures going { (P.state pages.new).ended ≡ false }
    ensures unmarked { OnOk result ((P.state pages.new).marked ≡ None) }
{
    table.shape = extents_of(claim.extents)?;
    table.notes.forget();
    let before = all_pages(alloc, pages)?;
    check_claim(alloc, table, pages, before.as_slice(), claim)
}

// The same of each of these, of which the last alone may have extents enough.
fn try_each<P: Pages>(
    alloc: Global,
    table: &mut Table,
    pages: &mut P,
    claims: &[Claim],
) -> Result<(), Fail>
    requires defined { IsTableDef table.old.def.number table.old.def }
    requires going { (P.state pages.old).ended ≡ false }
    requires unmarked { (P.state pages.old).marked ≡ None }
{
    for claim in claims {
        try_claim(alloc, table, pages, *claim)?;
    }
    Ok(())
}

// The same behind so many rows.
fn fill_and_try<P: Pages>(
    alloc: Global,
    table: &mut Table,
    pages: &mut P,
    rows: u64,
    claims: &[Claim],
) -> Result<(), Fail>
    requires defined { IsTableDef table.old.def.number table.old.def }
    requires going { (P.state pages.old).ended ≡ false }
    requires unmarked { (P.state pages.old).marked ≡ None }
{
    fill(alloc, table, pages, rows)?;
    try_each(alloc, table, pages, claims)
}

// The same of a table in an empty database. The rows have room in the first number of extents.
fn run_claims<P: Pages>(
    alloc: Global,
    pages: &mut P,
    rows: u64,
    claims: &[Claim],
) -> Result<(), Fail>
    requires going { (P.state pages.old).ended ≡ false }
    requires unmarked { (P.state pages.old).marked ≡ None }
{
    let Some(first) = claims.first() else {
        return Err(Fail::new("nothing to try"));
    };
    let mut table = table_of(alloc, TableKind::Narrow, first.extents, pages)?;
    fill_and_try(alloc, &mut table, pages, rows, claims)
}

// What a row meets where that many extents are too few, and so many pages came before the claim that fails.
fn full(extents: u32, grown: u32) -> Claim {
    Claim {
        extents,
        answer: Err(SpaceFault::Full(extents)),
        grown,
    }
}

// What a row meets that has its block, where so many pages came for it.
fn done(extents: u32, block: u32, grown: u32) -> Claim {
    Claim {
        extents,
        answer: Ok(Rid { block, slot: 0 }),
        grown,
    }
}

#[test]
fn a_row_finds_no_page_for_the_index_of_all_dimensions(rt: HostRuntime) -> Result<(), Fail> {
    let claims = [full(293, 0), full(294, 2), done(295, 293, 4)];
    run_claims(rt.alloc(), &mut fresh_store(rt.alloc())?, 291, &claims)
}

#[test]
fn a_row_finds_no_page_for_the_index_of_a_dimension(rt: HostRuntime) -> Result<(), Fail> {
    let claims = [full(457, 0), full(458, 2), full(459, 4), done(460, 457, 6)];
    run_claims(rt.alloc(), &mut fresh_store(rt.alloc())?, 453, &claims)
}

#[test]
fn a_row_finds_no_page_for_the_block_map(rt: HostRuntime) -> Result<(), Fail> {
    let claims = [full(588, 0), full(589, 2), done(590, 588, 4)];
    run_claims(
        rt.alloc(),
        &mut store_with_map(rt.alloc(), 2)?,
        582,
        &claims,
    )
}
