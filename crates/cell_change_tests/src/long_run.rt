// Hundreds of changes of a table beside a plain list of the rows that should be there. The database that the pages stand for has
// exactly these, and so has the table as it is read by its blocks and by its places.
ghost use Rattle.std.specs.Prelude.{◌≡◌, false};
ghost use Rattle.mdc_ast.specs.TableLimits.{IsTableDef};

use crate::changes::{blocks_of, change, delete, insert, looked_at};
use crate::plain_list::{PlainList, any_row, no_rows, put_last, row_in, take_out};
use crate::plain_pages::stand_for_list;
use crate::rows::{cell_of, is_same_row, row_of, seed_of};
use crate::stores::fresh_store;
use crate::tables::{Table, TableKind, table_of};
use mdc_table::{Hit, rows_of_used_block, used_blocks};
use std::alloc::Global;
use std::test::Fail;
use store_api::Pages;

// How many extents there are, and after how many changes all rows are looked at.
const EXTENTS: u32 = 32;

const CHANGES: u32 = 10;

// The next number of a row of numbers without a pattern.
fn next_number(number: u64) -> u64 {
    number
        .wrapping_mul(6_364_136_223_846_793_005)
        .wrapping_add(1_442_695_040_888_963_407)
}

// Changes one row: every second time one comes, and else one leaves or becomes another.
fn change_one<P: Pages>(
    alloc: Global,
    table: &mut Table,
    pages: &mut P,
    list: &mut PlainList,
    any: u64,
) -> Result<(), Fail>
    requires defined { IsTableDef table.old.def.number table.old.def }
    requires going { (P.state pages.old).ended ≡ false }
    ensures defined { IsTableDef table.new.def.number table.new.def }
    ensures going { (P.state pages.new).ended ≡ false }
{
    let seed = seed_of(table.kind, any / 64);
    let place = any_row(list, any / 4);
    let Some(place) = place else {
        return put_last(list, insert(alloc, table, pages, seed)?);
    };
    match any % 4 {
        0 => delete(alloc, table, pages, take_out(list, place)?),
        1 => move_one(alloc, table, pages, list, place, seed),
        _ => put_last(list, insert(alloc, table, pages, seed)?),
    }
}

// Makes some changes, told by the numbers behind one, and answers the last of these.
fn change_some<P: Pages>(
    alloc: Global,
    table: &mut Table,
    pages: &mut P,
    list: &mut PlainList,
    first: u64,
) -> Result<u64, Fail>
    requires defined { IsTableDef table.old.def.number table.old.def }
    requires going { (P.state pages.old).ended ≡ false }
    ensures defined { IsTableDef table.new.def.number table.new.def }
    ensures going { (P.state pages.new).ended ≡ false }
{
    let mut number = first;
    for _ in 0..CHANGES {
        number = next_number(number);
        change_one(alloc, table, pages, list, number >> 20)?;
    }
    Ok(number)
}

// Makes a row of the list another one.
fn move_one<P: Pages>(
    alloc: Global,
    table: &mut Table,
    pages: &mut P,
    list: &mut PlainList,
    place: usize,
    seed: u64,
) -> Result<(), Fail>
    requires defined { IsTableDef table.old.def.number table.old.def }
    requires going { (P.state pages.old).ended ≡ false }
    ensures defined { IsTableDef table.new.def.number table.new.def }
    ensures going { (P.state pages.new).ended ≡ false }
{
    let was = take_out(list, place)?;
    let is = change(alloc, table, pages, was, seed)?;
    if cell_of(table.kind, was.seed) != cell_of(table.kind, seed) {
        return put_last(list, is);
    }
    if is.rid != was.rid {
        return Err(Fail::new("a row left its place"));
    }
    list.rows.push(is)?;
    Ok(())
}

// The cell of a row that was read, or None where it isn't the row that the list has in its place.
fn cell_of_hit(
    alloc: Global,
    kind: TableKind,
    list: &PlainList,
    hit: &Hit,
) -> Result<Option<u64>, Fail> {
    let Some(held) = row_in(list, hit.rid) else {
        return Ok(None);
    };
    let row = row_of(alloc, kind, held.number, held.seed)?;
    if !is_same_row(&hit.row, &row) {
        return Ok(None);
    }
    Ok(Some(cell_of(kind, held.seed)))
}

// Whether the rows of a block are those of the list, and of one cell.
fn are_right(alloc: Global, kind: TableKind, list: &PlainList, hits: &[Hit]) -> Result<bool, Fail> {
    let mut cell = None;
    for hit in hits {
        let its = cell_of_hit(alloc, kind, list, hit)?;
        if its.is_none() || (cell.is_some() && cell != its) {
            return Ok(false);
        }
        cell = its;
    }
    Ok(true)
}

// The rows of a Used block.
fn rows_of<P: Pages>(
    alloc: Global,
    table: &Table,
    pages: &mut P,
    block: u32,
) -> Result<Vec<Hit>, Fail>
    requires defined { IsTableDef table.now.def.number table.now.def }
    requires going { (P.state pages.old).ended ≡ false }
    ensures going { (P.state pages.new).ended ≡ false }
{
    let (def, shape) = (&table.def, table.shape);
    Ok(rows_of_used_block(alloc, def, shape, pages, block)?)
}

// How many rows there are of these, which are those of the list, at least one, and of one cell.
fn count_right(
    alloc: Global,
    kind: TableKind,
    list: &PlainList,
    hits: &[Hit],
) -> Result<usize, Fail> {
    if hits.len() == 0 || !are_right(alloc, kind, list, hits)? {
        return Err(Fail::new("other rows"));
    }
    Ok(hits.len())
}

// How many rows a Used block has. They are those of the list.
fn rows_in<P: Pages>(
    alloc: Global,
    table: &Table,
    pages: &mut P,
    list: &PlainList,
    block: u32,
) -> Result<usize, Fail>
    requires defined { IsTableDef table.now.def.number table.now.def }
    requires going { (P.state pages.old).ended ≡ false }
    ensures going { (P.state pages.new).ended ≡ false }
{
    if block >= table.shape.extents {
        return Err(Fail::new("a block that there isn't"));
    }
    let hits = rows_of(alloc, table, pages, block)?;
    count_right(alloc, table.kind, list, hits.as_slice())
}

// How many rows these blocks have.
fn rows_in_all<P: Pages>(
    alloc: Global,
    table: &Table,
    pages: &mut P,
    list: &PlainList,
    blocks: &[u32],
) -> Result<usize, Fail>
    requires defined { IsTableDef table.now.def.number table.now.def }
    requires going { (P.state pages.old).ended ≡ false }
    ensures going { (P.state pages.new).ended ≡ false }
{
    let mut many: usize = 0;
    for block in blocks {
        many = many.wrapping_add(rows_in(alloc, table, pages, list, *block)?);
    }
    Ok(many)
}

// Looks at all Used blocks: their rows are those of the list. Answers how many blocks and rows there are.
fn look_at_blocks<P: Pages>(
    alloc: Global,
    table: &Table,
    pages: &mut P,
    list: &PlainList,
) -> Result<(usize, usize), Fail>
    requires defined { IsTableDef table.now.def.number table.now.def }
    requires going { (P.state pages.old).ended ≡ false }
    ensures going { (P.state pages.new).ended ≡ false }
{
    let blocks = used_blocks(alloc, &table.def, table.shape, pages)?;
    let rows = rows_in_all(alloc, table, pages, list, blocks.as_slice())?;
    Ok((blocks.len(), rows))
}

// The pages stand for the rows of the list; and all Used blocks have as many, and no block is counted that wasn't seen.
fn check<P: Pages>(
    alloc: Global,
    table: &Table,
    pages: &mut P,
    list: &PlainList,
) -> Result<(), Fail>
    requires defined { IsTableDef table.now.def.number table.now.def }
    requires going { (P.state pages.old).ended ≡ false }
    ensures going { (P.state pages.new).ended ≡ false }
{
    if !stand_for_list(alloc, table, pages, list)? {
        return Err(Fail::new("pages of another database"));
    }
    let (blocks, rows) = look_at_blocks(alloc, table, pages, list)?;
    let account = blocks_of(alloc, table, pages)?;
    if rows != list.rows.len() || account.used != blocks as u64 || account.pending != 0 {
        return Err(Fail::new("another number of rows"));
    }
    Ok(())
}

// Looks at each row of the list by its place.
fn look_each<P: Pages>(
    alloc: Global,
    table: &Table,
    pages: &mut P,
    list: &PlainList,
) -> Result<(), Fail>
    requires defined { IsTableDef table.now.def.number table.now.def }
    requires going { (P.state pages.old).ended ≡ false }
{
    for held in &list.rows {
        let (is_there, _) = looked_at(alloc, table, pages, *held)?;
        if !is_there {
            return Err(Fail::new("another row, or none"));
        }
    }
    Ok(())
}

// So many changes of a table, looked at again and again.
fn change_and_check<P: Pages>(
    alloc: Global,
    table: &mut Table,
    pages: &mut P,
    list: &mut PlainList,
    rounds: u32,
) -> Result<(), Fail>
    requires defined { IsTableDef table.old.def.number table.old.def }
    requires going { (P.state pages.old).ended ≡ false }
{
    let mut number: u64 = 1;
    for _ in 0..rounds {
        number = change_some(alloc, table, pages, list, number)?;
        check(alloc, table, pages, list)?;
    }
    look_each(alloc, table, pages, list)
}

// The same of an empty table. Answers how many rows there are at last.
fn run<P: Pages>(alloc: Global, kind: TableKind, pages: &mut P, rounds: u32) -> Result<usize, Fail>
    requires going { (P.state pages.old).ended ≡ false }
{
    let mut table = table_of(alloc, kind, EXTENTS, pages)?;
    let mut list = no_rows(alloc, kind);
    change_and_check(alloc, &mut table, pages, &mut list, rounds)?;
    Ok(list.rows.len())
}

#[test]
fn rows_of_many_cells_are_those_of_a_list(rt: HostRuntime) -> Result<(), Fail> {
    let many = run(
        rt.alloc(),
        TableKind::Mixed,
        &mut fresh_store(rt.alloc())?,
        40,
    )?;
    assert!(rt; many > 18);
    Ok(())
}

#[test]
fn rows_of_full_blocks_are_those_of_a_list(rt: HostRuntime) -> Result<(), Fail> {
    let many = run(
        rt.alloc(),
        TableKind::Wide,
        &mut fresh_store(rt.alloc())?,
        40,
    )?;
    assert!(rt; many > 40);
    Ok(())
}
