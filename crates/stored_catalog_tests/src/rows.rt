// Rows of the wide tables, each told by its number in the table and by D.
ghost use Rattle.std.specs.Prelude.{◌≡◌, [], false, IfOk};
ghost use Rattle.mdc_ast.specs.TableLimits.{IsTableDef};
ghost use Rattle.mdc_ast.specs.FittingRows.{RowFits};
ghost use Rattle.stored_catalog.specs.StoredDefinitions.{AreWithinLimits};

use crate::tables::{save, taken};
use crate::wrong::Wrong;
use catalog::Catalog;
use cell_change::{delete_row, insert_row};
use cell_change_tests::does_fit;
use extent_map::{SpaceFault, SpaceNotes};
use mdc_ast::{Row, TableDef};
use mdc_table::Rooms;
use mdc_values::{Chars, List, Memory, Rid, Value};
use std::alloc::Global;
use std::test::Fail;
use store_api::{Pages, Shape};

// The row of a number with this D.
fn row_of(alloc: Global, number: u64, d: u32) -> Result<Row, Memory>
    ensures number { IfOk result (λ row. row.number ≡ number) }
{
    let x = Chars::of(alloc, b"NORTH")?;
    let y = Chars::of(alloc, b"")?;
    let values = vec![in alloc;
        Value::Int(i64::from(d)),
        Value::Int((number % 1_000_000) as i64),
        Value::Text(x),
        Value::Text(y),
        Value::Null,
    ]?;
    Ok(Row {
        number,
        values: List::from_vec(values),
    })
}

// The row of a number with this D, which fits the definition.
fn fitting_row(alloc: Global, def: &TableDef, number: u64, d: u32) -> Result<Row, Fail>
    ensures number { IfOk result (λ row. row.number ≡ number) }
    ensures fits { IfOk result (RowFits def.now) }
{
    let row = row_of(alloc, number, d)?;
    if !does_fit(def, &row) {
        return Err(Fail::new("a row that doesn't fit"));
    }
    Ok(row)
}

/// What inserting the next row answers, with this D.
pub fn try_insert<P: Pages>(
    alloc: Global,
    def: &mut TableDef,
    shape: Shape,
    notes: &mut SpaceNotes,
    pages: &mut P,
    d: u32,
) -> Result<Result<Rid, SpaceFault>, Fail>
    requires defined { IsTableDef def.old.number def.old }
    requires no_indexes { def.old.indexes ≡ [] }
    requires going { (P.state pages.old).ended ≡ false }
    ensures defined { IsTableDef def.new.number def.new }
    ensures no_indexes { def.new.indexes ≡ [] }
    ensures going { (P.state pages.new).ended ≡ false }
    ensures marked { (P.state pages.new).marked ≡ (P.state pages.old).marked }
{
    if def.next == u64::MAX {
        return Err(Fail::new("no number is left"));
    }
    let row = fitting_row(alloc, def, def.next, d)?;
    let mut rooms = Rooms::new(alloc);
    Ok(insert_row(alloc, def, shape, notes, &mut rooms, pages, &row))
}

/// Inserts the next row, with this D, which has to come in this place.
pub fn insert<P: Pages>(
    alloc: Global,
    def: &mut TableDef,
    shape: Shape,
    notes: &mut SpaceNotes,
    pages: &mut P,
    d: u32,
    place: Rid,
) -> Result<(), Fail>
    requires defined { IsTableDef def.old.number def.old }
    requires no_indexes { def.old.indexes ≡ [] }
    requires going { (P.state pages.old).ended ≡ false }
    ensures defined { IsTableDef def.new.number def.new }
    ensures no_indexes { def.new.indexes ≡ [] }
    ensures going { (P.state pages.new).ended ≡ false }
    ensures marked { (P.state pages.new).marked ≡ (P.state pages.old).marked }
{
    let rid = try_insert(alloc, def, shape, notes, pages, d)??;
    if rid != place {
        return Err(Fail::from(Wrong::Row(rid)));
    }
    Ok(())
}

/// Deletes the row of a number with this D, which lies there.
pub fn delete<P: Pages>(
    alloc: Global,
    def: &TableDef,
    shape: Shape,
    notes: &mut SpaceNotes,
    pages: &mut P,
    rid: Rid,
    number: u64,
    d: u32,
) -> Result<(), Fail>
    requires defined { IsTableDef def.now.number def.now }
    requires no_indexes { def.now.indexes ≡ [] }
    requires going { (P.state pages.old).ended ≡ false }
    ensures going { (P.state pages.new).ended ≡ false }
{
    let row = fitting_row(alloc, def, number, d)?;
    let mut rooms = Rooms::new(alloc);
    delete_row(alloc, def, shape, notes, &mut rooms, pages, rid, &row)?;
    Ok(())
}

/// Inserts so many rows, with D from 1 on: each is alone in its cell, so it has a block of its own, from this block on.
pub fn fill<P: Pages>(
    alloc: Global,
    def: &mut TableDef,
    shape: Shape,
    notes: &mut SpaceNotes,
    pages: &mut P,
    rows: u32,
    first: u32,
) -> Result<(), Fail>
    requires defined { IsTableDef def.old.number def.old }
    requires no_indexes { def.old.indexes ≡ [] }
    requires going { (P.state pages.old).ended ≡ false }
    ensures defined { IsTableDef def.new.number def.new }
    ensures no_indexes { def.new.indexes ≡ [] }
    ensures going { (P.state pages.new).ended ≡ false }
    ensures marked { (P.state pages.new).marked ≡ (P.state pages.old).marked }
{
    for i in 0..rows {
        let place = Rid {
            block: first.wrapping_add(i),
            slot: 0,
        };
        insert(alloc, def, shape, notes, pages, i.wrapping_add(1), place)?;
    }
    Ok(())
}

/// The same in a table of a catalog, whose page is written then.
pub fn fill_table<P: Pages>(
    alloc: Global,
    catalog: &mut Catalog,
    shape: Shape,
    notes: &mut SpaceNotes,
    pages: &mut P,
    table: u8,
    rows: u32,
    first: u32,
) -> Result<(), Fail>
    requires catalog { AreWithinLimits catalog.old }
    requires going { (P.state pages.old).ended ≡ false }
    ensures going { (P.state pages.new).ended ≡ false }
{
    let mut def = taken(catalog, table)?;
    fill(alloc, &mut def, shape, notes, pages, rows, first)?;
    save(catalog, pages, def)
}
