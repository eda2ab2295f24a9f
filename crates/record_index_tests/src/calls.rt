// The calls of the scenario, each on a row by its number.
ghost use Rattle.std.specs.Prelude.{◌≡◌, ◌<◌, false};
ghost use Rattle.record_index.specs.RecordIndexes.{HasRecordIndexes};

use crate::tables::{may_enter, row_of};
use extent_map::{SpaceFault, SpaceNotes};
use mdc_ast::TableDef;
use mdc_values::{Blocks, Rid, Rids};
use record_index::{add_row, drop_row, first_bound, rids_under, sweep_step};
use std::alloc::Global;
use std::test::Fail;
use store_api::{Damage, Pages, Shape, StoreFault};

/// Enters a row in an index. Answers the damage that was named, if any.
pub fn add<P: Pages>(
    alloc: Global,
    def: &TableDef,
    index: u8,
    shape: Shape,
    notes: &mut SpaceNotes,
    pages: &mut P,
    which: u8,
    rid: Rid,
) -> Result<Option<Damage>, Fail>
    requires indexes { HasRecordIndexes def.now }
    requires going { (P.state pages.old).ended ≡ false }
    ensures going { (P.state pages.new).ended ≡ false }
{
    let row = row_of(alloc, which)?;
    if !may_enter(def, index, &row) {
        return Err(Fail::new("a row that has no key there"));
    }
    match add_row(alloc, def, index, shape, notes, pages, &row, rid) {
        Ok(_) => Ok(None),
        Err(SpaceFault::Store(StoreFault::Damaged(damage))) => Ok(Some(damage)),
        Err(_) => Err(Fail::new("another fault")),
    }
}

/// Takes a row out of an index. Answers the damage that was named, if any.
pub fn take<P: Pages>(
    alloc: Global,
    def: &TableDef,
    index: u8,
    shape: Shape,
    notes: &mut SpaceNotes,
    pages: &mut P,
    which: u8,
    rid: Rid,
) -> Result<Option<Damage>, Fail>
    requires indexes { HasRecordIndexes def.now }
    requires going { (P.state pages.old).ended ≡ false }
    ensures going { (P.state pages.new).ended ≡ false }
{
    let row = row_of(alloc, which)?;
    if !may_enter(def, index, &row) {
        return Err(Fail::new("a row that has no key there"));
    }
    match drop_row(alloc, def, index, shape, notes, pages, &row, rid) {
        Ok(_) => Ok(None),
        Err(StoreFault::Damaged(damage)) => Ok(Some(damage)),
        Err(_) => Err(Fail::new("another fault")),
    }
}

/// The rows that have the key of a row in the index V.
pub fn same_as<P: Pages>(
    alloc: Global,
    def: &TableDef,
    pages: &mut P,
    which: u8,
) -> Result<Rids, Fail>
    requires indexes { HasRecordIndexes def.now }
    requires going { (P.state pages.old).ended ≡ false }
    ensures going { (P.state pages.new).ended ≡ false }
{
    let row = row_of(alloc, which)?;
    if !may_enter(def, 0, &row) {
        return Err(Fail::new("a row that has no key there"));
    }
    Ok(rids_under(alloc, def, 0, pages, &row.values)?)
}

/// Takes the entries that name block 2 out of the first leaf of the index V. Says how many there were.
pub fn sweep<P: Pages>(
    alloc: Global,
    def: &TableDef,
    shape: Shape,
    notes: &mut SpaceNotes,
    pages: &mut P,
) -> Result<u32, Fail>
    requires indexes { HasRecordIndexes def.now }
    requires going { (P.state pages.old).ended ≡ false }
    ensures going { (P.state pages.new).ended ≡ false }
{
    if def.indexes.len() == 0 {
        return Err(Fail::new("a table without indexes"));
    }
    let mut blocks = Blocks::new(alloc);
    blocks.push(2)?;
    let bound = first_bound(alloc, def, 0);
    let swept = sweep_step(alloc, def, 0, shape, notes, pages, bound.bytes(), &blocks)?;
    Ok(swept.removed)
}
