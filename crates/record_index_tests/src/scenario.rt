// Rows come into both indexes, are looked for, leave and are swept.
ghost use Rattle.std.specs.Prelude.{◌≡◌, ◌<◌, false, IsTrue};
ghost use Rattle.key_codec.specs.Keys.{type_of_column};
ghost use Rattle.key_codec.specs.Spans.{first_column, span_has_kind_of};
ghost use Rattle.record_index.specs.RecordIndexes.{HasRecordIndexes, parts_of_record_index};

use crate::calls::{add, same_as, sweep, take};
use extent_map::SpaceNotes;
use mdc_ast::{Cut, Span, TableDef};
use mdc_values::{Rid, Rids, Value};
use mdc_words::Steps;
use record_index::rids_in;
use std::alloc::Global;
use std::sync::ledger::Ledger;
use std::test::Fail;
use store_api::{Damage, Pages, Shape};

/// What was answered.
#[derive(Drop)]
pub struct Answers {
    /// The rows with the key of row 0 in V: rows 0 and 4 have it.
    pub same: Rids,
    /// All rows by V.
    pub all: Rids,
    /// The rows without a day, by X.
    pub no_day: Rids,
    /// The rows with a day, by X.
    pub with_day: Rids,
    /// The damage of entering row 0 a second time.
    pub twice: Option<Damage>,
    /// The damage of taking row 3 out a second time.
    pub gone: Option<Damage>,
    /// How many entries of block 2 were swept out of V.
    pub swept: u32,
    /// The rows of V behind that.
    pub left: Rids,
}

/// A place.
pub fn place(block: u32, slot: u16) -> Rid {
    Rid { block, slot }
}

/// Enters the rows in an index: row 0 at (3, 0), row 1 at (2, 7), row 2 at (2, 8), row 3 at (1, 1), and at (2, 9) one like row 0.
pub fn filled<P: Pages>(
    alloc: Global,
    def: &TableDef,
    index: u8,
    shape: Shape,
    notes: &mut SpaceNotes,
    pages: &mut P,
) -> Result<(), Fail>
    requires indexes { HasRecordIndexes def.now }
    requires going { (P.state pages.old).ended ≡ false }
    ensures going { (P.state pages.new).ended ≡ false }
{
    add(alloc, def, index, shape, notes, pages, 0, place(3, 0))?;
    add(alloc, def, index, shape, notes, pages, 1, place(2, 7))?;
    add(alloc, def, index, shape, notes, pages, 2, place(2, 8))?;
    add(alloc, def, index, shape, notes, pages, 3, place(1, 1))?;
    add(alloc, def, index, shape, notes, pages, 0, place(2, 9))?;
    Ok(())
}

/// The rows of an index from one cut to another, which stand beside no value or a null.
pub fn between<P: Pages, L: Ledger>(
    alloc: Global,
    def: &TableDef,
    index: u8,
    pages: &mut P,
    span: &Span,
    entries: &mut Steps<L>,
) -> Result<Rids, Fail>
    requires indexes { HasRecordIndexes def.now }
    requires kind { IsTrue (span_has_kind_of (type_of_column def.now.columns (first_column (parts_of_record_index def.now index))) span.now) }
    requires going { (P.state pages.old).ended ≡ false }
    ensures going { (P.state pages.new).ended ≡ false }
{
    if usize::from(index) >= def.indexes.len() {
        return Err(Fail::new("no such index"));
    }
    Ok(rids_in(alloc, def, index, pages, span, entries)?)
}

/// Plays the scenario.
pub fn play<P: Pages, L: Ledger>(
    alloc: Global,
    def: &TableDef,
    shape: Shape,
    notes: &mut SpaceNotes,
    pages: &mut P,
    entries: &mut Steps<L>,
) -> Result<Answers, Fail>
    requires indexes { HasRecordIndexes def.now }
    requires going { (P.state pages.old).ended ≡ false }
{
    filled(alloc, def, 0, shape, notes, pages)?;
    filled(alloc, def, 1, shape, notes, pages)?;
    let whole = Span {
        low: Cut::First,
        high: Cut::Last,
    };
    let nulls = Span {
        low: Cut::Before(Value::Null),
        high: Cut::Last,
    };
    let days = Span {
        low: Cut::First,
        high: Cut::Before(Value::Null),
    };
    let same = same_as(alloc, def, pages, 0)?;
    let all = between(alloc, def, 0, pages, &whole, entries)?;
    let no_day = between(alloc, def, 1, pages, &nulls, entries)?;
    let with_day = between(alloc, def, 1, pages, &days, entries)?;
    let twice = add(alloc, def, 0, shape, notes, pages, 0, place(3, 0))?;
    take(alloc, def, 0, shape, notes, pages, 3, place(1, 1))?;
    let gone = take(alloc, def, 0, shape, notes, pages, 3, place(1, 1))?;
    let swept = sweep(alloc, def, shape, notes, pages)?;
    let left = between(alloc, def, 0, pages, &whole, entries)?;
    Ok(Answers {
        same,
        all,
        no_day,
        with_day,
        twice,
        gone,
        swept,
        left,
    })
}
