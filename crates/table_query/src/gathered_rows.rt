// Lines that take rows where they lie.
ghost use Rattle.std.specs.Prelude.{◌≡◌, ◌≤◌, ◌<◌, [], length, IsTrue, IfOk, OnOk};
ghost use Rattle.std.specs.List.{All};
ghost use Rattle.row_page.specs.Row.{row_in};
ghost use Rattle.answer_text.specs.Lines.{are_outs_within};
ghost use Rattle.table_query.specs.Gathering.{HasLinesOf, MayTakeRows};
ghost use Rattle.table_query.specs.Named.{HasValuesIn};

use crate::asked::Asked;
use crate::named::named_columns;
use answer_text::QueryLines;
use block_rows::RowSink;
use mdc_ast::{BoundSelect, TableDef};
use mdc_values::{List, Memory, Rid, Value};
use row_page::RowView;
use std::alloc::Global;
use std::marker::PhantomData;

/// Lines that take rows where they lie, of each the columns alone that the query names.
#[derive(Drop)]
pub(crate) struct GatheredRows<'q, Q: Asked> {
    lines: QueryLines<'q>,
    /// The columns that are named.
    columns: Vec<u8>,
    /// The row at hand: a value for each column, of which the named ones are read.
    values: List<Value>,
    asked: PhantomData<Q>,
}

impl<'q, Q: Asked> GatheredRows<'q, Q> {
    /// The lines of no rows.
    pub(crate) fn new(
        alloc: Global,
        def: &'q TableDef,
        select: &'q BoundSelect,
    ) -> Result<GatheredRows<'q, Q>, Memory>
        requires columns { Q.columns ≡ def.now.columns }
        requires select { Q.select ≡ select.now }
        requires few { length def.now.columns ≤ 16 }
        requires shown { IsTrue (are_outs_within (length def.now.columns) select.now.outs) }
        ensures takes { IfOk result (λ rows. MayTakeRows Q.columns Q.select rows.lines rows.columns.items rows.values) }
        ensures none { IfOk result (λ rows. HasLinesOf Q.columns Q.select [] rows.lines) }
    {
        let lines = QueryLines::new(alloc, select, &def.columns)?;
        let width = def.columns.len();
        let columns = named_columns(alloc, select, width as u8)?;
        let values = nulls(alloc, width)?;
        Ok(GatheredRows {
            lines,
            columns,
            values,
            asked: PhantomData,
        })
    }

    /// The lines of the rows that were taken.
    pub(crate) fn into_lines(self) -> QueryLines<'q>
        ensures { result ≡ self.entry.lines }
    {
        let GatheredRows {
            lines,
            columns: _,
            values: _,
            asked: _,
        } = self;
        lines
    }
}

impl<'q, Q: Asked> RowSink for GatheredRows<'q, Q> {
    ghost use Rattle.std.specs.Prelude.{◌≡◌, map};
    ghost use Rattle.table_query.specs.Gathering.{HasLinesOf, MayTakeRows};

    ghost is_for = { λ columns rows. (columns ≡ Q.columns) × MayTakeRows Q.columns Q.select rows.lines rows.columns.items rows.values };

    ghost has = { λ placed rows. HasLinesOf Q.columns Q.select (map (λ one. one.row) placed) rows.lines };

    fn take(&mut self, alloc: Global, row: &RowView, _rid: Rid) -> Result<(), Memory> {
        read_columns(alloc, row, self.columns.as_slice(), &mut self.values)?;
        self.lines.add(alloc, row.number(), &self.values)
    }
}

/// So many nulls.
fn nulls(alloc: Global, count: usize) -> Result<List<Value>, Memory>
    ensures { IfOk result (λ values. length values ≡ count) }
{
    let mut values = List::new(alloc);
    for _at in 0..count {
        values.push(Value::Null)?;
    }
    Ok(values)
}

/// Reads these columns of a row.
fn read_columns(
    alloc: Global,
    row: &RowView,
    columns: &[u8],
    values: &mut List<Value>,
) -> Result<(), Memory>
    requires there { All (λ column. column < length row.now.columns.now) columns.now }
    requires wide { length values.old ≡ length row.now.columns.now }
    ensures wide { length values.new ≡ length values.old }
    ensures read { OnOk result (HasValuesIn columns.now values.new (row_in row.now.columns.now row.now.bytes.now).values) }
{
    for column in columns {
        let value = row.value(alloc, *column)?;
        values.set(usize::from(*column), value);
    }
    Ok(())
}
