// The rows of an INSERT.
ghost use Rattle.std.specs.Prelude.{◌≡◌, ◌<◌, ◌+◌, ◌^◌, length, IfOk, OnErr};
ghost use Rattle.mdc_ast.specs.declared.bound.Bound.TheVariants as bound;
ghost use Rattle.statement_meaning.specs.Built.{IsBuiltDatabase};
ghost use Rattle.mdc_ast.specs.Database.{table_at, numbered};
ghost use Rattle.row_checks.specs.Executing.{IsThere, MayInsert, answer_of, done};

use crate::keys::first_clash;
use crate::tables::Tables;
use mdc_ast::{Outcome, Reply, Row};
use mdc_values::{List, Memory, Value};
use row_checks::{duplicate_key, first_null_in, numbers_used_up, unfit};
use std::alloc::Global;

/// An INSERT: all tuples are judged before a row goes in. After `Memory` nothing has changed.
pub fn insert(
    alloc: Global,
    table: u8,
    tuples: List<List<Value>>,
    tables: &mut Tables,
) -> Result<Outcome, Memory>
    requires valid { IsBuiltDatabase tables.old }
    requires ready { IsThere (table_at tables.old table) (MayInsert tuples) }
    ensures done { IfOk result (λ outcome. done tables.old (bound.Insert table tuples) ≡ (tables.new, answer_of outcome)) }
    ensures memory { OnErr result (tables.new ≡ tables.old) }
{
    let lent = tables.table(table);
    let def = lent.def;
    let next = def.next;
    if let Some(misfit) = first_null_in(def.columns.as_slice(), tuples.as_slice()) {
        return Ok(Outcome::Refused(unfit(alloc, misfit)?));
    }
    if let Some(index) = first_clash(alloc, def.indexes.as_slice(), lent.rows, tuples.as_slice())? {
        return Ok(Outcome::Refused(duplicate_key(alloc, index)?));
    }
    let count = tuples.len() as u64;
    let Some(after) = next.checked_add(count) else {
        return Ok(Outcome::Refused(numbers_used_up(alloc, next)));
    };
    let mut added = numbered_rows(alloc, next, tuples)?;
    let mut rows = tables.take_rows(table);
    let appended = rows.append(&mut added);
    tables.put_rows(table, rows);
    appended?;
    tables.number_from(table, after);
    Ok(Outcome::Done(Reply::Inserted(count)))
}

// A row for each tuple, numbered from `next` on. It copies no value.
fn numbered_rows(alloc: Global, next: u64, tuples: List<List<Value>>) -> Result<Vec<Row>, Memory>
    requires { next + length tuples < 2 ^ 64 }
    ensures { IfOk result (λ rows. rows.items ≡ numbered next tuples) }
{
    let mut rows = Vec::with_capacity(alloc, tuples.len())?;
    let mut number = next;
    for values in tuples.into_vec() {
        rows.push(Row { number, values })?;
        number += 1;
    }
    Ok(rows)
}
