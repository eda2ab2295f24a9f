// Record indexes that come and go.
ghost use Rattle.std.specs.Prelude.{◌≡◌, IfOk, IsSome, OnErr};
ghost use Rattle.mdc_ast.specs.declared.bound.Bound.TheVariants as bound;
ghost use Rattle.mdc_ast.specs.Database.{table_at};
ghost use Rattle.statement_meaning.specs.Built.{IsBuiltDatabase};
ghost use Rattle.row_checks.specs.Executing.{IsThere, MayDropIndex, answer_of, done};

use crate::keys::clashes;
use crate::tables::Tables;
use mdc_ast::{IndexDef, Outcome, Reply};
use mdc_values::Memory;
use row_checks::duplicate_key;
use std::alloc::Global;

/// A CREATE INDEX: the rows are judged before it is made. After `Memory` nothing has changed.
pub fn create_index(
    alloc: Global,
    table: u8,
    index: IndexDef,
    tables: &mut Tables,
) -> Result<Outcome, Memory>
    requires valid { IsBuiltDatabase tables.old }
    requires ready { IsSome (table_at tables.old table) }
    ensures done { IfOk result (λ outcome. done tables.old (bound.CreateIndex table index) ≡ (tables.new, answer_of outcome)) }
    ensures memory { OnErr result (tables.new ≡ tables.old) }
{
    if clashes(alloc, &index, tables.table(table).rows)? {
        return Ok(Outcome::Refused(duplicate_key(alloc, &index.name)?));
    }
    tables.add_index(table, index)?;
    Ok(Outcome::Done(Reply::Done))
}

/// A DROP INDEX. It takes no memory.
pub fn drop_index(table: u8, index: u8, tables: &mut Tables) -> Outcome
    requires valid { IsBuiltDatabase tables.old }
    requires ready { IsThere (table_at tables.old table) (MayDropIndex index) }
    ensures { done tables.old (bound.DropIndex table index) ≡ (tables.new, answer_of result) }
{
    tables.remove_index(table, index);
    Outcome::Done(Reply::Done)
}
