// Tables that come and go.
ghost use Rattle.std.specs.Prelude.{◌≡◌, IsSome};
ghost use Rattle.mdc_ast.specs.declared.bound.Bound.TheVariants as bound;
ghost use Rattle.mdc_ast.specs.Database.{defs_of, table_at};
ghost use Rattle.mdc_ast.specs.Definitions.{empty_place};
ghost use Rattle.row_checks.specs.Executing.{answer_of, done};

use crate::tables::Tables;
use mdc_ast::{Outcome, Reply, TableDef};

/// A CREATE TABLE. It takes no memory.
pub fn create(def: TableDef, tables: &mut Tables) -> Outcome
    requires { IsSome (empty_place (defs_of tables.old)) }
    ensures { done tables.old (bound.CreateTable def) ≡ (tables.new, answer_of result) }
{
    tables.enter(def);
    Outcome::Done(Reply::Done)
}

/// A DROP TABLE.
pub fn drop_table(table: u8, tables: &mut Tables) -> Outcome
    requires { IsSome (table_at tables.old table) }
    ensures { done tables.old (bound.DropTable table) ≡ (tables.new, answer_of result) }
{
    tables.leave(table);
    Outcome::Done(Reply::Done)
}
