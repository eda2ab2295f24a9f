// The columns that the tuples of an INSERT go to.
ghost use Rattle.std.specs.Prelude.{◌≡◌, ◌<◌, length, Some};
ghost use Rattle.std.specs.List.{slice_get};
ghost use Rattle.mdc_ast.specs.Definitions.{column_names};
ghost use Rattle.statement_meaning.specs.Judged.{targets};
ghost use Rattle.binder.specs.Classes.{target_names};

use mdc_ast::{ColumnDef, Name};
use mdc_values::List;

/// The columns that a tuple gives, in its order.
#[derive(Clone, Copy)]
pub enum Targets<'a> {
    All(&'a [ColumnDef]),
    Listed(&'a [Name]),
}

impl<'a> Targets<'a> {
    /// The columns of a list, or all columns of a table where none is given.
    pub fn of(columns: &'a [ColumnDef], listed: &'a Option<List<Name>>) -> Targets<'a>
        ensures { target_names result ≡ targets columns.now listed.now }
    {
        match listed {
            Some(names) => Targets::Listed(names.as_slice()),
            None => Targets::All(columns),
        }
    }

    /// How many items a tuple has.
    pub fn len(self) -> usize
        ensures { result ≡ length (target_names self.entry) }
    {
        match self {
            Targets::All(columns) => columns.len(),
            Targets::Listed(names) => names.len(),
        }
    }

    /// The name of the column that a place of a tuple goes to.
    pub fn at(self, i: usize) -> &'a Name
        requires { i < length (target_names self) }
        ensures { slice_get (target_names self.entry) i ≡ Some result.now }
    {
        match self {
            Targets::All(columns) => name_at(columns, i),
            Targets::Listed(names) => listed_at(names, i),
        }
    }
}

fn name_at(columns: &[ColumnDef], i: usize) -> &Name
    requires { i < length columns.now }
    ensures { slice_get (column_names columns.now) i ≡ Some result.now }
{
    &columns[i].name
}

fn listed_at(names: &[Name], i: usize) -> &Name
    requires { i < length names.now }
    ensures { slice_get names.now i ≡ Some result.now }
{
    &names[i]
}
