// Rule 3: tables that share a name.
ghost use Rattle.std.specs.List.{list_any};
ghost use Rattle.std.specs.Prelude.{◌≡◌, length};
ghost use Rattle.mdc_ast.specs.Definitions as definitions;
ghost use Rattle.file_check.specs.TablePagesJudged.{first_shared, has_index_named, share_names, shares_later, shares_with};

use mdc_ast::{IndexDef, Name, TableDef};
use store_api::layout::{FIRST_TABLE_PAGE, TABLE_PLACES};

/// The lowest page of a table that shares a name with a later one: their own, or that of an index of each.
pub(crate) fn lowest_shared(defs: &[Option<TableDef>]) -> Option<u32>
    requires places { length defs.now ≡ 16 }
    ensures { result ≡ first_shared 1 defs.now }
{
    for t in 0..TABLE_PLACES {
        let place = usize::from(t);
        if shares_later(&defs[place], &defs[place + 1..]) {
            return Some(FIRST_TABLE_PAGE + u32::from(t));
        }
    }
    None
}

/// Whether a table, if it is there, shares a name with a later one.
fn shares_later(def: &Option<TableDef>, later: &[Option<TableDef>]) -> bool
    ensures { result ≡ shares_later def.now later.now }
{
    match def {
        Some(def) => shares_with_any(def, later),
        None => false,
    }
}

/// Whether a table shares a name with one of these.
fn shares_with_any(def: &TableDef, others: &[Option<TableDef>]) -> bool
    ensures { result ≡ list_any (shares_with def.now) others.now }
{
    others.iter().any(|other| shares_with(def, other))
}

/// Whether a table shares a name with another one, if that is there.
fn shares_with(def: &TableDef, other: &Option<TableDef>) -> bool
    ensures { result ≡ shares_with def.now other.now }
{
    match other {
        Some(other) => share_names(def, other),
        None => false,
    }
}

/// Whether two tables have one name, or an index of each has one.
fn share_names(one: &TableDef, other: &TableDef) -> bool
    ensures { result ≡ share_names one.now other.now }
{
    is_same(&one.name, &other.name)
        || share_index_names(one.indexes.as_slice(), other.indexes.as_slice())
}

/// Whether an index of one table has the name of one of the other.
fn share_index_names(ours: &[IndexDef], theirs: &[IndexDef]) -> bool
    ensures { result ≡ list_any (λ index. has_index_named theirs.now index.name) ours.now }
{
    ours.iter()
        .any(|index| has_index_named(theirs, &index.name))
}

/// Whether an index has this name.
fn has_index_named(indexes: &[IndexDef], name: &Name) -> bool
    ensures { result ≡ has_index_named indexes.now name.now }
{
    indexes.iter().any(|index| is_same(name, &index.name))
}

/// Whether two names are the same.
fn is_same(left: &Name, right: &Name) -> bool
    ensures { result ≡ definitions.is_same left.now right.now }
{
    left.0.bytes() == right.0.bytes()
}
