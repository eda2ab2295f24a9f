// A CREATE TABLE: what is said against its names.
ghost use Rattle.std.specs.Prelude.{◌≡◌, [], ◌++◌, IfOk, List, flat_map, map};
ghost use Rattle.mdc_ast.specs.declared.name.Name.{Name};
ghost use Rattle.statement_meaning.specs.Judged.{create_judged, text_names, twice_named};
ghost use Rattle.statement_meaning.specs.Judging.{in_order, listed_names};
ghost use Rattle.binder.specs.Knowing.{Knows};
ghost use Rattle.binder.specs.Saying.{first_of, said_by};

use crate::creation_limits::judge_limits;
use crate::known_names::KnownNames;
use crate::objection::Objection;
use catalog::Catalog;
use mdc_ast::{ColumnText, Name};
use mdc_values::{List, Memory};
use std::alloc::Global;

/// Judges a CREATE TABLE. Names are looked up in sets, so that it takes a step for each.
pub fn judge_creation<'a>(
    alloc: Global,
    name: &'a Name,
    columns: &'a [ColumnText],
    dims: &'a [List<Name>],
    catalog: &Catalog,
) -> Result<Result<(), Objection<'a>>, Memory>
    ensures { IfOk result (λ judged. first_of (in_order (create_judged catalog.now name.now columns.now dims.now)) ≡ said_by judged) }
{
    if catalog.table(name).is_some() {
        return Ok(Err(Objection::TableExists(name)));
    }
    let dim_names = names_in(alloc, dims)?;
    if let Err(objection) = judge_names(alloc, columns, &dim_names)? {
        return Ok(Err(objection));
    }
    Ok(judge_limits(name, columns, dims, catalog))
}

/// The names of all dimensions, in the order of the text.
fn names_in<'a>(alloc: Global, dims: &'a [List<Name>]) -> Result<Vec<&'a Name>, Memory>
    ensures { IfOk result (λ names. map (λ name. name.now) names.items ≡ flat_map (λ dim. dim) dims.now) }
{
    let mut names = Vec::new(alloc);
    for dim in dims {
        for name in dim.as_slice() {
            names.push(name)?;
        }
    }
    Ok(names)
}

fn judge_names<'a>(
    alloc: Global,
    columns: &'a [ColumnText],
    dim_names: &[&'a Name],
) -> Result<Result<(), Objection<'a>>, Memory>
    ensures { IfOk result (λ judged. first_of (twice_named [] columns.now
        ++ listed_names (text_names columns.now) [] (map (λ name. name.now) dim_names.now)) ≡ said_by judged) }
{
    let mut known = KnownNames::new(alloc);
    if let Err(twice) = judge_columns(&mut known, columns)? {
        return Ok(Err(twice));
    }
    judge_dims(alloc, &known, dim_names)
}

// Afterwards the names of all columns are known, if none stands twice.
fn judge_columns<'a>(
    known: &mut KnownNames<'a>,
    columns: &'a [ColumnText],
) -> Result<Result<(), Objection<'a>>, Memory>
    requires { Knows known.old [] }
    ensures judged { IfOk result (λ judged. first_of (twice_named [] columns.now) ≡ said_by judged) }
    ensures known { IfOk result (λ judged. IfOk judged (λ _. Knows known.new (text_names columns.now))) }
{
    for column in columns {
        if !known.add(&column.name)? {
            return Ok(Err(Objection::ColumnTwice(&column.name)));
        }
    }
    Ok(Ok(()))
}

fn judge_dims<'a>(
    alloc: Global,
    columns: &KnownNames<'_>,
    names: &[&'a Name],
) -> Result<Result<(), Objection<'a>>, Memory>
    ensures { IfOk result (λ judged. (known : List Name) → Knows columns.now known
        → first_of (listed_names known [] (map (λ name. name.now) names.now)) ≡ said_by judged) }
{
    let mut earlier = KnownNames::new(alloc);
    for name in names {
        if !columns.has(name) {
            return Ok(Err(Objection::NoColumn(name)));
        }
        if !earlier.add(name)? {
            return Ok(Err(Objection::ColumnTwice(name)));
        }
    }
    Ok(Ok(()))
}
