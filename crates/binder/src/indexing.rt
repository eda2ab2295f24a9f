// A CREATE INDEX and a DROP INDEX: what is said against them. The width of a key is taken from the room that is left, so that no
// sum overflows.
ghost use Rattle.std.specs.Prelude.{◌≡◌, ◌+◌, ◌<◌, ◌++◌, [], length, nat_le, MatchOption};
ghost use Rattle.mdc_ast.specs.Definitions as definitions;
ghost use Rattle.statement_meaning.specs.Cause.{Limit, cause_if};
ghost use Rattle.statement_meaning.specs.Judged.{drop_index_judged, index_judged, long_name, long_parts, part_names, types_of};
ghost use Rattle.statement_meaning.specs.Judging.{in_order, listed_names};
ghost use Rattle.binder.specs.Saying.{first_of, said_by};

use crate::creation_limits::{KEY_LIMIT, judge_length};
use crate::kinds::width;
use crate::names::{column_named, has_column, is_same};
use crate::objection::Objection;
use catalog::Catalog;
use mdc_ast::{ColumnDef, KeyText, Name, TableDef};

// How many record indexes a table has at most.
const INDEX_LIMIT: usize = 8;

/// Judges a CREATE INDEX on a table that is there.
#[tactic(auto, using(crate::proofs::FirstLemmas::first_steps))]
pub fn judge_index<'a>(
    name: &'a Name,
    parts: &'a [KeyText],
    def: &TableDef,
    catalog: &Catalog,
) -> Result<(), Objection<'a>>
    ensures { first_of (in_order (index_judged catalog.now name.now parts.now def.now)) ≡ said_by result }
{
    if catalog.index(name).is_some() {
        return Err(Objection::IndexExists(name));
    }
    judge_parts(def.columns.as_slice(), parts)?;
    judge_limits(name, parts, def)
}

/// Judges a DROP INDEX.
pub fn judge_index_drop<'a>(name: &'a Name, catalog: &Catalog) -> Result<(), Objection<'a>>
    ensures { first_of (in_order (drop_index_judged catalog.now name.now)) ≡ said_by result }
{
    if catalog.index(name).is_some() {
        Ok(())
    } else {
        Err(Objection::NoIndex(name))
    }
}

// No more parts than there are columns stand before the first whose column isn't there or stands twice.
fn judge_parts<'a>(columns: &[ColumnDef], parts: &'a [KeyText]) -> Result<(), Objection<'a>>
    ensures { first_of (listed_names (definitions.column_names columns.now) [] (part_names parts.now)) ≡ said_by result }
{
    for (place, part) in parts.iter().enumerate() {
        if !has_column(columns, &part.column) {
            return Err(Objection::NoColumn(&part.column));
        }
        if is_among(&part.column, &parts[..place]) {
            return Err(Objection::ColumnTwice(&part.column));
        }
    }
    Ok(())
}

fn is_among(name: &Name, parts: &[KeyText]) -> bool
    ensures { result ≡ definitions.is_among name.now (part_names parts.now) }
{
    for part in parts {
        if is_same(name, &part.column) {
            return true;
        }
    }
    false
}

#[tactic(auto, using(crate::proofs::FirstLemmas::first_steps))]
fn judge_limits<'a>(name: &Name, parts: &[KeyText], def: &TableDef) -> Result<(), Objection<'a>>
    ensures { first_of (long_name name.now ++ cause_if (nat_le 8 (length def.now.indexes)) (Limit 8)
        ++ long_parts def.now.columns (part_names parts.now)) ≡ said_by result }
{
    judge_length(name)?;
    if def.indexes.len() >= INDEX_LIMIT {
        return Err(Objection::Limit(INDEX_LIMIT as u64));
    }
    judge_key(def.columns.as_slice(), parts)
}

fn judge_key<'a>(columns: &[ColumnDef], parts: &[KeyText]) -> Result<(), Objection<'a>>
    ensures { first_of (long_parts columns.now (part_names parts.now)) ≡ said_by result }
{
    if room_behind(columns, parts).is_none() {
        return Err(Objection::Limit(KEY_LIMIT));
    }
    Ok(())
}

// The room that a key of these columns leaves, if it fits.
fn room_behind(columns: &[ColumnDef], parts: &[KeyText]) -> Option<u64>
    ensures { MatchOption result
        (128 < definitions.key_width (types_of columns.now (part_names parts.now)))
        (λ left. left + definitions.key_width (types_of columns.now (part_names parts.now)) ≡ 128) }
{
    let mut left = KEY_LIMIT;
    for part in parts {
        if let Some(column) = column_named(columns, &part.column) {
            left = left.checked_sub(1)?.checked_sub(width(column.ty))?;
        }
    }
    Some(left)
}
