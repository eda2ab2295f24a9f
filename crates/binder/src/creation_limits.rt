// A CREATE TABLE: which limits it is over. Widths are taken from the room that is left, so that no sum overflows.
ghost use Rattle.std.specs.Prelude.{◌≡◌, ◌+◌, ◌<◌, ◌++◌, ◌==◌, flat_map, nat_le, is_none, MatchOption};
ghost use Rattle.statement_meaning.specs.Cause.{Limit, cause_if};
ghost use Rattle.mdc_ast.specs.Definitions.{empty_place, key_width, row_width};
ghost use Rattle.statement_meaning.specs.Judged as judged;
ghost use Rattle.binder.specs.Saying.{first_of, said_by};

use crate::column_texts::{text_named, width};
use crate::objection::Objection;
use catalog::Catalog;
use mdc_ast::{ColumnText, Name, TypeText};
use mdc_values::List;

// How many bytes a name has at most.
const NAME_LIMIT: usize = 18;

// How many bytes a CHAR has at most.
const CHAR_LIMIT: u64 = 254;

// How many tables a database has at most.
const TABLE_LIMIT: u64 = 16;

// How many columns a table has at most.
const COLUMN_LIMIT: usize = 16;

// How many dimensions a table has at most.
const DIM_LIMIT: usize = 4;

// How many bytes a row has at most, and how many of them are none of its columns'.
const ROW_LIMIT: u64 = 1000;

const ROW_HEAD: u64 = 10;

/// How many bytes a key has at most.
pub const KEY_LIMIT: u64 = 128;

/// Judges the limits of a CREATE TABLE.
#[tactic(auto, using(crate::proofs::FirstLemmas::first_steps))]
pub fn judge_limits<'a>(
    name: &Name,
    columns: &[ColumnText],
    dims: &[List<Name>],
    catalog: &Catalog,
) -> Result<(), Objection<'a>>
    ensures { first_of (judged.long_name name.now ++ cause_if (is_none (empty_place catalog.now)) (Limit 16)
        ++ judged.column_limits 0 columns.now columns.now
        ++ judged.dim_limits 0 columns.now (flat_map (λ dim. dim) dims.now) dims.now) ≡ said_by result }
{
    judge_length(name)?;
    if catalog.is_full() {
        return Err(Objection::Limit(TABLE_LIMIT));
    }
    judge_columns(columns)?;
    judge_dims(columns, dims)
}

/// Judges the length of a name that is made.
pub fn judge_length<'a>(name: &Name) -> Result<(), Objection<'a>>
    ensures { first_of (judged.long_name name.now) ≡ said_by result }
{
    if name.0.bytes().len() > NAME_LIMIT {
        return Err(Objection::Limit(NAME_LIMIT as u64));
    }
    Ok(())
}

fn judge_columns<'a>(columns: &[ColumnText]) -> Result<(), Objection<'a>>
    ensures { first_of (judged.column_limits 0 columns.now columns.now) ≡ said_by result }
{
    for (place, column) in columns.iter().enumerate() {
        judge_column(place, column)?;
    }
    if row_fits(columns) {
        Ok(())
    } else {
        Err(Objection::Limit(ROW_LIMIT))
    }
}

#[tactic(auto, using(crate::proofs::FirstLemmas::first_steps))]
fn judge_column<'a>(place: usize, column: &ColumnText) -> Result<(), Objection<'a>>
    ensures { first_of (cause_if (place == 16) (Limit 16) ++ judged.long_name column.now.name
        ++ judged.bad_length column.now.ty) ≡ said_by result }
{
    if place == COLUMN_LIMIT {
        return Err(Objection::Limit(COLUMN_LIMIT as u64));
    }
    judge_length(&column.name)?;
    judge_char(column.ty)
}

fn judge_char<'a>(ty: TypeText) -> Result<(), Objection<'a>>
    ensures { first_of (judged.bad_length ty) ≡ said_by result }
{
    match ty {
        TypeText::Integer | TypeText::Bigint | TypeText::Date => Ok(()),
        TypeText::Char(n) => {
            if n < 1 || n > CHAR_LIMIT {
                return Err(Objection::Limit(CHAR_LIMIT));
            }
            Ok(())
        }
    }
}

fn row_fits(columns: &[ColumnText]) -> bool
    ensures { result ≡ nat_le (row_width (judged.text_types columns.now)) 1000 }
{
    let mut room = ROW_LIMIT - ROW_HEAD;
    for column in columns {
        match room.checked_sub(width(column.ty)) {
            Some(left) => room = left,
            None => return false,
        }
    }
    true
}

fn judge_dims<'a>(columns: &[ColumnText], dims: &[List<Name>]) -> Result<(), Objection<'a>>
    ensures { first_of (judged.dim_limits 0 columns.now (flat_map (λ dim. dim) dims.now) dims.now) ≡ said_by result }
{
    for (place, dim) in dims.iter().enumerate() {
        judge_dim(place, columns, dim.as_slice())?;
    }
    if room_behind_all(KEY_LIMIT, columns, dims).is_some() {
        Ok(())
    } else {
        Err(Objection::Limit(KEY_LIMIT))
    }
}

fn judge_dim<'a>(place: usize, columns: &[ColumnText], dim: &[Name]) -> Result<(), Objection<'a>>
    ensures { first_of (cause_if (place == 4) (Limit 4) ++ judged.long_key columns.now dim.now) ≡ said_by result }
{
    if place == DIM_LIMIT {
        return Err(Objection::Limit(DIM_LIMIT as u64));
    }
    if room_behind(KEY_LIMIT, columns, dim).is_none() {
        return Err(Objection::Limit(KEY_LIMIT));
    }
    Ok(())
}

// The room that a key of all dimensions leaves, if it fits.
fn room_behind_all(room: u64, columns: &[ColumnText], dims: &[List<Name>]) -> Option<u64>
    ensures { MatchOption result
        (room < key_width (judged.types_named columns.now (flat_map (λ dim. dim) dims.now)))
        (λ left. left + key_width (judged.types_named columns.now (flat_map (λ dim. dim) dims.now)) ≡ room) }
{
    let mut left = room;
    for dim in dims {
        left = room_behind(left, columns, dim.as_slice())?;
    }
    Some(left)
}

// The room that a key of these columns leaves, if it fits.
fn room_behind(room: u64, columns: &[ColumnText], names: &[Name]) -> Option<u64>
    ensures { MatchOption result
        (room < key_width (judged.types_named columns.now names.now))
        (λ left. left + key_width (judged.types_named columns.now names.now) ≡ room) }
{
    let mut left = room;
    for name in names {
        if let Some(column) = text_named(columns, name) {
            left = left.checked_sub(1)?.checked_sub(width(column.ty))?;
        }
    }
    Some(left)
}
