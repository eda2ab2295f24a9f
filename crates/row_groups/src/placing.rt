// Lines at places, which keys have.
ghost use Rattle.std.specs.Prelude.{◌≡◌, ◌<◌, ◌++◌, ◌∷◌, [], length, slice_index_or, slice_set, if◌then◌else◌, IfOk, IsTrue, OnOk};
ghost use Rattle.std.specs.BTreeMap.{insert_entry};
ghost use Rattle.std.specs.Cmp.Lexicographic.{slice_cmp};
ghost use Rattle.std.specs.Map.{lookup};
ghost use Rattle.std.specs.Ordering.{nat_cmp};
ghost use Rattle.std.specs.Result.{is_ok};
ghost use Rattle.std.specs.Str.{bytes_eq};
ghost use Rattle.row_groups.specs.Adding.{joined_many};
ghost use Rattle.row_groups.specs.Gathering.{entries_of, no_line};
ghost use Rattle.row_groups.specs.Keys.{are_small, group_key};
ghost use Rattle.row_groups.specs.Shape.{shape_of};

use crate::keys::append_key;
use crate::line_so_far::LineSoFar;
use mdc_ast::BoundSelect;
use mdc_values::{Memory, Value};
use std::alloc::Global;
use std::collections::BTreeMap;

/// So many rows more of the line in a place. After `Memory` the line is done with.
pub(crate) fn add_at(
    alloc: Global,
    select: &BoundSelect,
    number: u64,
    count: u64,
    values: &[Value],
    place: usize,
    lines: &mut Vec<LineSoFar>,
) -> Result<(), Memory>
    requires { place < length lines.old.items }
    ensures added { OnOk result (lines.new.items ≡ slice_set lines.old.items place (joined_many (shape_of select.now) count (slice_index_or lines.old.items place no_line) (record { number = number; values = values.now }))) }
    ensures count { length lines.new.items ≡ length lines.old.items }
{
    lines[place].add(alloc, select, number, count, values)
}

/// The key of a row's values, and the place that it has.
pub(crate) fn find_place(
    columns: &[u8],
    values: &[Value],
    key: &mut Vec<u8>,
    places: &BTreeMap<Vec<u8>, usize>,
) -> Result<Option<usize>, Memory>
    ensures key { OnOk result (key.new.items ≡ group_key columns.now values.now) }
    ensures small { OnOk result (IsTrue (are_small columns.now values.now)) }
    ensures place { IfOk result (λ place. lookup (bytes_eq key.new.items) (entries_of places.now) ≡ place) }
{
    key.clear();
    append_key(columns, values, key)?;
    Ok(places.get(key.as_slice()).copied())
}

/// A line with the next place, which this key has.
pub(crate) fn begin_line(
    alloc: Global,
    key: &[u8],
    line: LineSoFar,
    lines: &mut Vec<LineSoFar>,
    places: &mut BTreeMap<Vec<u8>, usize>,
) -> Result<usize, Memory>
    ensures place { IfOk result (λ place. place ≡ length lines.old.items) }
    ensures lines { lines.new.items ≡ (if is_ok result then lines.old.items ++ line ∷ [] else lines.old.items) }
    ensures places { entries_of places.new ≡ (if is_ok result then insert_entry (slice_cmp nat_cmp) (entries_of places.old) key.now (length lines.old.items) else entries_of places.old) }
{
    let place = lines.len();
    let key = Vec::from_slice(alloc, key)?;
    lines.reserve(1)?;
    places.insert(key, place)?;
    lines.push_reserved(line);
    Ok(place)
}
