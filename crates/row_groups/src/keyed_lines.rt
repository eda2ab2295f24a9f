// Lines of groups, found by the keys of their values.
ghost use Rattle.std.specs.Prelude.{◌≡◌, ◌++◌, ◌∷◌, [], List, OnOk};
ghost use Rattle.std.specs.List.{IsDistinct};
ghost use Rattle.std.specs.List.Sorted.{IsPermutation};
ghost use Rattle.std.specs.Map.{keys_of, values_of};
ghost use Rattle.std.specs.Str.{bytes_eq};
ghost use Rattle.mdc_ast.specs.declared.row.Row.{Row};
ghost use Rattle.row_groups.specs.Gathering.{AreFound};
ghost use Rattle.row_groups.specs.Naming.{AreAlike};
ghost use Rattle.row_groups.specs.Shape.{shape_of};

use crate::keys::is_key;
use crate::line_so_far::LineSoFar;
use crate::placing::{add_at, begin_line, find_place};
use mdc_ast::BoundSelect;
use mdc_values::{Memory, Value};
use std::alloc::Global;
use std::collections::BTreeMap;
use std::marker::Model;

/// Lines of groups, found by the keys of their values in an ordered map. The line of the row before is at hand: a row with the
/// same key is added to it with no look-up, and its key isn't built.
#[derive(Drop)]
pub(crate) struct KeyedLines {
    lines: Vec<LineSoFar>,
    /// The place of each line, by its key.
    places: BTreeMap<Vec<u8>, usize>,
    /// A key, and the place of its line where that is known.
    key: Vec<u8>,
    at_hand: Option<usize>,
}

impl Model for KeyedLines {
    ghost use Rattle.std.specs.Prelude.{ℕ, List};
    ghost use Rattle.row_groups.specs.Adding.{Numbered};
    ghost use Rattle.row_groups.specs.Gathering.{IsKeyed, entries_of, lines_at};

    ghost Value = { List (List ℕ × Numbered) };

    ghost view = { λ keyed. lines_at keyed.lines.items (entries_of keyed.places) };

    ghost invariant = { λ keyed. IsKeyed keyed.lines.items (entries_of keyed.places) keyed.key.items keyed.at_hand };
}

impl KeyedLines {
    /// No lines.
    pub(crate) fn new(alloc: Global) -> KeyedLines
        ensures { result ≡ [] }
    {
        KeyedLines {
            lines: Vec::new(alloc),
            places: BTreeMap::new(alloc),
            key: Vec::new(alloc),
            at_hand: None,
        }
    }

    /// So many rows of the group with these values, or of a new one. After `Memory` the lines are done with.
    pub(crate) fn add(
        &mut self,
        alloc: Global,
        select: &BoundSelect,
        number: u64,
        count: u64,
        values: &[Value],
    ) -> Result<(), Memory>
        ensures { (rows more : List Row) → (row : Row) → AreFound (shape_of select.now) rows self.old → AreAlike (shape_of select.now) number count values.now row more → OnOk result (AreFound (shape_of select.now) (rows ++ row ∷ more) self.new) }
    {
        if let Some(place) = self.at_hand {
            if is_key(self.key.as_slice(), select.group.as_slice(), values) {
                return add_at(alloc, select, number, count, values, place, &mut self.lines);
            }
        }
        self.add_elsewhere(alloc, select, number, count, values)
    }

    /// The same by a look-up.
    fn add_elsewhere(
        &mut self,
        alloc: Global,
        select: &BoundSelect,
        number: u64,
        count: u64,
        values: &[Value],
    ) -> Result<(), Memory>
        ensures { (rows more : List Row) → (row : Row) → AreFound (shape_of select.now) rows self.old → AreAlike (shape_of select.now) number count values.now row more → OnOk result (AreFound (shape_of select.now) (rows ++ row ∷ more) self.new) }
    {
        self.at_hand = None;
        if let Some(place) = find_place(
            select.group.as_slice(),
            values,
            &mut self.key,
            &self.places,
        )? {
            self.at_hand = Some(place);
            return add_at(alloc, select, number, count, values, place, &mut self.lines);
        }
        let line = LineSoFar::of_rows(alloc, select, number, count, values)?;
        let place = begin_line(
            alloc,
            self.key.as_slice(),
            line,
            &mut self.lines,
            &mut self.places,
        )?;
        self.at_hand = Some(place);
        Ok(())
    }

    /// The lines in the order in which they came.
    pub(crate) fn into_lines(self) -> Vec<LineSoFar>
        ensures permuted { IsPermutation (values_of self) result.items }
        ensures differ { IsDistinct bytes_eq (keys_of self) }
    {
        let KeyedLines { lines, .. } = self;
        lines
    }
}
