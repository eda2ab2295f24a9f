// Groups that take rows one by one.
ghost use Rattle.std.specs.Prelude.{◌≡◌, ◌++◌, ◌∷◌, [], List, IsTrue, IfOk, OnOk, MatchResult};
ghost use Rattle.mdc_ast.specs.declared.row.Row.{Row};
ghost use Rattle.row_groups.specs.Answers.{IsAnswer, IsFault};
ghost use Rattle.row_groups.specs.Gathering.{AreGroupsOf};
ghost use Rattle.row_groups.specs.Lines.{shares_lines};
ghost use Rattle.row_groups.specs.Naming.{AreAlike};
ghost use Rattle.row_groups.specs.Numbers.{DifferInNumber};
ghost use Rattle.row_groups.specs.Shape.{Shape, shape_of};

use crate::closing::answer_of;
use crate::fault::GroupFault;
use crate::grouping::{Grouping, grouping_of};
use crate::joining::{add_line, add_to_whole, all_lines, lines_of_none};
use crate::keyed_lines::KeyedLines;
use crate::line::Line;
use crate::line_so_far::LineSoFar;
use mdc_ast::BoundSelect;
use mdc_values::{List, Memory, Value};
use std::alloc::Global;
use std::marker::Model;

/// What a query makes of the rows that it was given so far: a line for each group, and no row. With GROUP BY the line of the row
/// before is at hand, and others are found by keys in an ordered map, which takes a step for each doubling of the groups, whatever
/// the values are.
#[derive(Drop)]
pub struct Groups<'q> {
    select: &'q BoundSelect,
    grouping: Grouping,
    found: KeyedLines,
    lines: Vec<LineSoFar>,
}

impl<'q> Model for Groups<'q> {
    ghost use Rattle.row_groups.specs.Gathering.{GroupsSoFar, IsGrouped};
    ghost use Rattle.row_groups.specs.Shape.{shape_of};

    ghost Value = { GroupsSoFar };

    ghost view = { λ groups. record { shape = shape_of groups.select.now; found = groups.found; lines = groups.lines.items } };

    ghost invariant = { λ groups. IsGrouped groups.grouping (shape_of groups.select.now) groups.lines.items };
}

impl<'q> Groups<'q> {
    /// The groups of no rows.
    pub fn new(alloc: Global, select: &'q BoundSelect) -> Result<Groups<'q>, Memory>
        ensures groups { IfOk result (AreGroupsOf (shape_of select.now) []) }
        ensures shape { IfOk result (λ groups. groups.shape ≡ shape_of select.now) }
    {
        let lines = lines_of_none(alloc, select)?;
        Ok(Groups {
            select,
            grouping: grouping_of(select),
            found: KeyedLines::new(alloc),
            lines,
        })
    }

    /// Adds a row with this number and these values. Rows come in any order. After `Memory` the groups are done with.
    pub fn add(&mut self, alloc: Global, number: u64, values: &[Value]) -> Result<(), Memory>
        ensures shape { self.new.shape ≡ self.old.shape }
        ensures groups { (shape : Shape) → (rows : List Row) → AreGroupsOf shape rows self.old → OnOk result (AreGroupsOf shape (rows ++ record { number = number; values = values.now } ∷ []) self.new) }
    {
        if let Grouping::EachRow = self.grouping {
            return add_line(alloc, self.select, number, values, &mut self.lines);
        }
        self.add_alike(alloc, number, 1, values)
    }

    /// Adds so many rows at once, of which the lowest has this number, and which have these values in the columns that the query
    /// names. Another column may be left null. After `Memory` the groups are done with.
    pub fn add_alike(
        &mut self,
        alloc: Global,
        lowest: u64,
        count: u64,
        values: &[Value],
    ) -> Result<(), Memory>
        requires { IsTrue (shares_lines self.old.shape) }
        ensures shape { self.new.shape ≡ self.old.shape }
        ensures groups { (shape : Shape) → (rows more : List Row) → (row : Row) → AreGroupsOf shape rows self.old → AreAlike shape lowest count values.now row more → OnOk result (AreGroupsOf shape (rows ++ row ∷ more) self.new) }
    {
        if let Grouping::AllRows = self.grouping {
            return add_to_whole(alloc, self.select, count, values, &mut self.lines);
        }
        self.found.add(alloc, self.select, lowest, count, values)
    }

    /// The lines of all rows by rising number, in order and cut; or the first sum outside BIGINT.
    pub fn finish(self, alloc: Global) -> Result<List<Line>, GroupFault>
        ensures { (shape : Shape) → (rows : List Row) → AreGroupsOf shape rows self.entry → DifferInNumber rows → MatchResult result (IsAnswer shape rows) (IsFault shape rows) }
    {
        let lines = all_lines(self.lines, self.found)?;
        answer_of(alloc, self.select, lines)
    }
}
