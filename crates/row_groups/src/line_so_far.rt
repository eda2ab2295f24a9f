// Lines while rows are added.
ghost use Rattle.std.specs.Prelude.{◌≡◌, [], length, map, IfOk, OnOk, MatchResult};
ghost use Rattle.mdc_ast.specs.Truth.{value_at};
ghost use Rattle.row_groups.specs.Adding.{begun_with, joined_many, line_of_many, with_rows};
ghost use Rattle.row_groups.specs.Answers.{IsOutgrown, outgrown_in};
ghost use Rattle.row_groups.specs.Lines.{line_of};
ghost use Rattle.row_groups.specs.Shape.{shape_of};

use crate::fault::GroupFault;
use crate::line::Line;
use crate::tally::Tally;
use crate::values::copy_at;
use mdc_ast::{BoundOut, BoundSelect};
use mdc_values::{List, Memory, Value};
use std::alloc::Global;
use std::marker::Model;

/// A line of the rows so far, with the lowest of their numbers. Contracts see it as the line that it would be.
#[derive(Debug, Drop)]
pub struct LineSoFar {
    number: u64,
    sorts: List<Value>,
    tallies: Vec<Tally>,
}

impl Model for LineSoFar {
    ghost use Rattle.std.specs.Prelude.{map};
    ghost use Rattle.row_groups.specs.Adding.{Numbered, seen};

    ghost Value = { Numbered };

    ghost view = { λ one. record { number = one.number; line = record { sorts = one.sorts; shows = map seen one.tallies.items } } };
}

impl LineSoFar {
    /// A line that has no rows yet, behind a row that begins it.
    pub(crate) fn begin(
        alloc: Global,
        select: &BoundSelect,
        number: u64,
        first: &[Value],
    ) -> Result<LineSoFar, Memory>
        ensures { IfOk result (λ one. one ≡ record { number = number; line = line_of (shape_of select.now) first.now [] }) }
    {
        let mut tallies = Vec::new(alloc);
        for out in select.outs.as_slice() {
            tallies.push(Tally::begin(alloc, *out, first)?)?;
        }
        let sorts = sorts_of(alloc, select, first)?;
        Ok(LineSoFar {
            number,
            sorts,
            tallies,
        })
    }

    /// A line of so many rows with these values, of which the first has this number.
    pub(crate) fn of_rows(
        alloc: Global,
        select: &BoundSelect,
        number: u64,
        count: u64,
        values: &[Value],
    ) -> Result<LineSoFar, Memory>
        ensures { IfOk result (λ one. one ≡ line_of_many (shape_of select.now) count (record { number = number; values = values.now })) }
    {
        let mut line = LineSoFar::begin(alloc, select, number, values)?;
        line.add_values(alloc, select.outs.as_slice(), count, values)?;
        Ok(line)
    }

    /// So many rows more with these values. The line begins with the first of them where its number is lower. After `Memory` the
    /// line is done with.
    pub(crate) fn add(
        &mut self,
        alloc: Global,
        select: &BoundSelect,
        number: u64,
        count: u64,
        values: &[Value],
    ) -> Result<(), Memory>
        ensures { OnOk result (self.new ≡ joined_many (shape_of select.now) count self.old (record { number = number; values = values.now })) }
    {
        self.add_values(alloc, select.outs.as_slice(), count, values)?;
        if number < self.number {
            return self.begin_with(alloc, select, number, values);
        }
        Ok(())
    }

    /// So many rows more behind the first. After `Memory` the line is done with.
    pub(crate) fn add_values(
        &mut self,
        alloc: Global,
        outs: &[BoundOut],
        count: u64,
        values: &[Value],
    ) -> Result<(), Memory>
        ensures { OnOk result (self.new ≡ record self.old { line = with_rows count outs.now self.old.line values.now }) }
    {
        for place in 0..outs.len().min(self.tallies.len()) {
            self.tallies[place].add(alloc, outs[place], count, values)?;
        }
        Ok(())
    }

    /// Another first row. After `Memory` the line is done with.
    fn begin_with(
        &mut self,
        alloc: Global,
        select: &BoundSelect,
        number: u64,
        values: &[Value],
    ) -> Result<(), Memory>
        ensures { OnOk result (self.new ≡ record { number = number; line = begun_with (shape_of select.now) self.old.line values.now }) }
    {
        let outs = select.outs.as_slice();
        for place in 0..outs.len().min(self.tallies.len()) {
            self.tallies[place].begin_with(alloc, outs[place], values)?;
        }
        self.sorts = sorts_of(alloc, select, values)?;
        self.number = number;
        Ok(())
    }

    /// The line, or the first of its sums that is outside BIGINT.
    pub(crate) fn close(self, alloc: Global, outs: &[BoundOut]) -> Result<Line, GroupFault>
        ensures { length self.line.shows ≡ length outs.now → MatchResult result (λ line. (line ≡ self.line) × (outgrown_in outs.now self.line.shows ≡ [])) (IsOutgrown (outgrown_in outs.now self.line.shows)) }
    {
        let LineSoFar { sorts, tallies, .. } = self;
        let mut shows = List::new(alloc);
        let mut tallies = tallies.into_iter();
        for out in outs {
            if let Some(tally) = tallies.next() {
                shows.push(tally.close(*out)?)?;
            }
        }
        Ok(Line { sorts, shows })
    }

    /// The lowest number of the rows.
    pub(crate) fn number(&self) -> u64
        ensures { result ≡ self.now.number }
    {
        self.number
    }
}

/// The values of a row that a line is ordered by.
fn sorts_of(alloc: Global, select: &BoundSelect, values: &[Value]) -> Result<List<Value>, Memory>
    ensures { IfOk result (λ sorts. sorts ≡ map (λ part. value_at values.now part.column) select.now.order) }
{
    let mut sorts = List::new(alloc);
    for part in select.order.as_slice() {
        sorts.push(copy_at(alloc, values, part.column)?)?;
    }
    Ok(sorts)
}
