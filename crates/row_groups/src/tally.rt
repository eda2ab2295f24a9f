// What a place of a line has counted so far.
ghost use Rattle.std.specs.Prelude.{◌≡◌, ◌+◌, ◌*ℤ◌, [], pos, IfOk, OnOk, MatchResult};
ghost use Rattle.row_groups.specs.Adding.{begun, many_added, plus_many, seen};
ghost use Rattle.row_groups.specs.Answers.{IsOutgrown, outgrown};
ghost use Rattle.row_groups.specs.Lines.{shown_of};

use crate::fault::GroupFault;
use crate::line::Shown;
use crate::values::{copy_at, is_greater, is_lesser, known_at};
use mdc_ast::BoundOut;
use mdc_values::{Memory, Value};
use std::alloc::Global;

/// What a place of a line has counted so far. Sums are formed in 128 bits.
#[derive(Debug, Drop)]
pub enum Tally {
    Kept(Value),
    Count(u64),
    Sum(Option<i128>),
}

impl Tally {
    /// What a place shows of no rows, behind a row that begins them.
    pub(crate) fn begin(alloc: Global, out: BoundOut, first: &[Value]) -> Result<Tally, Memory>
        ensures { IfOk result (λ tally. seen tally ≡ shown_of out first.now []) }
    {
        match out {
            BoundOut::Column(column) => Ok(Tally::Kept(copy_at(alloc, first, column)?)),
            BoundOut::CountAll | BoundOut::Count(_) => Ok(Tally::Count(0)),
            BoundOut::Sum(_) => Ok(Tally::Sum(None)),
            BoundOut::Min(_) | BoundOut::Max(_) => Ok(Tally::Kept(Value::Null)),
        }
    }

    /// So many rows more. What more than 2^64 - 1 rows would come to, which no table has, is answered as want of memory.
    pub(crate) fn add(
        &mut self,
        alloc: Global,
        out: BoundOut,
        count: u64,
        values: &[Value],
    ) -> Result<(), Memory>
        ensures { OnOk result (seen self.new ≡ many_added count out (seen self.old) values.now) }
    {
        match (out, self) {
            (BoundOut::CountAll, Tally::Count(total)) => *total = more(*total, count)?,
            (BoundOut::Count(column), Tally::Count(total)) => {
                if known_at(values, column).is_some() {
                    *total = more(*total, count)?;
                }
            }
            (BoundOut::Sum(column), Tally::Sum(total)) => {
                if let Some(value) = known_at(values, column) {
                    *total = Some(plus(*total, count, value)?);
                }
            }
            (BoundOut::Min(column), Tally::Kept(best)) => {
                if let Some(value) = known_at(values, column) {
                    if is_lesser(best, value) {
                        *best = value.copy(alloc)?;
                    }
                }
            }
            (BoundOut::Max(column), Tally::Kept(best)) => {
                if let Some(value) = known_at(values, column) {
                    if is_greater(best, value) {
                        *best = value.copy(alloc)?;
                    }
                }
            }
            _ => {}
        }
        Ok(())
    }

    /// The place of a line that begins with this row. After `Memory` it is as it was.
    pub(crate) fn begin_with(
        &mut self,
        alloc: Global,
        out: BoundOut,
        first: &[Value],
    ) -> Result<(), Memory>
        ensures { OnOk result (seen self.new ≡ begun out (seen self.old) first.now) }
    {
        if let BoundOut::Column(column) = out {
            *self = Tally::Kept(copy_at(alloc, first, column)?);
        }
        Ok(())
    }

    /// What the place shows, where its sum is within BIGINT. Only a SUM has a sum, so that the last case never comes.
    pub(crate) fn close(self, out: BoundOut) -> Result<Shown, GroupFault>
        ensures { MatchResult result (λ shown. (shown ≡ seen self) × (outgrown out shown ≡ [])) (λ fault. IsOutgrown (outgrown out (seen self)) fault) }
    {
        match self {
            Tally::Kept(value) => Ok(Shown::Value(value)),
            Tally::Count(count) => Ok(Shown::Count(count)),
            Tally::Sum(None) => Ok(Shown::Sum(None)),
            Tally::Sum(Some(total)) => match (i64::try_from(total), out) {
                (Ok(total), _) => Ok(Shown::Sum(Some(total))),
                (Err(_), BoundOut::Sum(column)) => Err(GroupFault::Overflow(column)),
                (Err(_), _) => Err(GroupFault::Memory),
            },
        }
    }
}

fn more(total: u64, count: u64) -> Result<u64, Memory>
    ensures { IfOk result (λ more. more ≡ total + count) }
{
    total.checked_add(count).ok_or(Memory)
}

/// The sum with so many times a value.
fn plus(total: Option<i128>, count: u64, value: &Value) -> Result<i128, Memory>
    ensures { IfOk result (λ sum. plus_many total count value.now ≡ Some sum) }
{
    let number = match value {
        Value::Int(number) => i128::from(*number),
        _ => 0,
    };
    let part = times(number, count)?;
    match total {
        None => Ok(part),
        Some(total) => total.checked_add(part).ok_or(Memory),
    }
}

/// So many times a number. A row by itself is once, where 128 bits needn't be multiplied.
fn times(number: i128, count: u64) -> Result<i128, Memory>
    ensures { IfOk result (λ part. part ≡ number *ℤ pos count) }
{
    if count == 1 {
        return Ok(number);
    }
    number.checked_mul(i128::from(count)).ok_or(Memory)
}
