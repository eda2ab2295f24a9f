// Why a statement isn't done, as a refusal.
ghost use Rattle.std.specs.Prelude.{◌≡◌, IfOk};
ghost use Rattle.statement_meaning.specs.Cause as spec;
ghost use Rattle.statement_meaning.specs.Cause.{DuplicateKey, FileFull, NoTable, NotBuilt, NumbersUsedUp, Overflow, State, refusal_of};
ghost use Rattle.row_checks.specs.RowChange.{misfit_cause};

use crate::row_change::Misfit;
use mdc_ast::{Name, Refusal};
use mdc_values::{Chars, Memory};
use std::alloc::Global;

/// A statement of a form that isn't built.
pub fn not_built(alloc: Global) -> Refusal
    ensures { result ≡ refusal_of NotBuilt }
{
    keeping(alloc, 14, 0)
}

/// A statement that may not stand where it does, in a transaction or outside of one.
pub fn not_in_state(alloc: Global) -> Refusal
    ensures { result ≡ refusal_of State }
{
    keeping(alloc, 12, 0)
}

/// A name that no table has.
pub fn no_table(alloc: Global, name: &Name) -> Result<Refusal, Memory>
    ensures { IfOk result (λ refusal. refusal ≡ refusal_of (NoTable name.now)) }
{
    naming(alloc, 21, name)
}

/// A UNIQUE index in which two rows would have equal keys.
pub fn duplicate_key(alloc: Global, index: &Name) -> Result<Refusal, Memory>
    ensures { IfOk result (λ refusal. refusal ≡ refusal_of (DuplicateKey index.now)) }
{
    naming(alloc, 40, index)
}

/// A file that has no extent left for the statement.
pub fn file_full(alloc: Global, extents: u32) -> Refusal
    ensures { result ≡ refusal_of (FileFull extents) }
{
    keeping(alloc, 70, u64::from(extents))
}

/// Row numbers that would pass the last one.
pub fn numbers_used_up(alloc: Global, next: u64) -> Refusal
    ensures { result ≡ refusal_of (NumbersUsedUp next) }
{
    keeping(alloc, 71, next)
}

/// A row that doesn't fit the columns of its table.
pub fn unfit(alloc: Global, misfit: Misfit<'_>) -> Result<Refusal, Memory>
    ensures { IfOk result (λ refusal. refusal ≡ refusal_of (misfit_cause misfit.entry)) }
{
    match misfit {
        Misfit::NullIn(name) => naming(alloc, 32, name),
        Misfit::TextTooLong(name) => naming(alloc, 33, name),
        Misfit::Overflow(name) => naming(alloc, 37, name),
    }
}

/// A sum outside BIGINT, or a value that its column can't hold.
pub fn overflow(name: Name) -> Refusal
    ensures { result ≡ refusal_of (Overflow name) }
{
    Refusal {
        number: 37,
        place: 0,
        name,
        kept: 0,
    }
}

fn keeping(alloc: Global, number: u16, kept: u64) -> Refusal
    ensures { result ≡ spec.keeping number kept }
{
    Refusal {
        number,
        place: 0,
        name: Name(Chars::from_vec(Vec::new(alloc))),
        kept,
    }
}

fn naming(alloc: Global, number: u16, name: &Name) -> Result<Refusal, Memory>
    ensures { IfOk result (λ refusal. refusal ≡ spec.naming number name.now) }
{
    Ok(Refusal {
        number,
        place: 0,
        name: Name(Chars::of(alloc, name.0.bytes())?),
        kept: 0,
    })
}
