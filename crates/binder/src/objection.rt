// What is said against a statement. Names are lent, and copied only once it is refused.
ghost use Rattle.std.specs.Prelude.{◌≡◌, IfOk};
ghost use Rattle.statement_meaning.specs.Cause.{keeping, naming, refusal_of};
ghost use Rattle.statement_meaning.specs.Judged.{fetch_name};
ghost use Rattle.binder.specs.Saying.{objected};

use crate::names::copy_of;
use mdc_ast::{Name, Refusal};
use mdc_values::{Chars, Memory};
use std::alloc::Global;

/// What is said against a statement, with the table, the column, the index or the limit that it is about.
#[derive(Debug, Drop)]
pub enum Objection<'a> {
    TableExists(&'a Name),
    NoTable(&'a Name),
    NoColumn(&'a Name),
    ColumnTwice(&'a Name),
    IndexExists(&'a Name),
    NoIndex(&'a Name),
    Limit(u64),
    NotGrouped(&'a Name),
    WrongType(&'a Name),
    OutOfRange(&'a Name),
    TextTooLong(&'a Name),
    NoDate(&'a Name),
    /// The number of FETCH FIRST.
    FetchOutOfRange,
    WrongCount,
    GivenGenerated(&'a Name),
}

/// The refusal for an objection.
pub fn refusal(alloc: Global, objection: &Objection<'_>) -> Result<Refusal, Memory>
    ensures { IfOk result (λ refusal. refusal ≡ refusal_of (objected objection.now)) }
{
    match objection {
        Objection::TableExists(table) => naming(alloc, 20, table),
        Objection::NoTable(table) => naming(alloc, 21, table),
        Objection::NoColumn(column) => naming(alloc, 22, column),
        Objection::ColumnTwice(column) => naming(alloc, 23, column),
        Objection::IndexExists(index) => naming(alloc, 24, index),
        Objection::NoIndex(index) => naming(alloc, 25, index),
        Objection::Limit(limit) => keeping(alloc, 26, *limit),
        Objection::NotGrouped(column) => naming(alloc, 27, column),
        Objection::WrongType(column) => naming(alloc, 30, column),
        Objection::OutOfRange(column) => naming(alloc, 31, column),
        Objection::TextTooLong(column) => naming(alloc, 33, column),
        Objection::NoDate(column) => naming(alloc, 34, column),
        Objection::FetchOutOfRange => fetch_out_of_range(alloc),
        Objection::WrongCount => keeping(alloc, 35, 0),
        Objection::GivenGenerated(column) => naming(alloc, 36, column),
    }
}

fn naming(alloc: Global, number: u16, name: &Name) -> Result<Refusal, Memory>
    ensures { IfOk result (λ refusal. refusal ≡ naming number name.now) }
{
    Ok(Refusal {
        number,
        place: 0,
        name: copy_of(alloc, name)?,
        kept: 0,
    })
}

fn fetch_out_of_range(alloc: Global) -> Result<Refusal, Memory>
    ensures { IfOk result (λ refusal. refusal ≡ naming 31 fetch_name) }
{
    Ok(Refusal {
        number: 31,
        place: 0,
        name: Name(Chars::of(alloc, b"FETCH")?),
        kept: 0,
    })
}

fn keeping(alloc: Global, number: u16, kept: u64) -> Result<Refusal, Memory>
    ensures { IfOk result (λ refusal. refusal ≡ keeping number kept) }
{
    Ok(Refusal {
        number,
        place: 0,
        name: Name(Chars::from_vec(Vec::new(alloc))),
        kept,
    })
}
