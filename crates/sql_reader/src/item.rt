// The item that a piece of a script is.
ghost use Rattle.std.specs.Prelude.{◌≡◌, ◌≤◌, [], length, IfOk, false, None};
ghost use Rattle.mdc_ast.specs.Reading as reading;
ghost use Rattle.mdc_ast.specs.Reading.{IsItemOf};
ghost use Rattle.mdc_ast.specs.Tokens.{FirstStrange, Tokens};
ghost use Rattle.sql_reader.specs.Item.{item_of};
ghost use Rattle.sql_reader.specs.Items.{IsItemIn};
ghost use Rattle.sql_reader.specs.Told.{item_told};
ghost use Rattle.sql_reader.specs.Token.{tokens_of};

use crate::lexer::lex;
use crate::parser::{Parsed, parse};
use crate::statements::Read;
use crate::strange::first_strange;
use crate::token::Token;
use crate::trim::trim;
use mdc_ast::{Name, Refusal};
use mdc_values::{Chars, Memory};
use std::alloc::Global;

/// The greatest number of bytes of a statement.
pub(crate) const STATEMENT_LIMIT: usize = 65_536;

/// How many NOTs and parentheses of a predicate may stand within one another.
const NESTING_LIMIT: u8 = 64;

/// The item of a piece, or `None` where it has no statement.
pub(crate) fn item_in(alloc: Global, piece: &[u8]) -> Result<Option<Read>, Memory>
    ensures { IfOk result (IsItemIn piece.now) }
{
    let statement = trim(piece);
    if statement.is_empty() {
        return Ok(None);
    }
    let read = item_of_bytes(alloc, statement)?;
    Ok(Some(read))
}

/// The item of a statement's bytes.
fn item_of_bytes(alloc: Global, statement: &[u8]) -> Result<Read, Memory>
    ensures { IfOk result (λ read. IsItemOf statement.now (item_of read)) }
{
    if statement.len() > STATEMENT_LIMIT {
        return Ok(Read::Refused(too_long(alloc)));
    }
    let tokens = lex(alloc, statement)?;
    match first_strange(statement, &tokens) {
        Some(strange) => {
            let place = place_of(statement, strange.left);
            Ok(Read::Refused(strange_at(alloc, strange.byte, place)))
        }
        None => item_of_tokens(alloc, statement, &tokens),
    }
}

/// The item of bytes that a statement may have, which are these tokens.
fn item_of_tokens(alloc: Global, statement: &[u8], tokens: &[Token]) -> Result<Read, Memory>
    requires few { length statement.now ≤ STATEMENT_LIMIT }
    requires plain { FirstStrange false statement.now None }
    requires lexed { Tokens statement.now (tokens_of tokens.now) }
    ensures { IfOk result (λ read. IsItemOf statement.now (item_of read)) }
{
    let parsed = parse(alloc, tokens, NESTING_LIMIT)?;
    Ok(told(alloc, statement, parsed))
}

/// What is told of the tokens of a statement.
fn told(alloc: Global, statement: &[u8], parsed: Parsed) -> Read
    requires { length statement.now ≤ STATEMENT_LIMIT }
    ensures { item_of result ≡ item_told statement.now parsed }
{
    match parsed {
        Parsed::Spelled(stmt) => Read::Stmt(stmt),
        Parsed::Fails(left) => Read::Refused(syntax_at(alloc, place_of(statement, left))),
        Parsed::TooDeep => Read::Refused(too_deep(alloc)),
    }
}

/// The place of what has so many bytes from it on, counted from 1.
fn place_of(statement: &[u8], left: usize) -> u32
    requires { length statement.now ≤ STATEMENT_LIMIT }
    ensures { result ≡ reading.place_of statement.now left }
{
    (statement.len() + 1).saturating_sub(left) as u32
}

/// No statement goes on so at that place.
fn syntax_at(alloc: Global, place: u32) -> Refusal
    ensures { result ≡ reading.syntax_at place }
{
    refusal(alloc, 10, place, 0)
}

/// The statement has too many bytes.
pub(crate) fn too_long(alloc: Global) -> Refusal
    ensures { result ≡ reading.too_long }
{
    refusal(alloc, 11, 0, STATEMENT_LIMIT as u64)
}

/// No statement has such a byte.
fn strange_at(alloc: Global, byte: u8, place: u32) -> Refusal
    ensures { result ≡ reading.strange_at byte place }
{
    refusal(alloc, 13, place, u64::from(byte))
}

/// A predicate nests too deep.
fn too_deep(alloc: Global) -> Refusal
    ensures { result ≡ reading.too_deep }
{
    refusal(alloc, 26, 0, u64::from(NESTING_LIMIT))
}

/// A refusal that names nothing.
fn refusal(alloc: Global, number: u16, place: u32, kept: u64) -> Refusal
    ensures { result ≡ record { number = number; place = place; name = record { 0 = [] }; kept = kept } }
{
    Refusal {
        number,
        place,
        name: Name(Chars::from_vec(Vec::new(alloc))),
        kept,
    }
}
