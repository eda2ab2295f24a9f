// The statement that tokens spell, or where they go wrong.
ghost use Rattle.std.specs.Prelude.{◌≡◌, ◌<◌, IfOk, Err};
ghost use Rattle.mdc_ast.specs.Grammar as grammar;
ghost use Rattle.mdc_ast.specs.Rules.{seen};
ghost use Rattle.mdc_ast.specs.declared.statement.Stmt.TheVariants as stmt;
ghost use Rattle.sql_reader.specs.Parses.{Parses};
ghost use Rattle.sql_reader.specs.Readers.{read};
ghost use Rattle.sql_reader.specs.Parsed.{IsParsed};
ghost use Rattle.sql_reader.specs.Token.{tokens_of};

use crate::change::{delete, insert, update};
use crate::creation::{create, drop_statement};
use crate::cursor::{Cursor, Stop, kept};
use crate::query::query;
use crate::token::Token;
use crate::upkeep::{clean, list_blocks, reclaim, setting, work};
use mdc_ast::Stmt;
use mdc_values::{Boxed, Memory};
use std::alloc::Global;

/// What the tokens say.
#[derive(Debug, Drop)]
pub enum Parsed {
    Spelled(Boxed<Stmt>),
    /// They go wrong at the token that begins so many bytes before the end, or at the end (0).
    Fails(usize),
    /// A predicate nests too deep.
    TooDeep,
}

/// The statement that the tokens spell, or where they go wrong. A predicate may nest `limit` deep.
pub fn parse(alloc: Global, tokens: &[Token], limit: u8) -> Result<Parsed, Memory>
    requires { limit < 255 }
    ensures { IfOk result (λ parsed. IsParsed limit (tokens_of tokens.now) parsed) }
{
    let mut cursor = Cursor { alloc, tokens };
    match statement(&mut cursor, limit) {
        Ok(stmt) => {
            if cursor.tokens.is_empty() {
                Ok(Parsed::Spelled(stmt))
            } else {
                Ok(Parsed::Fails(cursor.left()))
            }
        }
        Err(Stop::NotSpelled) => judge(alloc, tokens, limit, cursor),
        Err(Stop::Memory) => Err(Memory),
    }
}

/// Whether the place where the tokens stop nests too deep: then they go on with one level more.
fn judge(alloc: Global, tokens: &[Token], limit: u8, stopped: Cursor) -> Result<Parsed, Memory>
    requires room { limit < 255 }
    requires stops { read (grammar.statement_rule limit) (tokens_of tokens.now) ≡ Err (tokens_of stopped.tokens.now) }
    ensures { IfOk result (λ parsed. IsParsed limit (tokens_of tokens.now) parsed) }
{
    let left = stopped.left();
    let mut deeper = Cursor { alloc, tokens };
    match statement(&mut deeper, limit + 1) {
        Ok(_) => Ok(Parsed::TooDeep),
        Err(Stop::NotSpelled) => {
            if deeper.tokens.len() < stopped.tokens.len() {
                Ok(Parsed::TooDeep)
            } else {
                Ok(Parsed::Fails(left))
            }
        }
        Err(Stop::Memory) => Err(Memory),
    }
}

/// A statement whose predicate nests at most `depth` deep.
#[tactic(auto, unfolding(mdc_ast::specs::Grammar::statement_rule, mdc_ast::specs::Grammar::query_rule))]
fn statement(cursor: &mut Cursor, depth: u8) -> Result<Boxed<Stmt>, Stop>
    ensures { Parses result (tokens_of cursor.new.tokens.now) (read (grammar.statement_rule depth) (tokens_of cursor.old.tokens.now)) }
{
    if cursor.takes_word(b"INSERT") {
        return insert(cursor);
    }
    if cursor.at_word(b"SELECT") {
        return select_form(cursor, depth);
    }
    if cursor.takes_word(b"UPDATE") {
        return update_form(cursor, depth);
    }
    if cursor.takes_word(b"DELETE") {
        return delete_form(cursor, depth);
    }
    if cursor.takes_word(b"EXPLAIN") {
        return explain_form(cursor, depth);
    }
    other_form(cursor)
}

fn select_form(cursor: &mut Cursor, depth: u8) -> Result<Boxed<Stmt>, Stop>
    ensures { Parses result (tokens_of cursor.new.tokens.now) (read (seen stmt.Query (grammar.query_rule depth)) (tokens_of cursor.old.tokens.now)) }
{
    let select = query(cursor, depth)?;
    kept(cursor.alloc, Stmt::Query(select))
}

fn explain_form(cursor: &mut Cursor, depth: u8) -> Result<Boxed<Stmt>, Stop>
    ensures { Parses result (tokens_of cursor.new.tokens.now) (read (seen stmt.Explain (grammar.query_rule depth)) (tokens_of cursor.old.tokens.now)) }
{
    let select = query(cursor, depth)?;
    kept(cursor.alloc, Stmt::Explain(select))
}

fn update_form(cursor: &mut Cursor, depth: u8) -> Result<Boxed<Stmt>, Stop>
    ensures { Parses result (tokens_of cursor.new.tokens.now) (read (grammar.update_rule depth) (tokens_of cursor.old.tokens.now)) }
{
    let stmt = update(cursor, depth)?;
    kept(cursor.alloc, stmt)
}

fn delete_form(cursor: &mut Cursor, depth: u8) -> Result<Boxed<Stmt>, Stop>
    ensures { Parses result (tokens_of cursor.new.tokens.now) (read (grammar.delete_rule depth) (tokens_of cursor.old.tokens.now)) }
{
    let stmt = delete(cursor, depth)?;
    kept(cursor.alloc, stmt)
}

fn other_form(cursor: &mut Cursor) -> Result<Boxed<Stmt>, Stop>
    ensures { Parses result (tokens_of cursor.new.tokens.now) (read grammar.other_rule (tokens_of cursor.old.tokens.now)) }
{
    let stmt = other(cursor)?;
    kept(cursor.alloc, stmt)
}

/// A statement without a predicate, other than INSERT.
#[tactic(auto, unfolding(mdc_ast::specs::Grammar::other_rule))]
fn other(cursor: &mut Cursor) -> Result<Stmt, Stop>
    ensures { Parses result (tokens_of cursor.new.tokens.now) (read grammar.other_rule (tokens_of cursor.old.tokens.now)) }
{
    if cursor.at_word(b"CREATE") {
        cursor.word(b"CREATE")?;
        return create(cursor);
    }
    if cursor.at_word(b"DROP") {
        cursor.word(b"DROP")?;
        return drop_statement(cursor);
    }
    if cursor.at_word(b"SET") {
        cursor.word(b"SET")?;
        return setting(cursor);
    }
    if cursor.at_word(b"CLEAN") {
        cursor.word(b"CLEAN")?;
        return clean(cursor);
    }
    if cursor.at_word(b"LIST") {
        cursor.word(b"LIST")?;
        return list_blocks(cursor);
    }
    if cursor.at_word(b"REORG") {
        cursor.word(b"REORG")?;
        return reclaim(cursor);
    }
    if cursor.at_word(b"BEGIN") {
        cursor.word(b"BEGIN")?;
        return Ok(Stmt::Begin);
    }
    if cursor.at_word(b"COMMIT") {
        cursor.word(b"COMMIT")?;
        return work(cursor, Stmt::Commit);
    }
    cursor.word(b"ROLLBACK")?;
    work(cursor, Stmt::Rollback)
}
