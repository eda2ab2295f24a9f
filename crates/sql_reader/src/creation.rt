// CREATE TABLE, CREATE INDEX and DROP.
ghost use Rattle.mdc_ast.specs.Grammar as grammar;
ghost use Rattle.sql_reader.specs.Parses.{Parses};
ghost use Rattle.sql_reader.specs.Readers.{read};
ghost use Rattle.sql_reader.specs.Token.{tokens_of};

use crate::cursor::{Cursor, Part, Stop};
use crate::token::Symbol;
use mdc_ast::{KeyText, Name, Stmt};
use mdc_values::List;

/// What is behind CREATE.
#[tactic(auto, unfolding(mdc_ast::specs::Grammar::create_rule))]
pub fn create(cursor: &mut Cursor) -> Result<Stmt, Stop>
    ensures { Parses result (tokens_of cursor.new.tokens.now) (read grammar.create_rule (tokens_of cursor.old.tokens.now)) }
{
    if cursor.at_word(b"TABLE") {
        cursor.word(b"TABLE")?;
        return table(cursor);
    }
    if cursor.at_word(b"UNIQUE") {
        cursor.word(b"UNIQUE")?;
        return index(cursor, true);
    }
    index(cursor, false)
}

#[tactic(auto, unfolding(mdc_ast::specs::Grammar::table_rule))]
fn table(cursor: &mut Cursor) -> Result<Stmt, Stop>
    ensures { Parses result (tokens_of cursor.new.tokens.now) (read grammar.table_rule (tokens_of cursor.old.tokens.now)) }
{
    let name = cursor.name()?;
    let columns = cursor.listed()?;
    cursor.word(b"ORGANIZE")?;
    cursor.word(b"BY")?;
    let dims = dims(cursor)?;
    Ok(Stmt::CreateTable {
        name,
        columns,
        dims,
    })
}

#[tactic(auto, unfolding(mdc_ast::specs::Grammar::dims_rule))]
fn dims(cursor: &mut Cursor) -> Result<List<List<Name>>, Stop>
    ensures { Parses result (tokens_of cursor.new.tokens.now) (read grammar.dims_rule (tokens_of cursor.old.tokens.now)) }
{
    if cursor.at_word(b"DIMENSIONS") {
        cursor.word(b"DIMENSIONS")?;
        return cursor.listed();
    }
    cursor.listed()
}

/// A dimension.
impl Part for List<Name> {
    ghost part_at = { read grammar.dim_rule };

    #[tactic(auto, unfolding(mdc_ast::specs::Grammar::dim_rule))]
    fn take(cursor: &mut Cursor) -> Result<List<Name>, Stop> {
        if cursor.at_symbol(Symbol::Opening) {
            return cursor.listed();
        }
        let name = cursor.name()?;
        let mut dim = List::new(cursor.alloc);
        dim.push(name)?;
        Ok(dim)
    }
}

#[tactic(auto, unfolding(mdc_ast::specs::Grammar::index_rule))]
fn index(cursor: &mut Cursor, unique: bool) -> Result<Stmt, Stop>
    ensures { Parses result (tokens_of cursor.new.tokens.now) (read (grammar.index_rule unique) (tokens_of cursor.old.tokens.now)) }
{
    cursor.word(b"INDEX")?;
    let name = cursor.name()?;
    cursor.word(b"ON")?;
    let table = cursor.name()?;
    let parts = cursor.listed()?;
    Ok(Stmt::CreateIndex {
        name,
        unique,
        table,
        parts,
    })
}

impl Part for KeyText {
    ghost part_at = { read grammar.key_rule };

    #[tactic(auto, unfolding(mdc_ast::specs::Grammar::key_rule))]
    fn take(cursor: &mut Cursor) -> Result<KeyText, Stop> {
        let column = cursor.name()?;
        let descending = descending(cursor)?;
        Ok(KeyText { column, descending })
    }
}

#[tactic(auto, unfolding(mdc_ast::specs::Grammar::descending_rule))]
fn descending(cursor: &mut Cursor) -> Result<bool, Stop>
    ensures { Parses result (tokens_of cursor.new.tokens.now) (read grammar.descending_rule (tokens_of cursor.old.tokens.now)) }
{
    if cursor.at_word(b"ASC") {
        cursor.word(b"ASC")?;
        return Ok(false);
    }
    if cursor.at_word(b"DESC") {
        cursor.word(b"DESC")?;
        return Ok(true);
    }
    Ok(false)
}

/// What is behind DROP.
#[tactic(auto, unfolding(mdc_ast::specs::Grammar::drop_rule))]
pub fn drop_statement(cursor: &mut Cursor) -> Result<Stmt, Stop>
    ensures { Parses result (tokens_of cursor.new.tokens.now) (read grammar.drop_rule (tokens_of cursor.old.tokens.now)) }
{
    if cursor.at_word(b"TABLE") {
        cursor.word(b"TABLE")?;
        let name = cursor.name()?;
        return Ok(Stmt::DropTable(name));
    }
    cursor.word(b"INDEX")?;
    let name = cursor.name()?;
    Ok(Stmt::DropIndex(name))
}
