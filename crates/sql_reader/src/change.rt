// INSERT, UPDATE and DELETE.
ghost use Rattle.mdc_ast.specs.Grammar as grammar;
ghost use Rattle.sql_reader.specs.Parses.{Parses};
ghost use Rattle.sql_reader.specs.Readers.{read, listed_at};
ghost use Rattle.sql_reader.specs.Token.{tokens_of};

use crate::cursor::{Cursor, Part, Stop, kept};
use crate::literal::operand;
use crate::predicate::filter;
use crate::token::Symbol;
use mdc_ast::{InsertItem, Name, Operand, SetItem, SetText, Sign, Stmt};
use mdc_values::{Boxed, List, Literal};

/// What is behind INSERT.
#[tactic(auto, unfolding(mdc_ast::specs::Grammar::insert_rule))]
pub fn insert(cursor: &mut Cursor) -> Result<Boxed<Stmt>, Stop>
    ensures { Parses result (tokens_of cursor.new.tokens.now) (read grammar.insert_rule (tokens_of cursor.old.tokens.now)) }
{
    cursor.word(b"INTO")?;
    let table = cursor.name()?;
    let columns = columns(cursor)?;
    cursor.word(b"VALUES")?;
    let rows = cursor.separated()?;
    kept(
        cursor.alloc,
        Stmt::Insert {
            table,
            columns,
            rows,
        },
    )
}

#[tactic(auto, unfolding(mdc_ast::specs::Grammar::columns_rule))]
fn columns(cursor: &mut Cursor) -> Result<Option<List<Name>>, Stop>
    ensures { Parses result (tokens_of cursor.new.tokens.now) (read grammar.columns_rule (tokens_of cursor.old.tokens.now)) }
{
    if cursor.at_symbol(Symbol::Opening) {
        let names = cursor.listed()?;
        return Ok(Some(names));
    }
    Ok(None)
}

/// A tuple.
impl Part for List<InsertItem> {
    ghost part_at = { listed_at (read grammar.value_rule) };

    fn take(cursor: &mut Cursor) -> Result<List<InsertItem>, Stop> {
        cursor.listed()
    }
}

impl Part for InsertItem {
    ghost part_at = { read grammar.value_rule };

    #[tactic(auto, unfolding(mdc_ast::specs::Grammar::value_rule))]
    fn take(cursor: &mut Cursor) -> Result<InsertItem, Stop> {
        // Most items are numbers.
        if let Some(size) = cursor.takes_number() {
            return Ok(InsertItem::Literal(Literal::Number {
                negative: false,
                size,
            }));
        }
        if cursor.at_word(b"DEFAULT") {
            cursor.word(b"DEFAULT")?;
            return Ok(InsertItem::Default);
        }
        let literal = Part::take(cursor)?;
        Ok(InsertItem::Literal(literal))
    }
}

/// What is behind UPDATE.
#[tactic(auto, unfolding(mdc_ast::specs::Grammar::update_rule))]
pub fn update(cursor: &mut Cursor, depth: u8) -> Result<Stmt, Stop>
    ensures { Parses result (tokens_of cursor.new.tokens.now) (read (grammar.update_rule depth) (tokens_of cursor.old.tokens.now)) }
{
    let table = cursor.name()?;
    cursor.word(b"SET")?;
    let sets = cursor.separated()?;
    let pred = filter(cursor, depth)?;
    Ok(Stmt::Update { table, sets, pred })
}

impl Part for SetText {
    ghost part_at = { read grammar.set_rule };

    #[tactic(auto, unfolding(mdc_ast::specs::Grammar::set_rule))]
    fn take(cursor: &mut Cursor) -> Result<SetText, Stop> {
        let column = cursor.name()?;
        cursor.symbol(Symbol::Equal)?;
        let item = item(cursor)?;
        Ok(SetText { column, item })
    }
}

#[tactic(auto, unfolding(mdc_ast::specs::Grammar::item_rule))]
fn item(cursor: &mut Cursor) -> Result<SetItem, Stop>
    ensures { Parses result (tokens_of cursor.new.tokens.now) (read grammar.item_rule (tokens_of cursor.old.tokens.now)) }
{
    let first = operand(cursor)?;
    match rest(cursor)? {
        Some((sign, second)) => Ok(SetItem::Two(first, sign, second)),
        None => Ok(SetItem::One(first)),
    }
}

/// The second operand, if there is one, and what joins it.
#[tactic(auto, unfolding(mdc_ast::specs::Grammar::rest_rule))]
fn rest(cursor: &mut Cursor) -> Result<Option<(Sign, Operand)>, Stop>
    ensures { Parses result (tokens_of cursor.new.tokens.now) (read grammar.rest_rule (tokens_of cursor.old.tokens.now)) }
{
    if cursor.at_symbol(Symbol::Plus) {
        cursor.symbol(Symbol::Plus)?;
        let second = operand(cursor)?;
        return Ok(Some((Sign::Plus, second)));
    }
    if cursor.at_symbol(Symbol::Minus) {
        cursor.symbol(Symbol::Minus)?;
        let second = operand(cursor)?;
        return Ok(Some((Sign::Minus, second)));
    }
    if cursor.at_symbol(Symbol::Star) {
        cursor.symbol(Symbol::Star)?;
        let second = operand(cursor)?;
        return Ok(Some((Sign::Times, second)));
    }
    Ok(None)
}

/// What is behind DELETE.
#[tactic(auto, unfolding(mdc_ast::specs::Grammar::delete_rule))]
pub fn delete(cursor: &mut Cursor, depth: u8) -> Result<Stmt, Stop>
    ensures { Parses result (tokens_of cursor.new.tokens.now) (read (grammar.delete_rule depth) (tokens_of cursor.old.tokens.now)) }
{
    cursor.word(b"FROM")?;
    let table = cursor.name()?;
    let pred = filter(cursor, depth)?;
    Ok(Stmt::Delete { table, pred })
}
