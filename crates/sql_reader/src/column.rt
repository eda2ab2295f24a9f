// Columns of a CREATE TABLE: their types and what they are made from.
ghost use Rattle.std.specs.Prelude.{◌≡◌};
ghost use Rattle.mdc_ast.specs.Grammar as grammar;
ghost use Rattle.mdc_ast.specs.Rules.{perhaps};
ghost use Rattle.sql_reader.specs.Parses.{Parses};
ghost use Rattle.sql_reader.specs.Readers.{read};
ghost use Rattle.sql_reader.specs.Token.{tokens_of};

use crate::cursor::{Cursor, Part, Stop};
use crate::token::Symbol;
use mdc_ast::{ColumnText, GenKind, GenText, Name, TypeText};

impl Part for ColumnText {
    ghost part_at = { read grammar.column_rule };

    #[tactic(auto, unfolding(mdc_ast::specs::Grammar::column_rule))]
    fn take(cursor: &mut Cursor) -> Result<ColumnText, Stop> {
        let name = cursor.name()?;
        let ty = type_text(cursor)?;
        let (not_null, made) = options(cursor)?;
        Ok(ColumnText {
            name,
            ty,
            not_null,
            made,
        })
    }
}

#[tactic(auto, unfolding(mdc_ast::specs::Grammar::type_rule))]
fn type_text(cursor: &mut Cursor) -> Result<TypeText, Stop>
    ensures { Parses result (tokens_of cursor.new.tokens.now) (read grammar.type_rule (tokens_of cursor.old.tokens.now)) }
{
    if cursor.at_word(b"INTEGER") {
        cursor.word(b"INTEGER")?;
        return Ok(TypeText::Integer);
    }
    if cursor.at_word(b"INT") {
        cursor.word(b"INT")?;
        return Ok(TypeText::Integer);
    }
    if cursor.at_word(b"BIGINT") {
        cursor.word(b"BIGINT")?;
        return Ok(TypeText::Bigint);
    }
    if cursor.at_word(b"CHAR") {
        cursor.word(b"CHAR")?;
        return char_type(cursor);
    }
    if cursor.at_word(b"CHARACTER") {
        cursor.word(b"CHARACTER")?;
        return char_type(cursor);
    }
    cursor.word(b"DATE")?;
    Ok(TypeText::Date)
}

/// What is behind CHAR.
#[tactic(auto, unfolding(mdc_ast::specs::Grammar::char_rule))]
fn char_type(cursor: &mut Cursor) -> Result<TypeText, Stop>
    ensures { Parses result (tokens_of cursor.new.tokens.now) (read grammar.char_rule (tokens_of cursor.old.tokens.now)) }
{
    if cursor.at_symbol(Symbol::Opening) {
        cursor.symbol(Symbol::Opening)?;
        let length = cursor.number()?;
        cursor.symbol(Symbol::Closing)?;
        return Ok(TypeText::Char(length));
    }
    Ok(TypeText::Char(1))
}

/// Whether a column takes no nulls, and what it is made from.
#[tactic(auto, unfolding(mdc_ast::specs::Grammar::options_rule, mdc_ast::specs::Grammar::generated_rule))]
fn options(cursor: &mut Cursor) -> Result<(bool, Option<GenText>), Stop>
    ensures { Parses result (tokens_of cursor.new.tokens.now) (read grammar.options_rule (tokens_of cursor.old.tokens.now)) }
{
    if cursor.at_word(b"NOT") {
        cursor.word(b"NOT")?;
        cursor.word(b"NULL")?;
        let made = generated_if_any(cursor)?;
        return Ok((true, made));
    }
    if cursor.at_word(b"GENERATED") {
        let made = generated(cursor)?;
        let not_null = not_null(cursor)?;
        return Ok((not_null, Some(made)));
    }
    Ok((false, None))
}

#[tactic(auto, unfolding(mdc_ast::specs::Grammar::not_null_rule))]
fn not_null(cursor: &mut Cursor) -> Result<bool, Stop>
    ensures { Parses result (tokens_of cursor.new.tokens.now) (read grammar.not_null_rule (tokens_of cursor.old.tokens.now)) }
{
    if cursor.at_word(b"NOT") {
        cursor.word(b"NOT")?;
        cursor.word(b"NULL")?;
        return Ok(true);
    }
    Ok(false)
}

#[tactic(auto, unfolding(mdc_ast::specs::Grammar::generated_rule))]
fn generated_if_any(cursor: &mut Cursor) -> Result<Option<GenText>, Stop>
    ensures { Parses result (tokens_of cursor.new.tokens.now) (read (perhaps grammar.generated_rule) (tokens_of cursor.old.tokens.now)) }
{
    if cursor.at_word(b"GENERATED") {
        let made = generated(cursor)?;
        return Ok(Some(made));
    }
    Ok(None)
}

#[tactic(auto, unfolding(mdc_ast::specs::Grammar::generated_rule))]
fn generated(cursor: &mut Cursor) -> Result<GenText, Stop>
    ensures { Parses result (tokens_of cursor.new.tokens.now) (read grammar.generated_rule (tokens_of cursor.old.tokens.now)) }
{
    cursor.word(b"GENERATED")?;
    cursor.word(b"ALWAYS")?;
    cursor.word(b"AS")?;
    cursor.symbol(Symbol::Opening)?;
    let made = expression(cursor)?;
    cursor.symbol(Symbol::Closing)?;
    Ok(made)
}

/// An expression. INTEGER, INT, YEAR and MONTH are names where no parenthesis opens behind them.
#[tactic(auto, unfolding(mdc_ast::specs::Grammar::expression_rule, mdc_ast::specs::Grammar::divided_rule, mdc_ast::specs::Grammar::call_rule))]
fn expression(cursor: &mut Cursor) -> Result<GenText, Stop>
    ensures { Parses result (tokens_of cursor.new.tokens.now) (read grammar.expression_rule (tokens_of cursor.old.tokens.now)) }
{
    if cursor.takes_call(b"INTEGER") {
        return divided(cursor);
    }
    if cursor.takes_call(b"INT") {
        return divided(cursor);
    }
    if cursor.takes_call(b"YEAR") {
        let base = call(cursor)?;
        return Ok(part_of(GenKind::Year, base));
    }
    if cursor.takes_call(b"MONTH") {
        let base = call(cursor)?;
        return Ok(part_of(GenKind::Month, base));
    }
    let base = cursor.name()?;
    let (kind, negative, k) = change(cursor)?;
    Ok(GenText {
        kind,
        base,
        negative,
        k,
    })
}

/// A part of a date.
fn part_of(kind: GenKind, base: Name) -> GenText
    ensures { result ≡ grammar.part_of kind base }
{
    GenText {
        kind,
        base,
        negative: false,
        k: 0,
    }
}

/// What is behind INTEGER.
#[tactic(auto, unfolding(mdc_ast::specs::Grammar::divided_rule))]
fn divided(cursor: &mut Cursor) -> Result<GenText, Stop>
    ensures { Parses result (tokens_of cursor.new.tokens.now) (read grammar.divided_rule (tokens_of cursor.old.tokens.now)) }
{
    let base = call(cursor)?;
    let mut k = 1;
    if cursor.at_symbol(Symbol::Slash) {
        cursor.symbol(Symbol::Slash)?;
        k = cursor.number()?;
    }
    Ok(GenText {
        kind: GenKind::IntegerOver,
        base,
        negative: false,
        k,
    })
}

/// What is done to a number: the kind of expression, whether its number is below zero, and the number.
#[tactic(auto, unfolding(mdc_ast::specs::Grammar::change_rule))]
fn change(cursor: &mut Cursor) -> Result<(GenKind, bool, u64), Stop>
    ensures { Parses result (tokens_of cursor.new.tokens.now) (read grammar.change_rule (tokens_of cursor.old.tokens.now)) }
{
    if cursor.at_symbol(Symbol::Slash) {
        cursor.symbol(Symbol::Slash)?;
        let k = cursor.number()?;
        return Ok((GenKind::Over, false, k));
    }
    cursor.symbol(Symbol::Plus)?;
    if cursor.at_symbol(Symbol::Minus) {
        cursor.symbol(Symbol::Minus)?;
        let k = cursor.number()?;
        return Ok((GenKind::Plus, true, k));
    }
    let k = cursor.number()?;
    Ok((GenKind::Plus, false, k))
}

/// A name in parentheses.
#[tactic(auto, unfolding(mdc_ast::specs::Grammar::call_rule))]
pub fn call(cursor: &mut Cursor) -> Result<Name, Stop>
    ensures { Parses result (tokens_of cursor.new.tokens.now) (read grammar.call_rule (tokens_of cursor.old.tokens.now)) }
{
    cursor.symbol(Symbol::Opening)?;
    let name = cursor.name()?;
    cursor.symbol(Symbol::Closing)?;
    Ok(name)
}
