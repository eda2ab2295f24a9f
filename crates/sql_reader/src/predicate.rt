// Predicates.
ghost use Rattle.std.specs.Prelude.{◌≡◌, ◌<◌};
ghost use Rattle.mdc_ast.specs.Grammar as grammar;
ghost use Rattle.sql_reader.specs.Parses.{Parses};
ghost use Rattle.sql_reader.specs.Readers.{read};
ghost use Rattle.sql_reader.specs.Token.{tokens_of};

use crate::cursor::{Cursor, Part, Stop};
use crate::literal::operand;
use crate::token::Symbol;
use mdc_ast::{AtomText, PredText, TestText};
use mdc_values::{Boxed, List, Op};

/// The predicate behind WHERE, if there is one, with at most `depth` NOTs and parentheses within one another.
#[tactic(auto, unfolding(mdc_ast::specs::Grammar::where_rule))]
pub fn filter(cursor: &mut Cursor, depth: u8) -> Result<Option<PredText>, Stop>
    ensures { Parses result (tokens_of cursor.new.tokens.now) (read (grammar.where_rule depth) (tokens_of cursor.old.tokens.now)) }
{
    if cursor.at_word(b"WHERE") {
        cursor.word(b"WHERE")?;
        let pred = pred(cursor, depth)?;
        return Ok(Some(pred));
    }
    Ok(None)
}

/// Conjunctions joined by OR.
#[cycle(pred)]
fn pred(cursor: &mut Cursor, depth: u8) -> Result<PredText, Stop>
    ensures { Parses result (tokens_of cursor.new.tokens.now) (read (grammar.pred_rule (grammar.factor_rule depth)) (tokens_of cursor.old.tokens.now)) }
{
    let first = conj(cursor, depth)?;
    if !cursor.at_word(b"OR") {
        return Ok(first);
    }
    let mut parts = List::new(cursor.alloc);
    parts.push(first)?;
    for _ in 0..cursor.tokens.len() {
        if !cursor.takes_word(b"OR") {
            return Ok(any_of(parts));
        }
        let part = conj(cursor, depth)?;
        parts.push(part)?;
    }
    Ok(any_of(parts))
}

/// Factors joined by AND.
#[cycle(pred)]
fn conj(cursor: &mut Cursor, depth: u8) -> Result<PredText, Stop>
    ensures { Parses result (tokens_of cursor.new.tokens.now) (read (grammar.conj_rule (grammar.factor_rule depth)) (tokens_of cursor.old.tokens.now)) }
{
    let first = factor(cursor, depth)?;
    if !cursor.at_word(b"AND") {
        return Ok(first);
    }
    let mut parts = List::new(cursor.alloc);
    parts.push(first)?;
    for _ in 0..cursor.tokens.len() {
        if !cursor.takes_word(b"AND") {
            return Ok(all_of(parts));
        }
        let part = factor(cursor, depth)?;
        parts.push(part)?;
    }
    Ok(all_of(parts))
}

/// Predicates joined by OR: one alone is itself.
fn any_of(parts: List<PredText>) -> PredText
    ensures { result ≡ grammar.any_of parts }
{
    let mut parts = parts;
    if parts.len() == 1 {
        return parts.remove(0);
    }
    PredText::Any(parts)
}

/// Predicates joined by AND: one alone is itself.
fn all_of(parts: List<PredText>) -> PredText
    ensures { result ≡ grammar.all_of parts }
{
    let mut parts = parts;
    if parts.len() == 1 {
        return parts.remove(0);
    }
    PredText::All(parts)
}

#[cycle(pred)]
#[tactic(auto, unfolding(mdc_ast::specs::Grammar::factor_body))]
fn factor(cursor: &mut Cursor, depth: u8) -> Result<PredText, Stop>
    ensures { Parses result (tokens_of cursor.new.tokens.now) (read (grammar.factor_rule depth) (tokens_of cursor.old.tokens.now)) }
{
    if depth == 0 {
        return atom(cursor);
    }
    if cursor.at_word(b"NOT") {
        cursor.word(b"NOT")?;
        let inner = factor(cursor, depth - 1)?;
        let inner = Boxed::new(cursor.alloc, inner)?;
        return Ok(PredText::Not(inner));
    }
    if cursor.at_symbol(Symbol::Opening) {
        cursor.symbol(Symbol::Opening)?;
        let inner = pred(cursor, depth - 1)?;
        cursor.symbol(Symbol::Closing)?;
        return Ok(inner);
    }
    atom(cursor)
}

#[tactic(auto, unfolding(mdc_ast::specs::Grammar::atom_rule))]
fn atom(cursor: &mut Cursor) -> Result<PredText, Stop>
    ensures { Parses result (tokens_of cursor.new.tokens.now) (read grammar.atom_rule (tokens_of cursor.old.tokens.now)) }
{
    let column = cursor.name()?;
    let (negated, test) = test(cursor)?;
    Ok(PredText::Atom(AtomText {
        column,
        negated,
        test,
    }))
}

/// A test, and whether NOT stands in it.
#[tactic(auto, unfolding(mdc_ast::specs::Grammar::test_rule))]
fn test(cursor: &mut Cursor) -> Result<(bool, TestText), Stop>
    ensures { Parses result (tokens_of cursor.new.tokens.now) (read grammar.test_rule (tokens_of cursor.old.tokens.now)) }
{
    if cursor.at_word(b"NOT") {
        cursor.word(b"NOT")?;
        let test = range(cursor)?;
        return Ok((true, test));
    }
    if cursor.at_word(b"IS") {
        cursor.word(b"IS")?;
        return null(cursor);
    }
    let test = plain_test(cursor)?;
    Ok((false, test))
}

/// What is behind IS.
#[tactic(auto, unfolding(mdc_ast::specs::Grammar::null_rule))]
fn null(cursor: &mut Cursor) -> Result<(bool, TestText), Stop>
    ensures { Parses result (tokens_of cursor.new.tokens.now) (read grammar.null_rule (tokens_of cursor.old.tokens.now)) }
{
    if cursor.at_word(b"NOT") {
        cursor.word(b"NOT")?;
        cursor.word(b"NULL")?;
        return Ok((true, TestText::IsNull));
    }
    cursor.word(b"NULL")?;
    Ok((false, TestText::IsNull))
}

#[tactic(auto, unfolding(mdc_ast::specs::Grammar::plain_test_rule))]
fn plain_test(cursor: &mut Cursor) -> Result<TestText, Stop>
    ensures { Parses result (tokens_of cursor.new.tokens.now) (read grammar.plain_test_rule (tokens_of cursor.old.tokens.now)) }
{
    if cursor.at_symbol(Symbol::Equal) {
        cursor.symbol(Symbol::Equal)?;
        let operand = operand(cursor)?;
        return Ok(TestText::Compare(Op::Equal, operand));
    }
    if cursor.at_symbol(Symbol::Unequal) {
        cursor.symbol(Symbol::Unequal)?;
        let operand = operand(cursor)?;
        return Ok(TestText::Compare(Op::Unequal, operand));
    }
    if cursor.at_symbol(Symbol::Less) {
        cursor.symbol(Symbol::Less)?;
        let operand = operand(cursor)?;
        return Ok(TestText::Compare(Op::Less, operand));
    }
    if cursor.at_symbol(Symbol::AtMost) {
        cursor.symbol(Symbol::AtMost)?;
        let operand = operand(cursor)?;
        return Ok(TestText::Compare(Op::AtMost, operand));
    }
    if cursor.at_symbol(Symbol::Greater) {
        cursor.symbol(Symbol::Greater)?;
        let operand = operand(cursor)?;
        return Ok(TestText::Compare(Op::Greater, operand));
    }
    if cursor.at_symbol(Symbol::AtLeast) {
        cursor.symbol(Symbol::AtLeast)?;
        let operand = operand(cursor)?;
        return Ok(TestText::Compare(Op::AtLeast, operand));
    }
    range(cursor)
}

#[tactic(auto, unfolding(mdc_ast::specs::Grammar::range_rule))]
fn range(cursor: &mut Cursor) -> Result<TestText, Stop>
    ensures { Parses result (tokens_of cursor.new.tokens.now) (read grammar.range_rule (tokens_of cursor.old.tokens.now)) }
{
    if cursor.at_word(b"BETWEEN") {
        cursor.word(b"BETWEEN")?;
        let low = Part::take(cursor)?;
        cursor.word(b"AND")?;
        let high = Part::take(cursor)?;
        return Ok(TestText::Between(low, high));
    }
    cursor.word(b"IN")?;
    let members = cursor.listed()?;
    Ok(TestText::Within(members))
}
