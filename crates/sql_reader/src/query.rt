// Queries.
ghost use Rattle.mdc_ast.specs.Grammar as grammar;
ghost use Rattle.mdc_ast.specs.Rules.{choice, nothing};
ghost use Rattle.sql_reader.specs.Parses.{Parses};
ghost use Rattle.sql_reader.specs.Readers.{read};
ghost use Rattle.sql_reader.specs.Token.{tokens_of};

use crate::column::call;
use crate::cursor::{Cursor, Part, Stop};
use crate::predicate::filter;
use crate::token::Symbol;
use mdc_ast::{KeyText, Name, Out, OutList, Select};
use mdc_values::List;

/// A query, from SELECT on.
#[tactic(auto, unfolding(mdc_ast::specs::Grammar::query_rule))]
pub fn query(cursor: &mut Cursor, depth: u8) -> Result<Select, Stop>
    ensures { Parses result (tokens_of cursor.new.tokens.now) (read (grammar.query_rule depth) (tokens_of cursor.old.tokens.now)) }
{
    cursor.word(b"SELECT")?;
    let list = list(cursor)?;
    cursor.word(b"FROM")?;
    let table = cursor.name()?;
    let pred = filter(cursor, depth)?;
    let group = group(cursor)?;
    let order = order(cursor)?;
    let first = first(cursor)?;
    Ok(Select {
        list,
        table,
        pred,
        group,
        order,
        first,
    })
}

#[tactic(auto, unfolding(mdc_ast::specs::Grammar::list_rule))]
fn list(cursor: &mut Cursor) -> Result<OutList, Stop>
    ensures { Parses result (tokens_of cursor.new.tokens.now) (read grammar.list_rule (tokens_of cursor.old.tokens.now)) }
{
    if cursor.at_symbol(Symbol::Star) {
        cursor.symbol(Symbol::Star)?;
        return Ok(OutList::Star);
    }
    let outs = cursor.separated()?;
    Ok(OutList::Outs(outs))
}

/// COUNT, SUM, MIN and MAX are names of columns where no parenthesis opens behind them.
impl Part for Out {
    ghost part_at = { read grammar.out_rule };

    #[tactic(auto, unfolding(mdc_ast::specs::Grammar::out_rule, mdc_ast::specs::Grammar::counted_rule, mdc_ast::specs::Grammar::call_rule))]
    fn take(cursor: &mut Cursor) -> Result<Out, Stop> {
        if cursor.takes_call(b"COUNT") {
            return counted(cursor);
        }
        if cursor.takes_call(b"SUM") {
            let column = call(cursor)?;
            return Ok(Out::Sum(column));
        }
        if cursor.takes_call(b"MIN") {
            let column = call(cursor)?;
            return Ok(Out::Min(column));
        }
        if cursor.takes_call(b"MAX") {
            let column = call(cursor)?;
            return Ok(Out::Max(column));
        }
        let column = cursor.name()?;
        Ok(Out::Column(column))
    }
}

/// What is behind COUNT.
#[tactic(auto, unfolding(mdc_ast::specs::Grammar::counted_rule))]
fn counted(cursor: &mut Cursor) -> Result<Out, Stop>
    ensures { Parses result (tokens_of cursor.new.tokens.now) (read grammar.counted_rule (tokens_of cursor.old.tokens.now)) }
{
    cursor.symbol(Symbol::Opening)?;
    if cursor.at_symbol(Symbol::Star) {
        cursor.symbol(Symbol::Star)?;
        cursor.symbol(Symbol::Closing)?;
        return Ok(Out::CountAll);
    }
    let column = cursor.name()?;
    cursor.symbol(Symbol::Closing)?;
    Ok(Out::Count(column))
}

#[tactic(auto, unfolding(mdc_ast::specs::Grammar::group_rule))]
fn group(cursor: &mut Cursor) -> Result<List<Name>, Stop>
    ensures { Parses result (tokens_of cursor.new.tokens.now) (read grammar.group_rule (tokens_of cursor.old.tokens.now)) }
{
    if cursor.at_word(b"GROUP") {
        cursor.word(b"GROUP")?;
        cursor.word(b"BY")?;
        return cursor.separated();
    }
    Ok(List::new(cursor.alloc))
}

#[tactic(auto, unfolding(mdc_ast::specs::Grammar::order_rule))]
fn order(cursor: &mut Cursor) -> Result<List<KeyText>, Stop>
    ensures { Parses result (tokens_of cursor.new.tokens.now) (read grammar.order_rule (tokens_of cursor.old.tokens.now)) }
{
    if cursor.at_word(b"ORDER") {
        cursor.word(b"ORDER")?;
        cursor.word(b"BY")?;
        return cursor.separated();
    }
    Ok(List::new(cursor.alloc))
}

/// How many lines come first.
#[tactic(auto, unfolding(mdc_ast::specs::Grammar::first_rule))]
fn first(cursor: &mut Cursor) -> Result<Option<u64>, Stop>
    ensures { Parses result (tokens_of cursor.new.tokens.now) (read grammar.first_rule (tokens_of cursor.old.tokens.now)) }
{
    if cursor.at_word(b"FETCH") {
        cursor.word(b"FETCH")?;
        cursor.word(b"FIRST")?;
        let count = count(cursor)?;
        rows_only(cursor)?;
        return Ok(Some(count));
    }
    Ok(None)
}

/// A number, or 1 where there is none.
fn count(cursor: &mut Cursor) -> Result<u64, Stop>
    ensures { Parses result (tokens_of cursor.new.tokens.now) (read (choice grammar.number_rule (nothing 1)) (tokens_of cursor.old.tokens.now)) }
{
    if cursor.at_number() {
        return cursor.number();
    }
    Ok(1)
}

#[tactic(auto, unfolding(mdc_ast::specs::Grammar::rows_rule))]
fn rows_only(cursor: &mut Cursor) -> Result<(), Stop>
    ensures { Parses result (tokens_of cursor.new.tokens.now) (read grammar.rows_rule (tokens_of cursor.old.tokens.now)) }
{
    if cursor.at_word(b"ROW") {
        cursor.word(b"ROW")?;
        cursor.word(b"ONLY")?;
        return Ok(());
    }
    cursor.word(b"ROWS")?;
    cursor.word(b"ONLY")?;
    Ok(())
}
