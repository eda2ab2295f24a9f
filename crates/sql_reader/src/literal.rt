// Names, literals and operands.
ghost use Rattle.std.specs.Prelude.{◌≡◌};
ghost use Rattle.mdc_ast.specs.Grammar as grammar;
ghost use Rattle.sql_reader.specs.Parses.{Parses};
ghost use Rattle.sql_reader.specs.LookAhead.{starts};
ghost use Rattle.sql_reader.specs.Readers.{begins, read};
ghost use Rattle.sql_reader.specs.Token.{tokens_of};

use crate::cursor::{Cursor, Part, Stop};
use crate::token::Symbol;
use mdc_ast::{Name, Operand};
use mdc_values::Literal;

impl Part for Name {
    ghost part_at = { read grammar.name_rule };

    fn take(cursor: &mut Cursor) -> Result<Name, Stop> {
        cursor.name()
    }
}

impl Part for Literal {
    ghost part_at = { read grammar.literal_rule };

    #[tactic(auto, unfolding(mdc_ast::specs::Grammar::literal_rule))]
    fn take(cursor: &mut Cursor) -> Result<Literal, Stop> {
        if cursor.at_word(b"DATE") {
            cursor.word(b"DATE")?;
            let text = cursor.text()?;
            return Ok(Literal::Date(text));
        }
        plain(cursor)
    }
}

/// An operand. DATE is the name of a column where no text stands behind it.
#[tactic(auto, unfolding(mdc_ast::specs::Grammar::operand_rule))]
pub fn operand(cursor: &mut Cursor) -> Result<Operand, Stop>
    ensures { Parses result (tokens_of cursor.new.tokens.now) (read grammar.operand_rule (tokens_of cursor.old.tokens.now)) }
{
    if at_plain(cursor) {
        let literal = plain(cursor)?;
        return Ok(Operand::Literal(literal));
    }
    if cursor.takes_before_text(b"DATE") {
        let text = cursor.text()?;
        return Ok(Operand::Literal(Literal::Date(text)));
    }
    let name = cursor.name()?;
    Ok(Operand::Column(name))
}

/// Whether a literal other than a date begins there.
#[tactic(auto, unfolding(mdc_ast::specs::Grammar::plain_rule))]
fn at_plain(cursor: &Cursor) -> bool
    ensures { result ≡ begins (starts grammar.plain_rule) (tokens_of cursor.now.tokens.now) }
{
    cursor.at_symbol(Symbol::Plus)
        || cursor.at_symbol(Symbol::Minus)
        || cursor.at_word(b"NULL")
        || cursor.at_text()
        || cursor.at_number()
}

/// A literal other than a date.
#[tactic(auto, unfolding(mdc_ast::specs::Grammar::plain_rule))]
fn plain(cursor: &mut Cursor) -> Result<Literal, Stop>
    ensures { Parses result (tokens_of cursor.new.tokens.now) (read grammar.plain_rule (tokens_of cursor.old.tokens.now)) }
{
    if cursor.at_symbol(Symbol::Plus) {
        cursor.symbol(Symbol::Plus)?;
        let size = cursor.number()?;
        return Ok(Literal::Number {
            negative: false,
            size,
        });
    }
    if cursor.at_symbol(Symbol::Minus) {
        cursor.symbol(Symbol::Minus)?;
        let size = cursor.number()?;
        return Ok(Literal::Number {
            negative: true,
            size,
        });
    }
    if cursor.at_word(b"NULL") {
        cursor.word(b"NULL")?;
        return Ok(Literal::Null);
    }
    if cursor.at_text() {
        let text = cursor.text()?;
        return Ok(Literal::Text(text));
    }
    let size = cursor.number()?;
    Ok(Literal::Number {
        negative: false,
        size,
    })
}
