// The tokens of a statement.
ghost use Rattle.std.specs.Prelude.{◌≡◌, ◌<◌, [], ◌∷◌, None, Some, IfOk, IfSome, if◌then◌else◌, length, true, vec_len, vec_capacity};
ghost use Rattle.mdc_ast.specs.Cutting.{is_blank};
ghost use Rattle.mdc_ast.specs.Tokens.{Tokens, is_pair, is_symbol, is_word_byte};
ghost use Rattle.sql_reader.specs.Digits.{EndsNumber};
ghost use Rattle.sql_reader.specs.Front.{class_at, class_marked, closes_before, closing_at, next_quote, front_at, front_len, shown_symbol, symbol_front, text_before, PutsFront};
ghost use Rattle.sql_reader.specs.Token.{bytes_of, tokens_of, grammar_kind};

use crate::comment::after_line;
use crate::token::{Kind, Symbol, Token};
use mdc_values::Memory;
use std::alloc::Global;

/// Room for the tokens of a short statement, so that its list needn't grow.
const USUAL_TOKENS: usize = 16;

/// What a byte can begin.
#[derive(Clone, Copy)]
enum Class {
    Blank,
    Letter,
    Digit,
    Quote,
    /// A symbol, or the first of two dashes that begin a comment.
    Symbol,
    Unknown,
}

// For each byte: 0 a letter, 1 a digit, 2 the other byte of a word, 3 a symbol, 4 a quote, 5 a blank, 6 any other.
static CLASSES: [u8; 256] = *b"\
    66666666655665666666666666666666\
    56666664333333631111111111663336\
    60000000000000000000000000066662\
    60000000000000000000000000066666\
    66666666666666666666666666666666\
    66666666666666666666666666666666\
    66666666666666666666666666666666\
    66666666666666666666666666666666";

/// The tokens that the bytes of a statement are.
pub fn lex<'s>(alloc: Global, statement: &'s [u8]) -> Result<Vec<Token<'s>>, Memory>
    ensures { IfOk result (λ tokens. Tokens statement.now (tokens_of tokens.items)) }
{
    let mut tokens = Vec::with_capacity(alloc, USUAL_TOKENS)?;
    let mut rest = statement;
    while let [byte, behind @ ..] = rest {
        if is_gap(*byte) {
            rest = behind;
            continue;
        }
        tokens.reserve(1)?;
        rest = take(&mut tokens, rest);
    }
    Ok(tokens)
}

/// Puts the token that the bytes begin with last, none for a blank or a comment, and gives the bytes behind it.
fn take<'s>(tokens: &mut Vec<Token<'s>>, bytes: &'s [u8]) -> &'s [u8]
    requires some { 0 < length bytes.now }
    requires room { vec_len tokens.old < vec_capacity tokens.old }
    ensures { PutsFront tokens.old.items tokens.new.items (length bytes.now) (front_at bytes.now) result.now }
{
    let left = bytes.len();
    let behind = &bytes[1..];
    match class_of(bytes[0]) {
        Class::Letter => {
            let (word, rest) = bytes.split_at(word_len(bytes));
            put(tokens, Kind::Word(word), left, rest)
        }
        Class::Digit => {
            let (number, rest) = number_of(bytes);
            put(tokens, Kind::Number(number), left, rest)
        }
        Class::Symbol => take_symbol(tokens, left, bytes[0], behind),
        Class::Quote => take_text(tokens, left, behind),
        Class::Blank => behind,
        Class::Unknown => put(tokens, Kind::Stray, left, behind),
    }
}

/// Puts a token last, and gives the bytes behind it.
fn put<'s>(tokens: &mut Vec<Token<'s>>, kind: Kind<'s>, left: usize, rest: &'s [u8]) -> &'s [u8]
    requires { vec_len tokens.old < vec_capacity tokens.old }
    ensures { PutsFront tokens.old.items tokens.new.items left (Some (grammar_kind kind.entry), rest.now) result.now }
{
    tokens.push_reserved(Token { kind, left });
    rest
}

fn class_of(byte: u8) -> Class
    ensures { result ≡ class_at byte }
{
    class_marked(CLASSES[byte as usize])
}

/// The class that a mark of the table stands for.
fn class_marked(mark: u8) -> Class
    ensures { result ≡ class_marked mark }
{
    match mark {
        b'0' => Class::Letter,
        b'1' => Class::Digit,
        b'3' => Class::Symbol,
        b'4' => Class::Quote,
        b'5' => Class::Blank,
        _ => Class::Unknown,
    }
}

/// Whether a byte is a blank.
fn is_gap(byte: u8) -> bool
    ensures { result ≡ is_blank byte }
{
    CLASSES[byte as usize] == b'5'
}

/// How many bytes at the front can stand in a word.
fn word_len(bytes: &[u8]) -> usize
    ensures { result ≡ front_len is_word_byte bytes.now }
{
    bytes
        .iter()
        .position(|byte| !is_word_byte(*byte))
        .unwrap_or(bytes.len())
}

fn is_word_byte(byte: u8) -> bool
    ensures { result ≡ is_word_byte byte }
{
    CLASSES[byte as usize] <= b'2'
}

/// The number that the digits at the front write, and the bytes behind them.
fn number_of(bytes: &[u8]) -> (u64, &[u8])
    ensures { EndsNumber 0 bytes.now result.0 result.1.now }
{
    let mut number: u64 = 0;
    let mut rest = bytes;
    while let [byte, behind @ ..] = rest {
        if !byte.is_ascii_digit() {
            break;
        }
        number = number
            .saturating_mul(10)
            .saturating_add(u64::from(*byte - b'0'));
        rest = behind;
    }
    (number, rest)
}

/// Takes what a quote begins that stands before these bytes.
fn take_text<'s>(tokens: &mut Vec<Token<'s>>, left: usize, behind: &'s [u8]) -> &'s [u8]
    requires { vec_len tokens.old < vec_capacity tokens.old }
    ensures { PutsFront tokens.old.items tokens.new.items left (text_before behind.now (closing_at None 0 behind.now)) result.now }
{
    match closing_quote(behind) {
        Some(place) => put(
            tokens,
            Kind::Text(&behind[..place]),
            left,
            &behind[place + 1..],
        ),
        None => put(tokens, Kind::Stray, left, &[]),
    }
}

/// The place of the quote that closes a text: a quote behind which no second one stands.
fn closing_quote(bytes: &[u8]) -> Option<usize>
    ensures place { result ≡ closing_at None 0 bytes.now }
    ensures within { IfSome result (λ place. place < length bytes.now) }
{
    let mut quote = None;
    for (place, byte) in bytes.iter().enumerate() {
        if closes_before(quote, *byte) {
            return quote;
        }
        quote = next_quote(quote, place, *byte);
    }
    quote
}

/// Whether a quote that stands before this byte closes a text: the byte is no second quote.
fn closes_before(quote: Option<usize>, byte: u8) -> bool
    ensures { result ≡ closes_before quote byte }
{
    match quote {
        Some(_) => byte != b'\'',
        None => false,
    }
}

/// The place of a quote behind which a second one may stand, once this byte is passed.
fn next_quote(quote: Option<usize>, place: usize, byte: u8) -> Option<usize>
    ensures { result ≡ next_quote quote place byte }
{
    match quote {
        Some(_) => None,
        None => { if byte == b'\'' { Some(place) } else { None } }
    }
}

/// Takes what the byte of a symbol begins, with these bytes behind it.
fn take_symbol<'s>(tokens: &mut Vec<Token<'s>>, left: usize, byte: u8, behind: &'s [u8]) -> &'s [u8]
    requires symbol { is_symbol byte ≡ true }
    requires room { vec_len tokens.old < vec_capacity tokens.old }
    ensures { PutsFront tokens.old.items tokens.new.items left (symbol_front byte behind.now) result.now }
{
    let [next, rest @ ..] = behind else {
        return put(tokens, Kind::Symbol(symbol_of(byte)), left, behind);
    };
    if let Some(symbol) = pair_of(byte, *next) {
        return put(tokens, Kind::Symbol(symbol), left, rest);
    }
    if byte == b'-' && *next == b'-' {
        return after_line(rest);
    }
    put(tokens, Kind::Symbol(symbol_of(byte)), left, behind)
}

/// The symbol of two bytes.
fn pair_of(byte: u8, next: u8) -> Option<Symbol>
    ensures { shown_symbol result ≡ (if is_pair byte next then Some (byte ∷ next ∷ []) else None) }
{
    match (byte, next) {
        (b'<', b'>') => Some(Symbol::Unequal),
        (b'<', b'=') => Some(Symbol::AtMost),
        (b'>', b'=') => Some(Symbol::AtLeast),
        _ => None,
    }
}

/// The symbol of one byte.
fn symbol_of(byte: u8) -> Symbol
    requires { is_symbol byte ≡ true }
    ensures { bytes_of result ≡ byte ∷ [] }
{
    match byte {
        b'(' => Symbol::Opening,
        b')' => Symbol::Closing,
        b'*' => Symbol::Star,
        b'+' => Symbol::Plus,
        b',' => Symbol::Comma,
        b'-' => Symbol::Minus,
        b'<' => Symbol::Less,
        b'=' => Symbol::Equal,
        b'>' => Symbol::Greater,
        _ => Symbol::Slash,
    }
}
