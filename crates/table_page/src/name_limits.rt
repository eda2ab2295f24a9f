// Which names a table, a column or an index may have.
ghost use Rattle.std.specs.List.{list_all, list_any};
ghost use Rattle.std.specs.Prelude.{◌≡◌, ◌&&◌, not};
ghost use Rattle.std.specs.Str.{bytes_eq};
ghost use Rattle.mdc_ast.specs.Tokens.{is_letter, is_lower, is_word_byte};
ghost use Rattle.mdc_ast.specs.Definitions as definitions;
ghost use Rattle.mdc_ast.specs.TableLimits as limits;

use crate::layout::NAME_BYTES;
use mdc_ast::Name;

// The words that are no names.
const RESERVED: [&[u8]; 26] = [
    b"AND",
    b"AS",
    b"BETWEEN",
    b"BY",
    b"CREATE",
    b"DEFAULT",
    b"DELETE",
    b"DROP",
    b"FETCH",
    b"FROM",
    b"GROUP",
    b"IN",
    b"INSERT",
    b"INTO",
    b"IS",
    b"NOT",
    b"NULL",
    b"ON",
    b"OR",
    b"ORDER",
    b"ORGANIZE",
    b"SELECT",
    b"SET",
    b"UPDATE",
    b"VALUES",
    b"WHERE",
];

/// Whether two names are the same.
pub fn is_same(left: &Name, right: &Name) -> bool
    ensures { result ≡ definitions.is_same left.now right.now }
{
    left.0.bytes() == right.0.bytes()
}

/// Whether a name is one that may be given.
pub fn is_given_name(name: &Name) -> bool
    ensures { result ≡ limits.is_given_name name.now }
{
    let word = name.0.bytes();
    is_kept_word(word) && !is_among(word, &RESERVED) && word.len() <= NAME_BYTES
}

/// Whether a word is as statements keep it.
fn is_kept_word(word: &[u8]) -> bool
    ensures { result ≡ limits.is_kept_word word.now }
{
    match word {
        [first, more @ ..] => is_upper(*first) && are_kept(more),
        [] => false,
    }
}

fn is_upper(byte: u8) -> bool
    ensures { result ≡ (is_letter byte && not (is_lower byte)) }
{
    byte.is_ascii_uppercase()
}

fn are_kept(bytes: &[u8]) -> bool
    ensures { result ≡ list_all (λ byte. is_word_byte byte && not (is_lower byte)) bytes.now }
{
    bytes.iter().all(|byte| is_kept(*byte))
}

fn is_kept(byte: u8) -> bool
    ensures { result ≡ (is_word_byte byte && not (is_lower byte)) }
{
    byte.is_ascii_uppercase() || byte.is_ascii_digit() || byte == b'_'
}

fn is_among(word: &[u8], words: &[&[u8]]) -> bool
    ensures { result ≡ list_any (λ other. bytes_eq word.now other.now) words.now }
{
    words.iter().any(|other| word == *other)
}
