// The words that are no names.
ghost use Rattle.std.specs.List.{list_any};
ghost use Rattle.std.specs.Prelude.{◌≡◌, ◌≤◌, length, map};
ghost use Rattle.std.specs.Str.{bytes_eq};
ghost use Rattle.mdc_ast.specs.Classes as classes;
ghost use Rattle.mdc_ast.specs.Tokens.{upper};

use crate::token::is_folded;

const SHORTEST: usize = 2;

const LONGEST: usize = 8;

// They stand by their lengths, so that few of them are compared with a word.
const OF_TWO: [&[u8]; 6] = [b"AS", b"BY", b"IN", b"IS", b"ON", b"OR"];

const OF_THREE: [&[u8]; 3] = [b"AND", b"NOT", b"SET"];

const OF_FOUR: [&[u8]; 4] = [b"DROP", b"FROM", b"INTO", b"NULL"];

const OF_FIVE: [&[u8]; 4] = [b"FETCH", b"GROUP", b"ORDER", b"WHERE"];

const OF_SIX: [&[u8]; 6] = [
    b"CREATE", b"DELETE", b"INSERT", b"SELECT", b"UPDATE", b"VALUES",
];

const OF_SEVEN: [&[u8]; 2] = [b"BETWEEN", b"DEFAULT"];

const OF_EIGHT: [&[u8]; 1] = [b"ORGANIZE"];

/// Whether a word can be a name.
pub fn is_name(word: &[u8]) -> bool
    ensures { result ≡ classes.is_name (map upper word.now) }
{
    !is_reserved(word)
}

fn is_reserved(word: &[u8]) -> bool
    ensures { result ≡ list_any (bytes_eq (map upper word.now)) classes.reserved }
{
    let len = word.len();
    if len < SHORTEST {
        return false;
    }
    if len > LONGEST {
        return false;
    }
    is_reserved_of(word)
}

// It has the length of one.
fn is_reserved_of(word: &[u8]) -> bool
    requires { (2 ≤ length word.now) × (length word.now ≤ 8) }
    ensures { result ≡ list_any (bytes_eq (map upper word.now)) classes.reserved }
{
    match word.len() {
        2 => is_among(word, &OF_TWO),
        3 => is_among(word, &OF_THREE),
        4 => is_among(word, &OF_FOUR),
        5 => is_among(word, &OF_FIVE),
        6 => is_among(word, &OF_SIX),
        7 => is_among(word, &OF_SEVEN),
        8 => is_among(word, &OF_EIGHT),
        _ => unreachable!(),
    }
}

fn is_among(word: &[u8], words: &[&[u8]]) -> bool
    ensures { result ≡ list_any (λ other. bytes_eq (map upper word.now) other.now) words.now }
{
    words.iter().any(|other| is_folded(word, other))
}
