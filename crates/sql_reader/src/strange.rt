// Bytes that no statement has.
ghost use Rattle.std.specs.Prelude.{◌≡◌, false, Some, None};
ghost use Rattle.std.specs.List.{list_all};
ghost use Rattle.mdc_ast.specs.Tokens.{Tokens, is_plain};
ghost use Rattle.sql_reader.specs.Strange.{begins_dash, is_plain_kind, is_strange, within_after, IsFoundIn};
ghost use Rattle.sql_reader.specs.Token.{grammar_kind, tokens_of};

use crate::token::Token;

/// Where in a statement a byte stands.
#[derive(Clone, Copy)]
enum Within {
    Nothing,
    Text,
    Comment,
}

/// A byte that no statement has outside comments, and how many bytes there are from it on.
#[derive(Clone, Copy)]
pub(crate) struct Strange {
    pub(crate) byte: u8,
    pub(crate) left: usize,
}

/// The first byte that no statement has outside comments, where the bytes are these tokens.
pub(crate) fn first_strange(statement: &[u8], tokens: &[Token]) -> Option<Strange>
    requires { Tokens statement.now (tokens_of tokens.now) }
    ensures { IsFoundIn statement.now result }
{
    // It can stand only in a text, and where nothing begins.
    if are_plain(tokens) {
        return None;
    }
    strange_outside(statement)
}

/// Whether the bytes of all tokens may stand anywhere in a statement.
fn are_plain(tokens: &[Token]) -> bool
    ensures { result ≡ list_all (λ token. is_plain_kind (grammar_kind token.kind)) tokens.now }
{
    tokens.iter().all(|token| token.kind.is_plain())
}

/// The first byte that no statement has, outside comments, byte by byte.
fn strange_outside(statement: &[u8]) -> Option<Strange>
    ensures { IsFoundIn statement.now result }
{
    let mut within = Within::Nothing;
    let mut rest = statement;
    while let [byte, behind @ ..] = rest {
        if is_strange(within, *byte) {
            return Some(Strange {
                byte: *byte,
                left: rest.len(),
            });
        }
        within = after(within, *byte, behind);
        rest = behind;
    }
    None
}

/// Whether no statement has such a byte there.
fn is_strange(within: Within, byte: u8) -> bool
    ensures { result ≡ is_strange within byte }
{
    match within {
        Within::Nothing => !is_plain(byte),
        Within::Text => !is_plain(byte),
        Within::Comment => false,
    }
}

/// A blank, or a byte that is shown as a character other than a blank.
fn is_plain(byte: u8) -> bool
    ensures { result ≡ is_plain byte }
{
    (b' ' <= byte && byte <= b'~') || matches!(byte, b'\t' | b'\n' | b'\r')
}

/// Where the bytes behind a byte stand.
fn after(within: Within, byte: u8, behind: &[u8]) -> Within
    ensures { result ≡ within_after within byte behind.now }
{
    match within {
        Within::Nothing => {
            if byte == b'\'' {
                Within::Text
            } else if byte == b'-' && begins_dash(behind) {
                Within::Comment
            } else {
                Within::Nothing
            }
        }
        Within::Text => {
            if byte == b'\'' {
                Within::Nothing
            } else {
                Within::Text
            }
        }
        Within::Comment => {
            if byte == b'\n' {
                Within::Nothing
            } else {
                Within::Comment
            }
        }
    }
}

fn begins_dash(bytes: &[u8]) -> bool
    ensures { result ≡ begins_dash bytes.now }
{
    match bytes {
        [byte, ..] => *byte == b'-',
        [] => false,
    }
}
