// What the bytes of a statement are made of.
ghost use Rattle.std.specs.Prelude.{◌≡◌, map};
ghost use Rattle.std.specs.Str.{bytes_eq};
ghost use Rattle.mdc_ast.specs.Classes.{W, S, AnyNumber, AnyText, fits};
ghost use Rattle.mdc_ast.specs.Tokens.{upper};

/// A symbol.
#[derive(Clone, Copy, Debug, PartialEq, Eq)]
pub enum Symbol {
    Opening,
    Closing,
    Comma,
    Star,
    Plus,
    Minus,
    Slash,
    Equal,
    Unequal,
    Less,
    AtMost,
    Greater,
    AtLeast,
}

/// What a token is. A word and what stands within the quotes of a text are lent as the statement has them.
#[derive(Clone, Copy, Debug)]
pub enum Kind<'s> {
    Word(&'s [u8]),
    /// 2^64 - 1 stands for what is greater.
    Number(u64),
    Text(&'s [u8]),
    Symbol(Symbol),
    /// A byte that begins nothing, or a text that isn't closed.
    Stray,
}

/// A token, and the number of bytes of the statement from its first one on.
#[derive(Clone, Copy, Debug)]
pub struct Token<'s> {
    pub kind: Kind<'s>,
    pub left: usize,
}

impl Symbol {
    ghost use Rattle.sql_reader.specs.Token.{bytes_of};

    /// Whether this is that symbol.
    pub fn is(self, other: Symbol) -> bool
        ensures { result ≡ bytes_eq (bytes_of self) (bytes_of other) }
    {
        self == other
    }
}

impl Kind<'_> {
    ghost use Rattle.sql_reader.specs.Strange.{is_plain_kind};
    ghost use Rattle.sql_reader.specs.Token.{grammar_kind, bytes_of};

    /// Whether this is a word, given in upper case.
    pub fn is_word(&self, wanted: &[u8]) -> bool
        ensures { result ≡ fits (W wanted.now) (grammar_kind self.now) }
    {
        match self {
            Kind::Word(word) => is_folded(word, wanted),
            Kind::Number(_) => false,
            Kind::Text(_) => false,
            Kind::Symbol(_) => false,
            Kind::Stray => false,
        }
    }

    /// Whether this is a symbol.
    pub fn is_symbol(&self, wanted: Symbol) -> bool
        ensures { result ≡ fits (S (bytes_of wanted)) (grammar_kind self.now) }
    {
        match self {
            Kind::Word(_) => false,
            Kind::Number(_) => false,
            Kind::Text(_) => false,
            Kind::Symbol(symbol) => symbol.is(wanted),
            Kind::Stray => false,
        }
    }

    /// Whether all bytes of such a token may stand anywhere in a statement.
    pub fn is_plain(&self) -> bool
        ensures { result ≡ is_plain_kind (grammar_kind self.now) }
    {
        matches!(self, Kind::Word(_) | Kind::Number(_) | Kind::Symbol(_))
    }

    /// Whether this is a number.
    pub fn is_number(&self) -> bool
        ensures { result ≡ fits AnyNumber (grammar_kind self.now) }
    {
        matches!(self, Kind::Number(_))
    }

    /// Whether this is a text.
    pub fn is_text(&self) -> bool
        ensures { result ≡ fits AnyText (grammar_kind self.now) }
    {
        matches!(self, Kind::Text(_))
    }
}

/// Whether a word, folded to upper case, is this one.
pub fn is_folded(word: &[u8], wanted: &[u8]) -> bool
    ensures { result ≡ bytes_eq (map upper word.now) wanted.now }
{
    if word.len() != wanted.len() {
        return false;
    }
    for (place, byte) in word.iter().enumerate() {
        if byte.to_ascii_uppercase() != wanted[place] {
            return false;
        }
    }
    true
}
