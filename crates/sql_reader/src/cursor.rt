// A place among the tokens of a statement, which goes on as things are taken.
ghost use Rattle.std.specs.Prelude.{◌≡◌, [], ◌∷◌, true, false, IfOk, IfSome, IfNone, MatchResult, map};
ghost use Rattle.mdc_ast.specs.Classes.{W, S, AnyName, AnyNumber, AnyText, opening, comma, name_in, number_in, text_in};
ghost use Rattle.mdc_ast.specs.Reading.{bytes_left};
ghost use Rattle.mdc_ast.specs.Tokens.{upper};
ghost use Rattle.sql_reader.specs.Parses.{Parses, Skips};
ghost use Rattle.sql_reader.specs.Readers.{begins, skip, one, forks, behind_first, separated_at, listed_at};
ghost use Rattle.sql_reader.specs.Token.{bytes_of, tokens_of, undoubled};

use crate::reserved::is_name;
use crate::token::{Kind, Symbol, Token};
use mdc_ast::{Name, Stmt};
use mdc_values::{Boxed, Chars, List, Memory};
use std::alloc::Global;

/// Why nothing is taken.
#[derive(Clone, Copy, Debug, PartialEq, Eq)]
pub enum Stop {
    /// The cursor stands at the first token that doesn't fit.
    NotSpelled,
    Memory,
}

impl From<Memory> for Stop {
    ghost use Rattle.sql_reader.specs.declared.cursor.Stop.TheVariants as stops;

    ghost from_gives = { λ _ stop. stop ≡ stops.Memory };

    fn from(_: Memory) -> Stop {
        Stop::Memory
    }
}

/// What can be a part of a list in a statement.
pub trait Part: Sized + Drop {
    ghost use Rattle.sql_reader.specs.Readers.{Reader};

    ghost part_at: { Reader Self };

    fn take(cursor: &mut Cursor) -> Result<Self, Stop>
        ensures { Parses result (tokens_of cursor.new.tokens.now) (part_at (tokens_of cursor.old.tokens.now)) };
}

/// The tokens from a place on.
#[derive(Drop)]
pub struct Cursor<'t> {
    pub alloc: Global,
    pub tokens: &'t [Token<'t>],
}

impl<'t> Cursor<'t> {
    /// Whether this word stands there.
    pub fn at_word(&self, wanted: &[u8]) -> bool
        ensures { result ≡ begins (W wanted.now ∷ []) (tokens_of self.now.tokens.now) }
    {
        match self.tokens {
            [token, ..] => token.kind.is_word(wanted),
            [] => false,
        }
    }

    /// Whether this symbol stands there.
    pub fn at_symbol(&self, wanted: Symbol) -> bool
        ensures { result ≡ begins (S (bytes_of wanted) ∷ []) (tokens_of self.now.tokens.now) }
    {
        match self.tokens {
            [token, ..] => token.kind.is_symbol(wanted),
            [] => false,
        }
    }

    /// Whether a text stands there.
    pub fn at_text(&self) -> bool
        ensures { result ≡ begins (AnyText ∷ []) (tokens_of self.now.tokens.now) }
    {
        match self.tokens {
            [token, ..] => token.kind.is_text(),
            [] => false,
        }
    }

    /// Whether a number stands there.
    pub fn at_number(&self) -> bool
        ensures { result ≡ begins (AnyNumber ∷ []) (tokens_of self.now.tokens.now) }
    {
        match self.tokens {
            [token, ..] => token.kind.is_number(),
            [] => false,
        }
    }

    /// The number of bytes from there to the end of the statement.
    pub fn left(&self) -> usize
        ensures { result ≡ bytes_left (tokens_of self.now.tokens.now) }
    {
        match self.tokens {
            [token, ..] => token.left,
            [] => 0,
        }
    }

    /// Takes this word.
    pub fn word(&mut self, wanted: &[u8]) -> Result<(), Stop>
        ensures { Skips result (tokens_of self.new.tokens.now) (skip (W wanted.now) (tokens_of self.old.tokens.now)) }
    {
        if let [token, rest @ ..] = self.tokens
            && token.kind.is_word(wanted)
        {
            self.tokens = rest;
            return Ok(());
        }
        Err(Stop::NotSpelled)
    }

    /// Takes this symbol.
    pub fn symbol(&mut self, wanted: Symbol) -> Result<(), Stop>
        ensures { Skips result (tokens_of self.new.tokens.now) (skip (S (bytes_of wanted)) (tokens_of self.old.tokens.now)) }
    {
        if let [token, rest @ ..] = self.tokens
            && token.kind.is_symbol(wanted)
        {
            self.tokens = rest;
            return Ok(());
        }
        Err(Stop::NotSpelled)
    }

    /// Takes this word where it stands, and says whether it did.
    pub fn takes_word(&mut self, wanted: &[u8]) -> bool
        ensures found { result ≡ true → (begins (W wanted.now ∷ []) (tokens_of self.old.tokens.now) ≡ true)
            × (skip (W wanted.now) (tokens_of self.old.tokens.now) ≡ Ok (tokens_of self.new.tokens.now)) }
        ensures none { result ≡ false → (begins (W wanted.now ∷ []) (tokens_of self.old.tokens.now) ≡ false) × (self.new ≡ self.old) }
    {
        if let [token, rest @ ..] = self.tokens
            && token.kind.is_word(wanted)
        {
            self.tokens = rest;
            return true;
        }
        false
    }

    /// Takes a comma where it stands, and says whether it did.
    fn takes_comma(&mut self) -> bool
        ensures found { result ≡ true → (begins (comma ∷ []) (tokens_of self.old.tokens.now) ≡ true)
            × (skip comma (tokens_of self.old.tokens.now) ≡ Ok (tokens_of self.new.tokens.now)) }
        ensures none { result ≡ false → (begins (comma ∷ []) (tokens_of self.old.tokens.now) ≡ false) × (self.new ≡ self.old) }
    {
        if let [token, rest @ ..] = self.tokens
            && token.kind.is_symbol(Symbol::Comma)
        {
            self.tokens = rest;
            return true;
        }
        false
    }

    /// Takes this word where a parenthesis opens behind it, and says whether it did.
    pub fn takes_call(&mut self, wanted: &[u8]) -> bool
        ensures found { result ≡ true → (forks (W wanted.now) (opening ∷ []) (tokens_of self.old.tokens.now) ≡ true)
            × (tokens_of self.new.tokens.now ≡ behind_first (tokens_of self.old.tokens.now)) }
        ensures none { result ≡ false → (forks (W wanted.now) (opening ∷ []) (tokens_of self.old.tokens.now) ≡ false) × (self.new ≡ self.old) }
    {
        if let [token, rest @ ..] = self.tokens
            && token.kind.is_word(wanted)
            && let [second, ..] = rest
            && second.kind.is_symbol(Symbol::Opening)
        {
            self.tokens = rest;
            return true;
        }
        false
    }

    /// Takes this word where a text stands behind it, and says whether it did.
    pub fn takes_before_text(&mut self, wanted: &[u8]) -> bool
        ensures found { result ≡ true → (forks (W wanted.now) (AnyText ∷ []) (tokens_of self.old.tokens.now) ≡ true)
            × (tokens_of self.new.tokens.now ≡ behind_first (tokens_of self.old.tokens.now)) }
        ensures none { result ≡ false → (forks (W wanted.now) (AnyText ∷ []) (tokens_of self.old.tokens.now) ≡ false) × (self.new ≡ self.old) }
    {
        if let [token, rest @ ..] = self.tokens
            && token.kind.is_word(wanted)
            && let [second, ..] = rest
            && second.kind.is_text()
        {
            self.tokens = rest;
            return true;
        }
        false
    }

    /// Takes a name.
    pub fn name(&mut self) -> Result<Name, Stop>
        ensures { Parses result (tokens_of self.new.tokens.now) (one AnyName name_in (tokens_of self.old.tokens.now)) }
    {
        let [token, rest @ ..] = self.tokens else {
            return Err(Stop::NotSpelled);
        };
        let Kind::Word(word) = token.kind else {
            return Err(Stop::NotSpelled);
        };
        if !is_name(word) {
            return Err(Stop::NotSpelled);
        }
        let word = folded(self.alloc, word)?;
        self.tokens = rest;
        Ok(Name(word))
    }

    /// Takes a number.
    pub fn number(&mut self) -> Result<u64, Stop>
        ensures { Parses result (tokens_of self.new.tokens.now) (one AnyNumber number_in (tokens_of self.old.tokens.now)) }
    {
        let [token, rest @ ..] = self.tokens else {
            return Err(Stop::NotSpelled);
        };
        let Kind::Number(number) = token.kind else {
            return Err(Stop::NotSpelled);
        };
        self.tokens = rest;
        Ok(number)
    }

    /// Takes a number where one stands.
    pub fn takes_number(&mut self) -> Option<u64>
        ensures found { IfSome result (λ n. one AnyNumber number_in (tokens_of self.old.tokens.now) ≡ Ok (n, tokens_of self.new.tokens.now)) }
        ensures none { IfNone result ((begins (AnyNumber ∷ []) (tokens_of self.old.tokens.now) ≡ false) × (self.new ≡ self.old)) }
    {
        if let [token, rest @ ..] = self.tokens
            && let Kind::Number(number) = token.kind
        {
            self.tokens = rest;
            return Some(number);
        }
        None
    }

    /// Takes a text.
    pub fn text(&mut self) -> Result<Chars, Stop>
        ensures { Parses result (tokens_of self.new.tokens.now) (one AnyText text_in (tokens_of self.old.tokens.now)) }
    {
        let [token, rest @ ..] = self.tokens else {
            return Err(Stop::NotSpelled);
        };
        let Kind::Text(text) = token.kind else {
            return Err(Stop::NotSpelled);
        };
        let text = undoubled(self.alloc, text)?;
        self.tokens = rest;
        Ok(text)
    }

    /// Takes one part or more, with a comma between two of them.
    pub fn separated<P: Part>(&mut self) -> Result<List<P>, Stop>
        ensures { Parses result (tokens_of self.new.tokens.now) (separated_at comma P.part_at (tokens_of self.old.tokens.now)) }
    {
        let first = P::take(self)?;
        let mut parts = List::new(self.alloc);
        parts.push(first)?;
        for _ in 0..self.tokens.len() {
            if !self.takes_comma() {
                return Ok(parts);
            }
            let part = P::take(self)?;
            parts.push(part)?;
        }
        Ok(parts)
    }

    /// Takes such parts in parentheses.
    #[tactic(auto, unfolding(crate::specs::Readers::listed_at))]
    pub fn listed<P: Part>(&mut self) -> Result<List<P>, Stop>
        ensures { Parses result (tokens_of self.new.tokens.now) (listed_at P.part_at (tokens_of self.old.tokens.now)) }
    {
        self.symbol(Symbol::Opening)?;
        let parts = self.separated()?;
        self.symbol(Symbol::Closing)?;
        Ok(parts)
    }
}

/// A statement on the heap, so that no step behind it moves all of it.
pub fn kept(alloc: Global, stmt: Stmt) -> Result<Boxed<Stmt>, Stop>
    ensures { MatchResult result (λ boxed. boxed ≡ stmt) (λ stop. stop ≡ Stop.Memory) }
{
    Ok(Boxed::new(alloc, stmt)?)
}

/// A word in upper case.
fn folded(alloc: Global, word: &[u8]) -> Result<Chars, Memory>
    ensures { IfOk result (λ chars. chars ≡ map upper word.now) }
{
    let mut bytes = Vec::from_slice(alloc, word)?;
    bytes.make_ascii_uppercase();
    Ok(Chars::from_vec(bytes))
}

/// The text that stands within quotes, in which two quotes stand for one.
fn undoubled(alloc: Global, quoted: &[u8]) -> Result<Chars, Memory>
    ensures { IfOk result (λ chars. chars ≡ undoubled false quoted.now) }
{
    let mut bytes = Vec::with_capacity(alloc, quoted.len())?;
    let mut behind_quote = false;
    for byte in quoted {
        if behind_quote {
            behind_quote = false;
            continue;
        }
        bytes.push(*byte)?;
        behind_quote = *byte == b'\'';
    }
    Ok(Chars::from_vec(bytes))
}
