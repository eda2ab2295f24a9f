use crate::Chars;

/// A value as a statement writes it. A magnitude above 2^64 - 1 stands as 2^64 - 1.
#[derive(Debug, Drop)]
pub enum Literal {
    Null,
    Number { negative: bool, size: u64 },
    Text(Chars),
    /// A text behind the word DATE.
    Date(Chars),
}
