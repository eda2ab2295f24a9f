// How a statement is answered.
use crate::Refusal;
use mdc_values::Chars;

/// What a statement that is done has to say.
#[derive(Debug, Drop)]
pub enum Reply {
    Done,
    /// That many rows went in.
    Inserted(u64),
    /// That many rows were changed.
    Updated(u64),
    /// That many rows were taken out.
    Deleted(u64),
    /// Lines, each closed by a line feed.
    Lines(Chars),
}

/// The end of a statement: it is done, or it is refused and nothing has changed.
#[derive(Debug, Drop)]
pub enum Outcome {
    Done(Reply),
    Refused(Refusal),
}
