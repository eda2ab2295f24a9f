// The pieces of work, by their names.
use bench_plan::NoWork;
use std::str::FromStr;

/// A piece of work.
#[derive(Clone, Copy, Debug)]
pub enum What {
    /// Add so many entries in shuffled order to a new tree.
    Add,
    /// Add so many entries in rising order to a new tree.
    Rise,
    /// Look for each of so many entries.
    Has,
    /// Read all of so many entries.
    Walk,
    /// Add so many entries in shuffled order to a new tree, and remove them all.
    Remove,
    /// Claim a thousand blocks behind so many extents in use.
    Claim,
    /// Tell how full the leaves are of so many entries that came in shuffled order.
    Fill,
    /// The same for entries that came in rising order.
    FillRising,
}

impl FromStr for What {
    type Err = NoWork;

    fn from_str(word: &str) -> Result<What, NoWork> {
        match word {
            "add" => Ok(What::Add),
            "rise" => Ok(What::Rise),
            "has" => Ok(What::Has),
            "walk" => Ok(What::Walk),
            "remove" => Ok(What::Remove),
            "claim" => Ok(What::Claim),
            "fill" => Ok(What::Fill),
            "fill-rising" => Ok(What::FillRising),
            _ => Err(NoWork),
        }
    }
}
