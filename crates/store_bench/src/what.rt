// The pieces of work, by their names.
use bench_plan::NoWork;
use std::str::FromStr;

/// A piece of work.
#[derive(Clone, Copy, Debug)]
pub enum What {
    /// Open a file of so many pages.
    Open,
    /// Work on a store that is opened once.
    Store(StoreWork),
}

/// A piece of work on a store.
#[derive(Clone, Copy, Debug)]
pub enum StoreWork {
    /// Fetch so many pages, all of which are in the cache.
    Hot,
    /// Fetch so many pages, none of which is in the cache.
    Cold,
    /// Write so many pages, and commit them.
    Commit,
    /// Write so many pages under a mark, and go back to it.
    Undo,
    /// Edit each of so many pages once under a mark.
    First,
    /// Edit pages that were edited under the mark so many times.
    Again,
}

impl FromStr for What {
    type Err = NoWork;

    fn from_str(word: &str) -> Result<What, NoWork> {
        match word {
            "open" => Ok(What::Open),
            "hot" => Ok(What::Store(StoreWork::Hot)),
            "cold" => Ok(What::Store(StoreWork::Cold)),
            "commit" => Ok(What::Store(StoreWork::Commit)),
            "undo" => Ok(What::Store(StoreWork::Undo)),
            "first" => Ok(What::Store(StoreWork::First)),
            "again" => Ok(What::Store(StoreWork::Again)),
            _ => Err(NoWork),
        }
    }
}
