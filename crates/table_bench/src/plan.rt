// What a run is to do, as its words say it.

// How many rows a table is filled with at most.
const MOST_ROWS: u32 = 1_000_000;

/// What to do.
#[derive(Clone, Copy, Debug)]
pub enum Plan<'w> {
    /// Show the tables of a file.
    Show(&'w str),
    /// Fill a table of a file.
    Fill(&'w str, Amount),
}

/// How many rows a table is filled with, and the number that their values are made from.
#[derive(Clone, Copy, Debug, PartialEq, Eq)]
pub struct Amount {
    pub rows: u32,
    pub seed: u32,
}

/// What the words ask for, or nothing where they ask for nothing that is known.
pub fn plan_of(words: &[String]) -> Option<Plan<'_>> {
    match words {
        [what, path] if what.as_str() == "show" => Some(Plan::Show(path.as_str())),
        [what, path, rows, seed] if what.as_str() == "fill" => {
            Some(Plan::Fill(path.as_str(), amount_of(rows, seed)?))
        }
        _ => None,
    }
}

// The amount that two words say.
fn amount_of(rows: &str, seed: &str) -> Option<Amount> {
    let rows = rows.parse().ok()?;
    if rows > MOST_ROWS {
        return None;
    }
    let seed = seed.parse().ok()?;
    Some(Amount { rows, seed })
}
