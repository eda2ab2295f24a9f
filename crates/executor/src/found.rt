// What is found by a plan.
ghost use Rattle.std.specs.Prelude.{◌≡◌, ◌≤◌, AllPairs, IsPermutation};

use mdc_table::Hit;

/// Copies of rows, each with its place, and how many blocks were looked into that hold a row of the plan.
#[derive(Debug, Drop)]
pub struct Found {
    pub hits: Vec<Hit>,
    pub blocks: u64,
}

impl Found {
    /// Copies that were found in so many blocks, by rising row number.
    pub(crate) fn by_number(hits: Vec<Hit>, blocks: u64) -> Found
        ensures moved { IsPermutation hits.items result.hits.items }
        ensures in_order { AllPairs (λ a b. a.row.number ≤ b.row.number) result.hits.items }
        ensures blocks { result.blocks ≡ blocks }
    {
        let mut hits = hits;
        hits.sort_unstable_by_key(|hit| hit.row.number);
        Found { hits, blocks }
    }
}
