// Whether values differ.
ghost use Rattle.std.specs.Prelude.{◌≡◌, ◌≢◌, ◌↔◌, ◌<◌, ◌+◌, ℕ, true, false, map, length, slice_index_or, IfErr, IfOk, IsTrue, AllPairs};
ghost use Rattle.std.specs.List.{AllAdjacentBelow, AllByRecursion};
ghost use Rattle.file_check.specs.KeysJudged.{AreApartBelow};

use store_api::StoreFault;

/// Whether all numbers lie below the next one, and differ. It sorts them.
pub(crate) fn are_apart_below(next: u64, numbers: &mut Vec<u64>) -> Result<bool, StoreFault>
    ensures judged { IfOk result (λ apart. IsTrue apart ↔ AreApartBelow next numbers.old.items) }
    ensures memory { IfErr result (λ fault. fault ≡ StoreFault.Memory) }
{
    if !are_below(next, numbers) {
        return Ok(false);
    }
    numbers.sort()?;
    Ok(do_neighbours_differ(numbers))
}

/// Whether all keys differ. It sorts them.
pub(crate) fn do_keys_differ(keys: &mut Vec<Vec<u8>>) -> Result<bool, StoreFault>
    ensures judged { IfOk result (λ differ. IsTrue differ ↔ AllPairs (λ a b. a ≢ b) (map (λ key. key.items) keys.old.items)) }
    ensures memory { IfErr result (λ fault. fault ≡ StoreFault.Memory) }
{
    keys.sort()?;
    Ok(do_neighbours_differ(keys))
}

/// Whether all numbers lie below the next one.
fn are_below(next: u64, numbers: &[u64]) -> bool
    ensures { IsTrue result ↔ AllByRecursion (λ number. number < next) numbers.now }
{
    numbers.iter().all(|number| *number < next)
}

/// Whether none of some values equals the one before it.
fn do_neighbours_differ<T: PartialEq>(values: &[T]) -> bool
    ensures differ { result ≡ true → AllAdjacentBelow (λ a b. T.eq b a ≡ false) values.now (length values.now) }
    ensures equal { result ≡ false → (i : ℕ) × (i + 1 < length values.now) × ((d : T) → T.eq (slice_index_or values.now (i + 1) d) (slice_index_or values.now i d) ≡ true) }
{
    for i in 1..values.len() {
        if values[i] == values[i - 1] {
            return false;
        }
    }
    true
}
