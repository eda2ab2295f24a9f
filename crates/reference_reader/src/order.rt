// Rows by rising number.
ghost use Rattle.std.specs.Prelude.{◌≡◌, ◌<◌, ℕ, true, false, length, IsPermutation, IfOk, IfErr};
ghost use Rattle.std.specs.List.{AllAdjacentBelow};
ghost use Rattle.reference_reader.specs.ReadTables.{DoNumbersRise, IsFall, IsNumberTwice};

use mdc_ast::Row;
use store_api::StoreFault;

/// Sorts rows by their numbers, and answers whether these rise: where they don't, one stands twice.
pub fn sort_rows(rows: &mut Vec<Row>) -> Result<bool, StoreFault>
    ensures same { IsPermutation rows.old.items rows.new.items }
    ensures rising { IfOk result (λ rise. rise ≡ true → DoNumbersRise rows.new.items) }
    ensures twice { IfOk result (λ rise. rise ≡ false → IsNumberTwice rows.new.items) }
    ensures memory { IfErr result (λ fault. fault ≡ StoreFault.Memory) }
{
    rows.sort_by_key(|row| row.number)?;
    Ok(do_numbers_rise(rows))
}

/// Whether the number of each row is above that of the row before it.
fn do_numbers_rise(rows: &[Row]) -> bool
    ensures rise { result ≡ true → AllAdjacentBelow (λ a b. a.number < b.number) rows.now (length rows.now) }
    ensures fall { result ≡ false → (i : ℕ) × IsFall rows.now i }
{
    for i in 1..rows.len() {
        if rows[i].number <= rows[i - 1].number {
            return false;
        }
    }
    true
}
