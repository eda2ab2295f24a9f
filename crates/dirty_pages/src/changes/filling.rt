// The pages of zeros that a commit writes.
ghost use Rattle.std.specs.Prelude.{◌≡◌, ◌≢◌, ◌≤◌, ◌<◌, ℕ, IsSome, OnOk};
ghost use Rattle.dirty_pages.specs.ChangesView.{or_grown, written_over};

use crate::spares::Spares;
use crate::table::PageTable;
use mdc_values::Memory;
use store_api::blank_page;

/// Adds each page from a number up to another that isn't there, as a page of zeros.
pub(super) fn fill(
    table: &mut PageTable,
    spares: &mut Spares,
    from: u32,
    to: u32,
) -> Result<(), Memory>
    requires { from ≤ to }
    ensures zeros { (p : ℕ) → or_grown from (written_over table.new) p ≡ or_grown from (written_over table.old) p }
    ensures below { (p : ℕ) → p < from → written_over table.new p ≡ written_over table.old p }
    ensures behind { (p : ℕ) → to ≤ p → written_over table.new p ≡ written_over table.old p }
    ensures filled { OnOk result ((p : ℕ) → from ≤ p → p < to → IsSome (written_over table.new p)) }
{
    for p in from..to {
        fill_one(table, spares, p)?;
    }
    Ok(())
}

// Adds a page of zeros, where the page isn't there.
fn fill_one(table: &mut PageTable, spares: &mut Spares, p: u32) -> Result<(), Memory>
    ensures zeros { (from q : ℕ) → from ≤ p → or_grown from (written_over table.new) q ≡ or_grown from (written_over table.old) q }
    ensures apart { (q : ℕ) → q ≢ p → written_over table.new q ≡ written_over table.old q }
    ensures there { OnOk result (IsSome (written_over table.new p)) }
{
    if table.place_of(p).is_some() {
        return Ok(());
    }
    let page = spares.filled(blank_page())?;
    table.push(p, page)?;
    Ok(())
}
