// The way back to the mark.
ghost use Rattle.std.specs.Prelude.{◌≡◌, ◌<◌, ℕ, [], IsSome, OnOk, true, take};
ghost use Rattle.dirty_pages.specs.Table.{LiesAt};
ghost use Rattle.dirty_pages.specs.ChangesView.{written_over, written_before, is_free_in, Saves};

use super::Mark;
use crate::spares::Spares;
use crate::table::PageTable;
use mdc_values::Memory;

/// Leaves the first so many pages.
pub(super) fn cut(table: &mut PageTable, n: usize, spares: &mut Spares)
    ensures { table.new ≡ take n table.old }
{
    while table.len() > n {
        let Some((_, page)) = table.pop() else {
            unreachable!();
        };
        spares.give(page);
    }
}

/// Makes each page that was saved as it was.
pub(super) fn put_back(table: &mut PageTable, saved: &mut PageTable, spares: &mut Spares)
    requires { (p : ℕ) → IsSome (written_over saved.old p) → IsSome (written_over table.old p) }
    ensures back { (p : ℕ) → written_over table.new p ≡ written_before saved.old table.old p }
    ensures none { saved.new ≡ [] }
{
    while let Some((p, page)) = saved.pop() {
        let Some(place) = table.place_of(p) else {
            unreachable!();
        };
        spares.give(table.exchange(place, page));
    }
}

/// Sees to it that a page may be written over in its place.
pub(super) fn save(
    table: &PageTable,
    saved: &mut PageTable,
    mark: &Option<Mark>,
    spares: &mut Spares,
    p: u32,
    place: usize,
) -> Result<(), Memory>
    requires { LiesAt table.now p place }
    ensures free { OnOk result (is_free_in mark.now saved.new p place ≡ true) }
    ensures saved { Saves mark.now table.now p saved.old saved.new }
{
    if is_free(mark, saved, p, place) {
        return Ok(());
    }
    let page = spares.filled(table.at(place))?;
    saved.push(p, page)?;
    Ok(())
}

// Whether a page may be written over in its place: what it was at the mark is saved, or it wasn't written then.
pub(super) fn is_free(mark: &Option<Mark>, saved: &PageTable, p: u32, place: usize) -> bool
    ensures { result ≡ is_free_in mark.now saved.now p place }
{
    match mark {
        None => true,
        Some(mark) => mark.written <= place || saved.place_of(p).is_some(),
    }
}
