// A commit of one page.
ghost use Rattle.std.specs.Prelude.{◌≡◌, ◌<◌, length, false, None, OnOk};
ghost use Rattle.mdc_words.specs.Time.{OverTime};
ghost use Rattle.store_api.specs.Frame.{WritesPage, IsCounted};
ghost use Rattle.store_api.specs.Moments.{BaseOrNow};
ghost use Rattle.store_api.specs.Works.{Rests};

use store_api::{Page, Store, StoreFault, write_page};

/// Writes over a page, but for page 0, and commits. A crash within it leaves the base before, or the work after.
pub fn save<S: Store>(store: &mut S, p: u32, bytes: &Page) -> Result<(), StoreFault>
    requires going { (S.state store.old).ended ≡ false }
    requires unmarked { (S.state store.old).marked ≡ None }
    requires first { 0 < p }
    requires within { p < length (S.state store.old).work }
    requires counted { IsCounted S.Pages store.old }
    ensures saved { OnOk result ((S.state store.new).base ≡ (S.state store.new).work) }
    ensures puts { OnOk result (WritesPage S.Pages p bytes.now store.old store.new) }
    ensures crash { OverTime S.clock S.left (BaseOrNow (S.state store.old) (S.state store.new)) store.old store.new }
    ensures rests { Rests S.Pages store.old → Rests S.Pages store.new }
{
    write_page(store, p, bytes)?;
    store.prepare()?;
    store.commit()?;
    Ok(())
}
