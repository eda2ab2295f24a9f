// Whether a file can be served, by what was read of it.
ghost use Rattle.std.specs.Prelude.{◌≡◌, ◌≤◌, ◌<◌, ◌+◌, ◌-◌, ◌/◌, ℕ, List, IfOk, IfErr, MatchOption, MatchResult};
ghost use Rattle.page_store.specs.Faults.{IsUnserved};
ghost use Rattle.page_store.specs.Opening.{IsServed, Refuses};
ghost use Rattle.page_store.specs.Reading.{WasRead};
ghost use Rattle.page_store.specs.Standing.{count_of};
ghost use Rattle.page_file.specs.Layout.{home_start};
ghost use Rattle.page_file.specs.declared.layout.TheConstants.{FIRST_PAGE, PAGE_BYTES};
ghost use Rattle.store_api.specs.declared.pages.TheConstants.{MAX_PAGES};

use crate::OpenFault;
use crate::journal::{Journal, is_behind};
use crate::root::{count_in, version_in};
use page_file::{FIRST_PAGE, PAGE_BYTES};
use store_api::layout::VERSION;
use store_api::rules::ROOT_PAGE_RULE;
use store_api::{Damage, Page, Shape};

/// The page count of a file of so many bytes, or why it can't be served.
pub(crate) fn judge(
    end: u64,
    shape: Shape,
    journal: &Option<Journal>,
    root: &Page,
) -> Result<u32, OpenFault>
    ensures judged { (file : List ℕ) → WasRead end shape.extents shape.extent_pages journal.now root.now file → MatchResult result (λ count. IsServed file × (count_of file ≡ count)) (λ fault. Refuses fault file) }
    ensures limits { IfOk result (λ count. (18 ≤ count) × (count ≤ MAX_PAGES)) }
    ensures unserved { IfErr result IsUnserved }
{
    let Some(count) = count_in(root, shape) else {
        return Err(damaged(0));
    };
    if !is_behind(journal, count) {
        return Err(damaged(0));
    }
    if let Some(page) = first_missing(end, count) {
        return Err(damaged(page));
    }
    let version = version_in(root);
    if version != VERSION {
        return Err(OpenFault::Version(version));
    }
    Ok(count)
}

// The first page that isn't whole in a file of so many bytes.
fn first_missing(end: u64, count: u32) -> Option<u32>
    requires { count ≤ MAX_PAGES }
    ensures { MatchOption result (home_start count ≤ end) (λ page. (end < home_start count) × (page ≡ end / PAGE_BYTES - FIRST_PAGE)) }
{
    let whole = end / PAGE_BYTES;
    if whole >= FIRST_PAGE + u64::from(count) {
        return None;
    }
    Some(whole.saturating_sub(FIRST_PAGE) as u32)
}

/// A page of which something is missing, or which hasn't its form.
pub(crate) fn damaged(page: u32) -> OpenFault
    ensures { result ≡ OpenFault.Damaged (record { page = page; rule = 1 }) }
{
    OpenFault::Damaged(Damage {
        page,
        rule: ROOT_PAGE_RULE,
    })
}
