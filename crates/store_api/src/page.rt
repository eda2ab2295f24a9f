// What a page holds.
ghost use Rattle.std.specs.Prelude.{◌≡◌, ◌+◌, ◌≤◌, length};
ghost use Rattle.store_api.specs.StoreState.{patched, stated_in, zero_page};

use crate::Page;

static ZEROS: Page = [0; 4096];

/// Lends a page of zeros.
#[tactic(auto, unfolding(crate::specs::StoreState::zero_page))]
pub fn blank_page() -> &'static Page
    ensures { result.now ≡ zero_page }
{
    &ZEROS
}

/// The page count that a page 0 states: the number in its bytes 8 to 11, of which the first is the highest. `prepare`
/// requires that it is the number of pages.
pub fn stated_count(page: &Page) -> u32
    ensures { result ≡ stated_in page.now }
{
    u32::from_be_bytes([page[8], page[9], page[10], page[11]])
}

/// Writes bytes over those of a page from a place on.
pub fn put(page: &mut Page, at: usize, bytes: &[u8])
    requires { at + length bytes.now ≤ 4096 }
    ensures { page.new ≡ patched at bytes.now page.old }
{
    page[at..at + bytes.len()].copy_from_slice(bytes);
}
