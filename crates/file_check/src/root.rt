// Rule 1: the root page, and the number of pages.
ghost use Rattle.std.specs.Prelude.{◌≡◌, ◌↔◌, ◌∷◌, [], ◌++◌, length, false, IfOk, IsTrue};
ghost use Rattle.byteorder.specs.Endian.{big_bytes};
ghost use Rattle.store_api.specs.Causes.{fault_of};
ghost use Rattle.store_api.specs.Format.{first_format};
ghost use Rattle.store_api.specs.Frame.{NoPage};
ghost use Rattle.store_api.specs.RunsOverPages.{RunsOverPages};
ghost use Rattle.store_api.specs.StoreState.{page_at};
ghost use Rattle.table_trees.specs.ToldPages.{PageList};
ghost use Rattle.mdc_sound.specs.Breaks.{IsWholeOf};
ghost use Rattle.mdc_sound.specs.SpaceRules.{IsRootSound, stated_root};
ghost use Rattle.file_check.specs.Judging.{JudgesRule};
ghost use Rattle.file_check.specs.Looking.{AnyPage, UnlessTold};

use extent_map::first_page;
use store_api::layout::{ROOT_PAGE, VERSION};
use store_api::{Page, Pages, Shape, StoreFault, blank_page, bring, stated_count};

/// How many bytes of the root page say something: `ROOT`, the version and the page count.
const ROOT_BYTES: usize = 12;

/// Judges the root page: None where it states how many pages there are, which some number of whole extents make; else page 0, or
/// the first page that it counts and that isn't there.
pub(crate) fn judge_root<P: Pages>(shape: Shape, pages: &mut P) -> Result<Option<u32>, StoreFault>
    requires going { (P.state pages.old).ended ≡ false }
    ensures judged { IfOk result (λ found. IsTrue (P.state pages.old).is_told
        → JudgesRule shape (P.state pages.old).work 1 (IsRootSound shape (P.state pages.old).work) found) }
    ensures same { (P.state pages.new).work ≡ (P.state pages.old).work }
    ensures runs { RunsOverPages P.Pages NoPage AnyPage (UnlessTold P.Pages pages.old) pages.old pages.new (fault_of result) }
{
    let count = pages.count();
    if count == 0 {
        return Ok(Some(ROOT_PAGE));
    }
    bring(pages, ROOT_PAGE)?;
    Ok(judge_root_page(shape, pages.page(), count))
}

/// The same by the bytes of the root page and the number of pages that there are.
fn judge_root_page(shape: Shape, page: &Page, count: u32) -> Option<u32>
    ensures { (pages : PageList) → length pages ≡ count → page_at pages 0 ≡ page.now → JudgesRule shape pages 1 (IsRootSound shape pages) result }
{
    let stated = stated_count(page);
    if stated < count {
        return Some(ROOT_PAGE);
    }
    if !is_whole(shape, stated) {
        return Some(ROOT_PAGE);
    }
    if !is_root_page(page, stated) {
        return Some(ROOT_PAGE);
    }
    if stated > count {
        return Some(count);
    }
    None
}

/// Whether so many pages are those before the extents and some number of whole extents.
fn is_whole(shape: Shape, count: u32) -> bool
    ensures { IsTrue result ↔ IsWholeOf shape count }
{
    let first = first_page(shape, 0);
    if count < first {
        return false;
    }
    let behind = count - first;
    if behind % shape.extent_pages != 0 {
        return false;
    }
    behind / shape.extent_pages <= shape.extents
}

/// Whether a page is the root page of so many pages.
fn is_root_page(page: &Page, count: u32) -> bool
    ensures { IsTrue result ↔ (page.now ≡ stated_root count) }
{
    let head = root_head(count);
    page[..ROOT_BYTES] == head[..] && page[ROOT_BYTES..] == blank_page()[ROOT_BYTES..]
}

/// What the root page of so many pages says.
fn root_head(count: u32) -> [u8; 12]
    ensures { result ≡ (82 ∷ 79 ∷ 79 ∷ 84 ∷ []) ++ big_bytes 4 first_format.version ++ big_bytes 4 count }
{
    let version = VERSION.to_be_bytes();
    let stated = count.to_be_bytes();
    [
        b'R', b'O', b'O', b'T', version[0], version[1], version[2], version[3], stated[0],
        stated[1], stated[2], stated[3],
    ]
}
