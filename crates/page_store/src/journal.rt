// The journal of a file that is opened.
ghost use Rattle.std.specs.Prelude.{◌≡◌, ◌↔◌, ◌<◌, List, ℕ, IsTrue};
ghost use Rattle.std.specs.List.{All};
ghost use Rattle.page_store.specs.Standing.{counted, image_of};
ghost use Rattle.page_store.specs.Reading.{IsJournalIn, IsBehind};

use page_file::FIRST_PAGE;
use redo_journal::{Images, LentImages};
use store_api::Page;

/// A journal that counts: the file page at which it starts, and its images.
#[derive(Debug, Drop)]
pub(crate) struct Journal {
    pub start: u32,
    pub images: Images,
}

/// Whether a journal, where there is one, lies behind so many pages and names them alone.
pub(crate) fn is_behind(journal: &Option<Journal>, count: u32) -> bool
    ensures { IsTrue result ↔ IsBehind journal.now count }
{
    match journal {
        None => true,
        Some(journal) => u64::from(journal.start) >= FIRST_PAGE + u64::from(count)
            && are_below(&journal.images.lend(), count),
    }
}

// Whether all images are of pages below this one.
fn are_below(images: &LentImages<'_>, count: u32) -> bool
    ensures { IsTrue result ↔ All (λ image. image.0 < count) images.now }
{
    for i in 0..images.len() {
        let (number, _) = images.at(i);
        if number >= count {
            return false;
        }
    }
    true
}

/// The image of page 0, where a journal has one.
pub(crate) fn root_image(journal: &Option<Journal>) -> Option<Page>
    ensures { (file : List ℕ) → IsJournalIn journal.now file → result ≡ image_of (counted file) 0 }
{
    match journal {
        None => None,
        Some(journal) => first_image(&journal.images.lend()),
    }
}

// The image of page 0. Their numbers rise, so it is the first one.
fn first_image(images: &LentImages<'_>) -> Option<Page>
    ensures { result ≡ image_of images.now 0 }
{
    if images.len() == 0 {
        return None;
    }
    let (number, page) = images.at(0);
    if number == 0 { Some(*page) } else { None }
}
