// Rule 5: the pages of trees.
ghost use Rattle.std.specs.Prelude.{◌≡◌, ◌<◌, ◌+◌, ◌^◌, slice_index, false, IfOk, IsTrue, MatchOption};
ghost use Rattle.mdc_ast.specs.Definitions.{Definitions};
ghost use Rattle.store_api.specs.Causes.{fault_of};
ghost use Rattle.store_api.specs.Frame.{NoPage};
ghost use Rattle.store_api.specs.RunsOverPages.{RunsOverPages};
ghost use Rattle.extent_map.specs.declared.kind.Kind.{Kind};
ghost use Rattle.mdc_sound.specs.SpaceRules.{AreTreePagesSound, DatabaseView};
ghost use Rattle.file_check.specs.Judging.{JudgesRule};
ghost use Rattle.file_check.specs.Known.{AreTimesInTrees, ViewHasTrees};
ghost use Rattle.file_check.specs.Looking.{AnyPage, Unless};
ghost use Rattle.file_check.specs.TreesJudged.{AreTimesDue, IsLowestUndue, due_times};

use extent_map::{Kind, first_page, kind_of};
use store_api::{Pages, Shape, StoreFault};

/// An extent has no more pages than that.
const MOST_PAGES: u32 = 32;

/// Judges the pages of trees, of which it is told in how many trees each page is: a used index page is in one, and any other page
/// in none. Else the lowest page that isn't so.
pub(crate) fn judge_tree_pages<P: Pages>(
    shape: Shape,
    pages: &mut P,
    times: &[u16],
) -> Result<Option<u32>, StoreFault>
    requires going { (P.state pages.old).ended ≡ false }
    ensures judged { IfOk result (λ found. IsTrue (P.state pages.old).is_told → (defs : Definitions) (view : DatabaseView) → ViewHasTrees shape (P.state pages.old).work defs view
        → AreTimesInTrees (P.state pages.old).work view times.now → JudgesRule shape (P.state pages.old).work 5 (AreTreePagesSound shape view) found) }
    ensures same { (P.state pages.new).work ≡ (P.state pages.old).work }
    ensures runs { RunsOverPages P.Pages NoPage AnyPage
        (Unless P.Pages pages.old (λ told. (defs : Definitions) × (view : DatabaseView) × ViewHasTrees shape told defs view)) pages.old pages.new (fault_of result) }
{
    // Those ahead of the extents are to be in no tree, as those of an extent that is free.
    let begin = first_page(shape, 0);
    let ahead = undue_page(Kind::Free, times, 0, begin);
    if ahead.is_some() {
        return Ok(ahead);
    }
    for e in 0..shape.extents {
        let kind = kind_of(shape, pages, e)?;
        let undue = undue_page(kind, times, first_page(shape, e), shape.extent_pages);
        if undue.is_some() {
            return Ok(undue);
        }
    }
    Ok(None)
}

/// The lowest of n pages from a first one on that isn't in as many trees as it is to be in, where they are those of an extent of a
/// kind.
fn undue_page(kind: Kind, times: &[u16], first: u32, n: u32) -> Option<u32>
    requires { first + n < 2 ^ 32 }
    ensures { MatchOption result (AreTimesDue kind times.now first n) (IsLowestUndue kind times.now first n) }
{
    for place in 0..n {
        if times_of(times, first + place) != due_times(kind, place) {
            return Some(first + place);
        }
    }
    None
}

/// In how many trees a page is.
fn times_of(times: &[u16], page: u32) -> u16
    ensures { result ≡ slice_index times.now page }
{
    let page = page as usize;
    if page < times.len() { times[page] } else { 0 }
}

/// In how many trees the page at a place of an extent is to be.
fn due_times(kind: Kind, place: u32) -> u16
    ensures { result ≡ due_times kind place }
{
    match kind {
        Kind::Index(used) => due_in_index(used, place),
        Kind::Free => 0,
        Kind::Block(_) => 0,
    }
}

/// The same of an index extent with these pages used.
fn due_in_index(used: u32, place: u32) -> u16
    ensures { result ≡ due_times (Kind.Index used) place }
{
    if place >= MOST_PAGES {
        return 0;
    }
    u16::from(used >> place & 1 == 1)
}
