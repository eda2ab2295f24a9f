// What a store in memory keeps for going back.
ghost use Rattle.std.specs.Prelude.{◌≡◌, ◌<◌, ◌≤◌, ◌==◌, IfSome, length, min, take, position, vec_len};
ghost use Rattle.store_api.specs.History.{at_mark};

use crate::Page;

/// A page that was written over.
#[derive(Clone, Copy, Debug)]
pub(crate) struct Change {
    pub(crate) page: usize,
    pub(crate) was: Page,
}

/// How many changes and how many pages there were.
#[derive(Clone, Copy, Debug)]
pub(crate) struct Mark {
    pub(crate) changes: usize,
    pub(crate) count: usize,
}

/// Takes the pages back to the mark, and drops the changes since.
pub(crate) fn go_back(pages: &mut Vec<Page>, changes: &mut Vec<Change>, mark: Mark)
    requires { mark.changes ≤ vec_len changes.old }
    ensures pages { pages.new.items ≡ at_mark mark changes.old.items pages.old.items }
    ensures changes { changes.new.items ≡ take mark.changes changes.old.items }
    ensures count { vec_len pages.new ≡ min mark.count (vec_len pages.old) }
    ensures changes_len { vec_len changes.new ≡ mark.changes }
{
    pages.truncate(mark.count);
    while changes.len() > mark.changes {
        let Some(change) = changes.pop() else {
            unreachable!();
        };
        let was = change.was;
        // A page that was added since the mark is gone.
        if change.page < pages.len() {
            pages[change.page] = was;
        }
    }
}

/// Where the oldest change of a page is.
pub(crate) fn oldest_change(changes: &[Change], page: usize) -> Option<usize>
    ensures place { result ≡ position (λ change. change.page == page) changes.now }
    ensures within { IfSome result (λ at. at < length changes.now) }
{
    changes.iter().position(|change| change.page == page)
}
