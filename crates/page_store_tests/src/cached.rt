// How often a page is read, which no clause says.
use crate::hosts::{host_of, small_database, times_called};
use crate::stores::with_fetches;
use mdc_outside::Call;
use std::test::Fail;

#[test]
fn the_page_that_was_used_longest_ago_leaves_the_cache(rt: HostRuntime) -> Result<(), Fail> {
    let alloc = rt.alloc();
    let file = small_database(alloc)?;
    // Eight pages twice, one more, and the first of them again.
    let pages = [5, 6, 7, 8, 9, 10, 11, 12, 5, 6, 7, 8, 9, 10, 11, 12, 13, 5];
    let host = with_fetches(alloc, host_of(alloc, &file, &[])?, &pages)?;
    for p in 5..14u64 {
        let reads = times_called(&host, 0, Call::Read((66 + p) * 4096));
        assert_eq!(rt; reads, if p == 5 { 2 } else { 1 }, "{p}");
    }
    Ok(())
}
