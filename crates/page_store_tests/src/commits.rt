// A commit: how many calls it makes, and what a fault and a crash in each of them leaves.
use crate::hosts::{FILLS, crashed, host_of, small_database, sync_behind, times_called};
use crate::stores::{
    byte_in, page_five, sizes_of, with_growth, with_nothing_new, with_sevens, with_sevens_ready,
    with_told,
};
use crate::work::PageFive;
use mdc_outside::{Call, MemHost};
use std::alloc::Global;
use std::test::Fail;

/// A host on which page 5 of a small database was filled with sevens and committed, and where the calls of the commit
/// begin.
fn committed(alloc: Global, file: &[u8]) -> Result<(MemHost, u64), Fail> {
    let ready = with_sevens_ready(alloc, host_of(alloc, file, &[])?)?;
    let (_, host) = with_sevens(alloc, host_of(alloc, file, &[])?)?;
    Ok((host, ready.calls()))
}

#[test]
fn a_commit_has_four_syncs_and_one_of_no_page_no_call(rt: HostRuntime) -> Result<(), Fail> {
    let alloc = rt.alloc();
    let file = small_database(alloc)?;
    let (host, begun) = committed(alloc, &file)?;
    assert_eq!(rt; times_called(&host, begun, Call::Sync), 4);
    let host = with_nothing_new(alloc, host_of(alloc, &file, &[])?)?;
    // The one sync is that of the opening.
    assert_eq!(rt; times_called(&host, 0, Call::Sync), 1);
    Ok(())
}

#[test]
fn a_crash_leaves_the_base_or_the_work(rt: HostRuntime) -> Result<(), Fail> {
    let alloc = rt.alloc();
    let file = small_database(alloc)?;
    let (host, begun) = committed(alloc, &file)?;
    let gate = sync_behind(&host, begun, 2)?;
    for n in begun..host.calls() {
        for fill in FILLS {
            let byte = byte_in(alloc, crashed(alloc, &host, n + 1, fill)?, 5)?;
            assert!(rt; byte == 7 || (byte == 0 && n < gate), "{n} {fill:?}");
        }
    }
    Ok(())
}

#[test]
fn each_call_of_a_commit_fails(rt: HostRuntime) -> Result<(), Fail> {
    let alloc = rt.alloc();
    let file = small_database(alloc)?;
    let (host, begun) = committed(alloc, &file)?;
    let gate = sync_behind(&host, begun, 2)?;
    for n in begun..host.calls() {
        let (is_done, left) = with_sevens(alloc, host_of(alloc, &file, &[n + 1])?)?;
        assert!(rt; !is_done, "{n}");
        let byte = byte_in(alloc, left, 5)?;
        assert_eq!(rt; byte, if n + 1 < gate { 0 } else { 7 }, "{n}");
    }
    Ok(())
}

#[test]
fn a_store_goes_back_grows_and_tells(rt: HostRuntime) -> Result<(), Fail> {
    let alloc = rt.alloc();
    let file = small_database(alloc)?;
    let wanted = PageFive {
        written: 2,
        undone: 1,
        kept: 3,
        in_base: 0,
        rolled_back: 0,
    };
    assert_eq!(rt; page_five(alloc, host_of(alloc, &file, &[])?)?, wanted);
    let host = with_growth(alloc, host_of(alloc, &file, &[])?)?;
    let (sizes, host) = sizes_of(alloc, host);
    assert_eq!(rt; sizes, Ok((16, 2, 20)));
    assert_eq!(rt; byte_in(alloc, host, 19)?, 0);
    let host = with_told(alloc, host_of(alloc, &file, &[])?, b"OK\n")?;
    assert_eq!(rt; host.said(), b"OK\n".as_slice());
    Ok(())
}
