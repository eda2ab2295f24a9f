// A sync reaches the file and the folder of its name, writes nothing, and ends the file where it fails. A write puts all of its
// bytes.
use crate::counted_files::{Calls, CountedFiles, LINK};
use crate::disks::write_greeting;
use host_edge::FileHost;
use mdc_outside::{Disk, Failed};
use std::test::Fail;

#[test]
fn a_sync_reaches_the_file_and_the_folder_of_its_name(rt: HostRuntime) -> Result<(), Fail> {
    let calls = Calls::new();
    let files = CountedFiles { calls: &calls };
    let mut host = FileHost::new(rt.alloc(), files, Vec::new(rt.alloc()));
    assert_eq!(rt; host.attach(LINK, false), Ok(()));
    assert_eq!(rt; calls.folder_syncs.get(), 0, "nothing is made");
    assert_eq!(rt; write_greeting(&mut host, LINK), Ok(()));
    assert_eq!(rt; calls.folder_syncs.get(), 1);
    assert_eq!(rt; calls.file_syncs.get(), 1);
    assert_eq!(rt;
        &calls.bytes.get(),
        b"hello there!\0\0\0\0",
        "a write takes four bytes at most"
    );
    Ok(())
}

#[test]
fn an_opening_and_its_syncs_write_nothing(rt: HostRuntime) -> Result<(), Fail> {
    let calls = Calls::new();
    let files = CountedFiles { calls: &calls };
    let mut host = FileHost::new(rt.alloc(), files, Vec::new(rt.alloc()));
    host.attach(LINK, false)?;
    host.sync()?;
    host.sync()?;
    assert_eq!(rt; (calls.file_syncs.get(), calls.writes.get()), (2, 0));
    Ok(())
}

#[test]
fn a_folder_that_cannot_be_synced_fails_the_making(rt: HostRuntime) -> Result<(), Fail> {
    let calls = Calls::new();
    calls.folder_fails.set(true);
    let files = CountedFiles { calls: &calls };
    let mut host = FileHost::new(rt.alloc(), files, Vec::new(rt.alloc()));
    assert_eq!(rt; host.attach(LINK, true), Err(Failed));
    assert_eq!(rt; host.attach(LINK, false), Ok(()), "nothing is made");
    Ok(())
}

#[test]
fn a_file_on_which_a_sync_failed_takes_no_further_call(rt: HostRuntime) -> Result<(), Fail> {
    let calls = Calls::new();
    let files = CountedFiles { calls: &calls };
    let mut host = FileHost::new(rt.alloc(), files, Vec::new(rt.alloc()));
    host.attach(LINK, false)?;
    calls.file_fails.set(true);
    assert_eq!(rt; host.sync(), Err(Failed));
    calls.file_fails.set(false);
    assert_eq!(rt; host.write(0, b"more"), Err(Failed));
    assert_eq!(rt; calls.writes.get(), 0);
    assert_eq!(rt; host.attach(LINK, false), Err(Failed), "attached again");
    Ok(())
}
