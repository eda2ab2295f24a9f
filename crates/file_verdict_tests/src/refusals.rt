// Files that can't be opened, and hosts whose calls fail.
use crate::files::{Said, broken, host_of, judged, said_of, two_tables, with_bytes, with_patches};
use file_verdict::Unjudged;
use script_engine_tests::bytes_at;
use std::alloc::Global;
use std::process::Abort;
use std::test::Fail;

// What is said of the first bytes of a file.
fn said_of_cut(alloc: Global, file: &[u8], end: usize) -> Result<Said, Fail> {
    said_of(alloc, file.get(..end).unwrap_or_default())
}

// The file has 66 file pages before its own 34.
#[test]
fn the_first_page_that_is_cut_off_is_named(rt: HostRuntime) -> Result<(), Fail> {
    let alloc = rt.alloc();
    let file = two_tables(alloc)?;
    assert_eq!(rt; said_of_cut(alloc, &file, 83 * 4096)?, broken(1, 17));
    assert_eq!(rt; said_of_cut(alloc, &file, 84 * 4096 - 1)?, broken(1, 17));
    assert_eq!(rt; said_of_cut(alloc, &file, 2 * 4096)?, broken(1, 0));
    assert_eq!(rt;
        said_of_cut(alloc, &file, 2 * 4096 - 1)?,
        Err(Unjudged::Unmade)
    );
    assert_eq!(rt; said_of_cut(alloc, &file, 0)?, Err(Unjudged::Unmade));
    Ok(())
}

#[test]
fn a_file_that_is_no_database_of_this_version_is_told(rt: HostRuntime) -> Result<(), Fail> {
    let alloc = rt.alloc();
    let file = two_tables(alloc)?;
    let unmade = with_bytes(alloc, &file, 0, b"\x00")?;
    assert_eq!(rt; said_of(alloc, &unmade)?, Err(Unjudged::Unmade));
    let other = with_bytes(alloc, &file, 4096, b"X")?;
    assert_eq!(rt; said_of(alloc, &other)?, Err(Unjudged::NotMdc));
    let later = with_patches(alloc, &file, &[bytes_at(0, 7, b"\x02")])?;
    assert_eq!(rt; said_of(alloc, &later)?, Err(Unjudged::Version(2)));
    let no_root = with_patches(alloc, &file, &[bytes_at(0, 3, b"U")])?;
    assert_eq!(rt; said_of(alloc, &no_root)?, broken(1, 0));
    Ok(())
}

// There is no verdict where a call of the disk fails. The first call attaches the file.
fn fault_in_each_call(rt: &(impl Abort + AllocGlobal), file: &[u8]) -> Result<(), Fail> {
    let alloc = rt.alloc();
    let (_, host) = judged(alloc, host_of(alloc, file, &[])?)?;
    for n in 1..host.calls() {
        let (said, _) = judged(alloc, host_of(alloc, file, &[n + 1])?)?;
        assert_eq!(rt; said, Err(Unjudged::Device), "{n}");
    }
    Ok(())
}

#[test]
fn each_call_of_a_check_fails(rt: HostRuntime) -> Result<(), Fail> {
    let file = two_tables(rt.alloc())?;
    fault_in_each_call(&rt, &file)
}
