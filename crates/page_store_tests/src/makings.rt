// A database that is made: its bytes, and what faults and crashes leave of it.
use crate::hosts::{FILLS, blank, crashed, file_of, host_of, make_small, small_database};
use crate::stores::sizes_of;
use host_edge::FileHost;
use page_store::OpenFault;
use std::test::Fail;
use std::{env, fs, process};

/// Places in a small database, and the bytes that stand from there on: the made byte and shut gates, the birth page with
/// 16 extents of 2 pages, and the root page of version 1 with 18 pages.
const FORMAT: [(usize, &[u8]); 3] = [
    (0, b"\x4d\0\0\0\0\0\0\0\0\0\0\0\0\0\0\0"),
    (4096, b"MDCTABLE\0\0\0\x10\0\0\0\x02"),
    (66 * 4096, b"ROOT\0\0\0\x01\0\0\0\x12\0\0\0\0"),
];

#[test]
fn a_database_has_its_bytes_where_the_format_says(rt: HostRuntime) -> Result<(), Fail> {
    let file = small_database(rt.alloc())?;
    assert_eq!(rt; file.len(), 344_064);
    for (at, bytes) in FORMAT {
        assert!(rt; file.get(at..at + 16) == Some(bytes), "{at}");
    }
    Ok(())
}

#[test]
fn a_file_is_made_once(rt: HostRuntime) -> Result<(), Fail> {
    let alloc = rt.alloc();
    let mut host = host_of(alloc, b"?", &[])?;
    assert_eq!(rt; make_small(&mut host, "table"), Err(OpenFault::Exists));
    assert_eq!(rt; file_of(alloc, &mut host)?.as_slice(), b"?".as_slice());
    Ok(())
}

#[test]
fn a_real_file_has_the_same_bytes(rt: HostRuntime) -> Result<(), Fail> {
    let alloc = rt.alloc();
    let name = format!(in alloc; "page-store-{}", process::id(rt.process()))?;
    let folder = env::temp_dir(&rt)?.join(alloc, name.as_str())?;
    fs::create_dir(&rt, folder.as_path())?;
    let path = folder.join(alloc, "data")?;
    let mut host = FileHost::new(alloc, rt.clone()?, Vec::new(alloc));
    make_small(&mut host, path.as_str())?;
    let written = fs::read(&rt, path.as_path())?;
    fs::remove_file(&rt, path.as_path())?;
    fs::remove_dir(&rt, folder.as_path())?;
    assert_eq!(rt;
        written.as_slice() == small_database(alloc)?.as_slice(),
        true
    );
    Ok(())
}

#[test]
fn each_call_of_a_making_fails(rt: HostRuntime) -> Result<(), Fail> {
    let alloc = rt.alloc();
    let mut host = blank(alloc, &[])?;
    assert_eq!(rt; make_small(&mut host, "table"), Ok(()));
    let calls = host.calls();
    for call in 0..calls {
        let mut host = blank(alloc, &[call + 1])?;
        let outcome = make_small(&mut host, "table");
        assert_eq!(rt; outcome, Err(OpenFault::Device), "{call}");
    }
    Ok(())
}

// The last two calls write the made byte and have it on the disk. A byte of a torn write may be a made byte.
#[test]
fn a_making_that_is_cut_off_leaves_no_database_or_the_whole(rt: HostRuntime) -> Result<(), Fail> {
    let alloc = rt.alloc();
    let mut host = blank(alloc, &[])?;
    assert_eq!(rt; make_small(&mut host, "table"), Ok(()));
    let calls = host.calls();
    for call in 1..calls {
        for fill in FILLS {
            let is_made = call + 2 >= calls && (fill.is_none() || fill == Some(0x4d));
            let (sizes, _) = sizes_of(alloc, crashed(alloc, &host, call + 1, fill)?);
            let wanted = if is_made {
                Ok((16, 2, 18))
            } else {
                Err(OpenFault::Unmade)
            };
            assert_eq!(rt; sizes, wanted, "{call} {fill:?}");
        }
    }
    Ok(())
}
