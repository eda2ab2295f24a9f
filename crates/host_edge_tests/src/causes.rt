// Why a call failed is kept: of the last call of its kind that did.
use crate::counted_files::{Calls, CountedFiles, FILE_ERROR, LINK};
use host_edge::FileHost;
use mdc_outside::{Disk, Failed, Host};
use std::io::{Cursor, ErrorKind};
use std::test::Fail;

#[test]
fn why_a_call_of_the_disk_failed_is_kept(rt: HostRuntime) -> Result<(), Fail> {
    let calls = Calls::new();
    let files = CountedFiles { calls: &calls };
    let mut host = FileHost::new(rt.alloc(), files, Vec::new(rt.alloc()));
    assert!(rt; host.disk_error().is_none());
    assert_eq!(rt; host.attach("missing", false), Err(Failed));
    assert_eq!(rt;
        host.disk_error().map(|error| error.kind()),
        Some(ErrorKind::NotFound)
    );
    host.attach(LINK, false)?;
    calls.file_fails.set(true);
    assert_eq!(rt; host.sync(), Err(Failed));
    assert_eq!(rt;
        host.disk_error().map(|error| error.raw_os_error()),
        Some(Some(FILE_ERROR))
    );
    assert_eq!(rt; host.write(0, b"more"), Err(Failed), "the file is lost");
    assert_eq!(rt;
        host.disk_error().map(|error| error.raw_os_error()),
        Some(Some(FILE_ERROR))
    );
    Ok(())
}

#[test]
fn what_was_said_last_is_kept(rt: HostRuntime) -> Result<(), Fail> {
    let calls = Calls::new();
    let files = CountedFiles { calls: &calls };
    let mut host = FileHost::new(rt.alloc(), files, Cursor::new([0u8; 80]));
    host.say(b"NOT MADE\n")?;
    assert_eq!(rt; host.last_said(), b"NOT MADE\n".as_slice());
    host.say(&[b'x'; 65])?;
    assert_eq!(rt; host.last_said(), b"".as_slice(), "no line of a stop");
    assert!(rt; host.say_error().is_none());
    Ok(())
}
