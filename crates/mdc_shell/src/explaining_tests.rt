// What is said of each stop.
use crate::explaining::explain;
use crate::status::Status;
use host_edge::{FileHost, StdinSource};
use mdc_outside::{Disk, Failed, Host, Source};
use std::alloc::Global;
use std::io::{self, Cursor, Read};
use std::test::Fail;

// A reader that fails.
#[derive(Drop)]
struct Unreadable;

impl Read for Unreadable {
    fn read(&mut self, _out: &mut [u8]) -> io::Result<usize> {
        Err(io::Error::from_raw_os_error(5))
    }
}

// The words `run FILE`.
fn words_of_run(alloc: Global, file: &str) -> Result<Vec<String>, Fail> {
    let mut words = Vec::new(alloc);
    words.push(String::from_str(alloc, "run")?)?;
    words.push(String::from_str(alloc, file)?)?;
    Ok(words)
}

#[test]
fn each_stop_has_its_line(rt: HostRuntime) -> Result<(), Fail> {
    let words = words_of_run(rt.alloc(), "/no/file")?;
    let mut input = StdinSource::new(Unreadable);
    let mut host = FileHost::new(rt.alloc(), rt.clone()?, Cursor::new([0u8; 4]));
    assert_eq!(rt; host.attach("/no/file", false), Err(Failed));
    assert_eq!(rt; host.say(b"NOT MADE\n"), Err(Failed));
    assert_eq!(rt; input.read(&mut [0u8; 4]), Err(Failed));
    for (status, line) in [
        (0, ""),
        (1, ""),
        (2, ""),
        (3, "mdc: /no/file: No such file or directory\n"),
        (4, "mdc: standard input: Input/output error\n"),
        (5, "mdc: standard output: failed to write whole buffer\n"),
        (6, "mdc: /no/file: NOT MADE\n"),
        (7, "mdc: standard input: more than 67108864 bytes\n"),
        (8, "mdc: out of memory\n"),
        (9, "mdc: /no/file: NOT MADE\n"),
    ] {
        let mut errors = Vec::new(rt.alloc());
        explain(&mut errors, Status(status), &words, &host, &input)?;
        assert_eq!(rt; errors.as_slice(), line.as_bytes(), "at status {status}");
    }
    Ok(())
}

#[test]
fn the_scratch_file_has_a_name(rt: HostRuntime) -> Result<(), Fail> {
    let words = words_of_run(rt.alloc(), "-")?;
    let input = StdinSource::new(Unreadable);
    let mut host = FileHost::new(rt.alloc(), rt.clone()?, Vec::new(rt.alloc()));
    assert_eq!(rt; host.attach("-", false), Err(Failed));
    let mut errors = Vec::new(rt.alloc());
    explain(&mut errors, Status::DISK_FAILED, &words, &host, &input)?;
    assert_eq!(rt;
        errors.as_slice(),
        b"mdc: scratch file: entity not found\n".as_slice()
    );
    Ok(())
}
