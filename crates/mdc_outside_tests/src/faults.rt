// Calls fail where they are told to, and nowhere else.
use mdc_outside::{Failed, Host, MemHost, MemSource, Source};
use std::test::Fail;

// What reads answer, the third of them with room for one byte.
fn counts_read<I: Source>(source: &mut I) -> [Result<usize, Failed>; 5] {
    let mut out = [0u8; 5];
    let mut byte = [0u8];
    [
        source.read(&mut out),
        source.read(&mut out),
        source.read(&mut byte),
        source.read(&mut out),
        source.read(&mut out),
    ]
}

#[test]
fn a_source_gives_so_many_bytes_a_read(rt: HostRuntime) -> Result<(), Fail> {
    let alloc = rt.alloc();
    let mut source = MemSource::new(b"SELECT".to_vec(alloc)?, 4, [2].to_vec(alloc)?);
    let counts = counts_read(&mut source);
    assert_eq!(rt; counts, [Ok(4), Err(Failed), Ok(1), Ok(1), Ok(0)]);
    Ok(())
}

// Calls of each kind, one after another up to the first that fails, and how many were done.
fn calls_done<H: Host>(host: &mut H) -> u64 {
    if host.attach("table", true).is_err() {
        return 0;
    }
    if host.len().is_err() {
        return 1;
    }
    if host.write(0, b"").is_err() {
        return 2;
    }
    if host.read(0, &mut []).is_err() {
        return 3;
    }
    if host.sync().is_err() {
        return 4;
    }
    if host.say(b"OK").is_err() {
        return 5;
    }
    6
}

#[test]
fn a_host_fails_the_calls_that_it_is_told(rt: HostRuntime) -> Result<(), Fail> {
    let alloc = rt.alloc();
    for fails in 1..8 {
        let mut host = MemHost::new(alloc, None, [fails].to_vec(alloc)?);
        assert_eq!(rt; calls_done(&mut host), fails - 1);
    }
    Ok(())
}

// Whether the file is there before anyone makes it.
fn is_found<H: Host>(host: &mut H) -> bool {
    host.attach("any", false).is_ok()
}

#[test]
fn the_first_file_is_there_under_every_path(rt: HostRuntime) -> Result<(), Fail> {
    let alloc = rt.alloc();
    let mut host = MemHost::new(alloc, Some(b"old".to_vec(alloc)?), Vec::new(alloc));
    assert_eq!(rt; is_found(&mut host), true);
    Ok(())
}
