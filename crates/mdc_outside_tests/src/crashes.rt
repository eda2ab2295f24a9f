// What a crash within each call of a host in memory leaves.
ghost use Rattle.std.specs.Prelude.{IsTrue};

use mdc_outside::{Call, Failed, Host, MemHost};
use std::alloc::Global;
use std::test::Fail;

// What a crash within a call of the script below leaves: with what was written, with a fill, and the tape.
const CRASHES: [(u64, &[u8], &[u8], &[u8]); 10] = [
    (1, b"", b"", b""),
    (2, b"", b"", b""),
    (3, b"abc", b"OOO", b""),
    (4, b"abc", b"OOO", b""),
    (5, b"abc", b"abc", b""),
    (6, b"abXYZ", b"abOOO", b""),
    (7, b"abXYZ", b"abOOO", b""),
    (8, b"abXYZ", b"abOOO", b"OK"),
    (9, b"QbXYZ", b"ObOOO", b"OK"),
    (10, b"QbXYZ", b"ObOOO", b"OK"),
];

// Writes where the file goes so far. It asks for the length first.
fn put<H: Host>(host: &mut H, at: u64, bytes: &[u8]) -> Result<(), Failed>
    requires { IsTrue (H.is_attached host.old) }
    ensures { IsTrue (H.is_attached host.new) }
{
    if host.len()? < at {
        return Err(Failed);
    }
    host.write(at, bytes)
}

// Attach, length and write, sync, length and write, a reply, length and a write that fails, a reply.
fn scripted<H: Host>(host: &mut H) -> Result<(), Failed> {
    host.attach("table", true)?;
    put(host, 0, b"abc")?;
    host.sync()?;
    put(host, 2, b"XYZ")?;
    host.say(b"OK")?;
    if put(host, 0, b"Q").is_err() {
        host.say(b"end")?;
    }
    Ok(())
}

// All bytes of the file, which is attached first.
fn contents<H: Host>(alloc: Global, host: &mut H) -> Result<Vec<u8>, Fail> {
    host.attach("table", true)?;
    let length = host.len()?;
    let mut bytes = vec![in alloc; 0u8; length as usize]?;
    host.read(0, &mut bytes)?;
    Ok(bytes)
}

// The file and the tape that a crash within a call leaves.
fn crashed(
    alloc: Global,
    host: &MemHost,
    call: u64,
    fill: Option<u8>,
) -> Result<(Vec<u8>, Vec<u8>), Fail> {
    if call < 1 || call > host.calls() {
        return Err(Failed)?;
    }
    let mut left = host.after(alloc, call, fill)?;
    let tape = left.said().to_vec(alloc)?;
    Ok((contents(alloc, &mut left)?, tape))
}

// Which call of the host this is, if it is one.
fn kind(host: &MemHost, call: u64) -> Option<Call> {
    if call < 1 || call > host.calls() {
        return None;
    }
    Some(host.call(call))
}

// Whether a crash within the call leaves this.
fn is_left(
    alloc: Global,
    host: &MemHost,
    call: u64,
    written: &[u8],
    filled: &[u8],
    tape: &[u8],
) -> Result<bool, Fail> {
    let kept = crashed(alloc, host, call, None)?;
    let torn = crashed(alloc, host, call, Some(0x4f))?;
    Ok(kept.0.as_slice() == written && torn.0.as_slice() == filled && kept.1.as_slice() == tape)
}

#[test]
fn a_crash_within_each_call(rt: HostRuntime) -> Result<(), Fail> {
    let alloc = rt.alloc();
    let mut host = MemHost::new(alloc, None, [9].to_vec(alloc)?);
    assert_eq!(rt; scripted(&mut host), Ok(()));
    assert_eq!(rt; kind(&host, 9), Some(Call::Write(0)));
    assert_eq!(rt; kind(&host, 11), None);
    for (call, written, filled, tape) in CRASHES {
        assert!(rt;
            is_left(alloc, &host, call, written, filled, tape)?,
            "in {call}"
        );
    }
    Ok(())
}
