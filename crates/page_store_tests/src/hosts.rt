// Hosts in memory with a file, and what can be seen of them.
use mdc_outside::{Call, Host, MemHost};
use page_store::{OpenFault, make};
use std::alloc::Global;
use std::test::Fail;

/// What a host isn't asked for.
#[derive(Clone, Copy, Debug)]
pub struct NoSuchCall;

/// What the bytes hold that a crash tears: what was written, or this byte. An open gate and a made byte are among them.
pub static FILLS: [Option<u8>; 5] = [None, Some(0x00), Some(0x4f), Some(0x4d), Some(0xff)];

/// Makes a database of 16 extents of two pages in the file at a path.
pub fn make_small<H: Host>(host: &mut H, path: &str) -> Result<(), OpenFault> {
    host.attach(path, true)?;
    make(host, 16, 2)
}

/// The bytes of the file of a host.
pub fn file_of<H: Host>(alloc: Global, host: &mut H) -> Result<Vec<u8>, Fail> {
    host.attach("table", false)?;
    let end = host.len()?;
    let mut bytes = vec![in alloc; 0u8; end as usize]?;
    host.read(0, &mut bytes)?;
    Ok(bytes)
}

/// A host with no file, which fails these calls.
pub fn blank(alloc: Global, fails: &[u64]) -> Result<MemHost, Fail> {
    Ok(MemHost::new(alloc, None, fails.to_vec(alloc)?))
}

/// A host whose file has these bytes, and which fails these calls.
pub fn host_of(alloc: Global, file: &[u8], fails: &[u64]) -> Result<MemHost, Fail> {
    let file = file.to_vec(alloc)?;
    Ok(MemHost::new(alloc, Some(file), fails.to_vec(alloc)?))
}

/// The bytes of a small database.
pub fn small_database(alloc: Global) -> Result<Vec<u8>, Fail> {
    let mut host = blank(alloc, &[])?;
    make_small(&mut host, "table")?;
    file_of(alloc, &mut host)
}

/// The host that a crash within a recorded call leaves.
pub fn crashed(
    alloc: Global,
    host: &MemHost,
    call: u64,
    fill: Option<u8>,
) -> Result<MemHost, Fail> {
    if call < 1 || call > host.calls() {
        return Err(NoSuchCall)?;
    }
    Ok(host.after(alloc, call, fill)?)
}

/// How many of the recorded calls behind the first so many are this one.
pub fn times_called(host: &MemHost, begun: u64, call: Call) -> u64 {
    let mut times: u64 = 0;
    for n in begun..host.calls() {
        if host.call(n + 1) == call {
            times = times.saturating_add(1);
        }
    }
    times
}

/// The number of the sync of this rank among the calls behind the first so many.
pub fn sync_behind(host: &MemHost, begun: u64, rank: u64) -> Result<u64, Fail> {
    let mut syncs: u64 = 0;
    for n in begun..host.calls() {
        if host.call(n + 1) == Call::Sync {
            syncs = syncs.saturating_add(1);
            if syncs == rank {
                return Ok(n + 1);
            }
        }
    }
    Err(NoSuchCall)?
}
