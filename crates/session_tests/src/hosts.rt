// Hosts in memory with the file of a database.
use mdc_outside::{Host, MemHost};
use page_store::{OpenFault, make};
use std::alloc::Global;
use std::test::Fail;

// Makes a database of 16 extents of two pages in the file of a host.
fn make_small<H: Host>(host: &mut H) -> Result<(), OpenFault> {
    host.attach("table", true)?;
    make(host, 16, 2)
}

// The bytes of the file of a host.
fn file_of<H: Host>(alloc: Global, host: &mut H) -> Result<Vec<u8>, Fail> {
    host.attach("table", false)?;
    let end = host.len()?;
    let mut bytes = vec![in alloc; 0u8; end as usize]?;
    host.read(0, &mut bytes)?;
    Ok(bytes)
}

/// The bytes of a database of 16 extents of two pages with no table.
pub fn small_database(alloc: Global) -> Result<Vec<u8>, Fail> {
    let mut host = MemHost::new(alloc, None, Vec::new(alloc));
    make_small(&mut host)?;
    file_of(alloc, &mut host)
}

/// A host whose file has these bytes, and which fails these calls.
pub fn host_of(alloc: Global, file: &[u8], fails: &[u64]) -> Result<MemHost, Fail> {
    let file = file.to_vec(alloc)?;
    Ok(MemHost::new(alloc, Some(file), fails.to_vec(alloc)?))
}

/// The host that a crash within a recorded call leaves.
pub fn crashed(
    alloc: Global,
    host: &MemHost,
    call: u64,
    fill: Option<u8>,
) -> Result<MemHost, Fail> {
    if call < 1 || call > host.calls() {
        return Err("no such call")?;
    }
    Ok(host.after(alloc, call, fill)?)
}
