// Runs of scripts on the file of a host.
use mdc_outside::{Host, MemHost, MemSource, Source};
use page_store::{FetchLog, Untold};
use session::{Served, Stop, serve_file};
use std::alloc::Global;
use std::marker::Brand;
use std::test::Fail;

/// How a run ended.
pub type End = Result<Served, Stop>;

// Attaches the file of a host, and serves a source on it.
fn serve_source<I: Source, H: Host + Drop, L: FetchLog>(
    alloc: Global,
    input: &mut I,
    mut host: H,
    log: &mut L,
) -> Result<(End, H), Fail> {
    host.attach("table", false)?;
    let ended = serve_file::<I, H, Brand, L>(alloc, input, host, log);
    Ok((ended.end, ended.host))
}

/// How a script ends on the file of a host, and the host. The log goes on with the pages that come to hand.
pub fn log_script<H: Host + Drop, L: FetchLog>(
    alloc: Global,
    script: &[u8],
    host: H,
    log: &mut L,
) -> Result<(End, H), Fail> {
    let mut source = MemSource::new(script.to_vec(alloc)?, 4096, Vec::new(alloc));
    serve_source(alloc, &mut source, host, log)
}

/// How a script ends on the file of a host, and the host.
pub fn run_script<H: Host + Drop>(alloc: Global, script: &[u8], host: H) -> Result<(End, H), Fail> {
    log_script(alloc, script, host, &mut Untold)
}

/// How a script ends on the file of a host, and what it says.
pub fn said_by(alloc: Global, script: &[u8], host: MemHost) -> Result<(End, Vec<u8>), Fail> {
    let begun = host.said().len();
    let (end, host) = run_script(alloc, script, host)?;
    let said = host.said().get(begun..).unwrap_or_default();
    Ok((end, said.to_vec(alloc)?))
}
