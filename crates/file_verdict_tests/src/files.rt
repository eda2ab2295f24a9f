// Files of databases on hosts in memory, and the verdicts on them.
use file_check::Verdict;
use file_verdict::{Unjudged, judge_file};
use mdc_outside::{Host, MemHost, MemSource, Source};
use page_store::{OpenFault, Untold, make};
use script_engine_tests::Patch;
use session::serve_file;
use std::alloc::Global;
use std::marker::Brand;
use std::test::Fail;
use store_api::Damage;

/// What is said of a file.
pub type Said = Result<Verdict, Unjudged>;

/// Two tables of 16 extents of two pages. T has the pages 18 to 21 for its block map, its index of A and R and those of A and of R,
/// and three cells in the blocks 2 to 4, whose pages are 22 to 27. U has its block map, its index of cells and that of A in the pages
/// 28 to 30, and one cell in block 7, whose pages are 32 and 33.
const TWO_TABLES: &[u8] = b"CREATE TABLE T (A INTEGER, R INTEGER) ORGANIZE BY (A, R);
INSERT INTO T VALUES (1, 7), (2, 7), (1, 7), (NULL, 9);
CREATE TABLE U (K INTEGER NOT NULL, A INTEGER) ORGANIZE BY (A);
INSERT INTO U VALUES (5, 1), (6, 1);";

/// The verdict that names a rule and a page.
pub fn broken(rule: u16, page: u32) -> Said {
    Ok(Verdict::Broken(Damage { page, rule }))
}

// Makes a database of 16 extents of two pages in the file of a host.
fn make_small<H: Host>(host: &mut H) -> Result<(), OpenFault> {
    host.attach("table", true)?;
    make(host, 16, 2)
}

// Serves a source on the file of a host, and tells whether it was read to its end.
fn serve_source<I: Source, H: Host + Drop>(
    alloc: Global,
    input: &mut I,
    mut host: H,
) -> Result<(bool, H), Fail> {
    host.attach("table", false)?;
    let ended = serve_file::<I, H, Brand, Untold>(alloc, input, host, &mut Untold);
    Ok((ended.end.is_ok(), ended.host))
}

/// The host once a script is run on its file.
pub fn run_script<H: Host + Drop>(alloc: Global, script: &[u8], host: H) -> Result<H, Fail> {
    let mut source = MemSource::new(script.to_vec(alloc)?, 4096, Vec::new(alloc));
    let (is_done, host) = serve_source(alloc, &mut source, host)?;
    if !is_done {
        return Err(Fail::new("a script that isn't done"));
    }
    Ok(host)
}

/// What is said of the file of a host, and the host.
pub fn judged<H: Host + Drop>(alloc: Global, mut host: H) -> Result<(Said, H), Fail> {
    host.attach("table", false)?;
    let judged = judge_file(alloc, host);
    Ok((judged.verdict, judged.host))
}

/// The bytes of the file of a host.
pub fn file_of<H: Host>(alloc: Global, host: &mut H) -> Result<Vec<u8>, Fail> {
    host.attach("table", false)?;
    let end = host.len()?;
    let mut bytes = vec![in alloc; 0u8; end as usize]?;
    host.read(0, &mut bytes)?;
    Ok(bytes)
}

/// A host whose file has these bytes, and which fails these calls.
pub fn host_of(alloc: Global, file: &[u8], fails: &[u64]) -> Result<MemHost, Fail> {
    let file = file.to_vec(alloc)?;
    Ok(MemHost::new(alloc, Some(file), fails.to_vec(alloc)?))
}

/// The bytes of a database of 16 extents of two pages with no table.
pub fn no_table(alloc: Global) -> Result<Vec<u8>, Fail> {
    let mut host = MemHost::new(alloc, None, Vec::new(alloc));
    make_small(&mut host)?;
    file_of(alloc, &mut host)
}

/// The bytes of the two tables.
pub fn two_tables(alloc: Global) -> Result<Vec<u8>, Fail> {
    let mut host = run_script(alloc, TWO_TABLES, host_of(alloc, &no_table(alloc)?, &[])?)?;
    file_of(alloc, &mut host)
}

/// What is said of a file of these bytes.
pub fn said_of(alloc: Global, file: &[u8]) -> Result<Said, Fail> {
    let (said, _) = judged(alloc, host_of(alloc, file, &[])?)?;
    Ok(said)
}

// Writes bytes over those of a file from a place on.
fn put(file: &mut Vec<u8>, at: usize, bytes: &[u8]) -> Result<(), Fail> {
    for (i, byte) in bytes.iter().enumerate() {
        let Some(place) = file.get_mut(at.wrapping_add(i)) else {
            return Err(Fail::new("no such place"));
        };
        *place = *byte;
    }
    Ok(())
}

/// The bytes of a file with these from a place on.
pub fn with_bytes(alloc: Global, file: &[u8], at: usize, bytes: &[u8]) -> Result<Vec<u8>, Fail> {
    let mut file = file.to_vec(alloc)?;
    put(&mut file, at, bytes)?;
    Ok(file)
}

/// The bytes of a file with patches of its pages, which begin behind 66 file pages.
pub fn with_patches(alloc: Global, file: &[u8], patches: &[Patch]) -> Result<Vec<u8>, Fail> {
    let mut file = file.to_vec(alloc)?;
    for patch in patches {
        let page = (66 + patch.page as usize) * 4096;
        put(&mut file, page.wrapping_add(patch.at), patch.bytes)?;
    }
    Ok(file)
}
