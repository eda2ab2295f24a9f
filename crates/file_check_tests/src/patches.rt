// A database of a script, written over and checked.
ghost use Rattle.std.specs.Prelude.{◌≡◌, false, None, IfOk, OnOk};
ghost use Rattle.script_engine.specs.Serving.{MayCall};

use file_check::{Verdict, check};
use mdc_outside::{MemSource, Source};
use script_engine::Engine;
use script_engine_tests::{
    Patch, bytes_at, engine_on, fresh_store, next_written, reader, write_over,
};
use sql_reader::Read;
use std::alloc::Global;
use std::test::Fail;
use store_api::{Damage, Shape, Store};

// How many extents the databases may have.
const CAP: u32 = 16;

/// The table of docs/FORMAT.md's picture, with the rows of three cells. Its block map is page 18, its index of A and R page 19,
/// that of A page 20 and that of R page 21; block 2 has the pages 22 and 23, block 3 24 and 25, block 4 26 and 27.
pub const THREE_CELLS: &[u8] = b"CREATE TABLE T (A INTEGER, R INTEGER) ORGANIZE BY (A, R);
INSERT INTO T VALUES (1, 7), (2, 7), (1, 7), (NULL, 9)";

/// The verdict that names a rule and a page.
pub fn broken(rule: u16, page: u32) -> Verdict {
    Verdict::Broken(Damage { page, rule })
}

// Executes all statements of a script, each of which has to be done.
fn execute_all<I: Source, S: Store>(
    alloc: Global,
    engine: &mut Engine<S>,
    source: &mut I,
) -> Result<(), Fail>
    requires may { MayCall S.Pages engine.old }
    ensures may { OnOk result (MayCall S.Pages engine.new) }
{
    let mut statements = reader(alloc)?;
    while let Some(read) = next_written(&mut statements, source)? {
        match read {
            Read::Stmt(stmt) => engine.execute(stmt.get())?,
            Read::Refused(_) => return Err("no statement")?,
        };
    }
    Ok(())
}

// A store with what a script makes in it.
fn made<S: Store + Drop>(alloc: Global, store: S, script: &[u8]) -> Result<S, Fail>
    requires going { (S.state store).ended ≡ false }
    requires unmarked { (S.state store).marked ≡ None }
    ensures going { IfOk result (λ store. (S.state store).ended ≡ false) }
    ensures unmarked { IfOk result (λ store. (S.state store).marked ≡ None) }
{
    let mut engine = engine_on(alloc, store, CAP)?;
    let mut source = MemSource::new(Vec::from_slice(alloc, script)?, 100, Vec::new(alloc));
    execute_all(alloc, &mut engine, &mut source)?;
    Ok(engine.close())
}

// What is checked on a store of a script, once the patches are written.
fn checked<S: Store + Drop>(
    alloc: Global,
    store: S,
    script: &[u8],
    patches: &[Patch],
) -> Result<Verdict, Fail>
    requires going { (S.state store).ended ≡ false }
    requires unmarked { (S.state store).marked ≡ None }
{
    let mut store = made(alloc, store, script)?;
    write_over(&mut store, patches)?;
    let Some(shape) = Shape::new(CAP, 2) else {
        return Err("no shape of a database")?;
    };
    Ok(check(alloc, shape, &mut store)?)
}

/// The verdict on the database of a script, once the patches are written over it.
pub fn verdict(alloc: Global, script: &[u8], patches: &[Patch]) -> Result<Verdict, Fail> {
    checked(alloc, fresh_store(alloc)?, script, patches)
}

/// The verdict on the three cells, with one patch.
pub fn verdict_on_cells(
    alloc: Global,
    page: u32,
    at: usize,
    bytes: &'static [u8],
) -> Result<Verdict, Fail> {
    verdict(alloc, THREE_CELLS, &[bytes_at(page, at, bytes)])
}
