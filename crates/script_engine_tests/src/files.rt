// A stop at damage over a store in the file of a host.
ghost use Rattle.std.specs.Prelude.{◌≡◌, false, None, IfOk};

use crate::broken::{damage_of, tried_on};
use crate::patches::{Patch, bytes_at};
use crate::scripts::{AMPLE, run_on};
use mdc_outside::{Host, MemHost};
use page_store::{FileStore, Untold, make};
use std::alloc::Global;
use std::marker::Brand;
use std::test::Fail;
use store_api::{Damage, Pages};

// Makes a database in the file of a host, which is opened then.
fn made<H: Host + Drop>(mut host: H) -> Result<H, Fail> {
    host.attach("table", true)?;
    make(&mut host, AMPLE, 2)?;
    Ok(host)
}

// The store in the file of a host.
fn opened<H: Host + Drop>(alloc: Global, mut host: H) -> Result<FileStore<H>, Fail>
    ensures going { IfOk result (λ store. (⟦<FileStore<H> as Pages>⟧.state store).ended ≡ false) }
    ensures unmarked { IfOk result (λ store. (⟦<FileStore<H> as Pages>⟧.state store).marked ≡ None) }
{
    host.attach("table", false)?;
    match FileStore::<H, Brand, Untold>::open(alloc, host, Untold, 8) {
        Ok(store) => Ok(store),
        Err(unopened) => Err(unopened.fault)?,
    }
}

// The damage that a script meets on a file that another script made and patches broke, and the host.
fn tried_in<H: Host + Drop>(
    alloc: Global,
    host: H,
    making: &[u8],
    patches: &[Patch],
    script: &[u8],
) -> Result<(Option<Damage>, H), Fail> {
    let (came, store) = tried_on(alloc, opened(alloc, host)?, making, patches, script)?;
    Ok((came.damage, store.close().host))
}

// Runs a script on the file of a host, in which it meets no damage.
fn run_in<H: Host + Drop>(alloc: Global, host: H, script: &[u8]) -> Result<H, Fail> {
    let (_, store) = run_on(alloc, opened(alloc, host)?, AMPLE, script)?;
    Ok(store.close().host)
}

// T has the pages 18 to 20, and its row in page 22.
const MAKING: &[u8] = b"CREATE TABLE T (A INTEGER) ORGANIZE BY (A);
INSERT INTO T VALUES (1);
CREATE TABLE U (X INTEGER) ORGANIZE BY (X)";

const SAID: &[u8] = b"OK
1 ROWS INSERTED
OK
1 ROWS INSERTED
OK
1 ROWS INSERTED
X
3
1 ROWS
";

#[test]
fn a_stop_at_damage_leaves_the_file_of_the_last_commit(rt: HostRuntime) -> Result<(), Fail> {
    let alloc = rt.alloc();
    let host = made(MemHost::new(alloc, None, Vec::new(alloc)))?;
    let broken = [bytes_at(22, 0, b"S")];
    let script = b"INSERT INTO U VALUES (3); BEGIN; INSERT INTO U VALUES (4); UPDATE T SET A = 2";
    let (damage, host) = tried_in(alloc, host, MAKING, &broken, script)?;
    assert_eq!(rt; damage, damage_of(7, 22));
    let host = run_in(alloc, host, b"SELECT X FROM U")?;
    assert_eq!(rt; host.said(), SAID);
    Ok(())
}
