// The same scripts on the reference engine and on the engine over a store.
ghost use Rattle.std.specs.Prelude.{◌≡◌, false, None, IfOk, OnOk};
ghost use Rattle.script_engine.specs.Serving.{MayCall};
ghost use Rattle.session.specs.script.Written.{IsReadWritten};

use crate::mixed::{Drawn, script_of};
use crate::reference::answer_plainly;
use crate::scripts::{reply_to, run_on, sound_on, source_of};
use crate::stores::{engine_on, fresh_store};
use crate::written::{next_written, reader};
use mdc_outside::Source;
use script_engine::Engine;
use sql_reader::Read;
use std::alloc::Global;
use std::test::Fail;
use store_api::Store;

// How many extents the stores have: none of the scripts runs full.
const MOST: u32 = 512;

// How many statements were answered, how many of them were refused, how many for the state of the transaction and how many for a
// key, and how many were answered alike before the first that wasn't.
#[derive(Clone, Copy, Debug, PartialEq, Eq)]
struct Compared {
    statements: u32,
    refused: u32,
    not_now: u32,
    keys: u32,
    alike: u32,
}

impl Compared {
    // Counts the replies of two engines to a statement.
    fn note(&mut self, expected: &[u8], stored: &[u8]) {
        if expected == stored && self.alike == self.statements {
            self.alike = self.alike.saturating_add(1);
        }
        self.statements = self.statements.saturating_add(1);
        if expected.starts_with(b"ERROR") {
            self.refused = self.refused.saturating_add(1);
        }
        if expected.starts_with(b"ERROR 12") {
            self.not_now = self.not_now.saturating_add(1);
        }
        if expected.starts_with(b"ERROR 40") {
            self.keys = self.keys.saturating_add(1);
        }
    }
}

// Executes a statement on both engines.
fn answer_both<S: Store>(
    alloc: Global,
    plain: &mut reference_engine::Engine,
    engine: &mut Engine<S>,
    read: Read,
    compared: &mut Compared,
) -> Result<(), Fail>
    requires may { MayCall S.Pages engine.old }
    requires written { IsReadWritten read }
    ensures may { OnOk result (MayCall S.Pages engine.new) }
{
    let Read::Stmt(stmt) = read else {
        return Err("a statement that can't be read")?;
    };
    let stored = reply_to(alloc, &engine.execute(stmt.get())?)?;
    let mut expected = Vec::new(alloc);
    answer_plainly(alloc, plain, stmt.get(), &mut expected)?;
    compared.note(expected.as_slice(), stored.as_slice());
    Ok(())
}

// Executes all statements of a script on both engines.
fn compare_all<I: Source, S: Store>(
    alloc: Global,
    engine: &mut Engine<S>,
    source: &mut I,
) -> Result<Compared, Fail>
    requires may { MayCall S.Pages engine.old }
    ensures may { OnOk result (MayCall S.Pages engine.new) }
{
    let mut plain = reference_engine::Engine::new(alloc)?;
    let mut statements = reader(alloc)?;
    let mut compared = Compared {
        statements: 0,
        refused: 0,
        not_now: 0,
        keys: 0,
        alike: 0,
    };
    while let Some(read) = next_written(&mut statements, source)? {
        answer_both(alloc, &mut plain, engine, read, &mut compared)?;
    }
    Ok(compared)
}

// Compares both engines on a script, and gives the store as it is then.
fn compare<S: Store + Drop>(alloc: Global, store: S, script: &[u8]) -> Result<(Compared, S), Fail>
    requires going { (S.state store).ended ≡ false }
    requires unmarked { (S.state store).marked ≡ None }
    ensures going { IfOk result (λ run. (S.state run.1).ended ≡ false) }
    ensures unmarked { IfOk result (λ run. (S.state run.1).marked ≡ None) }
{
    let mut engine = engine_on(alloc, store, MOST)?;
    let mut source = source_of(alloc, script)?;
    let compared = compare_all(alloc, &mut engine, &mut source)?;
    Ok((compared, engine.close()))
}

// How many blocks there are at the end, which the reference engine can't tell, and the rows. They don't depend on modes either.
const END: &[u8] = b"LIST BLOCKS P;
LIST BLOCKS Q;
SELECT * FROM P;
SELECT * FROM Q";

// The replies at the end on a store that a script was run on, whose pages are sound then.
fn end_of<S: Store + Drop>(alloc: Global, store: S, script: &[u8]) -> Result<Vec<u8>, Fail>
    requires going { (S.state store).ended ≡ false }
    requires unmarked { (S.state store).marked ≡ None }
{
    let (_, left) = run_on(alloc, store, MOST, script)?;
    sound_on(alloc, left, MOST, END)
}

// Compares both engines on the script that is drawn for a seed, and says whether its end is that of the statements that were kept, each
// committed by itself on another store.
fn compare_drawn<S: Store + Drop>(
    alloc: Global,
    store: S,
    other: S,
    drawn: &Drawn,
) -> Result<(Compared, bool), Fail>
    requires going { (S.state store).ended ≡ false }
    requires unmarked { (S.state store).marked ≡ None }
    requires other_going { (S.state other).ended ≡ false }
    requires other_unmarked { (S.state other).marked ≡ None }
{
    let (compared, left) = compare(alloc, store, drawn.script.as_slice())?;
    let end = sound_on(alloc, left, MOST, END)?;
    let kept = end_of(alloc, other, drawn.kept.as_slice())?;
    Ok((compared, end.as_slice() == kept.as_slice()))
}

// Compares both engines on the script that is drawn for a seed, in one of eight modes.
fn compare_seed(alloc: Global, seed: u64, modes: usize) -> Result<(Compared, bool), Fail> {
    let drawn = script_of(alloc, seed, 150, modes)?;
    if drawn.taken_back == 0 {
        return Err("no ROLLBACK of a statement")?;
    }
    compare_drawn(alloc, fresh_store(alloc)?, fresh_store(alloc)?, &drawn)
}

// Each script under each of the plan modes and of the rollout modes, of which no reply of these statements tells.
#[test]
fn both_engines_answer_alike(rt: HostRuntime) -> Result<(), Fail> {
    let mut keys: u32 = 0;
    for run in 40..72 {
        let seed: u64 = run / 8;
        let modes = (run % 8) as usize;
        let (compared, is_kept) = compare_seed(rt.alloc(), seed, modes)?;
        assert_eq!(rt;
            compared.statements,
            160,
            "with the seed {seed} in mode {modes}"
        );
        assert_eq!(rt; compared.alike, 160, "with the seed {seed} in mode {modes}");
        assert!(rt; is_kept, "with the seed {seed} in mode {modes}");
        assert!(rt;
            compared.refused < 100,
            "with the seed {seed} in mode {modes}"
        );
        assert!(rt;
            compared.not_now > 0,
            "with the seed {seed} in mode {modes}"
        );
        keys = keys.saturating_add(compared.keys);
    }
    assert!(rt; keys > 40, "{keys} refused for their keys");
    Ok(())
}
