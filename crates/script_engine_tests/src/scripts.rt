// Scripts on an engine, as the program runs them.
ghost use Rattle.std.specs.Prelude.{◌≡◌, false, Err, None, IfNone, IfOk, OnOk};
ghost use Rattle.store_api.specs.declared.fault.Damage.{Damage};
ghost use Rattle.script_engine.specs.Breaking.{StaysAtDamage};
ghost use Rattle.script_engine.specs.Serving.{MayCall};
ghost use Rattle.session.specs.script.Written.{IsReadWritten};

use crate::stores::{engine_on, fresh_store};
use crate::written::{next_written, reader};
use answer_text::outcome_bytes;
use entry_tree_tests::extents_of;
use file_check::{Verdict, check};
use mdc_ast::Outcome;
use mdc_outside::{MemSource, Source};
use script_engine::Engine;
use sql_reader::Read;
use std::alloc::Global;
use std::process::Abort;
use std::test::Fail;
use store_api::{Damage, Pages, Store, StoreFault};

/// How many extents the tests have where they don't run full.
pub const AMPLE: u32 = 64;

/// A source of these bytes.
pub fn source_of(alloc: Global, script: &[u8]) -> Result<MemSource, Fail> {
    Ok(MemSource::new(Vec::from_slice(alloc, script)?, 100, Vec::new(alloc)))
}

/// The reply to an outcome.
pub fn reply_to(alloc: Global, outcome: &Outcome) -> Result<Vec<u8>, Fail> {
    let mut reply = Vec::new(alloc);
    outcome_bytes(outcome, &mut reply)?;
    Ok(reply)
}

/// What came of a script: all replies, up to the damage at which the engine stopped, if it did.
#[derive(Debug, Drop)]
pub struct Came {
    pub said: Vec<u8>,
    pub damage: Option<Damage>,
}

// The outcome of an item: a statement is executed, and what can't be read is refused.
fn outcome_of<S: Store>(engine: &mut Engine<S>, read: Read) -> Result<Outcome, StoreFault>
    requires may { MayCall S.Pages engine.old }
    requires written { IsReadWritten read }
    ensures may { OnOk result (MayCall S.Pages engine.new) }
    ensures stays { (damage : Damage) → result ≡ Err (StoreFault.Damaged damage) → StaysAtDamage S.Pages engine.old engine.new }
{
    match read {
        Read::Stmt(stmt) => engine.execute(stmt.get()),
        Read::Refused(refusal) => Ok(Outcome::Refused(refusal)),
    }
}

// Tells the reply to an outcome, and puts it behind the others.
fn say<S: Store>(
    alloc: Global,
    engine: &mut Engine<S>,
    outcome: &Outcome,
    said: &mut Vec<u8>,
) -> Result<(), Fail>
    requires may { MayCall S.Pages engine.old }
    ensures may { OnOk result (MayCall S.Pages engine.new) }
{
    let reply = reply_to(alloc, outcome)?;
    engine.tell(reply.as_slice())?;
    engine.settle()?;
    said.extend_from_slice(reply.as_slice())?;
    Ok(())
}

// Answers an item. At damage nothing is told, and the damage is given.
fn answer<S: Store>(
    alloc: Global,
    engine: &mut Engine<S>,
    read: Read,
    said: &mut Vec<u8>,
) -> Result<Option<Damage>, Fail>
    requires may { MayCall S.Pages engine.old }
    requires written { IsReadWritten read }
    ensures may { IfOk result (λ damage. IfNone damage (MayCall S.Pages engine.new)) }
    ensures going { OnOk result ((S.state engine.new.store).ended ≡ false) }
    ensures unmarked { OnOk result ((S.state engine.new.store).marked ≡ None) }
{
    match outcome_of(engine, read) {
        Ok(outcome) => {
            say(alloc, engine, &outcome, said)?;
            Ok(None)
        }
        Err(StoreFault::Damaged(damage)) => Ok(Some(damage)),
        Err(stop) => Err(stop)?,
    }
}

// Answers the items of a script, up to damage.
fn answer_all<I: Source, S: Store>(
    alloc: Global,
    engine: &mut Engine<S>,
    source: &mut I,
) -> Result<Came, Fail>
    requires may { MayCall S.Pages engine.old }
    ensures going { OnOk result ((S.state engine.new.store).ended ≡ false) }
    ensures unmarked { OnOk result ((S.state engine.new.store).marked ≡ None) }
{
    let mut statements = reader(alloc)?;
    let mut said = Vec::new(alloc);
    while let Some(read) = next_written(&mut statements, source)? {
        let damage = answer(alloc, engine, read, &mut said)?;
        if damage.is_some() {
            return Ok(Came { said, damage });
        }
    }
    Ok(Came { said, damage: None })
}

/// What comes of a script on a store, and the store as it is then.
pub fn try_on<S: Store + Drop>(
    alloc: Global,
    store: S,
    cap: u32,
    script: &[u8],
) -> Result<(Came, S), Fail>
    requires going { (S.state store).ended ≡ false }
    requires unmarked { (S.state store).marked ≡ None }
    ensures going { IfOk result (λ run. (S.state run.1).ended ≡ false) }
    ensures unmarked { IfOk result (λ run. (S.state run.1).marked ≡ None) }
{
    let mut engine = engine_on(alloc, store, cap)?;
    let mut source = source_of(alloc, script)?;
    let came = answer_all(alloc, &mut engine, &mut source)?;
    Ok((came, engine.close()))
}

/// What an engine on a store answers to a script, in which it meets no damage, and the store as it is then.
pub fn run_on<S: Store + Drop>(
    alloc: Global,
    store: S,
    cap: u32,
    script: &[u8],
) -> Result<(Vec<u8>, S), Fail>
    requires going { (S.state store).ended ≡ false }
    requires unmarked { (S.state store).marked ≡ None }
    ensures going { IfOk result (λ run. (S.state run.1).ended ≡ false) }
    ensures unmarked { IfOk result (λ run. (S.state run.1).marked ≡ None) }
{
    let (came, store) = try_on(alloc, store, cap, script)?;
    if came.damage.is_some() {
        return Err("damage where there is none")?;
    }
    Ok((came.said, store))
}

/// What an engine on a store answers to a script, in which it meets no damage, and behind which the pages are sound.
pub fn sound_on<S: Store + Drop>(
    alloc: Global,
    store: S,
    cap: u32,
    script: &[u8],
) -> Result<Vec<u8>, Fail>
    requires going { (S.state store).ended ≡ false }
    requires unmarked { (S.state store).marked ≡ None }
{
    let (said, left) = run_on(alloc, store, cap, script)?;
    let mut store = left;
    if !are_sound(alloc, &mut store, cap)? {
        return Err(Fail::new("pages that aren't sound"));
    }
    Ok(said)
}

// Whether the pages of a database of at most so many extents are sound.
fn are_sound<P: Pages>(alloc: Global, pages: &mut P, cap: u32) -> Result<bool, Fail>
    requires going { (P.state pages.old).ended ≡ false }
{
    Ok(check(alloc, extents_of(cap)?, pages)? == Verdict::Sound)
}

/// A script on an empty database is answered so, and the pages are sound behind it.
pub fn answers(rt: &(impl Abort + AllocGlobal), script: &[u8], replies: &[u8]) -> Result<(), Fail> {
    let alloc = rt.alloc();
    let said = sound_on(alloc, fresh_store(alloc)?, AMPLE, script)?;
    assert_eq!(rt; said.as_slice(), replies, "{}", script.escape_ascii());
    Ok(())
}
