// The statements of a script, answered one after another as they close.
ghost use Rattle.std.specs.Prelude.{◌≡◌, ◌≤◌, IfErr, IfSome, IsErrOf, Err, false};
ghost use Rattle.mdc_words.specs.Faults.{CountsFault};
ghost use Rattle.mdc_words.specs.Time.{OverTime};
ghost use Rattle.statement_meaning.specs.Session.{is_refusal};
ghost use Rattle.store_api.specs.declared.fault.Damage.{Damage};
ghost use Rattle.store_api.specs.Works.{Rests};
ghost use Rattle.script_engine.specs.OnAnyPages.{IsGoingEngine};
ghost use Rattle.script_engine.specs.Serving.{IsReadyEngine, MayCall};
ghost use Rattle.session.specs.script.Fetching.{FetchesMore};
ghost use Rattle.session.specs.script.Told.{TellsMore};
ghost use Rattle.session.specs.script.ScriptLaws.{ScriptLaws};
ghost use Rattle.session.specs.script.Leaving.{ReopensAlways};
ghost use Rattle.session.specs.script.Serving.{RunsOnAny, RunsScript, TakesScript};
ghost use Rattle.session.specs.script.Turning.{TurnsItem};
ghost use Rattle.session.specs.script.Written.{IsReadWritten};
ghost use Rattle.session.specs.Stops.{IsOfScript};
ghost use Rattle.sql_reader.specs.Item.{item_of};

use crate::script::answering::{outcome_of, tell_outcome};
use crate::script::served::Served;
use crate::stop::Stop;
use mdc_ast::Outcome;
use mdc_outside::Source;
use script_engine::Engine;
use sql_reader::{Read, Statements, one_closing, one_reading};
use std::alloc::Global;
use store_api::Store;

/// Answers the statements of a script on an engine, and tells whether one was refused. Each reply is told before the next
/// statement is asked for. After a stop the engine takes no further call but `close`.
pub fn serve<I: Source, S: Store>(
    alloc: Global,
    input: &mut I,
    engine: &mut Engine<S>,
) -> Result<Served, Stop>
    requires may { MayCall S.Pages engine.old }
    ensures runs { IsReadyEngine S.Pages engine.old → RunsScript S.Pages (I.left input.old) (I.left input.new) engine.old engine.new result }
    // Whatever the pages are: one run of the script's items, each of which does to them what its statement may, and damage that is
    // that of the pages that were held.
    ensures any { IsGoingEngine S.Pages engine.old → RunsOnAny S.Pages (I.left input.old) (I.left input.new) engine.old engine.new result }
    ensures stop { IfErr result IsOfScript }
    ensures reads { CountsFault (IsErrOf result Stop.Unread) (I.read_faults input.old) (I.read_faults input.new) }
    ensures unsaid { CountsFault (IsErrOf result Stop.Unsaid) (S.say_faults engine.old.store) (S.say_faults engine.new.store) }
    ensures device { CountsFault (IsErrOf result Stop.Device) (S.disk_faults engine.old.store) (S.disk_faults engine.new.store) }
    ensures damaged { (damage : Damage) → result ≡ Err (Stop.Damaged damage) → IsReadyEngine S.Pages engine.old → ⊥ }
    ensures beside { (S.state engine.new.store).beside ≡ (S.state engine.old.store).beside }
    ensures is_told { (S.state engine.new.store).is_told ≡ (S.state engine.old.store).is_told }
    ensures takes { IfSome (I.left input.old) (λ script. TakesScript script (I.left input.new) result) }
    ensures tells { TellsMore (S.state engine.old.store).told (S.state engine.new.store).told }
    // However it ends, a log of the pages that come to hand goes on, and is never begun anew.
    ensures log { FetchesMore (S.state engine.old.store).fetched (S.state engine.new.store).fetched }
    // And a crash leaves a file that reopens, which behind a run is that of the pages of the last commit, unless the disk failed.
    ensures reopens { OverTime S.clock S.left ReopensAlways engine.old.store engine.new.store }
    ensures going { IsGoingEngine S.Pages engine.old → (IsErrOf result Stop.Device → ⊥) → (S.state engine.new.store).ended ≡ false }
    ensures rests { Rests S.Pages engine.old.store → Rests S.Pages engine.new.store }
    ensures later { S.clock engine.old.store ≤ S.clock engine.new.store }
{
    script_laws();
    let mut statements = Statements::new(alloc)?;
    let mut reply = Vec::new(alloc);
    let mut refused = false;
    while let Some(read) = statements.next(input)? {
        refused |= answer(engine, read, &mut reply)?;
    }
    Ok(Served::by_refusal(refused))
}

// The laws that a script has one list of items, and that what a reader has given begins it.
fn script_laws()
    ensures { ScriptLaws }
{
    one_reading();
    one_closing();
}

// Answers an item and does what is left to be done after the answer, and tells whether the item was refused.
fn answer<S: Store>(engine: &mut Engine<S>, read: Read, reply: &mut Vec<u8>) -> Result<bool, Stop>
    requires may { MayCall S.Pages engine.old }
    requires written { IsReadWritten read }
    ensures turns { TurnsItem S.Pages (item_of read) result engine.old engine.new }
{
    let refused = answer_item(engine, read, reply)?;
    engine.settle()?;
    Ok(refused)
}

// Answers an item, and tells whether it was refused.
fn answer_item<S: Store>(
    engine: &mut Engine<S>,
    read: Read,
    reply: &mut Vec<u8>,
) -> Result<bool, Stop>
    requires may { MayCall S.Pages engine.old }
    requires written { IsReadWritten read }
    ensures turns { TurnsItem S.Pages (item_of read) result engine.old engine.new }
{
    let outcome = outcome_of(engine, read)?;
    tell_outcome(engine, &outcome, reply)?;
    Ok(is_refused(&outcome))
}

// Whether it is a refusal.
fn is_refused(outcome: &Outcome) -> bool
    ensures { result ≡ is_refusal outcome.now }
{
    matches!(outcome, Outcome::Refused(_))
}
