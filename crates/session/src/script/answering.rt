// An item of a script on an engine: its outcome, and the reply to it.
ghost use Rattle.std.specs.Prelude.{◌≡◌, ◌⊎◌, OnOk, OnErr, IsErrOf, None};
ghost use Rattle.mdc_words.specs.Faults.{CountsFault};
ghost use Rattle.mdc_words.specs.Time.{OverTime};
ghost use Rattle.statement_meaning.specs.Texts.{outcome_text};
ghost use Rattle.store_api.specs.Calls.{Tells, TellsPart};
ghost use Rattle.store_api.specs.Moments.{BaseWithFront};
ghost use Rattle.store_api.specs.Works.{Rests};
ghost use Rattle.script_engine.specs.Serving.{IsReadyEngine, MayCall, held_by};
ghost use Rattle.session.specs.script.Answering.{AnswersItem};
ghost use Rattle.session.specs.script.Written.{IsReadWritten};
ghost use Rattle.sql_reader.specs.Item.{item_of};

use crate::stop::Stop;
use answer_text::outcome_bytes;
use mdc_ast::{Outcome, Reply};
use script_engine::Engine;
use sql_reader::Read;
use store_api::{Store, StoreFault};

/// The outcome of an item: a statement is executed, and what can't be read is refused.
pub fn outcome_of<S: Store>(engine: &mut Engine<S>, read: Read) -> Result<Outcome, StoreFault>
    requires may { MayCall S.Pages engine.old }
    requires written { IsReadWritten read }
    ensures answers { AnswersItem S.Pages (item_of read) result engine.old engine.new }
{
    match read {
        Read::Stmt(stmt) => engine.execute(stmt.get()),
        Read::Refused(refusal) => Ok(Outcome::Refused(refusal)),
    }
}

/// Tells an outcome in one call of the engine, by way of the room for a reply. After an error a first part of it may have been
/// told, whatever page is at hand.
pub fn tell_outcome<S: Store>(
    engine: &mut Engine<S>,
    outcome: &Outcome,
    reply: &mut Vec<u8>,
) -> Result<(), Stop>
    requires may { MayCall S.Pages engine.old }
    ensures ok { OnOk result (Tells (outcome_text outcome.now) (S.state engine.old.store) (S.state engine.new.store)) }
    ensures err { OnErr result (TellsPart (outcome_text outcome.now) (record (S.state engine.old.store) { hand = None }) (record (S.state engine.new.store) { hand = None })) }
    ensures cause { OnErr result (IsErrOf result Stop.Memory ⊎ IsErrOf result Stop.Unsaid) }
    ensures stays { engine.new ≡ record engine.old { store = engine.new.store } }
    ensures held { held_by S.Pages engine.new ≡ held_by S.Pages engine.old }
    ensures ready { IsReadyEngine S.Pages engine.old → IsReadyEngine S.Pages engine.new }
    ensures may { OnOk result (MayCall S.Pages engine.new) }
    ensures unsaid { CountsFault (IsErrOf result Stop.Unsaid) (S.say_faults engine.old.store) (S.say_faults engine.new.store) }
    ensures disk_faults { S.disk_faults engine.new.store ≡ S.disk_faults engine.old.store }
    ensures time { OverTime S.clock S.left (BaseWithFront (outcome_text outcome.now) (S.state engine.old.store)) engine.old.store engine.new.store }
    ensures rests { Rests S.Pages engine.old.store → Rests S.Pages engine.new.store }
{
    // The lines of a query are told from where they stand.
    if let Outcome::Done(Reply::Lines(lines)) = outcome {
        engine.tell(lines.bytes())?;
        return Ok(());
    }
    reply.clear();
    outcome_bytes(outcome, reply)?;
    engine.tell(reply.as_slice())?;
    Ok(())
}
