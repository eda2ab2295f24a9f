// The items of a script, with the promise that each statement is written so.
ghost use Rattle.std.specs.Prelude.{◌≡◌, ◌⊎◌, ◌<◌, ◌≤◌, true, IfOk, IfSome, IsErrOf, OnOk};
ghost use Rattle.mdc_words.specs.Faults.{Rose};
ghost use Rattle.sql_reader.specs.Holding.{work_left};
ghost use Rattle.sql_reader.specs.Progress.{Progress};
ghost use Rattle.sql_reader.specs.Standing.{IsAt};
ghost use Rattle.sql_reader.specs.Step.{GoesOn};
ghost use Rattle.session.specs.script.Written.{IsReadWritten};
ghost use Rattle.script_engine_tests.specs.Written.{IsReading};

use mdc_outside::Source;
use mdc_values::Memory;
use sql_reader::{Read, ReadStop, Statements};
use std::alloc::Global;

/// A reader at the beginning of a script.
pub fn reader(alloc: Global) -> Result<Statements, Memory>
    ensures { IfOk result IsReading }
{
    let statements = Statements::new(alloc)?;
    Ok(statements)
}

/// The next item of a script, as `next` of the reader gives it. Where the reader came from the beginning of a script, some bytes
/// spell the statement that it gives, as an engine requires.
pub fn next_written<I: Source>(
    statements: &mut Statements,
    source: &mut I,
) -> Result<Option<Read>, ReadStop>
    requires within { statements.old.count ≤ 67108864 }
    ensures written { IsReading statements.old → IfOk result (λ found. IfSome found IsReadWritten) }
    ensures reading { IsReading statements.old → OnOk result (IsReading statements.new) }
    ensures goes { (old : Progress) → IsAt statements.old old
        → (new : Progress) × IsAt statements.new new × GoesOn I.left source.old source.new old new result }
    ensures kept { statements.new.kept ≤ 69632 }
    ensures count { (statements.new.count ≤ 67108864) ⊎ (IsErrOf result ReadStop.TooLong × (statements.new.count ≡ 67108865)) }
    ensures finished { statements.old.finished ≡ true → source.new ≡ source.old }
    ensures source { IsErrOf result ReadStop.Source → Rose (I.read_faults source.old) (I.read_faults source.new) }
    ensures no_fault { IsErrOf result ReadStop.Source ⊎ (I.read_faults source.new ≡ I.read_faults source.old) }
    ensures faults { I.read_faults source.old ≤ I.read_faults source.new }
    ensures progress { IfOk result (λ found. IfSome found (λ _. work_left statements.new < work_left statements.old)) }
{
    statements.next(source)
}
