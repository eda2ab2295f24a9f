// A script that is read from its first byte on, item by item.
ghost use Rattle.std.specs.Prelude.{◌≡◌, ◌⊎◌, [], map, IsErrOf};
ghost use Rattle.mdc_words.specs.Faults.{Rose};
ghost use Rattle.sql_reader.specs.Item.{item_of};
ghost use Rattle.sql_reader_tests.specs.Whole.{ReadsFrom};

use mdc_outside::Source;
use mdc_values::List;
use sql_reader::{Read, ReadStop, Statements};
use std::alloc::Global;

/// Reads a source to its end, or to a stop. It shows that a caller of the reader can tell what it was given at each end.
pub fn read_into<I: Source>(
    alloc: Global,
    source: &mut I,
    reads: &mut List<Read>,
) -> Result<(), ReadStop>
    requires { reads.old ≡ [] }
    ensures runs { ReadsFrom (I.left source.old) (I.left source.new) (map item_of reads.new) result }
    ensures failed { IsErrOf result ReadStop.Source → Rose (I.read_faults source.old) (I.read_faults source.new) }
    ensures no_fault { IsErrOf result ReadStop.Source ⊎ (I.read_faults source.new ≡ I.read_faults source.old) }
{
    let mut statements = Statements::new(alloc)?;
    while let Some(read) = statements.next(source)? {
        reads.push(read)?;
    }
    Ok(())
}
