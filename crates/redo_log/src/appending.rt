// One record more.
ghost use Rattle.std.specs.Prelude.{◌≡◌, ◌≤◌, ◌<◌, ◌+◌, ◌^◌, length, IsTrue, IsFalse, IsErr, IsErrOf, OnOk, OnErr, IfErr};
ghost use Rattle.std.specs.Option.{ForSome};
ghost use Rattle.mdc_words.specs.Faults.{CountsFault};
ghost use Rattle.page_file.specs.Bound.{LeavesOf};
ghost use Rattle.redo_journal.specs.Layout.{is_open};
ghost use Rattle.redo_log.specs.Appending.{IsTaken, IsAdded, OnlyRecord, StandsEither};
ghost use Rattle.redo_log.specs.Layout.{log_end, need_of};
ghost use Rattle.redo_log.specs.Log.{IsLogged, IsLogOf, BothFiles, HasNoRoom, IsFull, end_page_of, no_room, records_of};

use crate::gates::set_gate;
use crate::layout::{GATE_COUNT, LOG_END, OPEN};
use crate::record::{index_len, write_record};
use crate::{LogFault, RedoLog};
use mdc_outside::{Disk, Failed};
use redo_journal::LentImages;

impl RedoLog {
    /// Adds a record of these images: at each moment the file stands for what it stood for, or for that with the images.
    ///
    /// It answers `NoRoom` exactly where the images and their index pages need more pages than are free, or all gates are
    /// used; then it makes no call of the disk. It answers `Device` only where the disk failed. It takes no memory.
    pub fn append<D: Disk>(&mut self, disk: &mut D, images: &LentImages<'_>) -> Result<(), LogFault>
        requires attached { IsTrue (D.is_attached disk.old) }
        requires log { ForSome (D.file disk.old) (IsLogOf self.old) }
        requires shut { ForSome (D.file disk.old) (λ file. IsFalse (is_open file.bytes)) }
        requires taken { ForSome (D.file disk.old) (λ file. IsTaken (records_of self.old) images.now file.bytes) }
        requires some { 0 < length images.now }
        requires few { length images.now < 2 ^ 31 }
        ensures added { OnOk result (BothFiles (D.file disk.old) (D.file disk.new) (IsAdded (records_of self.old) images.now)) }
        ensures log { OnOk result (ForSome (D.file disk.new) (IsLogOf self.new)) }
        ensures counts { OnOk result ((records_of self.new ≡ records_of self.old + 1) × (end_page_of self.new ≡ end_page_of self.old + need_of (length images.now))) }
        ensures full { HasNoRoom self.old (length images.now) → IsFull self.old (length images.now) result × (disk.new ≡ disk.old) × (self.new ≡ self.old) }
        ensures not_full { IfErr result (λ fault. IsTrue (no_room fault) → HasNoRoom self.old (length images.now)) }
        ensures as_before { OnErr result (self.new ≡ self.old) }
        ensures leaves { LeavesOf D.Disk (StandsEither (records_of self.old) images.now) disk.old disk.new }
        ensures only { LeavesOf D.Disk (OnlyRecord (records_of self.old) (length images.now)) disk.old disk.new }
        ensures cause { CountsFault (IsErrOf result LogFault.Device) (D.disk_faults disk.old) (D.disk_faults disk.new) }
    {
        let gates = u32::from(self.gates);
        let number = images.len() as u32;
        let need = index_len(number) as u32 + number;
        let free = LOG_END - self.end;
        if need > free || gates == GATE_COUNT {
            return Err(LogFault::NoRoom {
                need,
                free,
                gates: self.gates,
            });
        }
        add_record(disk, gates, self.end, images)?;
        *self = RedoLog {
            gates: self.gates + 1,
            end: self.end + need,
        };
        Ok(())
    }
}

// Adds record n, which has room behind the others: at each moment the file stands for what it stood for, or for that with
// the images.
fn add_record<D: Disk>(
    disk: &mut D,
    n: u32,
    end: u32,
    images: &LentImages<'_>,
) -> Result<(), Failed>
    requires attached { IsTrue (D.is_attached disk.old) }
    requires logged { ForSome (D.file disk.old) (IsLogged n) }
    requires ends { ForSome (D.file disk.old) (λ file. log_end n file.bytes ≡ end) }
    requires shut { ForSome (D.file disk.old) (λ file. IsFalse (is_open file.bytes)) }
    requires taken { ForSome (D.file disk.old) (λ file. IsTaken n images.now file.bytes) }
    requires few { n < 32 }
    requires behind_gates { 2 ≤ end }
    requires some { 0 < length images.now }
    requires room { end + need_of (length images.now) ≤ 66 }
    ensures added { OnOk result (BothFiles (D.file disk.old) (D.file disk.new) (IsAdded n images.now)) }
    ensures leaves { LeavesOf D.Disk (StandsEither n images.now) disk.old disk.new }
    ensures only { LeavesOf D.Disk (OnlyRecord n (length images.now)) disk.old disk.new }
    ensures cause { CountsFault (IsErr result) (D.disk_faults disk.old) (D.disk_faults disk.new) }
{
    write_record(disk, n, end, images)?;
    set_gate(disk, n, OPEN)
}
