// A record that counts, as it is read and laid over those before it.
ghost use Rattle.std.specs.Prelude.{◌≡◌, ◌≤◌, ◌<◌, ◌+◌, ◌*◌, ◌^◌, ◌++◌, length, drop, IsErrOf, IsTrue, OnOk, IfOk, IfErr};
ghost use Rattle.std.specs.Option.{ForSome};
ghost use Rattle.mdc_words.specs.Faults.{CountsFault};
ghost use Rattle.page_file.specs.Bound.{RunsOf};
ghost use Rattle.page_file.specs.Layout.{page_start};
ghost use Rattle.page_file.specs.Runs.{IsCovered};
ghost use Rattle.redo_journal.specs.Faults.{IsDamaged};
ghost use Rattle.redo_journal.specs.Images.{AreRising};
ghost use Rattle.redo_journal.specs.Layout.{entries};
ghost use Rattle.redo_log.specs.declared.layout.TheConstants.{FIRST_LOG_PAGE};
ghost use Rattle.redo_log.specs.Layout.{end_at, record_at};
ghost use Rattle.redo_log.specs.Replaying.{IsPlaced, LaysOver};

use crate::Overlay;
use crate::layout::{LOG_END, LOG_HEADER_BYTES, LOG_HEADERS};
use crate::record::index_len;
use mdc_outside::Disk;
use mdc_values::Memory;
use page_file::{PAGE_BYTES, read_number, read_page};
use redo_journal::ReplayFault;
use std::alloc::Global;
use store_api::layout::ROOT_PAGE;
use store_api::rules::ROOT_PAGE_RULE;
use store_api::{Damage, Page};

// The record lies outside the log or the file, or a page number doesn't rise.
const DAMAGED: ReplayFault = ReplayFault::Damaged(Damage {
    page: ROOT_PAGE,
    rule: ROOT_PAGE_RULE,
});

/// Lays the images of record k over an overlay, where the record lies from file page `low` on in a file that ends at `end`.
/// It gives the file page behind the record, and changes nothing in the file.
pub(crate) fn lay_record<D: Disk>(
    alloc: Global,
    disk: &mut D,
    k: u32,
    low: u32,
    end: u64,
    overlay: &mut Overlay,
) -> Result<u32, ReplayFault>
    requires attached { IsTrue (D.is_attached disk.old) }
    requires end { ForSome (D.file disk.old) (λ file. end ≡ length file.bytes) }
    requires few { k < 32 }
    requires behind_gates { FIRST_LOG_PAGE ≤ low }
    ensures behind { IfOk result (λ behind. ForSome (D.file disk.old) (λ file. behind ≡ end_at k file.bytes)) }
    ensures within { IfOk result (λ behind. (low ≤ behind) × (behind ≤ 66)) }
    ensures laid { OnOk result (ForSome (D.file disk.old) (λ file. LaysOver (record_at k file.bytes) overlay.old overlay.new)) }
    ensures placed { OnOk result (ForSome (D.file disk.old) (λ file. IsPlaced low k file.bytes)) }
    ensures damaged { IfErr result (λ fault. IsDamaged fault → (fault ≡ ReplayFault.Damaged (record { page = 0; rule = 1 })) × ForSome (D.file disk.old) (λ file. ¬ IsPlaced low k file.bytes)) }
    ensures cause { CountsFault (IsErrOf result ReplayFault.Device) (D.disk_faults disk.old) (D.disk_faults disk.new) }
    ensures same { D.file disk.new ≡ D.file disk.old }
    ensures runs { RunsOf D.Disk IsCovered (λ since. since) disk.old disk.new }
{
    if end < u64::from(low) * PAGE_BYTES {
        return Err(DAMAGED);
    }
    let header = LOG_HEADERS + LOG_HEADER_BYTES * u64::from(k);
    let start = read_number(disk, header)?;
    let number = read_number(disk, header + 4)?;
    let pages = u64::from(start) + index_len(number);
    let behind = pages + u64::from(number);
    if start < low {
        return Err(DAMAGED);
    }
    if behind > u64::from(LOG_END) {
        return Err(DAMAGED);
    }
    if behind * PAGE_BYTES > end {
        return Err(DAMAGED);
    }
    let index = u64::from(start) * PAGE_BYTES;
    match lay_images(alloc, disk, index, pages * PAGE_BYTES, number, overlay) {
        Ok(()) => Ok(behind as u32),
        Err(fault) => Err(fault),
    }
}

// Lays images over an overlay, whose numbers stand from `index` on, and whose pages from `pages` on.
fn lay_images<D: Disk>(
    alloc: Global,
    disk: &mut D,
    index: u64,
    pages: u64,
    number: u32,
    overlay: &mut Overlay,
) -> Result<(), ReplayFault>
    requires attached { IsTrue (D.is_attached disk.old) }
    requires index_within { ForSome (D.file disk.old) (λ file. index + 4 * number ≤ length file.bytes) }
    requires pages_within { ForSome (D.file disk.old) (λ file. pages + page_start number ≤ length file.bytes) }
    requires index_low { index < 2 ^ 48 }
    requires pages_low { pages < 2 ^ 48 }
    ensures laid { OnOk result (ForSome (D.file disk.old) (λ file. LaysOver (entries number (drop index file.bytes) (drop pages file.bytes)) overlay.old overlay.new)) }
    ensures rising { OnOk result (ForSome (D.file disk.old) (λ file. AreRising (entries number (drop index file.bytes) (drop pages file.bytes)))) }
    ensures damaged { IfErr result (λ fault. IsDamaged fault → (fault ≡ ReplayFault.Damaged (record { page = 0; rule = 1 })) × ForSome (D.file disk.old) (λ file. ¬ AreRising (entries number (drop index file.bytes) (drop pages file.bytes)))) }
    ensures cause { CountsFault (IsErrOf result ReplayFault.Device) (D.disk_faults disk.old) (D.disk_faults disk.new) }
    ensures same { D.file disk.new ≡ D.file disk.old }
    ensures runs { RunsOf D.Disk IsCovered (λ since. since) disk.old disk.new }
{
    // One more than the last number, or 0: the least that the next one may be.
    let mut least = 0;
    for k in 0..u64::from(number) {
        let p = read_number(disk, index + 4 * k)?;
        let number_read = u64::from(p);
        if number_read < least {
            return Err(DAMAGED);
        }
        let page = read_page(disk, pages + PAGE_BYTES * k)?;
        overlay.put(p, boxed(alloc, page)?)?;
        least = number_read + 1;
    }
    Ok(())
}

// The page in a box.
fn boxed(alloc: Global, page: Page) -> Result<Box<Page>, Memory>
    ensures { IfOk result (λ boxed. boxed.value ≡ page) }
{
    Ok(Box::new(alloc, page)?)
}
