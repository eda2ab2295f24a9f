// What a journal that a crash left holds.
ghost use Rattle.std.specs.Prelude.{◌≡◌, ◌≤◌, ◌<◌, ◌+◌, ◌*◌, ◌^◌, length, drop, IsErr, IsTrue, IfOk, IfErr, IsErrOf};
ghost use Rattle.std.specs.Option.{ForSome};
ghost use Rattle.page_file.specs.Layout.{page_start};
ghost use Rattle.mdc_words.specs.Faults.{CountsFault};
ghost use Rattle.page_file.specs.Bound.{RunsOf};
ghost use Rattle.redo_journal.specs.Faults.{IsDamaged};
ghost use Rattle.redo_journal.specs.Images.{AreRising};
ghost use Rattle.redo_journal.specs.Layout.{FindsJournal, IsJournal, entries, is_open};
ghost use Rattle.page_file.specs.Runs.{IsCovered};

use crate::Images;
use crate::gate::OPEN;
use crate::journal::index_len;
use mdc_outside::{Disk, Failed};
use mdc_values::Memory;
use page_file::{FIRST_PAGE, GATE, HEADER, PAGE_BYTES, end_of, get, read_number, read_page};
use std::alloc::Global;
use store_api::layout::ROOT_PAGE;
use store_api::rules::ROOT_PAGE_RULE;
use store_api::{Damage, Page};

/// Why a replay failed.
#[derive(Clone, Copy, Debug, PartialEq, Eq)]
pub enum ReplayFault {
    /// The disk failed.
    Device,
    /// The journal breaks a rule.
    Damaged(Damage),
    /// Memory ran out.
    Memory,
}

impl From<Failed> for ReplayFault {
    ghost use Rattle.std.specs.Prelude.{◌≡◌};
    ghost use Rattle.redo_journal.specs.declared.replaying.ReplayFault.TheVariants.{Device};

    ghost from_gives = { λ _ e. e ≡ Device };

    fn from(_: Failed) -> Self {
        ReplayFault::Device
    }
}

impl From<Memory> for ReplayFault {
    ghost use Rattle.std.specs.Prelude.{◌≡◌};
    ghost use Rattle.redo_journal.specs.declared.replaying.ReplayFault.TheVariants as fault;

    ghost from_gives = { λ _ e. e ≡ fault.Memory };

    fn from(_: Memory) -> Self {
        ReplayFault::Memory
    }
}

// The journal lies outside the file, or a page number doesn't rise.
const DAMAGED: ReplayFault = ReplayFault::Damaged(Damage {
    page: ROOT_PAGE,
    rule: ROOT_PAGE_RULE,
});

// Reads the images whose numbers stand from `index` on, and whose pages from `pages` on.
fn read_images<D: Disk>(
    alloc: Global,
    disk: &mut D,
    index: u64,
    pages: u64,
    number: u32,
) -> Result<Images, ReplayFault>
    requires attached { IsTrue (D.is_attached disk.old) }
    requires index_within { ForSome (D.file disk.old) (λ file. index + 4 * number ≤ length file.bytes) }
    requires pages_within { ForSome (D.file disk.old) (λ file. pages + page_start number ≤ length file.bytes) }
    requires index_low { index < 2 ^ 48 }
    requires pages_low { pages < 2 ^ 48 }
    ensures images { IfOk result (λ images. ForSome (D.file disk.old) (λ file. images ≡ entries number (drop index file.bytes) (drop pages file.bytes))) }
    ensures rising { IfOk result AreRising }
    ensures damaged { IfErr result (λ fault. IsDamaged fault → (fault ≡ ReplayFault.Damaged (record { page = 0; rule = 1 })) × ForSome (D.file disk.old) (λ file. ¬ AreRising (entries number (drop index file.bytes) (drop pages file.bytes)))) }
    ensures cause { CountsFault (IsErrOf result ReplayFault.Device) (D.disk_faults disk.old) (D.disk_faults disk.new) }
    ensures same { D.file disk.new ≡ D.file disk.old }
    ensures runs { RunsOf D.Disk IsCovered (λ since. since) disk.old disk.new }
{
    let mut images = Images::new(alloc);
    // All of the images lie within the file, so its length bounds the room.
    images.reserve(number as usize)?;
    for k in 0..u64::from(number) {
        let p = read_number(disk, index + 4 * k)?;
        if !images.rise_to(p) {
            return Err(DAMAGED);
        }
        let page = read_page(disk, pages + PAGE_BYTES * k)?;
        images.push(p, boxed(alloc, page)?)?;
    }
    Ok(images)
}

// The page in a box.
fn boxed(alloc: Global, page: Page) -> Result<Box<Page>, Memory>
    ensures { IfOk result (λ boxed. boxed.value ≡ page) }
{
    Ok(Box::new(alloc, page)?)
}

// Whether the gate is open, where the file ends there.
fn is_gate_open<D: Disk>(disk: &mut D, end: u64) -> Result<bool, Failed>
    requires attached { IsTrue (D.is_attached disk.old) }
    requires end { ForSome (D.file disk.old) (λ file. end ≡ length file.bytes) }
    ensures gate { IfOk result (λ state. ForSome (D.file disk.old) (λ file. state ≡ is_open file.bytes)) }
    ensures same { D.file disk.new ≡ D.file disk.old }
    ensures runs { RunsOf D.Disk IsCovered (λ since. since) disk.old disk.new }
    ensures cause { CountsFault (IsErr result) (D.disk_faults disk.old) (D.disk_faults disk.new) }
{
    let mut gate = [0];
    if end > GATE {
        get(disk, GATE, &mut gate)?;
    }
    Ok(gate[0] == OPEN)
}

/// The images of the journal, or nothing where the gate isn't open. It changes nothing in the file.
pub fn replay<D: Disk>(alloc: Global, disk: &mut D) -> Result<Option<Images>, ReplayFault>
    requires { IsTrue (D.is_attached disk.old) }
    ensures found { IfOk result (λ found. ForSome (D.file disk.old) (λ file. FindsJournal found file.bytes)) }
    ensures damaged { IfErr result (λ fault. IsDamaged fault → (fault ≡ ReplayFault.Damaged (record { page = 0; rule = 1 })) × ForSome (D.file disk.old) (λ file. IsTrue (is_open file.bytes) × ¬ IsJournal file.bytes)) }
    ensures cause { CountsFault (IsErrOf result ReplayFault.Device) (D.disk_faults disk.old) (D.disk_faults disk.new) }
    ensures same { D.file disk.new ≡ D.file disk.old }
    ensures runs { RunsOf D.Disk IsCovered (λ since. since) disk.old disk.new }
{
    let end = end_of(disk)?;
    if !is_gate_open(disk, end)? {
        return Ok(None);
    }
    if end < HEADER + 8 {
        return Err(DAMAGED);
    }
    let start = read_number(disk, HEADER)?;
    let number = read_number(disk, HEADER + 4)?;
    let index = u64::from(start) * PAGE_BYTES;
    let pages = index + index_len(number) * PAGE_BYTES;
    if u64::from(start) < FIRST_PAGE || pages + u64::from(number) * PAGE_BYTES > end {
        return Err(DAMAGED);
    }
    match read_images(alloc, disk, index, pages, number) {
        Ok(images) => Ok(Some(images)),
        Err(fault) => Err(fault),
    }
}
