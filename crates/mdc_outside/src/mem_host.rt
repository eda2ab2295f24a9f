// A host in memory, for tests.
ghost use Rattle.std.specs.Prelude.{◌≡◌, ◌≢◌, ◌≤◌, ◌-◌, slice_get, [], true, false, Ok, Some, length, IsErr, IsTrue, IsFalse, IfOk, OnOk, OnErr, vec_items};
ghost use Rattle.std.specs.Option.{option_map};

use crate::call::{Call, Entry, Event};
use crate::{Disk, Failed, Host, aftermath, contents};
use mdc_values::{Chars, Memory};
use mdc_words::count_fault;
use std::alloc::Global;
use std::marker::Model;

/// A host that keeps its file and its tape in memory, and records its calls. It has one file under every path. It fails
/// the calls whose numbers, counted from 1, stand in `fails`. A buffer that can't grow counts as a fault of its call.
#[derive(Debug, Drop)]
pub struct MemHost {
    alloc: Global,
    first: Option<Chars>,
    heard: Chars,
    changed: Option<Vec<u8>>,
    is_there: bool,
    is_attached: bool,
    tape: Vec<u8>,
    entries: Vec<Entry>,
    fails: Vec<u64>,
    begun: u64,
    disk_faults: u64,
    say_faults: u64,
}

impl Model for MemHost {
    ghost use Rattle.mdc_outside.specs.Contents.{contents_of};
    ghost use Rattle.mdc_outside.specs.Replay.{Past, IsUpToDate, replay, at_first};

    ghost Value = { Past };

    ghost view = { λ host. record {
      first = host.first;
      heard = host.heard;
      entries = host.entries.items;
      is_attached = host.is_attached;
      disk_faults = host.disk_faults;
      say_faults = host.say_faults;
    } };

    ghost invariant = { λ host. IsUpToDate (contents_of host.first host.changed) host.is_there host.tape.items
        (replay (at_first host.first host.heard) host.entries.items) };
}

impl MemHost {
    ghost use Rattle.mdc_outside.specs.Moments.{WhereTold};
    ghost use Rattle.mdc_words.specs.Faults.{CountsFault};
    ghost use Rattle.mdc_outside.specs.Calls.{call_of};
    ghost use Rattle.mdc_outside.specs.Disk.{file_at_first};
    ghost use Rattle.mdc_outside.specs.Aftermath.{IsLeftWithin};
    ghost use Rattle.mdc_outside.specs.Points.{IsLeftAt};
    ghost use Rattle.mdc_outside.specs.Replay.{host_state, state_before, fresh, with_disk_faults, with_file, IsQuiet, IsRecorded, IsAnswered, IsSaid};
    ghost use Rattle.mdc_outside.specs.declared.call.Event.TheVariants.{Attach, Len, Read, Write, Sync, Say};

    /// A host with an empty tape and one file, all of it on the disk, or none. Nothing is attached, and no call counted.
    pub fn new(alloc: Global, file: Option<Vec<u8>>, fails: Vec<u64>) -> MemHost
        ensures file { ⟦<MemHost as Disk>⟧.file result ≡ Some (file_at_first (option_map vec_items file)) }
        ensures tape { ⟦<MemHost as Host>⟧.tape result ≡ Some [] }
        ensures listed { ⟦<MemHost as Disk>⟧.attaches result ≡ Some [] }
        ensures detached { ⟦<MemHost as Disk>⟧.is_attached result ≡ false }
        ensures disk_count { ⟦<MemHost as Disk>⟧.disk_faults result ≡ 0 }
        ensures say_count { ⟦<MemHost as Host>⟧.say_faults result ≡ 0 }
        ensures clock { ⟦<MemHost as Disk>⟧.clock result ≡ 0 }
        ensures fresh { result ≡ fresh (option_map vec_items file) [] }
    {
        MemHost {
            alloc,
            is_there: file.is_some(),
            first: file.map(Chars::from_vec),
            heard: Chars::from_vec(Vec::new(alloc)),
            changed: None,
            is_attached: false,
            tape: Vec::new(alloc),
            entries: Vec::new(alloc),
            fails,
            begun: 0,
            disk_faults: 0,
            say_faults: 0,
        }
    }

    /// Lends the tape.
    pub fn said(&self) -> &[u8]
        ensures { ⟦<MemHost as Host>⟧.tape self.now ≡ Some result.now }
    {
        &self.tape
    }

    /// How many calls are recorded.
    pub fn calls(&self) -> u64
        ensures { result ≡ ⟦<MemHost as Disk>⟧.clock self.now }
    {
        self.entries.len() as u64
    }

    /// The recorded call of this number, counted from 1.
    pub fn call(&self, n: u64) -> Call
        requires first { 1 ≤ n }
        requires last { n ≤ ⟦<MemHost as Disk>⟧.clock self.now }
        ensures { option_map call_of (slice_get self.now.entries (n - 1)) ≡ Some result }
    {
        self.entries[n as usize - 1].call()
    }

    /// A host as a crash within the recorded call of this number leaves it. Its file has the greatest length since the
    /// last sync that succeeded, the call itself counted, and what was written since holds the fill, or what was
    /// written. It is there if it was before the call, or has bytes. Its tape is the one before the call. No file is
    /// attached to it.
    pub fn after(&self, alloc: Global, call: u64, fill: Option<u8>) -> Result<MemHost, Memory>
        requires first { 1 ≤ call }
        requires last { call ≤ ⟦<MemHost as Disk>⟧.clock self.now }
        ensures fresh { IfOk result (λ host. host ≡ fresh host.first host.heard) }
        ensures tape { IfOk result (λ host. host.heard ≡ (state_before call self.now).tape) }
        ensures there { IfOk result (λ host. IsTrue (state_before call self.now).file.is_there → IsTrue (host_state host).file.is_there) }
        ensures absent { IfOk result (λ host. IsFalse (state_before call self.now).file.is_there → (host_state host).file.bytes ≡ [] → IsFalse (host_state host).file.is_there) }
        ensures bytes { IfOk result (λ host. IsLeftWithin fill call self.now (host_state host).file.bytes) }
        ensures moment { IfOk result (λ host. WhereTold (⟦<MemHost as Disk>⟧.file host) (⟦<MemHost as Disk>⟧.beside host).tape
            (λ file tape. ⟦<MemHost as Disk>⟧.moment self.now (call - 1) file.bytes tape)) }
        ensures within { IfOk result (λ host. IsLeftAt self.now (call - 1) (host_state host).file.bytes (host_state host).tape) }
    {
        let n = call as usize - 1;
        let (before, _) = self.entries.split_at(n);
        let first = contents::bytes_of(&self.first, &None);
        let mut bytes = aftermath::left_after(alloc, first, before, fill)?;
        aftermath::tear(alloc, &mut bytes, &self.entries[n].event, fill)?;
        let tape = aftermath::said_after(alloc, self.heard.bytes(), before)?;
        let was_there = aftermath::is_there_after(self.first.is_some(), before);
        MemHost::resume(alloc, bytes, tape, was_there)
    }

    // A host with this file and tape, and no call yet.
    fn resume(
        alloc: Global,
        bytes: Vec<u8>,
        tape: Vec<u8>,
        was_there: bool,
    ) -> Result<MemHost, Memory>
        ensures fresh { IfOk result (λ host. host ≡ fresh host.first tape.items) }
        ensures bytes { IfOk result (λ host. (file_at_first host.first).bytes ≡ bytes.items) }
        ensures there { IfOk result (λ host. IsTrue was_there → IsTrue (file_at_first host.first).is_there) }
        ensures absent { IfOk result (λ host. IsFalse was_there → bytes.items ≡ [] → IsFalse (file_at_first host.first).is_there) }
    {
        let heard = Chars::of(alloc, &tape)?;
        let is_there = was_there || !bytes.is_empty();
        Ok(MemHost {
            alloc,
            first: is_there.then_some(Chars::from_vec(bytes)),
            heard,
            changed: None,
            is_there,
            is_attached: false,
            tape,
            entries: Vec::new(alloc),
            fails: Vec::new(alloc),
            begun: 0,
            disk_faults: 0,
            say_faults: 0,
        })
    }

    // Lends the bytes of the file.
    fn bytes(&self) -> &[u8]
        ensures { result.now ≡ (host_state self.now).file.bytes }
    {
        contents::bytes_of(&self.first, &self.changed)
    }

    // Counts a call, and answers whether it is to be done.
    fn begin(&mut self) -> bool
        ensures { self.new ≡ self.old }
    {
        self.begun = self.begun.saturating_add(1);
        !self.fails.contains(&self.begun)
    }

    // Answers a call of the disk, and counts a fault where it wasn't done.
    fn answer(&mut self, outcome: Result<bool, Memory>) -> Result<(), Failed>
        ensures ok { OnOk result ((outcome ≡ Ok true) × (self.new ≡ self.old)) }
        ensures err { OnErr result ((outcome ≢ Ok true) × (self.new ≡ with_disk_faults self.new.disk_faults self.old)) }
        ensures cause { CountsFault (IsErr result) self.old.disk_faults self.new.disk_faults }
    {
        if let Ok(true) = outcome {
            return Ok(());
        }
        count_fault(&mut self.disk_faults);
        Err(Failed)
    }

    // Makes a call that keeps the bytes and the tape.
    fn note(&mut self, event: Event) -> Result<(), Failed>
        requires { IsQuiet event }
        ensures answer { IsAnswered event result self.old self.new }
        ensures cause { CountsFault (IsErr result) self.old.disk_faults self.new.disk_faults }
    {
        let done = self.begin();
        let outcome = self.try_note(event, done);
        self.answer(outcome)
    }

    // Records a call that keeps the bytes and the tape.
    fn try_note(&mut self, event: Event, done: bool) -> Result<bool, Memory>
        requires { IsQuiet event }
        ensures recorded { IsRecorded event result self.old self.new }
        ensures done { IfOk result (λ recorded. recorded ≡ done) }
    {
        self.entries.push(Entry { event, done })?;
        Ok(done)
    }

    // Makes an attach.
    fn open(&mut self, path: &str, make: bool) -> Result<(), Failed>
        ensures answer { IsAnswered (Attach path.now make) result self.old self.new }
        ensures there { OnOk result (make ≡ false → IsTrue (host_state self.old).file.is_there) }
        ensures cause { CountsFault (IsErr result) self.old.disk_faults self.new.disk_faults }
    {
        let done = self.begin() && (make || self.is_there);
        let outcome = self.try_open(path, make, done);
        self.answer(outcome)
    }

    // Records an attach, and makes the file where it is done.
    fn try_open(&mut self, path: &str, make: bool, done: bool) -> Result<bool, Memory>
        ensures recorded { IsRecorded (Attach path.now make) result self.old self.new }
        ensures done { IfOk result (λ recorded. recorded ≡ done) }
    {
        let path = Chars::of(self.alloc, path.as_bytes())?;
        let event = Event::Attach(path, make);
        self.entries.push(Entry { event, done })?;
        self.is_there = self.is_there || done;
        Ok(done)
    }

    // Has a file attached.
    fn mark_attached(&mut self)
        ensures { self.new ≡ with_file self.old }
    {
        self.is_attached = true;
    }

    // Makes a write.
    fn put(&mut self, at: u64, bytes: &[u8]) -> Result<(), Failed>
        requires { at ≤ length (host_state self.old).file.bytes }
        ensures answer { IsAnswered (Write at bytes.now) result self.old self.new }
        ensures cause { CountsFault (IsErr result) self.old.disk_faults self.new.disk_faults }
    {
        let done = self.begin();
        let outcome = self.try_write(at, bytes, done);
        self.answer(outcome)
    }

    // Records a write, and writes the bytes where it is done.
    fn try_write(&mut self, at: u64, bytes: &[u8], done: bool) -> Result<bool, Memory>
        requires { at ≤ length (host_state self.old).file.bytes }
        ensures recorded { IsRecorded (Write at bytes.now) result self.old self.new }
        ensures done { IfOk result (λ recorded. recorded ≡ done) }
    {
        let event = Event::Write(at, Chars::of(self.alloc, bytes)?);
        self.entries.try_reserve(1)?;
        if done {
            contents::overwrite(
                self.alloc,
                &self.first,
                &mut self.changed,
                at as usize,
                bytes,
            )?;
        }
        self.is_there = true;
        self.entries.push_reserved(Entry { event, done });
        Ok(done)
    }

    // Makes a say.
    fn utter(&mut self, bytes: &[u8]) -> Result<(), Failed>
        ensures said { IsSaid bytes.now result self.old self.new }
        ensures cause { CountsFault (IsErr result) self.old.say_faults self.new.say_faults }
    {
        let done = self.begin();
        if let Ok(true) = self.try_say(bytes, done) {
            return Ok(());
        }
        count_fault(&mut self.say_faults);
        Err(Failed)
    }

    // Records a say, and puts the bytes on the tape where it is done.
    fn try_say(&mut self, bytes: &[u8], done: bool) -> Result<bool, Memory>
        ensures recorded { IsRecorded (Say bytes.now) result self.old self.new }
        ensures done { IfOk result (λ recorded. recorded ≡ done) }
    {
        let event = Event::Say(Chars::of(self.alloc, bytes)?);
        self.entries.try_reserve(1)?;
        if done {
            self.tape.extend_from_slice(bytes)?;
        }
        self.entries.push_reserved(Entry { event, done });
        Ok(done)
    }
}

impl Disk for MemHost {
    ghost use Rattle.mdc_outside.specs.Replay.{host_state, beside_of, may_leave, attaches_in};
    ghost use Rattle.mdc_outside.specs.ReplayLaws.{sound, only_now, earlier};

    ghost file = { λ host. Some (host_state host).file };

    ghost beside = { beside_of };

    ghost attaches = { λ host. Some (attaches_in host.entries) };

    ghost is_attached = { λ host. host.is_attached };

    ghost disk_faults = { λ host. host.disk_faults };

    ghost clock = { λ host. length host.entries };

    ghost moment = { may_leave };

    ghost sound = { sound };

    ghost only_now = { only_now };

    ghost earlier = { earlier };

    fn attach(&mut self, path: &str, make: bool) -> Result<(), Failed> {
        self.open(path, make)?;
        self.mark_attached();
        Ok(())
    }

    fn len(&mut self) -> Result<u64, Failed> {
        self.note(Event::Len)?;
        Ok(self.bytes().len() as u64)
    }

    fn read(&mut self, at: u64, out: &mut [u8]) -> Result<(), Failed> {
        self.note(Event::Read(at))?;
        contents::copy_out(self.bytes(), at as usize, out);
        Ok(())
    }

    fn write(&mut self, at: u64, bytes: &[u8]) -> Result<(), Failed> {
        self.put(at, bytes)
    }

    fn sync(&mut self) -> Result<(), Failed> {
        self.note(Event::Sync)
    }
}

impl Host for MemHost {
    ghost use Rattle.std.specs.Prelude.{refl};
    ghost use Rattle.mdc_outside.specs.Replay.{host_state};

    ghost tape = { λ host. Some (host_state host).tape };

    ghost say_faults = { λ host. host.say_faults };

    ghost lies_beside = { λ host. (refl, refl) };

    fn say(&mut self, bytes: &[u8]) -> Result<(), Failed> {
        self.utter(bytes)
    }
}
