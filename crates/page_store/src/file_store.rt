// A store in a database file.
ghost use Rattle.std.specs.Prelude.{◌≡◌, IsErr, OnOk};
ghost use Rattle.mdc_words.specs.Faults.{CountsFault};
ghost use Rattle.mdc_words.specs.Time.{OverTime};
ghost use Rattle.mdc_outside.specs.Moments.{IsWithinCall};
ghost use Rattle.mdc_outside.specs.Outside.{Takes, TakesPart};

use crate::desk::Desk;
use crate::origin::Origin;
use dirty_pages::{FetchLog, Untold};
use mdc_outside::Host;
use std::marker::{Brand, Model, PhantomData};
use store_api::{DeviceFault, Mute, Page, PageFault, Pages, Store};

/// A store whose base is what the file of its host stands for. It owns the host, and tells bytes through it. Where the
/// host tells its file, the store tells its pages; it tells no fetches. What a crash leaves of the file reopens to pages
/// where it is formed, states the store's shape, and has all that isn't the store's as the file has it.
///
/// Beside its pages it tells the shape of its file and the host's attaches, so that whoever gets a store back from code over
/// any store knows them.
///
/// Where `O` says what the file was as it was opened, the store knows what its commits have made of it: its front is as it
/// was, and it is no longer than it was, or than its pages and one journal.
#[derive(Drop)]
pub struct FileStore<H: Host, O: Origin = Brand, L: FetchLog = Untold> {
    pub(crate) host: H,
    pub(crate) desk: Desk,
    pub(crate) log: L,
    pub(crate) origin: PhantomData<O>,
}

impl<H: Host, O: Origin, L: FetchLog> Model for FileStore<H, O, L> {
    ghost use Rattle.page_store.specs.FileStore.{HeldStore, FitsFile};

    ghost Value = { HeldStore H L };

    ghost view = { λ s. record { host = s.host; desk = s.desk; log = s.log } };

    ghost invariant = { λ s. FitsFile O.first (H.is_attached s.host) (H.file s.host) s.desk };
}

impl<H: Host, O: Origin, L: FetchLog> Pages for FileStore<H, O, L> {
    ghost use Rattle.page_store.specs.Desk.{state_of, written_in};
    ghost use Rattle.page_store.specs.FileStore.{beside_of, left_of, left_of-earlier, with_log};

    ghost state = { λ s. with_log (L.told s.log) (state_of (H.file s.host) (H.beside s.host).tape (beside_of s.desk.shape (H.attaches s.host)) s.desk) };

    ghost written = { λ s. written_in s.desk };

    ghost disk_faults = { λ s. H.disk_faults s.host };

    ghost say_faults = { λ s. H.say_faults s.host };

    ghost clock = { λ s. H.clock s.host };

    ghost left = { λ s. left_of s.desk.shape (H.file s.host) (H.beside s.host).tape (H.moment s.host) };

    ghost earlier = { λ s. left_of-earlier s.desk.shape (H.file s.host) (H.beside s.host).tape (H.moment s.host) (H.clock s.host) (H.earlier s.host) };

    fn count(&self) -> u32 {
        self.desk.changes.count()
    }

    fn fetch(&mut self, p: u32) -> Result<(), PageFault> {
        self.desk.fetch(&mut self.host, &mut self.log, p)
    }

    fn page(&self) -> &Page {
        self.desk.page()
    }

    fn write(&mut self, p: u32, bytes: &Page) -> Result<(), PageFault> {
        self.desk.write(p, bytes)
    }

    fn edit(&mut self, p: u32) -> Result<&mut Page, PageFault> {
        match self.desk.admit(&mut self.host, &mut self.log, p) {
            Ok(()) => self.desk.edit(p, &mut self.log),
            Err(fault) => Err(fault),
        }
    }

    fn grow(&mut self, n: u32) -> Result<(), PageFault> {
        self.desk.grow(n);
        Ok(())
    }

    fn mark(&mut self) {
        self.desk.mark();
    }

    fn keep(&mut self) -> Result<(), PageFault> {
        self.desk.keep();
        Ok(())
    }

    fn undo(&mut self) {
        self.desk.undo();
    }
}

impl<H: Host, O: Origin, L: FetchLog> Store for FileStore<H, O, L> {
    fn written(&self) -> u32 {
        self.desk.written()
    }

    fn committed(&mut self, p: u32) -> Result<(), PageFault> {
        self.desk.committed(&mut self.host, &mut self.log, p)
    }

    fn prepare(&mut self) -> Result<(), PageFault> {
        self.desk.prepare()
    }

    fn commit(&mut self) -> Result<(), DeviceFault> {
        self.desk.commit(&mut self.host)
    }

    fn rollback(&mut self) {
        self.desk.rollback();
    }

    fn tell(&mut self, bytes: &[u8]) -> Result<(), Mute> {
        self.desk.hand = None;
        say(&mut self.host, bytes)
    }
}

// Has the host say bytes. Where that fails, it has said some first part of them.
fn say<H: Host>(host: &mut H, bytes: &[u8]) -> Result<(), Mute>
    ensures said { OnOk result (Takes (H.beside host.old).tape bytes.now (H.beside host.new).tape) }
    ensures part { TakesPart (H.beside host.old).tape bytes.now (H.beside host.new).tape }
    ensures cause { CountsFault (IsErr result) (H.say_faults host.old) (H.say_faults host.new) }
    ensures file { H.file host.new ≡ H.file host.old }
    ensures attached { H.is_attached host.new ≡ H.is_attached host.old }
    ensures listed { H.attaches host.new ≡ H.attaches host.old }
    ensures disk_count { H.disk_faults host.new ≡ H.disk_faults host.old }
    ensures time { OverTime H.clock H.moment (IsWithinCall (H.file host.old) (H.beside host.old).tape bytes.now) host.old host.new }
{
    match host.say(bytes) {
        Ok(()) => Ok(()),
        Err(_) => Err(Mute),
    }
}
