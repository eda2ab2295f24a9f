// A disk that tells nothing of the host beneath it.
ghost use Rattle.std.specs.Prelude.{◌≡◌, IsErr, IsTrue};
ghost use Rattle.mdc_words.specs.Faults.{CountsFault};

use mdc_outside::{Disk, Failed, Host};
use mdc_words::count_fault;

/// The disk of a host whose file is attached. It tells nothing, so that a test over it needs no proof of what the file
/// holds. It asks for the length before it reads or writes.
#[derive(Drop)]
pub struct Silent<H: Host> {
    host: H,
    faults: u64,
    ghost attached: { IsTrue (H.is_attached host) },
}

impl<H: Host> Silent<H> {
    /// The disk of this host.
    pub fn new(host: H) -> Silent<H>
        requires { IsTrue (H.is_attached host) }
    {
        Silent { host, faults: 0 }
    }

    /// Lends the host.
    pub fn host(&self) -> &H {
        &self.host
    }
}

// Counts a fault where a call failed.
fn counted<T: Drop>(faults: &mut u64, outcome: Result<T, Failed>) -> Result<T, Failed>
    ensures { CountsFault (IsErr result) faults.old faults.new }
{
    match outcome {
        Ok(value) => Ok(value),
        Err(Failed) => {
            count_fault(faults);
            Err(Failed)
        }
    }
}

// Reads what lies within the file.
fn read_within<H: Host>(host: &mut H, at: u64, out: &mut [u8]) -> Result<(), Failed>
    requires { IsTrue (H.is_attached host.old) }
    ensures { IsTrue (H.is_attached host.new) }
{
    let end = host.len()?;
    if end < at || end - at < out.len() as u64 {
        return Err(Failed);
    }
    host.read(at, out)
}

// Writes where the file goes so far.
fn write_within<H: Host>(host: &mut H, at: u64, bytes: &[u8]) -> Result<(), Failed>
    requires { IsTrue (H.is_attached host.old) }
    ensures { IsTrue (H.is_attached host.new) }
{
    if host.len()? < at {
        return Err(Failed);
    }
    host.write(at, bytes)
}

impl<H: Host> Disk for Silent<H> {
    ghost use Rattle.std.specs.Prelude.{None, true};

    ghost file = { λ _. None };

    ghost beside = { λ _. record { tape = None; say_faults = 0 } };

    ghost attaches = { λ _. None };

    ghost is_attached = { λ _. true };

    ghost disk_faults = { λ disk. disk.faults };

    ghost clock = { λ _. 0 };

    ghost moment = { λ _ _ _ _. ⊥ };

    ghost sound = { λ _. tt };

    ghost only_now = { λ _. tt };

    ghost earlier = { λ _ _ _ _ _ _ _ may. may };

    fn attach(&mut self, path: &str, make: bool) -> Result<(), Failed> {
        let outcome = self.host.attach(path, make);
        counted(&mut self.faults, outcome)
    }

    fn len(&mut self) -> Result<u64, Failed> {
        let outcome = self.host.len();
        counted(&mut self.faults, outcome)
    }

    fn read(&mut self, at: u64, out: &mut [u8]) -> Result<(), Failed> {
        let outcome = read_within(&mut self.host, at, out);
        counted(&mut self.faults, outcome)
    }

    fn write(&mut self, at: u64, bytes: &[u8]) -> Result<(), Failed> {
        let outcome = write_within(&mut self.host, at, bytes);
        counted(&mut self.faults, outcome)
    }

    fn sync(&mut self) -> Result<(), Failed> {
        let outcome = self.host.sync();
        counted(&mut self.faults, outcome)
    }
}
