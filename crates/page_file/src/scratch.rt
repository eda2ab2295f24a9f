// A file in memory, for tests of the crates above.
ghost use Rattle.std.specs.Prelude.{◌≡◌, IsErr};
ghost use Rattle.mdc_words.specs.Faults.{CountsFault};

use mdc_outside::{Disk, Failed, Host};
use mdc_words::count_fault;
use std::io::{self, Cursor, Read, Seek, SeekFrom, Write};

/// A host whose file lies in memory. It tells nothing, so that a test over it needs no proof of what the file holds.
#[derive(Drop)]
pub struct Scratch {
    bytes: Cursor<Vec<u8>>,
    faults: u64,
}

impl Scratch {
    /// A host whose file has these bytes.
    pub fn new(bytes: Vec<u8>) -> Scratch
        ensures { ⟦<Scratch as Disk>⟧.disk_faults result ≡ 0 }
    {
        Scratch {
            bytes: Cursor::new(bytes),
            faults: 0,
        }
    }

    /// The bytes of the file.
    pub fn bytes(&self) -> &[u8] {
        self.bytes.get_ref()
    }
}

// Counts a fault where a call failed.
fn counted<T: Drop>(faults: &mut u64, outcome: io::Result<T>) -> Result<T, Failed>
    ensures { CountsFault (IsErr result) faults.old faults.new }
{
    match outcome {
        Ok(value) => Ok(value),
        Err(_) => {
            count_fault(faults);
            Err(Failed)
        }
    }
}

fn read_at(bytes: &mut Cursor<Vec<u8>>, at: u64, out: &mut [u8]) -> io::Result<()> {
    bytes.seek(SeekFrom::Start(at))?;
    bytes.read_exact(out)
}

fn write_at(file: &mut Cursor<Vec<u8>>, at: u64, bytes: &[u8]) -> io::Result<()> {
    file.seek(SeekFrom::Start(at))?;
    file.write_all(bytes)
}

impl Disk for Scratch {
    ghost use Rattle.std.specs.Prelude.{None, true};

    ghost file = { λ _. None };

    ghost beside = { λ _. record { tape = None; say_faults = 0 } };

    ghost attaches = { λ _. None };

    ghost is_attached = { λ _. true };

    ghost disk_faults = { λ scratch. scratch.faults };

    ghost clock = { λ _. 0 };

    ghost moment = { λ _ _ _ _. ⊥ };

    ghost sound = { λ _. tt };

    ghost only_now = { λ _. tt };

    ghost earlier = { λ _ _ _ _ _ _ _ may. may };

    fn attach(&mut self, _path: &str, _make: bool) -> Result<(), Failed> {
        Ok(())
    }

    fn len(&mut self) -> Result<u64, Failed> {
        let outcome = self.bytes.seek(SeekFrom::End(0));
        counted(&mut self.faults, outcome)
    }

    fn read(&mut self, at: u64, out: &mut [u8]) -> Result<(), Failed> {
        let outcome = read_at(&mut self.bytes, at, out);
        counted(&mut self.faults, outcome)
    }

    fn write(&mut self, at: u64, bytes: &[u8]) -> Result<(), Failed> {
        let outcome = write_at(&mut self.bytes, at, bytes);
        counted(&mut self.faults, outcome)
    }

    fn sync(&mut self) -> Result<(), Failed> {
        Ok(())
    }
}

impl Host for Scratch {
    ghost use Rattle.std.specs.Prelude.{refl, None};

    ghost tape = { λ _. None };

    ghost say_faults = { λ _. 0 };

    ghost lies_beside = { λ _. (refl, refl) };

    fn say(&mut self, _bytes: &[u8]) -> Result<(), Failed> {
        Ok(())
    }
}
