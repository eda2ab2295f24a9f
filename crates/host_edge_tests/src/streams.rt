// Standard streams: a reply is written through, and a signal is no fault.
use host_edge::{FileHost, StdinSource};
use mdc_outside::{Failed, Host, Source};
use std::io::{self, BufWriter, Cursor, ErrorKind, Read};
use std::test::Fail;

#[test]
fn a_reply_is_written_through(rt: HostRuntime) -> Result<(), Fail> {
    let room_for_four = Cursor::new([0u8; 4]);
    let output = BufWriter::new(rt.alloc(), room_for_four)?;
    let mut host = FileHost::new(rt.alloc(), rt.clone()?, output);
    assert_eq!(rt; host.say(b"OK\n"), Ok(()));
    assert_eq!(rt; host.say(b"lost"), Err(Failed));
    assert_eq!(rt;
        host.say_error().map(|error| error.kind()),
        Some(ErrorKind::WriteZero)
    );
    Ok(())
}

// A reader whose first read is cut short by a signal, and whose third fails.
#[derive(Drop)]
struct Faltering {
    calls: u64,
}

impl Read for Faltering {
    fn read(&mut self, out: &mut [u8]) -> io::Result<usize> {
        self.calls = self.calls.saturating_add(1);
        match self.calls {
            1 => Err(ErrorKind::Interrupted.into()),
            3 => Err(ErrorKind::BrokenPipe.into()),
            _ => b"SELECT".as_slice().read(out),
        }
    }
}

#[test]
fn a_signal_is_no_fault(rt: HostRuntime) -> Result<(), Fail> {
    let mut source = StdinSource::new(Faltering { calls: 0 });
    let mut out = [0u8; 4];
    assert_eq!(rt; source.read(&mut out), Ok(4));
    assert_eq!(rt; &out, b"SELE");
    assert!(rt; source.read_error().is_none());
    assert_eq!(rt; source.read(&mut out), Err(Failed));
    assert_eq!(rt; source.read(&mut out), Ok(4));
    assert_eq!(rt;
        source.read_error().map(|error| error.kind()),
        Some(ErrorKind::BrokenPipe)
    );
    Ok(())
}
