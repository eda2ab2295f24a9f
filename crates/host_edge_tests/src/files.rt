// A file of the system and the scratch file give back what was written.
use crate::disks::{read_word, write_greeting};
use host_edge::FileHost;
use mdc_outside::{Disk, Failed};
use std::test::Fail;
use std::{env, fs, process};

#[test]
fn a_file_keeps_what_is_written(rt: HostRuntime) -> Result<(), Fail> {
    let name = format!(in rt.alloc(); "host-edge-{}", process::id(rt.process()))?;
    let folder = env::temp_dir(&rt)?.join(rt.alloc(), name.as_str())?;
    let path = folder.join(rt.alloc(), "data")?;
    fs::create_dir(&rt, folder.as_path())?;
    let mut host = FileHost::new(rt.alloc(), rt.clone()?, Vec::new(rt.alloc()));
    let missing = host.attach(path.as_str(), false);
    let directory = host.attach(folder.as_str(), true);
    let written = write_greeting(&mut host, path.as_str());
    let word = read_word(&mut host, path.as_str(), 6);
    let past = read_word(&mut host, path.as_str(), 8);
    let bytes = fs::read(&rt, path.as_path())?;
    fs::remove_dir_all(&rt, folder.as_path())?;
    assert_eq!(rt; (missing, directory), (Err(Failed), Err(Failed)));
    assert_eq!(rt; written, Ok(()));
    assert_eq!(rt; word, Ok((12, Ok(*b"there"))));
    assert_eq!(rt; past, Ok((12, Err(Failed))));
    assert_eq!(rt; bytes.as_slice(), b"hello there!".as_slice());
    Ok(())
}

#[test]
fn the_scratch_file_keeps_what_is_written(rt: HostRuntime) -> Result<(), Fail> {
    let mut host = FileHost::new(rt.alloc(), rt.clone()?, Vec::new(rt.alloc()));
    assert_eq!(rt; host.attach("-", false), Err(Failed), "not made yet");
    assert_eq!(rt; write_greeting(&mut host, "-"), Ok(()));
    assert_eq!(rt; read_word(&mut host, "-", 6), Ok((12, Ok(*b"there"))));
    assert_eq!(rt; read_word(&mut host, "-", 8), Ok((12, Err(Failed))));
    Ok(())
}
