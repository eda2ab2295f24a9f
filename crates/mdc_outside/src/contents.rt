// The bytes of a file in memory: those of the first file, until the first write copies them.
ghost use Rattle.std.specs.Prelude.{◌≡◌, ◌≤◌, ◌+◌, length, take, drop, OnOk, OnErr};
ghost use Rattle.mdc_outside.specs.Contents.{contents_of};
ghost use Rattle.mdc_outside.specs.Disk.{overwritten};

use mdc_values::Chars;
use std::alloc::{AllocError, Global};

/// Lends the bytes.
pub fn bytes_of<'a>(first: &'a Option<Chars>, changed: &'a Option<Vec<u8>>) -> &'a [u8]
    ensures { result.now ≡ contents_of first.now changed.now }
{
    match (changed, first) {
        (Some(bytes), _) => bytes,
        (None, Some(bytes)) => bytes.bytes(),
        (None, None) => &[],
    }
}

/// Fills `out` with the bytes from a place on.
pub fn copy_out(bytes: &[u8], at: usize, out: &mut [u8])
    requires { at + length out.old ≤ length bytes.now }
    ensures { out.new ≡ take (length out.old) (drop at bytes.now) }
{
    let (_, rest) = bytes.split_at(at);
    let (piece, _) = rest.split_at(out.len());
    out.copy_from_slice(piece);
}

/// Puts bytes in the place of others. Where memory runs out, nothing is changed.
pub fn overwrite(
    alloc: Global,
    first: &Option<Chars>,
    changed: &mut Option<Vec<u8>>,
    at: usize,
    bytes: &[u8],
) -> Result<(), AllocError>
    requires { at ≤ length (contents_of first.now changed.old) }
    ensures ok { OnOk result (contents_of first.now changed.new ≡ overwritten at bytes.now (contents_of first.now changed.old)) }
    ensures err { OnErr result (contents_of first.now changed.new ≡ contents_of first.now changed.old) }
{
    if let Some(now) = changed {
        return put(now, at, bytes);
    }
    let mut now = bytes_of(first, changed).to_vec(alloc)?;
    put(&mut now, at, bytes)?;
    *changed = Some(now);
    Ok(())
}

/// Puts bytes in the place of others, and past the end. Where memory runs out, nothing is changed.
pub fn put(file: &mut Vec<u8>, at: usize, bytes: &[u8]) -> Result<(), AllocError>
    requires { at ≤ length file.old.items }
    ensures ok { OnOk result (file.new.items ≡ overwritten at bytes.now file.old.items) }
    ensures err { OnErr result (file.new.items ≡ file.old.items) }
{
    let inside = bytes.len().min(file.len() - at);
    file.extend_from_slice(&bytes[inside..])?;
    file[at..at + inside].copy_from_slice(&bytes[..inside]);
    Ok(())
}
