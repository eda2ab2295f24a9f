// Pages that are written over behind an engine's back.
ghost use Rattle.std.specs.Prelude.{◌≡◌, false, None, OnOk};

use std::test::Fail;
use store_api::{Pages, patch_page};

/// Bytes that are written over those of a page from a place on.
#[derive(Clone, Copy)]
pub struct Patch {
    pub page: u32,
    pub at: usize,
    pub bytes: &'static [u8],
}

/// These bytes, in that place of a page.
pub fn bytes_at(page: u32, at: usize, bytes: &'static [u8]) -> Patch {
    Patch { page, at, bytes }
}

/// Writes patches over pages.
pub fn write_over<P: Pages>(pages: &mut P, patches: &[Patch]) -> Result<(), Fail>
    requires going { (P.state pages.old).ended ≡ false }
    requires unmarked { (P.state pages.old).marked ≡ None }
    ensures going { OnOk result ((P.state pages.new).ended ≡ false) }
    ensures unmarked { OnOk result ((P.state pages.new).marked ≡ None) }
{
    for patch in patches {
        if patch.page >= pages.count() || patch.at > 4095 || patch.bytes.len() > 4096 - patch.at {
            return Err("no such part of a page")?;
        }
        patch_page(pages, patch.page, patch.at, patch.bytes)?;
    }
    Ok(())
}
