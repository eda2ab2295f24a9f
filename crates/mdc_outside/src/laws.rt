// What holds of every disk, and of every host in memory.
ghost use Rattle.std.specs.Prelude.{◌↔◌, ◌≤◌, ℕ, List};
ghost use Rattle.mdc_outside.specs.Moments.{WhereTold};
ghost use Rattle.mdc_outside.specs.Points.{IsLeftAt};
ghost use Rattle.mdc_outside.specs.declared.mem_host.MemHost.{MemHost};

use crate::{Disk, MemHost};

/// A told file is one of its own images: a crash now may leave the bytes as a read gives them, with the tape as it is. So
/// what a run leaves is what the next may begin with.
pub fn a_told_file_may_be_left<D: Disk>()
    ensures { (disk : D) → WhereTold (D.file disk) (D.beside disk).tape (λ file said. D.moment disk (D.clock disk) file.bytes said) }
{}

/// The moments that a host in memory tells since a time are exactly those at the points of its record from then on: what tearing the
/// ranges that no sync has covered allows there, and nothing else.
pub fn moments_of_a_host_in_memory()
    ensures { (host : MemHost) (t : ℕ) (image tape : List ℕ) → t ≤ ⟦<MemHost as Disk>⟧.clock host
        → ⟦<MemHost as Disk>⟧.moment host t image tape
        ↔ ((k : ℕ) × (t ≤ k) × (k ≤ ⟦<MemHost as Disk>⟧.clock host) × IsLeftAt host k image tape) }
{}
