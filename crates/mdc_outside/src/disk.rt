// The disk beneath the engine: one file, and what a crash may leave of it at each moment.
ghost use Rattle.std.specs.Prelude.{◌≡◌, ◌⊎◌, ◌↔◌, ◌≤◌, ◌+◌, [], ℕ, Bool, false, List, Option, take, drop, length, IsErr, IsTrue, IfOk, IfSome, OnOk, OnErr};
ghost use Rattle.std.specs.Option.{option_map, ForSome};
ghost use Rattle.mdc_outside.specs.Disk.{File, IsSound, Becomes, IsTorn, IsUnsettled, opened, written, settled};
ghost use Rattle.mdc_outside.specs.Moments.{Beside, IsMoment, WhereTold, IsWithinCall, Adds};
ghost use Rattle.mdc_words.specs.Faults.{CountsFault};
ghost use Rattle.mdc_words.specs.Time.{OverTime, ReachesBack};

use crate::Failed;

/// A disk with one file attached. Between two syncs, each written range and the part past the old end may hold any bytes
/// after a crash.
pub trait Disk {
    /// The file, where the disk tells it. A disk that tells it has one file under every path, and tells it before
    /// `attach` too.
    ghost file: { Self → Option File };

    /// What lies beside the disk. No call of the disk changes it.
    ghost beside: { Self → Beside };

    /// The path and `make` of each `attach` so far, where the disk tells them.
    ghost attaches: { Self → Option (List (List ℕ × Bool)) };

    /// Whether a file is attached.
    ghost is_attached: { Self → Bool };

    /// How many calls of the disk have failed. It never falls, and only a call that fails adds to it.
    ghost disk_faults: { Self → ℕ };

    /// The time. It never falls, and goes on over the calls of the disk and of what lies beside it.
    ghost clock: { Self → ℕ };

    /// Whether a crash at some moment since that time may leave this file image with this tape.
    ghost moment: { Self → ℕ → List ℕ → List ℕ → Type 0 };

    /// Opens the file at the path. Where there is none, it makes an empty one if told to, and fails if not.
    fn attach(&mut self, path: &str, make: bool) -> Result<(), Failed>
        ensures attached { OnOk result (IsTrue (is_attached self.new)) }
        ensures opened { OnOk result (file self.new ≡ option_map opened (file self.old)) }
        ensures there { OnOk result (make ≡ false → IfSome (file self.old) (λ file. IsTrue file.is_there)) }
        ensures listed { OnOk result (Adds (attaches self.old) (path.now, make) (attaches self.new)) }
        ensures as_before { OnErr result (is_attached self.new ≡ is_attached self.old) }
        ensures file_failed { OnErr result (Becomes (file self.old) (λ old new. (new ≡ old) ⊎ (IsTrue make × (new ≡ opened old))) (file self.new)) }
        // A disk whose memory runs out can't add to what it tells.
        ensures listed_failed { OnErr result (Adds (attaches self.old) (path.now, make) (attaches self.new) ⊎ (attaches self.new ≡ attaches self.old)) }
        ensures beside { beside self.new ≡ beside self.old }
        ensures cause { CountsFault (IsErr result) (disk_faults self.old) (disk_faults self.new) }
        ensures time { OverTime clock moment (IsWithinCall (file self.old) (beside self.old).tape []) self.old self.new };

    /// Answers the length.
    fn len(&mut self) -> Result<u64, Failed>
        requires { IsTrue (is_attached self.old) }
        ensures len { IfOk result (λ n. IfSome (file self.old) (λ file. n ≡ length file.bytes)) }
        ensures file { file self.new ≡ file self.old }
        ensures attached { is_attached self.new ≡ is_attached self.old }
        ensures listed { attaches self.new ≡ attaches self.old }
        ensures beside { beside self.new ≡ beside self.old }
        ensures cause { CountsFault (IsErr result) (disk_faults self.old) (disk_faults self.new) }
        ensures time { OverTime clock moment (IsWithinCall (file self.old) (beside self.old).tape []) self.old self.new };

    /// Fills `out` with the bytes from a place on.
    fn read(&mut self, at: u64, out: &mut [u8]) -> Result<(), Failed>
        requires attached { IsTrue (is_attached self.old) }
        requires within { ForSome (file self.old) (λ file. at + length out.old ≤ length file.bytes) }
        ensures read { OnOk result (IfSome (file self.old) (λ file. out.new ≡ take (length out.old) (drop at file.bytes))) }
        ensures file { file self.new ≡ file self.old }
        ensures attached { is_attached self.new ≡ is_attached self.old }
        ensures listed { attaches self.new ≡ attaches self.old }
        ensures beside { beside self.new ≡ beside self.old }
        ensures cause { CountsFault (IsErr result) (disk_faults self.old) (disk_faults self.new) }
        ensures time { OverTime clock moment (IsWithinCall (file self.old) (beside self.old).tape []) self.old self.new };

    /// Writes over what is there, and past the end. After `Failed` what was written since the last sync may hold any
    /// bytes until a sync succeeds, or the call came to nothing.
    fn write(&mut self, at: u64, bytes: &[u8]) -> Result<(), Failed>
        requires attached { IsTrue (is_attached self.old) }
        requires within { ForSome (file self.old) (λ file. at ≤ length file.bytes) }
        ensures written { OnOk result (file self.new ≡ option_map (written at bytes.now) (file self.old)) }
        ensures file_failed { OnErr result (Becomes (file self.old) (λ old new. IsTorn at (length bytes.now) old new ⊎ (new ≡ old)) (file self.new)) }
        ensures attached { is_attached self.new ≡ is_attached self.old }
        ensures listed { attaches self.new ≡ attaches self.old }
        ensures beside { beside self.new ≡ beside self.old }
        ensures cause { CountsFault (IsErr result) (disk_faults self.old) (disk_faults self.new) }
        // The file has the new range after it.
        ensures time { OverTime clock moment (IsWithinCall (file self.new) (beside self.old).tape []) self.old self.new };

    /// After it, a crash leaves what a read gives. After `Failed` what was written since the last sync may hold any
    /// bytes.
    fn sync(&mut self) -> Result<(), Failed>
        requires { IsTrue (is_attached self.old) }
        ensures settled { OnOk result (file self.new ≡ option_map settled (file self.old)) }
        ensures file_failed { OnErr result (Becomes (file self.old) IsUnsettled (file self.new)) }
        ensures attached { is_attached self.new ≡ is_attached self.old }
        ensures listed { attaches self.new ≡ attaches self.old }
        ensures beside { beside self.new ≡ beside self.old }
        ensures cause { CountsFault (IsErr result) (disk_faults self.old) (disk_faults self.new) }
        ensures time { OverTime clock moment (IsWithinCall (file self.old) (beside self.old).tape []) self.old self.new };

    /// The file is one that a crash may leave as it reads.
    ghost sound: { (disk : Self) → IfSome (file disk) IsSound };

    /// Since now a crash may leave what the file tells, with the tape as it is, and nothing else.
    ghost only_now: { (disk : Self) → WhereTold (file disk) (beside disk).tape (λ file said. (image tape : List ℕ)
        → moment disk (clock disk) image tape ↔ IsMoment file.since said [] image tape) };

    /// What a crash may leave since a time, it may leave since an earlier one.
    ghost earlier: { (disk : Self) → ReachesBack clock moment disk };
}
