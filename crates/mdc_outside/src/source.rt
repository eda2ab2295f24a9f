// Where a script comes from.
ghost use Rattle.std.specs.Prelude.{◌<◌, ◌≤◌, ◌≡◌, ℕ, List, [], Option, length, take, IfOk, IfSome, OnOk, OnErr};
ghost use Rattle.mdc_outside.specs.Outside.{Gives};
ghost use Rattle.mdc_words.specs.Faults.{Rose};

/// A call to the outside that failed. The count of faults of the object that was called rose.
#[derive(Clone, Copy, Debug, PartialEq, Eq)]
pub struct Failed;

/// A stream of bytes that is read to its end.
pub trait Source {
    /// The bytes that are left, where the source tells them.
    ghost left: { Self → Option (List ℕ) };

    /// How many reads have failed. It never falls, and only a read that fails adds to it.
    ghost read_faults: { Self → ℕ };

    /// Puts the next bytes into `out` and answers how many. It is 0 only where none are left.
    /// After `Failed` the bytes left are as before.
    fn read(&mut self, out: &mut [u8]) -> Result<usize, Failed>
        requires { 0 < length out.old }
        ensures within { IfOk result (λ n. n ≤ length out.new) }
        ensures given { IfOk result (λ n. Gives (left self.old) (take n out.new) (left self.new)) }
        ensures end { IfOk result (λ n. n ≡ 0 → IfSome (left self.old) (λ bytes. bytes ≡ [])) }
        ensures uncounted { OnOk result (read_faults self.new ≡ read_faults self.old) }
        ensures failed { OnErr result (Rose (read_faults self.old) (read_faults self.new)) }
        ensures kept { OnErr result (left self.new ≡ left self.old) }
        ensures count { read_faults self.old ≤ read_faults self.new };
}
