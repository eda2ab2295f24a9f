// A store of pages whose work becomes its base whole or not at all, and which tells bytes.
ghost use Rattle.std.specs.Prelude.{◌≡◌, ◌<◌, ◌≤◌, IsTrue, true, false, length, None, IsOk, OnOk, OnErr, IsErr, IsErrOf};
ghost use Rattle.mdc_words.specs.Faults.{CountsFault};
ghost use Rattle.mdc_words.specs.Time.{OverTime, RestsAt};
ghost use Rattle.store_api.specs.StoreState.{stated_count, differing};
ghost use Rattle.store_api.specs.Calls.{FetchesCommitted, LosesHand, LosesReadiness, Prepares, Commits, Ends, RollsBack, Tells, TellsPart};
ghost use Rattle.store_api.specs.Moments.{OnlyBase, BaseOrWork, BaseWithFront, AtRest};

use crate::{DeviceFault, Mute, PageFault, Pages};

/// A store: pages that are committed as a whole, and bytes that are told to the outside.
pub trait Store: Pages {
    /// In how many pages the work and the base differ, or may differ.
    fn written(&self) -> u32
        requires { (Self.state self.now).ended ≡ false }
        ensures value { result ≡ Self.written self.now }
        ensures enough { differing (Self.state self.now).base (Self.state self.now).work ≤ result };

    /// Brings a page of the base to hand.
    fn committed(&mut self, p: u32) -> Result<(), PageFault>
        requires going { (Self.state self.old).ended ≡ false }
        requires within { p < length (Self.state self.old).base }
        ensures ok { OnOk result (FetchesCommitted p (Self.state self.old) (Self.state self.new)) }
        ensures err { OnErr result (LosesHand (Self.state self.old) (Self.state self.new)) }
        ensures written { Self.written self.new ≡ Self.written self.old }
        ensures disk_faults { CountsFault (IsErrOf result PageFault.Device) (Self.disk_faults self.old) (Self.disk_faults self.new) }
        ensures say_faults { Self.say_faults self.new ≡ Self.say_faults self.old }
        ensures time { OverTime Self.clock Self.left (OnlyBase (Self.state self.old)) self.old self.new };

    /// Makes the work ready for `commit`. Where its pages are told, its page 0 states how many there are.
    fn prepare(&mut self) -> Result<(), PageFault>
        requires going { (Self.state self.old).ended ≡ false }
        requires unmarked { (Self.state self.old).marked ≡ None }
        requires counted { IsTrue (Self.state self.old).is_told → stated_count (Self.state self.old).work ≡ length (Self.state self.old).work }
        ensures ok { OnOk result (Prepares (Self.state self.old) (Self.state self.new)) }
        ensures err { OnErr result (LosesReadiness (Self.state self.old) (Self.state self.new)) }
        ensures written { Self.written self.new ≡ Self.written self.old }
        ensures disk_faults { CountsFault (IsErrOf result PageFault.Device) (Self.disk_faults self.old) (Self.disk_faults self.new) }
        ensures say_faults { Self.say_faults self.new ≡ Self.say_faults self.old }
        ensures time { OverTime Self.clock Self.left (OnlyBase (Self.state self.old)) self.old self.new };

    /// Makes the work the base. A crash within it leaves the one or the other, and after a fault so does each later
    /// crash: the store then takes no further call. Where no page was written, it can't fail, no time passes, and the file
    /// has the bytes that it had.
    fn commit(&mut self) -> Result<(), DeviceFault>
        requires going { (Self.state self.old).ended ≡ false }
        requires prepared { (Self.state self.old).prepared ≡ true }
        ensures ok { OnOk result (Commits (Self.state self.old) (Self.state self.new)) }
        ensures err { OnErr result (Ends (Self.state self.old) (Self.state self.new)) }
        ensures written { OnOk result (Self.written self.new ≡ 0) }
        ensures quiet { Self.written self.old ≡ 0 → IsOk result × (Self.clock self.new ≡ Self.clock self.old) }
        ensures keeps_file { Self.written self.old ≡ 0 → (Self.state self.new).file ≡ (Self.state self.old).file }
        ensures disk_faults { CountsFault (IsErr result) (Self.disk_faults self.old) (Self.disk_faults self.new) }
        ensures say_faults { Self.say_faults self.new ≡ Self.say_faults self.old }
        ensures time { OverTime Self.clock Self.left (BaseOrWork (Self.state self.old)) self.old self.new }
        ensures rests { RestsAt Self.clock Self.left (AtRest (Self.state self.new)) self.new };

    /// Goes back to the base, and drops a mark.
    fn rollback(&mut self)
        requires { (Self.state self.old).ended ≡ false }
        ensures rolled_back { RollsBack (Self.state self.old) (Self.state self.new) }
        ensures written { Self.written self.new ≡ 0 }
        ensures disk_faults { Self.disk_faults self.new ≡ Self.disk_faults self.old }
        ensures say_faults { Self.say_faults self.new ≡ Self.say_faults self.old }
        ensures time { OverTime Self.clock Self.left (OnlyBase (Self.state self.old)) self.old self.new };

    /// Tells bytes. After `Mute` a front of them may have been told.
    fn tell(&mut self, bytes: &[u8]) -> Result<(), Mute>
        requires { (Self.state self.old).ended ≡ false }
        ensures ok { OnOk result (Tells bytes.now (Self.state self.old) (Self.state self.new)) }
        ensures err { OnErr result (TellsPart bytes.now (Self.state self.old) (Self.state self.new)) }
        ensures written { Self.written self.new ≡ Self.written self.old }
        ensures disk_faults { Self.disk_faults self.new ≡ Self.disk_faults self.old }
        ensures say_faults { CountsFault (IsErr result) (Self.say_faults self.old) (Self.say_faults self.new) }
        ensures time { OverTime Self.clock Self.left (BaseWithFront bytes.now (Self.state self.old)) self.old self.new }
        ensures rests { RestsAt Self.clock Self.left (AtRest (Self.state self.new)) self.new };
}
