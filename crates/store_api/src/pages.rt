// Pages by their numbers, which may change and can be taken back to a mark.
ghost use Rattle.std.specs.Prelude.{◌≡◌, ◌+◌, ◌<◌, ◌≤◌, ℕ, List, Option, false, length, None, IsSome, IsTrue, IfOk, OnOk, OnErr, IsErrOf};
ghost use Rattle.std.specs.Borrow.{sem};
ghost use Rattle.mdc_words.specs.Faults.{CountsFault};
ghost use Rattle.mdc_words.specs.Time.{OverTime};
ghost use Rattle.store_api.specs.StoreState.{StoreState, page_at};
ghost use Rattle.store_api.specs.Calls.{Fetches, LosesHand, Writes, Grows, LosesReadiness, Marks, Keeps, Undoes};
ghost use Rattle.store_api.specs.Lending.{LendsPage};
ghost use Rattle.store_api.specs.Moments.{Outcomes, OnlyBase};

use crate::PageFault;

/// The bytes of a page.
pub type Page = [u8; 4096];

/// The most pages that a store has.
pub const MAX_PAGES: u32 = 262_289;

/// The work of a store: numbered pages that can be read one at a time, changed, and taken back to a mark.
///
/// Each call with `&mut self` takes the page at hand away, but for a `fetch` or a `committed` that succeeds.
pub trait Pages {
    /// What the calls speak of.
    ghost state: { Self → StoreState };

    /// In how many pages the work and the base differ, or may differ.
    ghost written: { Self → ℕ };

    /// How many calls of the disk have failed. It never falls.
    ghost disk_faults: { Self → ℕ };

    /// How many calls to tell bytes have failed. It never falls.
    ghost say_faults: { Self → ℕ };

    /// The time. It never falls.
    ghost clock: { Self → ℕ };

    /// Whether a crash at some time since this one may leave a file that reopens to these pages, or that doesn't reopen,
    /// with these bytes told. A store that tells no moments allows none.
    ghost left: { Self → ℕ → Outcomes };

    /// The number of pages of the work.
    fn count(&self) -> u32
        ensures { result ≡ length (state self.now).work };

    /// Brings a page of the work to hand.
    fn fetch(&mut self, p: u32) -> Result<(), PageFault>
        requires going { (state self.old).ended ≡ false }
        requires within { p < length (state self.old).work }
        ensures ok { OnOk result (Fetches p (state self.old) (state self.new)) }
        ensures err { OnErr result (LosesHand (state self.old) (state self.new)) }
        ensures written { written self.new ≡ written self.old }
        ensures disk_faults { CountsFault (IsErrOf result PageFault.Device) (disk_faults self.old) (disk_faults self.new) }
        ensures say_faults { say_faults self.new ≡ say_faults self.old }
        ensures time { OverTime clock left (OnlyBase (state self.old)) self.old self.new };

    /// Lends the page at hand.
    fn page(&self) -> &Page
        requires { IsSome (state self.now).hand }
        ensures { (state self.now).hand ≡ Some result.now };

    /// Writes over a page of the work.
    fn write(&mut self, p: u32, bytes: &Page) -> Result<(), PageFault>
        requires going { (state self.old).ended ≡ false }
        requires within { p < length (state self.old).work }
        ensures ok { OnOk result (Writes p bytes.now (state self.old) (state self.new)) }
        ensures err { OnErr result (LosesReadiness (state self.old) (state self.new)) }
        ensures written { written self.new ≤ written self.old + 1 }
        ensures disk_faults { CountsFault (IsErrOf result PageFault.Device) (disk_faults self.old) (disk_faults self.new) }
        ensures say_faults { say_faults self.new ≡ say_faults self.old }
        ensures time { OverTime clock left (OnlyBase (state self.old)) self.old self.new };

    /// Lends a page of the work, to be changed in place. It is told as one that came to hand, and none is at hand
    /// afterwards. What the store is then holds once the loan has ended.
    fn edit(&mut self, p: u32) -> Result<&mut Page, PageFault>
        requires going { (state self.old).ended ≡ false }
        requires within { p < length (state self.old).work }
        ensures* lends { sem 𝓛 (LendsPage Self.row state written disk_faults say_faults clock left p self.entry result) }
        ensures page { IfOk result (λ page. IsTrue (state self.old).is_told → page.now ≡ page_at (state self.old).work p) };

    /// Adds pages of zeros at the end of the work.
    fn grow(&mut self, n: u32) -> Result<(), PageFault>
        requires going { (state self.old).ended ≡ false }
        requires room { length (state self.old).work + n ≤ MAX_PAGES }
        ensures ok { OnOk result (Grows n (state self.old) (state self.new)) }
        ensures err { OnErr result (LosesReadiness (state self.old) (state self.new)) }
        ensures written { written self.new ≤ written self.old + n }
        ensures disk_faults { CountsFault (IsErrOf result PageFault.Device) (disk_faults self.old) (disk_faults self.new) }
        ensures say_faults { say_faults self.new ≡ say_faults self.old }
        ensures time { OverTime clock left (OnlyBase (state self.old)) self.old self.new };

    /// Notes the work, for `undo`.
    fn mark(&mut self)
        requires going { (state self.old).ended ≡ false }
        requires unmarked { (state self.old).marked ≡ None }
        ensures marked { Marks (state self.old) (state self.new) }
        ensures written { written self.new ≡ written self.old }
        ensures disk_faults { disk_faults self.new ≡ disk_faults self.old }
        ensures say_faults { say_faults self.new ≡ say_faults self.old }
        ensures time { OverTime clock left (OnlyBase (state self.old)) self.old self.new };

    /// Drops the mark. After a fault it is still open.
    fn keep(&mut self) -> Result<(), PageFault>
        requires going { (state self.old).ended ≡ false }
        requires marked { IsSome (state self.old).marked }
        ensures ok { OnOk result (Keeps (state self.old) (state self.new)) }
        ensures err { OnErr result (LosesHand (state self.old) (state self.new)) }
        ensures written { written self.new ≡ written self.old }
        ensures disk_faults { CountsFault (IsErrOf result PageFault.Device) (disk_faults self.old) (disk_faults self.new) }
        ensures say_faults { say_faults self.new ≡ say_faults self.old }
        ensures time { OverTime clock left (OnlyBase (state self.old)) self.old self.new };

    /// Goes back to the work of the mark, and drops it.
    fn undo(&mut self)
        requires going { (state self.old).ended ≡ false }
        requires marked { IsSome (state self.old).marked }
        ensures undone { Undoes (state self.old) (state self.new) }
        ensures written { written self.new ≤ written self.old }
        ensures disk_faults { disk_faults self.new ≡ disk_faults self.old }
        ensures say_faults { say_faults self.new ≡ say_faults self.old }
        ensures time { OverTime clock left (OnlyBase (state self.old)) self.old self.new };

    /// What may be left since a time may be left since an earlier one.
    ghost earlier: { (store : Self) (s t : ℕ) (pages : Option (List (List ℕ))) (told : List ℕ) → s ≤ t → t ≤ clock store → left store t pages told → left store s pages told };
}
