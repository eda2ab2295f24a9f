//! Whether the database file of a host is whole: it is opened, after a crash too, all of its pages are judged by the twelve rules, and
//! the host is given back.
//!
//! It promises of any file that is told, whatever its bytes: the verdict is that of the file as it was at entry. `Sound` where each
//! rule holds of the pages that it stands for, with a journal that counts, and else the first rule that is broken, with the lowest
//! page that breaks it; damage that the opening meets is named so too. From the origin of the opening on a crash leaves a file that
//! stands for the same pages. A file that can't be opened stays as it was; where the disk failed, it may be what a crash could leave
//! of it.
//!
//! It stands on `page_store` for the pages of a file and on `file_check` for the rules. Its words on what a crash leaves of a file that
//! is opened (`specs/Resting`) are those of runs on files too.
#![tactic(auto)]

mod judging;
mod unjudged;

pub use judging::{Judged, judge_file};
pub use unjudged::Unjudged;
