//! A session: the statements of a script, answered one after another as they close, on the database file of a host.
//!
//! It has two storeys. `script` answers a script by an engine over any store, and knows of pages alone. `file` opens the file of a
//! host, after a crash too, has the script answered on its pages, and gives the host back.
//!
//! It promises, of a script on a sound engine, one run of its items over the pages that were held: what is told are the texts of
//! its outcomes, in order and each as its statement closes, a log of the pages that come to hand goes on with those that each item
//! may bring, and a crash at any moment leaves the pages of the last commit after some of the items, with every one whose reply had
//! begun, and at most one more. Such a run over pages is one over plain lists of rows, by a law. Whatever the pages are, it promises one
//! run too: each item does to them what its statement may, damage is that of the pages that were held, and at a stop an item in hand
//! committed nothing, unless the disk failed. The two are one run, told in two ways (`Way`, `specs/script/Ways.antt`).
//!
//! Of a file that is well and of a host that tells it: the replies are those of plain lists of rows, statement by statement, up to a
//! stop, and 70 only where a statement runs full. From the origin of the run on a crash leaves a well file, which stands for those
//! lists after some of the items, with every one whose reply had begun and at most one more; so the next run keeps the promise too,
//! and by a law begins with those lists. A file that was just made is well, by another, and stands for no table: its pages are sound,
//! whatever their extents. A file that isn't well is refused for a cause in its bytes, or there is one run of the script's items on
//! its pages, each of which does what its statement may: a crash leaves the pages of the last commit behind some of them, and damage
//! is that of the pages that were held, from those of the file on.
//!
//! It stands on `sql_reader` for the items of a script, on `script_engine` for what a statement does, on `answer_text` for how it is
//! answered, and on `page_store` and `file_verdict` for the pages of a file and whether it is whole.
#![tactic(auto)]

mod file;
mod script;
mod stop;

pub use file::{
    Ended, ended_run_is_left, left_by_run_is_well, left_file_is_well, made_database_is_sound,
    made_is_well, next_run_goes_on, serve_file,
};
pub use script::{Served, goes_on_lists, serve};
pub use stop::Stop;
