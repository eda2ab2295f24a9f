//! Tests of `redo_journal`: a journal that is written, replayed and brought home, over a disk in memory.
//!
//! It promises nothing. It stands on `redo_journal`, `page_file`, `mdc_outside` and `store_api`.
#![tactic(auto)]

#[cfg(test)]
mod tests;
