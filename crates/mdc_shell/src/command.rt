// The command line: what the words after the program's name ask for.
ghost use Rattle.std.specs.Prelude.{◌≡◌, IfOk, MatchOption, ℕ, List, Some, codes, map, string_bytes};
ghost use Rattle.std.specs.List.{All};
ghost use Rattle.clap.specs.Words.{first_value, found_of, subcommand_rows_of};
ghost use Rattle.mdc_shell.specs.Asked.{Asks, AsksCheck, AsksCreate, AsksRun};
ghost use Rattle.mdc_shell.specs.Found.{Finds, IsSplit};
ghost use Rattle.mdc_shell.specs.Words.{IsPlain};

use crate::grammar::grammar;
use crate::numeral::number_in;
use crate::plain::{are_plain, is_path};
use clap::ArgMatches;
use clap::error::ErrorKind;
use mdc_values::Memory;
use std::alloc::Global;
use store_api::Shape;

/// What a command line asks for.
pub enum Command<'w> {
    /// To make an empty database in the file at the path.
    Create { path: &'w str, shape: Shape },
    /// To run the script of the input on a scratch file.
    RunScratch,
    /// To run the script of the input on the file at the path.
    RunFile { path: &'w str },
    /// To judge the database in the file at the path.
    Check { path: &'w str },
}

impl<'w> Command<'w> {
    /// The command that the words after the program's name ask for, or `None` where they are no command line.
    pub fn of_words(alloc: Global, words: &'w [String]) -> Result<Option<Command<'w>>, Memory>
        ensures { IfOk result (Asks (map string_bytes words.now)) }
    {
        if !are_plain(words) {
            return Ok(None);
        }
        match parsed(alloc, words)? {
            Some(matches) => Ok(command_in(&matches)),
            None => Ok(None),
        }
    }
}

// What clap finds in the words, or `None` where they don't fit its grammar.
fn parsed<'w>(alloc: Global, words: &'w [String]) -> Result<Option<ArgMatches<'w>>, Memory>
    requires { All IsPlain (map string_bytes words.now) }
    ensures { IfOk result (λ matches. MatchOption matches (IsSplit (map string_bytes words.now) → ⊥)
        (λ found. Finds (map string_bytes words.now) (subcommand_rows_of found))) }
{
    match grammar(alloc)?.try_get_matches_from(words) {
        Ok(matches) => Ok(Some(matches)),
        Err(error) => match error.kind() {
            ErrorKind::OutOfMemory => Err(Memory),
            _ => Ok(None),
        },
    }
}

// The command of what clap found.
fn command_in<'w>(matches: &ArgMatches<'w>) -> Option<Command<'w>>
    ensures { (words : List (List ℕ)) → Finds words (subcommand_rows_of matches.now) → Asks words result }
{
    if let Some(create) = matches.subcommand_matches("create") {
        return create_in(create);
    }
    if let Some(check) = matches.subcommand_matches("check") {
        return check_in(check);
    }
    run_in(matches.subcommand_matches("run")?)
}

// The command of the values behind `create`.
fn create_in<'w>(matches: &ArgMatches<'w>) -> Option<Command<'w>>
    ensures { (file extents pages : List ℕ) → first_value (found_of matches.now) (codes "FILE") ≡ Some file
        → first_value (found_of matches.now) (codes "EXTENTS") ≡ Some extents
        → first_value (found_of matches.now) (codes "PAGES") ≡ Some pages → AsksCreate file extents pages result }
{
    let file = matches.get_str("FILE")?;
    let extents = matches.get_str("EXTENTS")?;
    let pages = matches.get_str("PAGES")?;
    create_of(file, extents, pages)
}

// The command of the value behind `run`.
fn run_in<'w>(matches: &ArgMatches<'w>) -> Option<Command<'w>>
    ensures { (file : List ℕ) → first_value (found_of matches.now) (codes "FILE") ≡ Some file → AsksRun file result }
{
    run_of(matches.get_str("FILE")?)
}

// The command of the value behind `check`.
fn check_in<'w>(matches: &ArgMatches<'w>) -> Option<Command<'w>>
    ensures { (file : List ℕ) → first_value (found_of matches.now) (codes "FILE") ≡ Some file → AsksCheck file result }
{
    check_of(matches.get_str("FILE")?)
}

// The command of a path and two numbers.
fn create_of<'w>(path: &'w str, extents: &str, extent_pages: &str) -> Option<Command<'w>>
    ensures { AsksCreate path.now extents.now extent_pages.now result }
{
    if !is_path(path) {
        return None;
    }
    let shape = Shape::new(number_in(extents)?, number_in(extent_pages)?)?;
    Some(Command::Create { path, shape })
}

// The command of the file that is to be run: `-` is the scratch file.
fn run_of<'w>(file: &'w str) -> Option<Command<'w>>
    ensures { AsksRun file.now result }
{
    if file == "-" {
        return Some(Command::RunScratch);
    }
    if !is_path(file) {
        return None;
    }
    Some(Command::RunFile { path: file })
}

// The command of the file that is to be judged, which has to have a path.
fn check_of<'w>(file: &'w str) -> Option<Command<'w>>
    ensures { AsksCheck file.now result }
{
    if !is_path(file) {
        return None;
    }
    Some(Command::Check { path: file })
}
