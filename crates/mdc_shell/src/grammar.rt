// What clap is told of the command line.
ghost use Rattle.std.specs.Prelude.{◌≡◌, IfOk};
ghost use Rattle.clap.specs.Words.{app_of};
ghost use Rattle.mdc_shell.specs.Grammar.{IsAddedAs, bare_app, create_app, file_app, mdc_app};

use clap::{Arg, Command};
use std::alloc::{AllocError, Global};

/// The commands `create FILE EXTENTS PAGES`, `run FILE` and `check FILE`.
pub fn grammar<'w>(alloc: Global) -> Result<Command<'w>, AllocError>
    ensures { IfOk result (λ command. app_of command ≡ mdc_app) }
{
    bare(alloc)
        .subcommand(create_command(alloc)?)?
        .subcommand(file_command(alloc, "run")?)?
        .subcommand(file_command(alloc, "check")?)
}

// The command `create FILE EXTENTS PAGES`.
fn create_command<'w>(alloc: Global) -> Result<Command<'w>, AllocError>
    ensures { IfOk result (IsAddedAs create_app) }
{
    Command::new(alloc, "create")
        .arg(Arg::new(alloc, "FILE").required(true))?
        .arg(Arg::new(alloc, "EXTENTS").required(true))?
        .arg(Arg::new(alloc, "PAGES").required(true))
}

// A command of this name that takes one file.
fn file_command<'w>(alloc: Global, name: &'w str) -> Result<Command<'w>, AllocError>
    ensures { IfOk result (IsAddedAs (file_app name.now)) }
{
    Command::new(alloc, name).arg(Arg::new(alloc, "FILE").required(true))
}

// A command that has subcommands alone: clap gives it no help and no version of its own.
fn bare<'w>(alloc: Global) -> Command<'w>
    ensures { app_of result ≡ bare_app }
{
    Command::new(alloc, "mdc")
        .no_binary_name(true)
        .disable_help_flag(true)
        .disable_help_subcommand(true)
        .disable_version_flag(true)
        .subcommand_required(true)
}
