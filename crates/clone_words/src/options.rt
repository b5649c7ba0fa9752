//! The command as `clap` sees it: one simple command with a subcommand for each thing to do. Help
//! and version are switched off, so that a word is never answered with text.
ghost use Rattle.std.specs.Prelude.{◌≡◌, ◌∷◌, [], Some, false, codes, IfOk};
ghost use Rattle.clap.specs.Words.{app_of, rule_of, shape_of};
ghost use Rattle.clone_words.specs.Local.{IsLocal};
ghost use Rattle.clone_words.specs.Options.{program, run, of_directory, number, flag, text};

use clap::builder::ValueParser;
use clap::{Arg, ArgAction, Command};
use clone_base::{MOST_LOSSES, MOST_TASKS, TABLE_LIMIT};
use clone_model::{LEAST_POOL, LEAST_RING, MOST_BUCKETS, MOST_POOL, MOST_RING};
use std::alloc::{AllocError, Global};

/// The most writers of `run`. There is at least one.
pub const MOST_WRITERS: u64 = 16;

/// The most transactions of a writer.
pub const MOST_TRANSACTIONS: u64 = 100_000;

/// The most cuts that `run` may make.
pub const MOST_CUTS: u64 = 100;

/// The whole command.
pub(crate) fn program<'a>(alloc: Global) -> Result<Command<'a>, AllocError>
    ensures { IfOk result (λ command. app_of command ≡ program) }
{
    Command::new(alloc, "clone")
        .no_binary_name(true)
        .disable_help_flag(true)
        .disable_help_subcommand(true)
        .disable_version_flag(true)
        .subcommand_required(true)
        .subcommand(Command::new(alloc, "steps"))?
        .subcommand(run(alloc)?)?
        .subcommand(of_directory(alloc, "recover")?)?
        .subcommand(of_directory(alloc, "dump")?)
}

fn run<'a>(alloc: Global) -> Result<Command<'a>, AllocError>
    ensures app { IfOk result (λ command. shape_of command ≡ run) }
    ensures local { IfOk result (λ command. IsLocal command) }
{
    let options = vec![in alloc;
        number(alloc, "seed", 0, u64::MAX).required(true),
        number(alloc, "writers", 1, MOST_WRITERS).default_value("4"),
        number(alloc, "transactions", 0, MOST_TRANSACTIONS).default_value("100"),
        number(alloc, "tables", 1, TABLE_LIMIT as u64).default_value("4"),
        number(alloc, "buckets", 1, u64::from(MOST_BUCKETS)).default_value("64"),
        number(alloc, "tasks", 1, MOST_TASKS as u64).default_value("4"),
        number(alloc, "limit", 0, MOST_LOSSES as u64).default_value("16"),
        number(alloc, "pool", u64::from(LEAST_POOL), u64::from(MOST_POOL)).default_value("256"),
        number(alloc, "ring", LEAST_RING, MOST_RING).default_value("1048576"),
        number(alloc, "cuts", 0, MOST_CUTS).default_value("0"),
        flag(alloc, "report"),
        text(alloc, "dir"),
        flag(alloc, "tcp"),
        flag(alloc, "compress"),
    ]?;
    Command::new(alloc, "run").args(options)
}

/// A command whose one option is the directory of the disks.
fn of_directory<'a>(alloc: Global, name: &'a str) -> Result<Command<'a>, AllocError>
    ensures app { IfOk result (λ command. shape_of command ≡ of_directory name.entry.now) }
    ensures local { IfOk result (λ command. IsLocal command) }
{
    Command::new(alloc, name).arg(text(alloc, "dir").required(true))
}

/// An option whose value is a number in the range.
fn number<'a>(alloc: Global, name: &'a str, least: u64, most: u64) -> Arg<'a>
    ensures rule { rule_of result ≡ number name.entry.now least most }
    ensures local { result.global ≡ false }
{
    Arg::new(alloc, name)
        .long(name)
        .value_parser(ValueParser::unsigned(least, most))
        .action(ArgAction::Set)
}

/// An option without a value.
fn flag<'a>(alloc: Global, name: &'a str) -> Arg<'a>
    ensures rule { rule_of result ≡ flag name.entry.now }
    ensures local { result.global ≡ false }
{
    Arg::new(alloc, name).long(name).action(ArgAction::SetTrue)
}

/// An option whose value is any text.
fn text<'a>(alloc: Global, name: &'a str) -> Arg<'a>
    ensures rule { rule_of result ≡ text name.entry.now }
    ensures local { result.global ≡ false }
{
    Arg::new(alloc, name).long(name).action(ArgAction::Set)
}
