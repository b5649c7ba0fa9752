ghost use Rattle.std.specs.Prelude.{◌≡◌, ◌↔◌, Some, IfOk, IsErrOf, IsTrue, false, map, option_map};
ghost use Rattle.clap.specs.Words.{first_of, found_of, rows_of, fault_of, kind_of};
ghost use Rattle.clap.specs.declared.error.kind.ErrorKind.TheVariants.{OutOfMemory};
ghost use Rattle.clone_words.specs.Options.{program, run_options};
ghost use Rattle.clone_words.specs.Commands.{IsCommandLine, IsAskedBy, IsRunInRange, Asks, IsRun};
ghost use Rattle.clone_words.specs.Commands.{AreFound, IsSubcommand, IsInRange, IsReadable};
ghost use Rattle.clone_words.specs.Commands.{IsReadableText};
ghost use Rattle.clone_words.specs.Commands.{IsGiven, IsPlace, number, place_of, texts};

use crate::options::program;
use crate::{Command, Dump, Place, Recover, Run};
use clap::error::ErrorKind;
use clap::{ArgMatches, Error};
use std::alloc::{AllocError, Global};

/// Why words give no command.
#[derive(Clone, Copy, Debug, PartialEq, Eq)]
pub enum WordsRefusal {
    /// They are no command line.
    Usage,
    /// There was no memory.
    NoMemory,
}

impl From<AllocError> for WordsRefusal {
    ghost use Rattle.std.specs.Prelude.{◌≡◌};
    ghost use Rattle.clone_words.specs.declared.reading.WordsRefusal.TheVariants.{NoMemory};

    ghost from_gives = { λ error refusal. refusal ≡ NoMemory };

    fn from(_error: AllocError) -> WordsRefusal {
        WordsRefusal::NoMemory
    }
}

impl From<Error> for WordsRefusal {
    ghost use Rattle.clone_words.specs.Refusals.{IsRefusalOf};

    ghost from_gives = { λ error refusal. IsRefusalOf error refusal };

    fn from(error: Error) -> WordsRefusal {
        if error.kind() == ErrorKind::OutOfMemory {
            WordsRefusal::NoMemory
        } else {
            WordsRefusal::Usage
        }
    }
}

/// The command that the words ask for, which are those behind the program's name. They are refused
/// as no command line exactly where they are none, unless there is no memory.
pub fn parse<'a>(alloc: Global, words: &'a [String]) -> Result<Command<'a>, WordsRefusal>
    ensures line { IfOk result (λ _. IsCommandLine (texts words.now)) }
    ensures command { IfOk result (IsAskedBy (texts words.now)) }
    ensures ranges { IfOk result IsRunInRange }
    ensures usage { IsErrOf result WordsRefusal.Usage → IsCommandLine (texts words.now) → ⊥ }
{
    let matches = program(alloc)?.try_get_matches_from(words)?;
    match matches.subcommand() {
        Some((name, options)) => Ok(command_of(name, options)),
        None => unreachable!(),
    }
}

/// Where the command that the words ask for finds its disks and its connections. Words that are no
/// command line name no place.
pub fn places<'a>(alloc: Global, words: &'a [String]) -> Result<Place<'a>, AllocError>
    ensures { IfOk result (IsPlace (texts words.now)) }
{
    match parse(alloc, words) {
        Ok(command) => Ok(place_of(command)),
        Err(WordsRefusal::Usage) => Ok(Place {
            dir: None,
            tcp: false,
        }),
        Err(WordsRefusal::NoMemory) => Err(AllocError),
    }
}

fn place_of(command: Command<'_>) -> Place<'_>
    ensures { result ≡ place_of command.entry }
{
    match command {
        Command::Steps => Place {
            dir: None,
            tcp: false,
        },
        Command::Run(run) => Place {
            dir: run.dir,
            tcp: run.tcp,
        },
        Command::Recover(recover) => Place {
            dir: Some(recover.dir),
            tcp: false,
        },
        Command::Dump(dump) => Place {
            dir: Some(dump.dir),
            tcp: false,
        },
    }
}

fn command_of<'a>(name: &str, options: &ArgMatches<'a>) -> Command<'a>
    requires found { IsSubcommand (name.now, rows_of (found_of options.now)) }
    ensures command { Asks (name.now, rows_of (found_of options.now)) result }
    ensures ranges { IsRunInRange result }
{
    match name {
        "run" => Command::Run(run_of(options)),
        "recover" => Command::Recover(Recover {
            dir: required_text(options, "dir"),
        }),
        "dump" => Command::Dump(Dump {
            dir: required_text(options, "dir"),
        }),
        _ => Command::Steps,
    }
}

fn run_of<'a>(options: &ArgMatches<'a>) -> Run<'a>
    requires found { AreFound run_options (rows_of (found_of options.now)) }
    ensures options { IsRun (rows_of (found_of options.now)) result }
    ensures ranges { IsInRange result }
{
    Run {
        seed: number_of(options, "seed"),
        writers: number_of(options, "writers"),
        transactions: number_of(options, "transactions"),
        tables: number_of(options, "tables"),
        buckets: number_of(options, "buckets"),
        tasks: number_of(options, "tasks"),
        limit: number_of(options, "limit"),
        pool: number_of(options, "pool"),
        ring: number_of(options, "ring"),
        cuts: number_of(options, "cuts"),
        report: is_given(options, "report"),
        dir: options.get_str("dir"),
        tcp: is_given(options, "tcp"),
        compress: is_given(options, "compress"),
    }
}

fn number_of(options: &ArgMatches<'_>, name: &str) -> u64
    requires found { IsReadable name.now (rows_of (found_of options.now)) }
    ensures { Some result ≡ number name.now (rows_of (found_of options.now)) }
{
    match options.get_one::<u64>(name) {
        Some(number) => number,
        None => unreachable!(),
    }
}

fn required_text<'a>(options: &ArgMatches<'a>, name: &str) -> &'a str
    requires found { IsReadableText name.now (rows_of (found_of options.now)) }
    ensures { Some result.now ≡ first_of name.now (rows_of (found_of options.now)) }
{
    match options.get_str(name) {
        Some(text) => text,
        None => unreachable!(),
    }
}

fn is_given(options: &ArgMatches<'_>, name: &str) -> bool
    ensures { IsTrue result ↔ IsGiven name.now (rows_of (found_of options.now)) }
{
    options.get_one::<bool>(name).unwrap_or(false)
}
