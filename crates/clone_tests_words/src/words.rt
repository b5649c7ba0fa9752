use clone_words::{Command, Dump, Place, Recover, Run, WordsRefusal, parse, places};
use std::alloc::{AllocError, Global};
use std::test::Fail;

fn words_of(alloc: Global, line: &str) -> Result<Vec<String>, AllocError> {
    let mut words = Vec::new(alloc);
    for word in line.split_ascii_whitespace() {
        words.push(String::from_str(alloc, word)?)?;
    }
    Ok(words)
}

fn asks_for(alloc: Global, line: &str, command: Command<'_>) -> Result<bool, AllocError> {
    let words = words_of(alloc, line)?;
    Ok(parse(alloc, &words) == Ok(command))
}

fn is_no_line(alloc: Global, line: &str) -> Result<bool, AllocError> {
    let words = words_of(alloc, line)?;
    Ok(parse(alloc, &words) == Err(WordsRefusal::Usage))
}

fn names(alloc: Global, line: &str, place: Place<'_>) -> Result<bool, AllocError> {
    let words = words_of(alloc, line)?;
    Ok(places(alloc, &words)? == place)
}

/// What `run --seed 7` asks for.
const USUAL: Run<'static> = Run {
    seed: 7,
    writers: 4,
    transactions: 100,
    tables: 4,
    buckets: 64,
    tasks: 4,
    limit: 16,
    pool: 256,
    ring: 1_048_576,
    cuts: 0,
    report: false,
    dir: None,
    tcp: false,
    compress: false,
};

#[test]
fn each_command(rt: HostRuntime) -> Result<(), Fail> {
    let alloc = rt.alloc();
    let recover = Recover { dir: "there" };
    let dump = Dump { dir: "there" };
    assert!(rt; asks_for(alloc, "steps", Command::Steps)?);
    assert!(rt; asks_for(alloc, "run --seed 7", Command::Run(USUAL))?);
    assert!(rt; asks_for(alloc, "recover --dir=there", Command::Recover(recover))?);
    assert!(rt; asks_for(alloc, "dump --dir there", Command::Dump(dump))?);
    Ok(())
}

/// What a line with each option asks for, in which no value is the usual one.
const EVERY: Run<'static> = Run {
    seed: u64::MAX,
    writers: 16,
    transactions: 0,
    tables: 62,
    buckets: 1_024,
    tasks: 1,
    limit: 0,
    pool: 16,
    ring: 65_536,
    cuts: 100,
    report: true,
    dir: Some("here"),
    tcp: true,
    compress: true,
};

#[test]
fn every_option(rt: HostRuntime) -> Result<(), Fail> {
    let line = "run --compress --seed 18446744073709551615 --writers 16 --transactions 0 \
         --tables 62 --buckets 1024 --tasks 1 --limit 0 --pool 16 --ring 65536 --cuts 100 --report \
         --dir here --tcp";
    assert!(rt; asks_for(rt.alloc(), line, Command::Run(EVERY))?);
    Ok(())
}

const NO_LINES: [&str; 20] = [
    "",
    "stop",
    "steps --seed 7",
    "steps more",
    "run",
    "run --seed",
    "run --seed -1",
    "run --seed 18446744073709551616",
    "run --seed 7 --seed 7",
    "run --seed 7 --writers 0",
    "run --seed 7 --writers 17",
    "run --seed 7 --ring 65535",
    "run --seed 7 --follow",
    "run --seed 7 --fan 2",
    "run --seed 7 --report=yes",
    "recover",
    "dump --dir",
    "crash --dir there",
    "--help",
    "help",
];

const NOWHERE: Place<'static> = Place {
    dir: None,
    tcp: false,
};

#[test]
fn no_command_lines(rt: HostRuntime) -> Result<(), Fail> {
    for line in NO_LINES {
        assert!(rt; is_no_line(rt.alloc(), line)?, "{line}");
        assert!(rt; names(rt.alloc(), line, NOWHERE)?, "{line}");
    }
    Ok(())
}

#[test]
fn places_of_commands(rt: HostRuntime) -> Result<(), Fail> {
    let here = Place {
        dir: Some("here"),
        tcp: true,
    };
    let there = Place {
        dir: Some("there"),
        tcp: false,
    };
    assert!(rt; names(rt.alloc(), "run --tcp --seed 7 --dir here", here)?);
    assert!(rt; names(rt.alloc(), "dump --dir there", there)?);
    Ok(())
}
