use clone_script::{ReadRefusal, Script, line_text, read_script};
use std::alloc::{AllocError, Global};
use std::process::Abort;

/// A line of each kind, with the least and the greatest of its numbers.
const LINES: &str = "\
create 1 1
create 1000000 1024
drop 1
drop 1000000
begin 0
begin 4294967295
put 0 1 0 -
put 4294967295 1000000 18446744073709551615 00
set 0 1 0 -
set 4294967295 1000000 18446744073709551615 0123456789abcdef
del 0 1 0
del 4294967295 1000000 18446744073709551615
get 0 1 0
get 4294967295 1000000 18446744073709551615
undo 0
undo 4294967295
commit 0
commit 4294967295
flush 0 0
flush 1000000 65535
half 0 0
half 1000000 65535
land 0 0
land 1000000 65535
clean
checkpoint
lsn
tear 0
tear 255
fail donor 1
fail donor 1000000
fail recipient 1
fail recipient 1000000
start
task 0
task 15
serve 0
serve 4294967295
cut 0 0 0
cut 4294967295 4294967295 4294967295
status
raw 00
raw 0123456789abcdef
feed 0 00
feed 4294967295 0123456789abcdef
abandon
advance
finish
look
archive 0
archive 4294967295
follow
lose
repeat 0
repeat 18446744073709551615
replica
clone
rows
";

/// Texts that are no lines: unknown words, missing fields and fields too many, numbers outside their
/// ranges, and other spellings.
const BAD: &str = "\
row
rows 1
clones
Clone
clone\t
 clone
clone\u{20}
 # comment
clean 1
checkpoint 1
lsn 1
start 1
advance 1
finish 1
look 1
follow 1
lose 1
replica 1
follower
repeat
repeat\u{20}
repeat 1 1
repeat -1
repeat 01
repeat a
repeat 18446744073709551616
create
create 1
create 1 4 1
create  1 4
create\t1 4
create 01 4
create 1 04
create +1 4
create 0 4
create 1000001 4
create 1 0
create 1 1025
drop
drop 1 1
drop 0
drop 1000001
drop 4294967297
begin
begin\u{20}
begin 3 1
begin -1
begin a
begin 03
begin 4294967296
begin 18446744073709551616
put 3 1 7
put 3 1 7 6869 1
put 4294967296 1 7 6869
put 3 0 7 6869
put 3 1000001 7 6869
put 3 1 18446744073709551616 6869
put 3 1 7 686
put 3 1 7 6F
put 3 1 7 6g
put 3 1 7\u{20}
put 3 1 7 --
put 3 1 7 none
set 3 1 7
set 3 1 7 6869 1
set 4294967296 1 7 6869
set 3 0 7 6869
set 3 1000001 7 6869
set 3 1 18446744073709551616 6869
del 3 1
del 3 1 7 1
del 4294967296 1 7
del 3 0 7
del 3 1000001 7
del 3 1 18446744073709551616
get 3 1
get 3 1 7 1
get 4294967296 1 7
get 3 0 7
get 3 1000001 7
get 3 1 18446744073709551616
undo
undo 3 1
undo 4294967296
commit
commit 3 1
commit 4294967296
flush 1
flush 1 3 5
flush 1000001 3
flush 1 65536
flush 4294967296 3
half 1
half 1 3 5
half 1000001 3
half 1 65536
land 1
land 1 3 5
land 1000001 3
land 1 65536
tear
tear 1 2
tear 256
fail
fail 1
fail disk 1
fail donor
fail donor 1 2
fail donor 0
fail donor 1000001
fail donor 4294967297
fail recipient
fail recipient 1 2
fail recipient 0
fail recipient 1000001
archive
archive 1 2
archive 4294967296
pool
pool 16 1
pool 016
pool 15
pool 4097
pool 4294967552
ring
ring 65536 1
ring 065536
ring 65535
ring 16777217
ring 18446744073709617152";

// The lines of a script, each as its text.
fn text_of(alloc: Global, script: &Script) -> Result<String, AllocError> {
    let mut text = String::new(alloc);
    for line in &script.lines {
        text.push_str(line_text(alloc, line)?.as_str())?;
        text.push('\n')?;
    }
    Ok(text)
}

#[test]
fn lines_read_back(rt: HostRuntime) -> Result<(), ReadRefusal> {
    let script = read_script(rt.alloc(), LINES.as_bytes())?;
    assert!(rt; text_of(rt.alloc(), &script)?.as_str() == LINES);
    Ok(())
}

// Each of these texts is a bad line.
fn are_bad(rt: &impl Abort, alloc: Global, texts: &str) {
    for text in texts.lines() {
        let read = read_script(alloc, text.as_bytes());
        assert!(rt;
            matches!(read, Err(ReadRefusal::BadLine { line: 1 })),
            "{text}"
        );
    }
}

#[test]
fn bad_lines(rt: HostRuntime) {
    are_bad(&rt, rt.alloc(), BAD);
}

#[test]
fn sizes_of_the_head(rt: HostRuntime) -> Result<(), ReadRefusal> {
    let usual = read_script(rt.alloc(), b"# pool 99\n#ring 99999\n")?;
    assert!(rt; usual.config.pool == 256 && usual.config.ring == 1_048_576);
    assert!(rt; usual.lines.is_empty());
    let given = read_script(
        rt.alloc(),
        b"\n# sizes\nring 99999\n\n#\npool 99\n\n# lines\nrows\n\nrows",
    )?;
    assert!(rt; given.config.pool == 99 && given.config.ring == 99_999);
    assert!(rt; given.lines.len() == 2);
    Ok(())
}

#[test]
fn usual_terms(rt: HostRuntime) -> Result<(), ReadRefusal> {
    let terms = read_script(rt.alloc(), b"rows\n")?.terms;
    assert!(rt; terms.version == 1 && terms.tasks == 1 && terms.limit == 16);
    Ok(())
}

#[test]
fn head_lines_in_any_order(rt: HostRuntime) -> Result<(), ReadRefusal> {
    let bytes = b"limit 3\n# terms\nring 99999\ntasks 2\n\npool 99\nversion 2\nstart\n";
    let script = read_script(rt.alloc(), bytes)?;
    assert!(rt; script.config.pool == 99 && script.config.ring == 99_999);
    assert!(rt; script.terms.version == 2 && script.terms.tasks == 2 && script.terms.limit == 3);
    assert!(rt; script.lines.len() == 1);
    Ok(())
}

// The head line is bad where one of its kind or a line stands before it.
fn stands_first_and_once(rt: &impl Abort, alloc: Global, head: &str) -> Result<(), AllocError> {
    for before in [head, "look"] {
        let text = format!(in alloc; "{before}\n{head}\n")?;
        let read = read_script(alloc, text.as_bytes());
        assert!(rt;
            matches!(read, Err(ReadRefusal::BadLine { line: 2 })),
            "{text}"
        );
    }
    Ok(())
}

const BAD_VERSIONS: &str = "\
version
version\u{20}
version 0
version 3
version 01
version -1
version 1 1
version 65537";

#[test]
fn a_version_is_1_or_2(rt: HostRuntime) -> Result<(), ReadRefusal> {
    let alloc = rt.alloc();
    assert!(rt; read_script(alloc, b"version 1")?.terms.version == 1);
    assert!(rt; read_script(alloc, b"version 2")?.terms.version == 2);
    are_bad(&rt, alloc, BAD_VERSIONS);
    stands_first_and_once(&rt, alloc, "version 2")?;
    Ok(())
}

const BAD_TASKS: &str = "\
tasks
tasks\u{20}
tasks 0
tasks 17
tasks 02
tasks 2 2
tasks 257";

#[test]
fn tasks_are_1_to_16(rt: HostRuntime) -> Result<(), ReadRefusal> {
    let alloc = rt.alloc();
    assert!(rt; read_script(alloc, b"tasks 1")?.terms.tasks == 1);
    assert!(rt; read_script(alloc, b"tasks 16")?.terms.tasks == 16);
    are_bad(&rt, alloc, BAD_TASKS);
    stands_first_and_once(&rt, alloc, "tasks 2")?;
    Ok(())
}

const BAD_LIMITS: &str = "\
limit
limit\u{20}
limit 101
limit 00
limit 3 3
limit 4294967296";

#[test]
fn a_limit_is_0_to_100(rt: HostRuntime) -> Result<(), ReadRefusal> {
    let alloc = rt.alloc();
    assert!(rt; read_script(alloc, b"limit 0")?.terms.limit == 0);
    assert!(rt; read_script(alloc, b"limit 100")?.terms.limit == 100);
    are_bad(&rt, alloc, BAD_LIMITS);
    stands_first_and_once(&rt, alloc, "limit 3")?;
    Ok(())
}

// Each of these texts is the text of one line.
fn are_lines(rt: &impl Abort, alloc: Global, texts: &str) -> Result<(), ReadRefusal> {
    let script = read_script(alloc, texts.as_bytes())?;
    assert!(rt; text_of(alloc, &script)?.as_str() == texts, "{texts}");
    Ok(())
}

const BAD_TASK: &str = "\
task
task\u{20}
task 16
task 00
task 0 0
task 256";

#[test]
fn a_task_is_below_16(rt: HostRuntime) -> Result<(), ReadRefusal> {
    are_lines(&rt, rt.alloc(), "task 0\ntask 15\n")?;
    are_bad(&rt, rt.alloc(), BAD_TASK);
    Ok(())
}

const BAD_SERVE: &str = "\
serve
serve\u{20}
serve 00
serve 0 0
serve 4294967296";

#[test]
fn a_served_connection_has_32_bits(rt: HostRuntime) -> Result<(), ReadRefusal> {
    are_lines(&rt, rt.alloc(), "serve 0\nserve 4294967295\n")?;
    are_bad(&rt, rt.alloc(), BAD_SERVE);
    Ok(())
}

const CUTS: &str = "\
cut 0 0 0
cut 4294967295 0 0
cut 0 4294967295 0
cut 0 0 4294967295
";

const BAD_CUTS: &str = "\
cut
cut 0
cut 0 0
cut 0 0 0 0
cut 0 0 00
cut 0  0 0
cut 4294967296 0 0
cut 0 4294967296 0
cut 0 0 4294967296";

#[test]
fn a_cut_has_three_numbers_of_32_bits(rt: HostRuntime) -> Result<(), ReadRefusal> {
    are_lines(&rt, rt.alloc(), CUTS)?;
    are_bad(&rt, rt.alloc(), BAD_CUTS);
    Ok(())
}

#[test]
fn a_status_has_no_field(rt: HostRuntime) -> Result<(), ReadRefusal> {
    are_lines(&rt, rt.alloc(), "status\n")?;
    are_bad(&rt, rt.alloc(), "status 1\nstatus\u{20}\nStatus");
    Ok(())
}

#[test]
fn an_abandon_has_no_field(rt: HostRuntime) -> Result<(), ReadRefusal> {
    are_lines(&rt, rt.alloc(), "abandon\n")?;
    are_bad(&rt, rt.alloc(), "abandon 1\nabandon\u{20}\nabandoned");
    Ok(())
}

// These words, and behind them so many bytes.
fn with_bytes(alloc: Global, words: &str, count: usize) -> Result<String, AllocError> {
    let mut text = String::from_str(alloc, words)?;
    for _ in 0..count {
        text.push_str("5a")?;
    }
    Ok(text)
}

// Behind these words 64 bytes may stand, and 65 may not.
fn take_64_bytes(rt: &impl Abort, alloc: Global, words: &str) -> Result<(), ReadRefusal> {
    let mut most = with_bytes(alloc, words, 64)?;
    most.push('\n')?;
    are_lines(rt, alloc, most.as_str())?;
    let more = with_bytes(alloc, words, 65)?;
    are_bad(rt, alloc, more.as_str());
    Ok(())
}

const BAD_RAW: &str = "\
raw
raw\u{20}
raw -
raw 0
raw 000
raw 0A
raw 0g
raw 00 00
raw 0 00";

#[test]
fn raw_bytes_are_1_to_64(rt: HostRuntime) -> Result<(), ReadRefusal> {
    are_lines(&rt, rt.alloc(), "raw 00\nraw ff\n")?;
    take_64_bytes(&rt, rt.alloc(), "raw ")?;
    are_bad(&rt, rt.alloc(), BAD_RAW);
    Ok(())
}

const BAD_FEEDS: &str = "\
feed
feed 0
feed 0\u{20}
feed 00
feed 0 -
feed 0 0
feed 0 000
feed 0 0A
feed 0 0g
feed 0 00 00
feed 00 00
feed 4294967296 00";

#[test]
fn fed_bytes_are_1_to_64(rt: HostRuntime) -> Result<(), ReadRefusal> {
    are_lines(&rt, rt.alloc(), "feed 0 00\nfeed 4294967295 ff\n")?;
    take_64_bytes(&rt, rt.alloc(), "feed 0 ")?;
    are_bad(&rt, rt.alloc(), BAD_FEEDS);
    Ok(())
}
