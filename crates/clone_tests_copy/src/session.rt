//! A session of two tasks over spaces of 65 and 3 pages, which have chunks of 8, 1 and 1 blocks.
ghost use Rattle.std.specs.Prelude.{◌≤◌, length};
ghost use Rattle.clone_base.specs.declared.limits.TheConstants.{SPACE_LIMIT};
ghost use Rattle.clone_session.specs.CloneCalls.{IsMoment};

use clone_chunk::{CloneCause, PartialChunk, Partials, SpaceSize, Stage};
use clone_session::{Caller, CloneRefusal, Cloning, Hello, Moment, StageInfo};
use std::alloc::{AllocError, Global};
use std::test::Fail;

const HELLO: Hello = Hello {
    version: 2,
    page_size: 4_096,
    compress: false,
    tasks: 2,
    session: 7,
    incarnation: 3,
};

const STRANGER: Caller = Caller {
    session: 8,
    incarnation: 0,
    task: 9,
};

const LATE: Caller = Caller {
    session: 7,
    incarnation: 2,
    task: 9,
};

/// Task 1 of an incarnation of the session.
fn of_incarnation(incarnation: u32) -> Caller {
    Caller {
        session: 7,
        incarnation,
        task: 1,
    }
}

/// The session begins, or a later incarnation begins it again.
fn init(cloning: &mut Cloning, alloc: Global, hello: &Hello) -> Result<StageInfo, CloneRefusal> {
    cloning.hello(hello)?;
    if cloning.session().is_some() {
        return Ok(cloning.reopen(alloc, hello)?);
    }
    Ok(cloning.open(alloc, hello, &[(0, 65), (1, 3)], &[(1, 2)])?)
}

/// The session, opened by this.
fn opened(alloc: Global, hello: &Hello) -> Result<Cloning, Fail> {
    let mut cloning = Cloning::new(alloc, 65_536);
    match init(&mut cloning, alloc, hello) {
        Ok(_) => Ok(cloning),
        Err(_) => Err(Fail::from("not opened")),
    }
}

/// A moment with five commits, at which the whole log is archived.
fn moment(cloning: &Cloning) -> Moment
    ensures { IsMoment cloning.now result }
{
    cloning.part_laws();
    Moment {
        checkpoint: 8_192,
        end: cloning.archived().unwrap_or(8_192),
        position: 5,
        drops: 0,
    }
}

fn ack(
    cloning: &mut Cloning,
    alloc: Global,
    stage: u8,
    files: &[(u32, u32)],
) -> Result<StageInfo, CloneRefusal>
    requires { length files.now ≤ SPACE_LIMIT }
{
    let now = moment(cloning);
    cloning.acknowledge(alloc, of_incarnation(3), stage, 5, now, files)
}

/// Claims chunks and answers their blocks until none is free, and counts the blocks.
fn copied(cloning: &mut Cloning, caller: Caller, stage: u8) -> Result<u32, CloneCause> {
    let mut blocks: u32 = 0;
    for _ in 0..3 {
        let Some(chunk) = cloning.claim(caller, stage)? else {
            return Ok(blocks);
        };
        for number in 0..8 {
            let Ok(_) = cloning.block(caller, stage, chunk, number) else {
                continue;
            };
            blocks = blocks.saturating_add(1);
            if cloning.answered(caller, chunk, number) {
                break;
            }
        }
    }
    Ok(blocks)
}

/// The cause for which a call is refused.
fn why(answer: Result<StageInfo, CloneRefusal>) -> Option<CloneCause> {
    match answer {
        Err(CloneRefusal::Because(cause)) => Some(cause),
        Ok(_) | Err(CloneRefusal::NoMemory) => None,
    }
}

/// The space and the pages of the only space that a stage lists.
fn only_space(answer: Result<StageInfo, CloneRefusal>) -> Option<(u32, u32)> {
    let Ok(info) = answer else {
        return None;
    };
    let [SpaceSize { space, pages }] = info.plan.spaces() else {
        return None;
    };
    Some((*space, *pages))
}

fn mismatch(donor: u64, recipient: u64) -> Option<CloneCause> {
    Some(CloneCause::StageMismatch { donor, recipient })
}

const STALE: Option<CloneCause> = Some(CloneCause::Stale { incarnation: 3 });

// Each cause against the beginning of a session goes before the later ones.
#[test]
fn beginnings(rt: HostRuntime) -> Result<(), Fail> {
    let alloc = rt.alloc();
    let mut cloning = opened(alloc, &HELLO)?;
    let mut hello = Hello {
        version: 3,
        page_size: 8_192,
        compress: true,
        tasks: 17,
        session: 8,
        incarnation: 3,
    };
    assert!(rt; cloning.hello(&hello).err() == Some(CloneCause::VersionMismatch { theirs: 3 }));
    hello.version = 1;
    let other_pages = Some(CloneCause::PageSizeMismatch { theirs: 8_192 });
    assert!(rt; cloning.hello(&hello).err() == other_pages);
    hello.page_size = 4_096;
    assert!(rt; cloning.hello(&hello).err() == Some(CloneCause::CompressionRefused));
    hello.compress = false;
    assert!(rt; cloning.hello(&hello).err() == Some(CloneCause::TasksOutOfRange { tasks: 17 }));
    hello.tasks = 16;
    assert!(rt; cloning.hello(&hello).err() == Some(CloneCause::Busy { session: 7 }));
    hello.session = 7;
    assert!(rt; cloning.hello(&hello).err() == STALE);
    hello.incarnation = 5;
    assert!(rt; init(&mut cloning, alloc, &hello).is_ok());
    let beyond = Caller {
        session: 7,
        incarnation: 5,
        task: 2,
    };
    let no_task = Some(CloneCause::TasksOutOfRange { tasks: 2 });
    assert!(rt; why(cloning.attach(alloc, beyond)) == no_task);
    let blocks = cloning.reinit_blocks(alloc, of_incarnation(6), 1, &[], &[]);
    assert!(rt; blocks.is_ok());
    Ok(())
}

// The causes of the calls in the copy of files, each before the later ones.
#[test]
fn causes_in_the_copy_of_files(rt: HostRuntime) -> Result<(), Fail> {
    let alloc = rt.alloc();
    let mut cloning = opened(alloc, &HELLO)?;
    let (own, next) = (of_incarnation(3), of_incarnation(4));
    let none = Some(CloneCause::NoSuchSession);
    assert!(rt; why(cloning.attach(alloc, STRANGER)) == none);
    assert!(rt; why(cloning.attach(alloc, LATE)) == STALE);
    assert!(rt; why(cloning.attach(alloc, next)) == STALE);
    assert!(rt; why(cloning.reinit(alloc, STRANGER, 9, &[])) == none);
    assert!(rt; why(cloning.reinit(alloc, own, 9, &[])) == STALE);
    for stage in [0, 2, 3, 4] {
        assert!(rt; why(cloning.reinit(alloc, next, stage, &[])) == mismatch(1, stage as u64));
    }
    assert!(rt; cloning.claim(STRANGER, 9).err() == none);
    assert!(rt; cloning.execute(LATE, 9).err() == STALE);
    assert!(rt; cloning.claim(own, 2).err() == mismatch(1, 2));
    assert!(rt; cloning.kept(own, 2, 0).err() == mismatch(1, 2));
    assert!(rt; cloning.kept(own, 1, 0).err() == Some(CloneCause::NotClaimed));
    assert!(rt; cloning.claim(own, 1) == Ok(Some(0)) && cloning.kept(own, 1, 0) == Ok(0));
    assert!(rt; cloning.block(own, 1, 0, 7).is_ok());
    assert!(rt; cloning.block(own, 1, 0, 8).err() == Some(CloneCause::NotClaimed));
    assert!(rt; cloning.acknowledgement(LATE, 9, 9, 5).err() == STALE);
    assert!(rt; cloning.acknowledgement(own, 2, 9, 5).err() == mismatch(1, 2));
    let left = Some(CloneCause::ChunksLeft { count: 3 });
    assert!(rt; cloning.acknowledgement(own, 1, 9, 5).err() == left);
    assert!(rt; cloning.exit(LATE).err() == STALE && cloning.abandon(8).err() == none);
    assert!(rt; cloning.abandon(7).is_ok() && cloning.session().is_none());
    Ok(())
}

// The copy of pages lists the space that was created while files were copied, with the pages that
// it had then. A later incarnation that hasn't heard of that stage finds nothing finished.
#[test]
fn created_spaces(rt: HostRuntime) -> Result<(), Fail> {
    let alloc = rt.alloc();
    let mut cloning = opened(alloc, &HELLO)?;
    assert!(rt; copied(&mut cloning, of_incarnation(3), 1) == Ok(10));
    let files = [(0, 66), (1, 3), (4, 2)];
    assert!(rt; only_space(ack(&mut cloning, alloc, 1, &files)) == Some((4, 2)));
    assert!(rt; only_space(ack(&mut cloning, alloc, 1, &[])) == Some((4, 2)));
    let ahead = Some(CloneCause::FloorAhead {
        floor: 6,
        position: 5,
    });
    assert!(rt; copied(&mut cloning, of_incarnation(3), 2) == Ok(1));
    assert!(rt; cloning.acknowledgement(of_incarnation(3), 2, 6, 5).err() == ahead);
    let later = Hello {
        version: 2,
        page_size: 4_096,
        compress: false,
        tasks: 2,
        session: 7,
        incarnation: 4,
    };
    assert!(rt; cloning.hello(&later).err() == mismatch(2, 1));
    let joined = cloning.reinit(alloc, of_incarnation(4), 1, &[1]);
    assert!(rt; only_space(joined) == Some((4, 2)));
    let left = Some(CloneCause::ChunksLeft { count: 1 });
    assert!(rt; cloning.acknowledgement(of_incarnation(4), 2, 5, 5).err() == left);
    assert!(rt; copied(&mut cloning, of_incarnation(4), 2) == Ok(1));
    let joined = cloning.reinit(alloc, of_incarnation(5), 2, &[1]);
    assert!(rt; only_space(joined) == Some((4, 2)));
    assert!(rt; cloning.acknowledgement(of_incarnation(5), 2, 5, 5).is_ok());
    Ok(())
}

/// Chunk 0 with its blocks 0 and 7.
fn ends_of_a_chunk(alloc: Global) -> Result<Partials, AllocError> {
    let mut partials = Partials::new(alloc);
    partials.push(PartialChunk {
        chunk: 0,
        mask: 0b1000_0001,
    })?;
    Ok(partials)
}

// A later incarnation keeps the blocks that it tells, which aren't sent, in the second version
// alone.
#[test]
fn kept_blocks(rt: HostRuntime) -> Result<(), Fail> {
    let alloc = rt.alloc();
    let ends = ends_of_a_chunk(alloc)?;
    let mut cloning = opened(alloc, &HELLO)?;
    assert!(rt; cloning.claim(of_incarnation(3), 1) == Ok(Some(0)));
    let caller = of_incarnation(4);
    let joined = cloning.reinit_blocks(alloc, caller, 1, &[0b100], ends.as_slice());
    assert!(rt; joined.is_ok());
    let stale = Some(CloneCause::Stale { incarnation: 4 });
    assert!(rt; cloning.claim(of_incarnation(3), 1).err() == stale);
    assert!(rt; cloning.claim(caller, 1) == Ok(Some(0)));
    assert!(rt; cloning.kept(caller, 1, 0) == Ok(0b1000_0001));
    assert!(rt; cloning.block(caller, 1, 0, 7).err() == Some(CloneCause::NotClaimed));
    let again = cloning.reinit_blocks(alloc, of_incarnation(5), 1, &[], ends.as_slice());
    assert!(rt; again.is_ok());
    assert!(rt; copied(&mut cloning, of_incarnation(5), 1) == Ok(8));
    Ok(())
}

#[test]
fn blocks_in_the_first_version(rt: HostRuntime) -> Result<(), Fail> {
    let alloc = rt.alloc();
    let ends = ends_of_a_chunk(alloc)?;
    let first = Hello {
        version: 1,
        page_size: 4_096,
        compress: false,
        tasks: 1,
        session: 7,
        incarnation: 3,
    };
    let mut cloning = opened(alloc, &first)?;
    let stale = cloning.reinit_blocks(alloc, of_incarnation(3), 9, &[], ends.as_slice());
    assert!(rt; why(stale) == STALE);
    let refused = cloning.reinit_blocks(alloc, of_incarnation(4), 9, &[], ends.as_slice());
    assert!(rt; why(refused) == Some(CloneCause::VersionMismatch { theirs: 2 }));
    Ok(())
}

// The stages after the stop, in which the requester leaves.
#[test]
fn stages_after_the_stop(rt: HostRuntime) -> Result<(), Fail> {
    let alloc = rt.alloc();
    let mut cloning = opened(alloc, &HELLO)?;
    let own = of_incarnation(3);
    assert!(rt; copied(&mut cloning, own, 1) == Ok(10));
    assert!(rt; ack(&mut cloning, alloc, 1, &[(0, 65), (1, 3)]).is_ok());
    assert!(rt; copied(&mut cloning, own, 2) == Ok(1));
    assert!(rt; ack(&mut cloning, alloc, 2, &[]).is_ok());
    assert!(rt; cloning.last_stop().is_some());
    assert!(rt; why(cloning.reinit(alloc, of_incarnation(4), 1, &[])) == mismatch(3, 1));
    assert!(rt; ack(&mut cloning, alloc, 3, &[]).is_ok());
    let Ok(info) = cloning.attach(alloc, own) else {
        return Err(Fail::from("not attached"));
    };
    assert!(rt; info.plan.stage() == Stage::Done && info.plan.lsn() == 8_192);
    assert!(rt; cloning.exit(own).is_ok() && cloning.archived().is_none());
    assert!(rt; cloning.exit(own).err() == Some(CloneCause::NoSuchSession));
    Ok(())
}
