//! A writer of seed 7, whose first transaction on four tables sets key 2767 of table 3 and key 943
//! of table 2, as `pcg.py 7 0 0 4` says.
use clone_plain::{Cause, EngineAnswer, EngineCall, EngineRefusal, Undone};
use clone_writer::Writer;
use std::test::Fail;

/// What a writer asks, without the values of its changes.
#[derive(Clone, Copy, Debug, PartialEq, Eq)]
enum Asked {
    Begin { index: u64 },
    Set { trx: u32, table: u32, key: u64 },
    Undo { trx: u32 },
    Commit { trx: u32 },
    Other,
}

fn next_of(writer: &Writer) -> Option<Asked> {
    let call = writer.next()?;
    Some(match call {
        EngineCall::Begin { writer: 0, index } => Asked::Begin { index },
        EngineCall::Put {
            trx,
            table,
            key,
            value: _,
        } => Asked::Set { trx, table, key },
        EngineCall::UndoOne { trx } => Asked::Undo { trx },
        EngineCall::Commit { trx } => Asked::Commit { trx },
        _ => Asked::Other,
    })
}

const LOG_FULL: EngineRefusal = EngineRefusal::Because(Cause::LogFull { need: 2, free: 1 });

const LOCKED: EngineRefusal = EngineRefusal::Because(Cause::RowLocked { holder: 9 });

#[test]
fn each_change_is_asked_until_it_is_made(rt: HostRuntime) -> Result<(), Fail> {
    let alloc = rt.alloc();
    let mut writer = Writer::new(alloc, 7, 0, 4, 1);
    assert_eq!(rt; next_of(&writer), Some(Asked::Begin { index: 0 }));
    writer.take(alloc, &Err(LOG_FULL))?;
    assert_eq!(rt; next_of(&writer), Some(Asked::Begin { index: 0 }));
    writer.take(alloc, &Ok(EngineAnswer::Begin { trx: 5 }))?;
    let first = Asked::Set {
        trx: 5,
        table: 3,
        key: 2_767,
    };
    assert_eq!(rt; next_of(&writer), Some(first));
    writer.take(alloc, &Err(LOG_FULL))?;
    assert_eq!(rt; next_of(&writer), Some(first));
    writer.take(alloc, &Ok(EngineAnswer::Put))?;
    let second = Asked::Set {
        trx: 5,
        table: 2,
        key: 943,
    };
    assert_eq!(rt; next_of(&writer), Some(second));
    writer.take(alloc, &Ok(EngineAnswer::Put))?;
    assert_eq!(rt; next_of(&writer), Some(Asked::Commit { trx: 5 }));
    writer.take(alloc, &Err(LOG_FULL))?;
    assert_eq!(rt; next_of(&writer), Some(Asked::Commit { trx: 5 }));
    writer.take(alloc, &Ok(EngineAnswer::Commit { position: 1 }))?;
    assert_eq!(rt; next_of(&writer), None);
    Ok(())
}

#[test]
fn a_transaction_that_meets_a_lock_begins_again(rt: HostRuntime) -> Result<(), Fail> {
    let alloc = rt.alloc();
    let mut writer = Writer::new(alloc, 7, 0, 4, 1);
    writer.take(alloc, &Ok(EngineAnswer::Begin { trx: 5 }))?;
    writer.take(alloc, &Ok(EngineAnswer::Put))?;
    writer.take(alloc, &Err(LOCKED))?;
    assert_eq!(rt; next_of(&writer), Some(Asked::Undo { trx: 5 }));
    let left = EngineAnswer::UndoOne {
        undone: Undone::Left(0),
    };
    writer.take(alloc, &Ok(left))?;
    assert_eq!(rt; next_of(&writer), Some(Asked::Undo { trx: 5 }));
    let ended = EngineAnswer::UndoOne {
        undone: Undone::Ended,
    };
    writer.take(alloc, &Ok(ended))?;
    assert_eq!(rt; next_of(&writer), Some(Asked::Begin { index: 0 }));
    writer.take(alloc, &Ok(EngineAnswer::Begin { trx: 6 }))?;
    let first = Asked::Set {
        trx: 6,
        table: 3,
        key: 2_767,
    };
    assert_eq!(rt; next_of(&writer), Some(first));
    Ok(())
}
