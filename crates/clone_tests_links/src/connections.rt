use clone_memlink::{Connection, LinkAnswer, LinkCall, LinkMachine, Piece, Way};
use clone_outside::Side;
use clone_turn::Machine;
use std::alloc::{AllocError, Global};
use std::test::Fail;

// A connection that is cut after so many bytes to the requester.
fn connection(alloc: Global, cut: Option<u64>) -> Result<Connection, AllocError> {
    Ok(Connection {
        to_donor: Way::new(alloc, None)?,
        to_requester: Way::new(alloc, cut)?,
        donor_closed: false,
        requester_closed: false,
    })
}

fn sent(connection: &mut Connection, side: Side, bytes: &[u8]) -> Option<usize> {
    if bytes.len() > 4_096 {
        return None;
    }
    match LinkMachine::step(connection, LinkCall::Send(side, Piece::new(bytes))) {
        LinkAnswer::Sent(n) => Some(n),
        _ => None,
    }
}

fn receives(connection: &mut Connection, side: Side, most: usize, bytes: &[u8]) -> bool {
    match LinkMachine::step(connection, LinkCall::Receive(side, most)) {
        LinkAnswer::Bytes(piece) => piece.as_slice() == bytes,
        _ => false,
    }
}

fn finds_nothing(connection: &mut Connection, side: Side) -> bool {
    matches!(
        LinkMachine::step(connection, LinkCall::Receive(side, 9)),
        LinkAnswer::Nothing
    )
}

fn finds_a_loss(connection: &mut Connection, side: Side) -> bool {
    matches!(
        LinkMachine::step(connection, LinkCall::Receive(side, 9)),
        LinkAnswer::Lost
    )
}

#[test]
fn bytes_come_in_order_and_once(rt: HostRuntime) -> Result<(), Fail> {
    let mut link = connection(rt.alloc(), None)?;
    assert!(rt; finds_nothing(&mut link, Side::Donor));
    assert_eq!(rt; sent(&mut link, Side::Requester, b"hello"), Some(5));
    assert_eq!(rt; sent(&mut link, Side::Requester, b" donor"), Some(6));
    assert!(rt; finds_nothing(&mut link, Side::Requester));
    assert!(rt; receives(&mut link, Side::Donor, 4, b"hell"));
    assert!(rt; receives(&mut link, Side::Donor, 99, b"o donor"));
    assert!(rt; finds_nothing(&mut link, Side::Donor));
    Ok(())
}

#[test]
fn a_cut_ends_both_ways(rt: HostRuntime) -> Result<(), Fail> {
    let mut link = connection(rt.alloc(), Some(7))?;
    assert_eq!(rt; sent(&mut link, Side::Requester, b"abc"), Some(3));
    assert_eq!(rt; sent(&mut link, Side::Donor, b"hello"), Some(5));
    assert_eq!(rt; sent(&mut link, Side::Donor, b"world"), Some(2));
    assert_eq!(rt; sent(&mut link, Side::Donor, b"more"), None);
    assert_eq!(rt; sent(&mut link, Side::Requester, b"more"), None);
    assert!(rt; receives(&mut link, Side::Requester, 99, b"hellowo"));
    assert!(rt; finds_a_loss(&mut link, Side::Requester));
    assert!(rt; receives(&mut link, Side::Donor, 99, b"abc"));
    assert!(rt; finds_a_loss(&mut link, Side::Donor));
    Ok(())
}

#[test]
fn what_was_sent_before_a_close_is_received(rt: HostRuntime) -> Result<(), Fail> {
    let mut link = connection(rt.alloc(), None)?;
    assert_eq!(rt; sent(&mut link, Side::Donor, b"last"), Some(4));
    let _ = LinkMachine::step(&mut link, LinkCall::Close(Side::Donor));
    assert_eq!(rt; sent(&mut link, Side::Requester, b"late"), None);
    assert!(rt; receives(&mut link, Side::Requester, 99, b"last"));
    assert!(rt; finds_a_loss(&mut link, Side::Requester));
    assert!(rt; finds_nothing(&mut link, Side::Donor));
    Ok(())
}

#[test]
fn no_more_than_65536_bytes_wait(rt: HostRuntime) -> Result<(), Fail> {
    let mut link = connection(rt.alloc(), None)?;
    let page = [7; 4_096];
    for _ in 0..16 {
        assert_eq!(rt; sent(&mut link, Side::Donor, &page), Some(4_096));
    }
    assert_eq!(rt; sent(&mut link, Side::Donor, b"more"), Some(0));
    assert!(rt; receives(&mut link, Side::Requester, 3, &[7; 3]));
    assert_eq!(rt; sent(&mut link, Side::Donor, b"more"), Some(3));
    Ok(())
}
