use clone_outside::{Link, LinkRefusal, Net, Received};
use clone_real::{SocketNet, accept_from};
use std::io::Read;
use std::net::{Ipv4Addr, SocketAddr, TcpListener, TcpStream};
use std::test::Fail;
use std::{fs, io, net};

#[test]
fn a_close_ends_both_ways_and_loses_nothing(rt: HostRuntime) -> Result<(), Fail> {
    let mut net = SocketNet::new(rt);
    let (mut donor, mut requester) = net.pair()?;
    let mut into = [0; 8];
    assert_eq!(rt; donor.receive(&mut into), Ok(Received::Nothing));
    assert_eq!(rt; donor.send(b"hello"), Ok(()));
    assert_eq!(rt; requester.receive(&mut into), Ok(Received::Bytes(5)));
    assert!(rt; into == *b"hello\0\0\0");
    assert_eq!(rt; requester.send(b"last"), Ok(()));
    requester.close();
    assert_eq!(rt; donor.receive(&mut into), Ok(Received::Bytes(4)));
    assert!(rt; into == *b"lasto\0\0\0");
    net.settle(donor, requester);
    assert_eq!(rt; net.faults(), 0);
    Ok(())
}

#[test]
fn what_comes_after_a_close_is_a_loss(rt: HostRuntime) -> Result<(), Fail> {
    let mut net = SocketNet::new(rt);
    let (mut donor, mut requester) = net.pair()?;
    requester.close();
    assert_eq!(rt; donor.receive(&mut [0; 8]), Ok(Received::Lost));
    // the first of these may go out before the other end's system refuses it
    let _first = donor.send(b"late");
    assert_eq!(rt; donor.send(b"later"), Err(LinkRefusal::Lost));
    let found = donor.faults();
    assert!(rt; found >= 2);
    net.settle(donor, requester);
    assert_eq!(rt; net.faults(), found);
    Ok(())
}

// Whether the connection that comes from the right address is accepted behind a stranger's, and the
// stranger's then ends.
fn refuses_a_stranger<R>(rt: &R) -> io::Result<bool>
where
    R: net::Net<Stream = TcpStream, Listener = TcpListener>,
{
    let listener = TcpListener::bind(rt, SocketAddr::from((Ipv4Addr::LOCALHOST, 0)))?;
    let address = listener.local_addr()?;
    let mut stranger = TcpStream::connect(rt, address)?;
    let own = TcpStream::connect(rt, address)?;
    let accepted = accept_from(&listener, own.local_addr()?)?;
    Ok(accepted.peer_addr()? == own.local_addr()? && stranger.read(&mut [0; 1])? == 0)
}

#[test]
fn a_stranger_is_refused(rt: HostRuntime) {
    assert!(rt; refuses_a_stranger(&rt).is_ok_and(|refused| refused));
}

// How many descriptors this process has open.
fn count_open(rt: &HostRuntime) -> Result<usize, Fail> {
    let mut count = 0_usize;
    for entry in fs::read_dir(rt, "/proc/self/fd")? {
        let _entry = entry?;
        count = count.saturating_add(1);
    }
    Ok(count)
}

#[test]
fn a_thousand_pairs_leave_no_descriptor(rt: HostRuntime) -> Result<(), Fail> {
    let before = count_open(&rt)?;
    let mut net = SocketNet::new(rt);
    for _ in 0..1_000 {
        let (donor, requester) = net.pair()?;
        net.settle(donor, requester);
    }
    assert_eq!(rt; count_open(&rt)?, before);
    assert_eq!(rt; net.faults(), 0);
    Ok(())
}
