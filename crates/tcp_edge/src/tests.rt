use super::*;
use link_edge::{Accept, Door, Give, Link, Take};
use std::io::{self, ErrorKind, Read, Write};
use std::net::{Ipv4Addr, SocketAddr, TcpStream};
use std::sync::Arc;
use std::sync::atomic::{AtomicBool, Ordering};
use std::test::Fail;
use std::thread;
use std::time::Duration;

/// How often an answer may be `Quiet` before a test gives up.
const PATIENCE: u32 = 400;

/// How many waits another thread ends. Each would be 50 milliseconds long else, and the test would not end within its minute.
const WAITS: u32 = 1_250;

fn bound(rt: HostRuntime) -> Result<(TcpDoor<HostRuntime>, SocketAddr), Fail> {
    let door = TcpDoor::bind(rt, rt.alloc(), SocketAddr::from((Ipv4Addr::LOCALHOST, 0)))?;
    let address = door.address();
    Ok((door, address))
}

fn accepted<D: Door>(door: &mut D) -> Option<D::Link> {
    for _ in 0..PATIENCE {
        match door.accept() {
            Accept::Got(link) => return Some(link),
            Accept::Quiet => {}
            Accept::Closed | Accept::Failed | Accept::NoMemory => return None,
        }
    }
    None
}

fn taken<L: Link>(link: &mut L, room: &mut [u8; 16]) -> Take {
    for _ in 0..PATIENCE {
        match link.take(room) {
            Take::Quiet => {}
            answer => return answer,
        }
    }
    Take::Quiet
}

/// What a client that says hello is answered.
fn greet(rt: &HostRuntime, address: SocketAddr) -> io::Result<[u8; 5]> {
    let mut client = TcpStream::connect(rt, address)?;
    client.write_all(b"hello")?;
    let mut answer = [0u8; 5];
    client.read_exact(&mut answer)?;
    Ok(answer)
}

#[test]
fn a_client_in_another_thread_is_heard_and_answered(rt: HostRuntime) -> Result<(), Fail> {
    let (mut door, address) = bound(rt)?;
    assert!(rt; matches!(door.accept(), Accept::Quiet));
    let client = thread::spawn(&rt, move || greet(&rt, address))?;
    let mut link = accepted(&mut door).ok_or("the client comes")?;
    let mut room = [0u8; 16];
    assert_eq!(rt; taken(&mut link, &mut room), Take::Got(5));
    assert_eq!(rt; &room[..5], b"hello".as_slice());
    assert_eq!(rt; link.give(b"there"), Give::Gave(5));
    let answer = client.join(&rt)?;
    assert_eq!(rt; answer.as_slice(), b"there".as_slice());
    assert_eq!(rt; taken(&mut link, &mut room), Take::Ended);
    assert_eq!(rt; link.faults(), 0);
    door.done(link);
    assert_eq!(rt; door.faults(), 0);
    Ok(())
}

/// A link, and the client at its other end.
fn connected(rt: HostRuntime) -> Result<(TcpLink<HostRuntime>, TcpStream), Fail> {
    let (mut door, address) = bound(rt)?;
    let client = TcpStream::connect(&rt, address)?;
    let link = accepted(&mut door).ok_or("the client comes")?;
    Ok((link, client))
}

/// Rings over and over, until all is done.
fn ring_until(rt: &HostRuntime, bell: &Bell, is_done: &AtomicBool) {
    for _ in 0..u64::MAX {
        if is_done.load(Ordering::SeqCst) {
            return;
        }
        bell.ring();
        thread::sleep(rt, Duration::from_micros(200));
    }
}

/// Whether the link is quiet at each of many takes.
fn is_quiet<L: Link>(link: &mut L) -> bool {
    let mut room = [0u8; 16];
    for _ in 0..WAITS {
        if link.take(&mut room) != Take::Quiet {
            return false;
        }
    }
    true
}

/// The bell of a link that has one.
fn bell_of<L: Rings>(link: &L) -> Result<Arc<Bell>, Fail> {
    let bell = link.bell().ok_or("it has a bell")?;
    Ok(bell.clone()?)
}

#[test]
fn another_thread_ends_each_wait(rt: HostRuntime) -> Result<(), Fail> {
    let (mut link, _client) = connected(rt)?;
    let bell = bell_of(&link)?;
    let is_done = Arc::new(rt.alloc(), AtomicBool::new(false))?;
    let theirs = is_done.clone()?;
    let ringer = thread::spawn(&rt, move || ring_until(&rt, &bell, &theirs))?;
    let answer = is_quiet(&mut link);
    is_done.store(true, Ordering::SeqCst);
    ringer.join(&rt);
    assert!(rt; answer);
    Ok(())
}

#[test]
fn an_address_that_is_taken_is_refused(rt: HostRuntime) -> Result<(), Fail> {
    let (_first, address) = bound(rt)?;
    let second = TcpDoor::bind(rt, rt.alloc(), address);
    assert!(rt; second.is_err_and(|error| error.kind() == ErrorKind::AddrInUse));
    Ok(())
}
