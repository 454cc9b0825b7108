//! `route_core`: a session that collects nothing, and a queue group.

use js_base::{Blob, NoMemory, Out};
use js_model::{Collected, RouteFault};
use route_core::Router;
use std::alloc::Global;
use std::test::Fail;

/// A message to a subject.
fn message(alloc: Global, subject: &[u8], payload: &[u8]) -> Result<Out, NoMemory> {
    let subject = Blob::of(alloc, subject)?;
    Ok(Out {
        to: subject.clone()?,
        subject,
        reply: None,
        headers: Blob::empty(),
        payload: Blob::of(alloc, payload)?,
    })
}

/// What a session is told that is sent sixteen messages of a mebibyte and collects none.
fn slow(alloc: Global) -> Result<Collected, RouteFault> {
    let mut router = Router::new(alloc);
    let session = router.open()?;
    router.sub(session, b"a", None, b"1")?;
    let payload = vec![in alloc; 0u8; 1_048_576]?;
    let out = message(alloc, b"a", payload.as_slice())?;
    for _ in 0..16 {
        router.publish(&out, None)?;
    }
    router.collect(session, 1)
}

#[test]
fn slow_session_is_marked(rt: HostRuntime) -> Result<(), Fail> {
    let told = slow(rt.alloc())?;
    assert!(rt; matches!(&told, Collected::Slow { length: 16_777_520 }));
    Ok(())
}

/// How many frames wait for each of these sessions.
fn waiting(router: &mut Router, sessions: [u64; 3]) -> Result<[usize; 3], RouteFault> {
    let mut counts = [0; 3];
    for at in 0..3 {
        if let Collected::Frames { list, more: false } = router.collect(sessions[at], 16_777_216)? {
            counts[at] = list.len();
        }
    }
    Ok(counts)
}

/// How many messages wait for each of three members of a group, of 3,000 that were published.
fn shared(alloc: Global) -> Result<[usize; 3], RouteFault> {
    let mut router = Router::new(alloc);
    let sessions = [router.open()?, router.open()?, router.open()?];
    for session in sessions {
        router.sub(session, b"a", Some(b"g"), b"1")?;
    }
    let out = message(alloc, b"a", b"x")?;
    for _ in 0..3_000 {
        router.publish(&out, None)?;
    }
    waiting(&mut router, sessions)
}

#[test]
fn members_of_a_group_share_messages_evenly(rt: HostRuntime) -> Result<(), Fail> {
    let counts = shared(rt.alloc())?;
    assert_eq!(rt; counts, [1_000, 1_000, 1_000]);
    Ok(())
}
