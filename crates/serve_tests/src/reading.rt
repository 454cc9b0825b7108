//! What is read back of a message that was published.

use crate::doors::OneByOne;
use crate::runs::{TWO_WORKERS, door_of, gives, serve_by, volumes_after};
use crate::talks::{
    FIRST, MAKE_ORDERS, MESSAGE_ELSEWHERE, PUBLISH, PUBLISHED_AND_READ, PUBLISHED_FIRST, READ,
    READ_ELSEWHERE, SECOND,
};
use link_edge::OpenGate;
use std::test::Fail;

#[test]
fn publish_is_answered(rt: HostRuntime) -> Result<(), Fail> {
    let alloc = rt.alloc();
    let vols = volumes_after(&rt, alloc, MAKE_ORDERS)?;
    let ran = serve_by(
        &rt,
        alloc,
        TWO_WORKERS,
        door_of(alloc, &[PUBLISH])?,
        vols,
        &OpenGate,
    )?;
    assert_eq!(rt; ran.finish.status, 0);
    let [link] = ran.finish.door.back() else {
        return Err("one link comes back")?;
    };
    assert!(rt; gives(link, FIRST, PUBLISHED_FIRST));
    Ok(())
}

/// The second connection comes once the first one has ended, and either worker may serve it.
#[test]
fn message_is_read_back_by_both_connections(rt: HostRuntime) -> Result<(), Fail> {
    let alloc = rt.alloc();
    let mut said = Vec::from_slice(alloc, PUBLISH)?;
    said.extend_from_slice(READ)?;
    let door = OneByOne {
        door: door_of(alloc, &[said.as_slice(), READ_ELSEWHERE])?,
    };
    let vols = volumes_after(&rt, alloc, MAKE_ORDERS)?;
    let ran = serve_by(&rt, alloc, TWO_WORKERS, door, vols, &OpenGate)?;
    assert_eq!(rt; ran.finish.status, 0);
    assert_eq!(rt; ran.finish.vols.len(), 2);
    let [one, other] = ran.finish.door.door.back() else {
        return Err("two links come back")?;
    };
    assert!(rt; gives(one, FIRST, PUBLISHED_AND_READ));
    assert!(rt; gives(other, SECOND, MESSAGE_ELSEWHERE));
    Ok(())
}
