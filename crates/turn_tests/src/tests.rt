use std::test::*;
use turn_counter::{count_both, join_two, meet_and_look};

#[test]
fn two_threads_count_a_thousand_each(rt: HostRuntime) -> Result<(), Fail> {
    let count = count_both(&rt, rt.alloc(), 1000).ok_or("they count")?;
    assert_eq!(rt; count, 2000);
    Ok(())
}

#[test]
fn a_seat_that_met_another_sees_what_it_left(rt: HostRuntime) -> Result<(), Fail> {
    let seen = meet_and_look(&rt, rt.alloc()).ok_or("it looks")?;
    assert_eq!(rt; seen, 1);
    Ok(())
}

#[test]
fn two_seats_become_one_and_end_the_lock(rt: HostRuntime) -> Result<(), Fail> {
    let count = join_two(&rt, rt.alloc()).ok_or("they count")?;
    assert_eq!(rt; count, 2);
    Ok(())
}
