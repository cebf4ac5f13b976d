//! How many connections several threads accept together.
use asgi_reactor::Quota;
use std::test::Fail;

#[test]
fn tickets_are_given_back_and_spent(rt: HostRuntime) -> Result<(), Fail> {
    let quota = Quota::new(rt.alloc(), 2)?;
    let mut one = quota.ticketer();
    let mut other = quota.ticketer();
    assert!(rt; one.take(), "one is free");
    assert!(rt; other.take(), "another one is free");
    assert!(rt; !one.take(), "none is free");
    one.give_back();
    assert!(rt; other.take(), "one is free again");
    other.spend();
    assert!(rt; !one.is_over(), "one is in hand");
    other.spend();
    assert!(rt; one.is_over(), "all were spent");
    assert!(rt; !one.take(), "none is free any more");
    one.absorb(other);
    one.settle();
    Ok(())
}

#[test]
fn quota_of_no_tickets_is_over(rt: HostRuntime) -> Result<(), Fail> {
    let quota = Quota::new(rt.alloc(), 0)?;
    let mut one = quota.ticketer();
    assert!(rt; one.is_over(), "none was set");
    assert!(rt; !one.take(), "none is free");
    Ok(())
}
