use crate::values::stamp;
use session_stamp::{Early, Session};
use std::process::Abort;
use vector_stamp::Stamp;

// The session waits for a reply to what it began with this stamp.
fn waits(rt: &impl Abort, session: &Session, last: Stamp) {
    assert!(rt; session.next() == Err(Early));
    assert!(rt; session.last() == Some(last));
}

fn begin_and_reply(rt: &impl Abort, session: &mut Session) {
    let (first, second) = (stamp(0, 1, 0, 0), stamp(0, 2, 0, 0));
    assert!(rt; session.next() == Ok(Some(0)));
    assert!(rt; session.last() == None);
    session.begun(first);
    waits(rt, session, first);
    session.replied();
    assert!(rt; session.next() == Ok(Some(3)));
    session.begun(second);
    waits(rt, session, second);
    session.replied();
    assert!(rt; session.next() == Ok(None));
    assert!(rt; session.last() == Some(second));
}

#[test]
fn two_requests(rt: HostRuntime) {
    let mut session = Session::new([0, 3].to_vec(rt.alloc()).expect(&rt, "memory"));
    begin_and_reply(&rt, &mut session);
}
