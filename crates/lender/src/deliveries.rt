// Sessions of Depth, packet by packet. The expected values are worked out by hand from docs/SESSION.md.
use crate::made::{OTHER, WATCHED, cleared, heartbeat, quoted, reset, told};
use kinds::book::{Book, FiveLevels};
use kinds::depth::Depth;
use kinds::kind::Kind;
use session::session::{Mark, Session, open_session};
use slots::slot::Slot;
use std::process::Abort;
use std::test::Fail;

fn slots() -> [Slot<Book<FiveLevels>>; 1] {
    [Slot::new(Depth::empty())]
}

// A delivery that is not refused, next and top after it.
fn takes(
    rt: &impl Abort,
    session: &mut Session<Depth>,
    bytes: &[u8],
    moved: usize,
    next: u32,
    top: u32,
) {
    assert_eq!(rt; told(session.deliver(bytes)), Ok(moved));
    assert_eq!(rt; (session.next(), session.top()), (next, top));
}

fn refuses(
    rt: &impl Abort,
    session: &mut Session<Depth>,
    bytes: &[u8],
    number: u8,
    place: Option<usize>,
) {
    assert_eq!(rt; told(session.deliver(bytes)), Err((number, place)));
}

// The watched series: its last number, whether it is stale, and its best bid.
fn shows(
    rt: &impl Abort,
    session: &Session<Depth>,
    last: u32,
    mark: Mark,
    price: u32,
) -> Result<(), Fail> {
    let look = told(session.look(&WATCHED))?;
    assert_eq!(rt; (look.last, look.mark), (last, mark));
    assert_eq!(rt; look.record.bid.levels[0].price, price);
    Ok(())
}

#[test]
fn lost_late_and_repeated(rt: HostRuntime) -> Result<(), Fail> {
    let mut slots = slots();
    let mut session = open_session::<Depth>(11, &[WATCHED], &mut slots);
    takes(&rt, &mut session, &reset(1, 42), 0, 2, 1);
    takes(&rt, &mut session, &quoted(2, WATCHED, 1, 10), 1, 3, 2);
    takes(&rt, &mut session, &quoted(4, WATCHED, 3, 30), 0, 3, 4);
    shows(&rt, &session, 1, Mark::Stale, 10)?;
    takes(&rt, &mut session, &quoted(3, WATCHED, 2, 20), 1, 4, 4);
    shows(&rt, &session, 2, Mark::Stale, 20)?;
    takes(&rt, &mut session, &quoted(4, WATCHED, 3, 30), 1, 5, 4);
    shows(&rt, &session, 3, Mark::Current, 30)?;
    takes(&rt, &mut session, &quoted(2, WATCHED, 1, 10), 0, 5, 4);
    takes(&rt, &mut session, &reset(1, 42), 0, 5, 4);
    shows(&rt, &session, 3, Mark::Current, 30)
}

#[test]
fn another_stamp_starts_over(rt: HostRuntime) -> Result<(), Fail> {
    let mut slots = slots();
    let mut session = open_session::<Depth>(11, &[WATCHED], &mut slots);
    takes(&rt, &mut session, &reset(1, 42), 0, 2, 1);
    takes(&rt, &mut session, &quoted(2, WATCHED, 1, 10), 1, 3, 2);
    takes(&rt, &mut session, &heartbeat(9), 0, 3, 9);
    takes(&rt, &mut session, &reset(1, 43), 0, 2, 1);
    shows(&rt, &session, 0, Mark::Current, 0)?;
    takes(&rt, &mut session, &quoted(2, OTHER, 1, 10), 0, 3, 2);
    shows(&rt, &session, 0, Mark::Current, 0)
}

#[test]
fn settled_past_a_hole(rt: HostRuntime) -> Result<(), Fail> {
    let mut slots = slots();
    let mut session = open_session::<Depth>(11, &[WATCHED], &mut slots);
    takes(&rt, &mut session, &reset(1, 42), 0, 2, 1);
    takes(&rt, &mut session, &quoted(2, WATCHED, 1, 10), 1, 3, 2);
    takes(
        &rt,
        &mut session,
        &quoted(5, WATCHED, 4_294_967_294, 40),
        0,
        3,
        5,
    );
    shows(&rt, &session, 1, Mark::Stale, 10)?;
    takes(
        &rt,
        &mut session,
        &cleared(4_294_967_294, 4_294_967_293),
        1,
        3,
        4_294_967_294,
    );
    shows(&rt, &session, 4_294_967_293, Mark::Stale, 0)?;
    takes(
        &rt,
        &mut session,
        &quoted(6, WATCHED, 4_294_967_294, 40),
        1,
        3,
        4_294_967_294,
    );
    shows(&rt, &session, 4_294_967_294, Mark::Current, 40)
}

#[test]
fn refused(rt: HostRuntime) -> Result<(), Fail> {
    let mut slots = slots();
    let mut session = open_session::<Depth>(11, &[WATCHED], &mut slots);
    assert!(rt; session.is_waiting());
    refuses(&rt, &mut session, &heartbeat(0), 8, None);
    refuses(&rt, &mut session, &quoted(2, WATCHED, 1, 10), 8, None);
    refuses(&rt, &mut session, &quoted(1, WATCHED, 1, 10), 6, Some(8));
    takes(&rt, &mut session, &reset(1, 42), 0, 2, 1);
    refuses(&rt, &mut session, &reset(2, 42), 6, Some(8));
    let mut broken = quoted(2, WATCHED, 1, 10);
    broken[51] = 0;
    refuses(&rt, &mut session, &broken, 5, Some(8));
    assert_eq!(rt; (session.next(), session.top()), (2, 1));
    shows(&rt, &session, 0, Mark::Current, 0)
}
