//! The terms of circuits, as a shard shows them and lets them leave.
use crate::shard::{Bench, NOTHING};
use bng_base::{Book, Circuit, Ip4, Mac, SessionNo, TermId};
use bng_steps::{EndedTerm, LiveTerm};

// Which term is the circuit's of this host.
fn term(host: u8, session: u16, serial: u64, address: u32) -> (TermId, Circuit, Ip4) {
    let session = SessionNo(session);
    let term = TermId { session, serial };
    let circuit = Circuit::Pppoe {
        port: 1,
        mac: Mac([2, 0, 0, 0, 0, host]),
        session,
    };
    (term, circuit, Ip4(address))
}

// The term that is shown is this one, of the circuit's user, from the opening on.
fn is_term(shown: &LiveTerm, term: (TermId, Circuit, Ip4)) -> bool {
    (shown.term, shown.circuit, shown.address) == term
        && shown.user.as_slice() == b"f".as_slice()
        && shown.class.is_empty()
        && shown.began == 0
}

// The term that ended is this one, and it carried nothing.
pub(super) fn is_end(ended: &EndedTerm, term: (TermId, Circuit, Ip4)) -> bool {
    (ended.term, ended.circuit, ended.address) == term
        && ended.user.as_slice() == b"f".as_slice()
        && ended.began == 0
        && ended.cause == 10
        && ended.carried == NOTHING
}

// Whether this term leaves next, and carried nothing.
pub(super) fn leaves(bench: &mut Bench, term: (TermId, Circuit, Ip4)) -> bool {
    let reaped = bench.reap();
    reaped.as_ref().is_some_and(|ended| is_end(ended, term))
}

// Whether at this place this term is there.
pub(super) fn shows(bench: &Bench, place: usize, term: (TermId, Circuit, Ip4)) -> bool {
    let shown = bench.shard.term(place);
    shown.as_ref().is_some_and(|shown| is_term(shown, term))
}

// The terms of the two circuits.
pub(super) fn first() -> (TermId, Circuit, Ip4) {
    term(1, 1025, 1, 0x0a000002)
}

pub(super) fn second() -> (TermId, Circuit, Ip4) {
    term(2, 1026, 2, 0x0a000003)
}

// What the term that leaves next carried.
pub(super) fn carried(bench: &mut Bench) -> Option<Book> {
    let ended = bench.reap()?;
    Some(ended.carried)
}
