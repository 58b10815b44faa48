use arrayvec::ArrayVec;
use bng_base::{Book, Circuit, Ip4, TermId};

/// What a record is of (RFC 2866 section 5.1).
#[derive(Clone, Copy)]
pub enum StatusType {
    Start,
    Interim,
    Stop,
}

/// What a term's records say of it. `user` is its User-Name, and `class` the Class attributes of its Access-Accept, whole
/// and in their order. It began at `began`, in milliseconds, and so much was carried for it.
#[derive(Drop)]
pub struct TermFacts {
    pub term: TermId,
    pub circuit: Circuit,
    pub address: Ip4,
    pub user: ArrayVec<u8, 128>,
    pub class: ArrayVec<u8, 512>,
    pub began: u64,
    pub carried: Book,
}

/// When and why a record is formed: the moment in milliseconds, the second of the wall clock, and the
/// Acct-Terminate-Cause (RFC 2866 section 5.10), which is 0 and not written for a Start and an Interim.
#[derive(Clone, Copy)]
pub struct Moment {
    pub now: u64,
    pub wall: u64,
    pub cause: u8,
}

/// The number of a record: the lowest, from 0, that no record had that the spool knew when it was formed. It is no other
/// record's as long as the spool knows it.
#[derive(Clone, Copy, PartialEq, Eq)]
pub struct RecordNo(pub u32);

/// A record: of what, of whom, and when.
#[derive(Drop)]
pub struct Record {
    pub status: StatusType,
    pub facts: TermFacts,
    pub moment: Moment,
}
