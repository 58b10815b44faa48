//! The terms that a shard shows.
use arrayvec::ArrayVec;
use bng_base::{Book, Circuit, Ip4, TermId};

/// A term that is there: its session and its number in its shard, its circuit, and its address; the User-Name (RFC 2865 section 5.1)
/// and the Class attributes, each whole (section 5.25), of its records, and the moment at which it began, in milliseconds.
#[derive(Drop)]
pub struct LiveTerm {
    pub term: TermId,
    pub circuit: Circuit,
    pub address: Ip4,
    pub user: ArrayVec<u8, 128>,
    pub class: ArrayVec<u8, 512>,
    pub began: u64,
}

/// A live term of which an Interim is due: what `LiveTerm` says, and the octets and packets that it carried so far.
#[derive(Drop)]
pub struct ReportedTerm {
    pub term: LiveTerm,
    pub carried: Book,
}

/// A term that ended, of which a Stop is formed: what `LiveTerm` says, and the cause of its end (Acct-Terminate-Cause, RFC 2866 section
/// 5.10), and the octets and packets that it carried.
#[derive(Drop)]
pub struct EndedTerm {
    pub term: TermId,
    pub circuit: Circuit,
    pub address: Ip4,
    pub user: ArrayVec<u8, 128>,
    pub class: ArrayVec<u8, 512>,
    pub began: u64,
    pub cause: u8,
    pub carried: Book,
}
