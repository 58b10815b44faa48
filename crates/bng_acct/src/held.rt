ghost use Rattle.std.specs.Prelude.{◌≡◌};
ghost use Rattle.bng_acct.specs.Spool.{with_number, ended_by, is_kept, unknown};

use crate::facts::StatusType;
use bng_base::TermId;

/// A term that is live or has open records, and the numbers of these.
#[derive(Clone, Copy)]
pub struct Held {
    pub term: TermId,
    pub live: bool,
    pub start: Option<u32>,
    pub interim: Option<u32>,
    pub stop: Option<u32>,
}

/// A term of which no record was formed.
pub(crate) fn unknown(term: TermId) -> Held
    ensures { result ≡ unknown term }
{
    Held {
        term,
        live: true,
        start: None,
        interim: None,
        stop: None,
    }
}

/// The same with this number of its open record of a kind.
pub(crate) fn with_number(status: StatusType, number: Option<u32>, held: Held) -> Held
    ensures { result ≡ with_number status number held }
{
    match status {
        StatusType::Start => Held {
            start: number,
            ..held
        },
        StatusType::Interim => Held {
            interim: number,
            ..held
        },
        StatusType::Stop => Held {
            stop: number,
            ..held
        },
    }
}

/// A term ends with its Stop.
pub(crate) fn ended_by(status: StatusType, held: Held) -> Held
    ensures { result ≡ ended_by status held }
{
    match status {
        StatusType::Start | StatusType::Interim => held,
        StatusType::Stop => Held {
            live: false,
            ..held
        },
    }
}

/// Whether it is live or a record of it is open.
pub(crate) fn is_kept(held: Held) -> bool
    ensures { result ≡ is_kept held }
{
    held.live || held.start.is_some() || held.interim.is_some() || held.stop.is_some()
}
