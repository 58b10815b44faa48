//! The Identifiers of the packets that the gateway originates (RFC 1661 section 5).
ghost use Rattle.std.specs.Prelude.{◌≡◌};
ghost use Rattle.bng_ppp.specs.Identifiers.{next_of, first_ids, requested as ids_requested, ending as ids_ending};

/// The Identifiers of the packets that an automaton originates.
#[derive(Clone, Copy)]
pub struct Identifiers {
    /// That of the next packet that is a new one.
    pub next: u8,
    /// That of the last Configure-Request.
    pub request: u8,
    /// That of the last Terminate-Request.
    pub terminate: u8,
    /// A Configure-Ack, -Nak or -Reject was taken since the last Configure-Request.
    pub answered: bool,
}

/// The Identifiers of an automaton that has sent nothing.
pub(crate) fn first() -> Identifiers
    ensures { result ≡ first_ids }
{
    Identifiers {
        next: 1,
        request: 0,
        terminate: 0,
        answered: true,
    }
}

/// The Identifier after this one.
pub(crate) fn next_id(id: u8) -> u8
    ensures { result ≡ next_of id }
{
    id.wrapping_add(1)
}

/// The Identifiers once a Configure-Request is sent.
pub(crate) fn requested(ids: Identifiers, timed: bool) -> Identifiers
    ensures { result ≡ ids_requested timed ids }
{
    if timed && !ids.answered {
        return Identifiers {
            answered: false,
            ..ids
        };
    }
    Identifiers {
        request: ids.next,
        next: next_id(ids.next),
        answered: false,
        ..ids
    }
}

/// The Identifiers once a Terminate-Request is sent.
pub(crate) fn ending(ids: Identifiers, timed: bool) -> Identifiers
    ensures { result ≡ ids_ending timed ids }
{
    if timed {
        return ids;
    }
    Identifiers {
        terminate: ids.next,
        next: next_id(ids.next),
        ..ids
    }
}
