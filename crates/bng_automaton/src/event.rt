/// An event of the automaton, by RFC 1661 section 4.3, in the order of the table of section 4.1.
#[derive(Clone, Copy, PartialEq, Eq, Debug)]
pub enum Event {
    /// The lower layer is ready.
    Up,
    /// The lower layer is no longer ready.
    Down,
    /// The link may be opened.
    Open,
    /// The link is to be closed.
    Close,
    /// TO+: the restart timer ran out with the restart counter above 0.
    ToPlus,
    /// TO-: the restart timer ran out with the restart counter at 0.
    ToMinus,
    /// RCR+: a Configure-Request came that is acknowledged.
    RcrPlus,
    /// RCR-: a Configure-Request came that is naked or rejected.
    RcrMinus,
    /// RCA: the Configure-Ack of the last Configure-Request came.
    Rca,
    /// RCN: a Configure-Nak or Configure-Reject of the last Configure-Request came.
    Rcn,
    /// RTR: a Terminate-Request came.
    Rtr,
    /// RTA: a Terminate-Ack came.
    Rta,
    /// RUC: a packet of an unknown code came.
    Ruc,
    /// RXJ+: a Code-Reject or Protocol-Reject came that the link can do without.
    RxjPlus,
    /// RXJ-: a Code-Reject or Protocol-Reject came without which the link cannot be.
    RxjMinus,
    /// RXR: an Echo-Request, Echo-Reply or Discard-Request came.
    Rxr,
}
