/// A state of the automaton, by RFC 1661 section 4.2, in the order in which the standard numbers them from 0.
#[derive(Clone, Copy, PartialEq, Eq, Debug)]
pub enum State {
    /// The lower layer is down, and no Open has come.
    Initial,
    /// The lower layer is down, and an Open has come.
    Starting,
    /// The link is available, and no Open has come.
    Closed,
    /// The link was given up or finished after an Open.
    Stopped,
    /// A Terminate-Request was sent after a Close.
    Closing,
    /// A Terminate-Request was sent or acknowledged after an Open.
    Stopping,
    /// A Configure-Request was sent.
    ReqSent,
    /// A Configure-Request was sent and acknowledged.
    AckRcvd,
    /// A Configure-Request and a Configure-Ack were sent.
    AckSent,
    /// A Configure-Ack was sent and one was received.
    Opened,
}
