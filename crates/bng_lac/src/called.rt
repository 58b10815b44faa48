/// Whether a call is asked for.
#[derive(Clone, Copy, PartialEq, Eq, Debug)]
pub enum Called {
    /// The call waits for the tunnel, or its ICRQ waits to go out.
    Asked,
    /// 63 calls wait for the tunnel, or 64 messages wait in its channel: there is no call.
    Full,
}
