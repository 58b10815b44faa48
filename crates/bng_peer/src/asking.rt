/// What became of what a peer has to send and wants an answer to.
#[derive(Clone, Copy, Default)]
pub(crate) enum Asking {
    /// There is nothing, or it was answered.
    #[default]
    Nothing,
    /// It is to be sent, for the first time or again.
    ToSend,
    /// It was sent and is not answered.
    Sent,
}
