/// Why there are no peers.
#[derive(Clone, Copy, Debug)]
pub enum PeerError {
    OutOfMemory,
}
