//! Why a shard was not opened or made ready.

/// What a shard was not opened or made ready for.
#[derive(Clone, Copy, Debug)]
pub enum ShardError {
    /// There is no memory for it.
    OutOfMemory,
}
