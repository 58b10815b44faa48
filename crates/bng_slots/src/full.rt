use std::alloc::AllocError;

/// Each session number of the shard is used; the value comes back.
#[derive(Drop)]
pub struct Full<V> {
    pub value: V,
}

/// Why slots were not opened.
#[derive(Debug, Clone, Copy)]
pub enum SlotError {
    /// There is no memory for the slots and their indexes.
    OutOfMemory,
}

impl From<AllocError> for SlotError {
    fn from(_: AllocError) -> SlotError {
        SlotError::OutOfMemory
    }
}
