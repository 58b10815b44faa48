use std::alloc::AllocError;

/// Why a tunnel cannot be had.
#[derive(Debug, Clone, Copy)]
pub enum LacError {
    /// There is no memory for its calls.
    OutOfMemory,
}

impl From<AllocError> for LacError {
    fn from(_: AllocError) -> LacError {
        LacError::OutOfMemory
    }
}
