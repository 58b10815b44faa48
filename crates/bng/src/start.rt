//! What the program does before `run`.
use bng_plant::Sink;
use std::alloc::{AllocError, Global};
use std::process::ExitCode;

/// One octet more than the configuration may have, so that a longer one is seen to be longer.
pub const FILE_MOST: u64 = 1_048_577;

/// Just under 32 MiB, the most at which freeing a block raises the C library's thresholds.
const BLOCK: usize = 33_500_000;

/// The status for want of memory.
const WANT_OF_MEMORY: u8 = 4;

/// Takes a large block and frees it. From then on the C library keeps what is freed, in place of giving the heap's top
/// back to the system and taking it again, which costs two page faults a packet.
pub fn raise_threshold(alloc: Global) {
    let block: Result<Vec<u8>, AllocError> = Vec::with_capacity(alloc, BLOCK);
    drop(block);
}

pub fn out_of_memory<S: Sink>(err: &mut S) -> ExitCode {
    let _ = err.write(b"bng: out of memory\n");
    ExitCode::from(WANT_OF_MEMORY)
}
