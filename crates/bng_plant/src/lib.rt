//! The outside as traits, each with what it tells and a count of its faults: datagrams, the clock, random seeds,
//! files, the trace, where text goes, and the gate inside a shard's turn. Beside them stand forms of it in memory, for
//! tests of whole runs: each is made with the numbers of the calls that are to fail and with a room, takes no memory
//! after that but for a file that is read, and never fails where no call is to fail and the room suffices.
#![tactic(auto)]

mod again;
mod answers;
mod arrival;
mod failing;
mod give;
mod head;
mod memory_clock;
mod memory_entropy;
mod memory_file;
mod memory_files;
mod memory_plant;
mod memory_sink;
mod memory_trace;
mod no_trace;
mod outside;
mod parts;
mod rounds;

pub use crate::answers::{Bound, FileError, Noted, Seeded, Sending, Wrote};
pub use crate::arrival::Arrival;
pub use crate::head::Head;
pub use crate::memory_clock::MemoryClock;
pub use crate::memory_entropy::MemoryEntropy;
pub use crate::memory_file::MemoryFile;
pub use crate::memory_files::MemoryFiles;
pub use crate::memory_plant::MemoryPlant;
pub use crate::memory_sink::MemorySink;
pub use crate::memory_trace::MemoryTrace;
pub use crate::no_trace::{NoTrace, OpenGate};
pub use crate::outside::{Clock, Entropy, Files, Gate, Plant, Sink, Trace};
