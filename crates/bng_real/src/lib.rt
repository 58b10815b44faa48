//! The system behind the traits of `bng_plant`: sockets, clock, random source, files and streams, and the words of the
//! command line. No proof sees what the system gives or takes, so each adapter tells nothing but its count of faults, and the clock its last moment. What it makes
//! of the system's answers is proved: for any socket, source, reader and stream, also one that tells what it gave and took.
#![tactic(auto)]

mod clock;
mod ends;
mod entropy;
mod files;
mod gate;
mod handing;
mod places;
mod plant;
mod readiness;
mod sink;
mod sockets;
mod taking;
mod trace;
mod words;

pub use crate::clock::RealClock;
pub use crate::entropy::{RealEntropy, Source};
pub use crate::files::RealFiles;
pub use crate::gate::RealGate;
pub use crate::plant::RealPlant;
pub use crate::sink::StandardSink;
pub use crate::trace::RealTrace;
pub use crate::words::{CommandLine, words_of};
