//! The single-rate meter of RFC 2697, colour-blind, counted in octets of whole packets.
//!
//! Two buckets of tokens start full. Tokens arrive one by one: the n-th since the meter's start comes at the first
//! millisecond t since that start with `CIR * t >= 1000 * n`. A packet takes as many tokens as it has octets from the
//! committed bucket (Green), else from the excess bucket (Yellow), else none (Red). `Meter::take` is that definition for
//! every list of packets whose moments never fall. It adds all tokens since the last packet in one sum, counted from the
//! meter's start, so that no fraction of a token is lost. By `red_packets_need_no_note` a packet that is Red may be forgotten.
#![tactic(auto)]

mod colour;
mod law;
mod level;
mod meter;

pub use colour::Colour;
pub use law::red_packets_need_no_note;
pub use meter::Meter;
