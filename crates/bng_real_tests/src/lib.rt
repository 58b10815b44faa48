//! Each adapter over the real thing: sockets of 127.0.0.0/8 alone, and files of its own. The clock, the seeds and the words
//! stand over a system of the test's own too, which says what it is told to. Worked examples of `bng_real`.
#![tactic(auto)]

#[cfg(test)]
mod asserts;
#[cfg(test)]
mod sockets;
#[cfg(test)]
mod system;
