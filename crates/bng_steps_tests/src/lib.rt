//! The step of a shard over a plain store: worked examples of `bng_steps`.
#![tactic(auto)]

#[cfg(test)]
mod asserts;
#[cfg(test)]
mod plain;
#[cfg(test)]
mod plain_step;
#[cfg(test)]
mod seats;
#[cfg(test)]
mod shared;
#[cfg(test)]
mod sharing;
