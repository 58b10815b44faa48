//! A shard: worked examples of `bng_shard`.
#![tactic(auto)]

#[cfg(test)]
mod asserts;
#[cfg(test)]
mod shard;
