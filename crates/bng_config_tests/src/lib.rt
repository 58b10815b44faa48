//! The configuration: worked examples of `bng_config`.
#![tactic(auto)]

#[cfg(test)]
mod asserts;
#[cfg(test)]
mod config;
