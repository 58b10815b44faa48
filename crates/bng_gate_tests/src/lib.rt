//! Whole runs over the outside in memory: worked examples of `bng_gate`.
#![tactic(auto)]

#[cfg(test)]
mod asserts;
#[cfg(test)]
mod runs;
#[cfg(test)]
mod texts;
