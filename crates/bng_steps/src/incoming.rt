//! What a shard is given to handle.
use crate::rules::Rules;
use bng_base::{At, Item};

/// What a shard handles: an item, where it stands and when, and the rules by which it is handled.
#[derive(Clone, Copy)]
pub struct Incoming<'a> {
    pub rules: &'a Rules,
    pub at: At,
    /// In milliseconds, below 2^60.
    pub moment: u64,
    pub item: &'a Item,
}
