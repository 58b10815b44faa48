//! Whose an item is.
use bng_base::Fate;

/// Where an item is handled.
#[derive(Clone, Copy, PartialEq, Eq, Debug)]
pub enum Whose {
    /// In no shard; it only has this fate.
    Loose(Fate),
    /// In the shard with this number.
    Stands(u16),
}
