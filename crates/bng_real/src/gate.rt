//! The gate of a program that nobody watches.
use bng_plant::Gate;

/// Does nothing.
#[derive(Drop)]
pub struct RealGate;

impl Gate for RealGate {
    fn at(&self, _seat: u16, _shard: u16) {}
}
