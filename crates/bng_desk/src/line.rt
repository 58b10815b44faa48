use bng_base::{Ip4, SessionNo};
use bng_steps::Traffic;

/// A provisioned circuit, as the report names it: its session, the address of its subscriber, and what the Stops with this address say.
#[derive(Drop)]
pub struct CircuitLine {
    pub session: SessionNo,
    pub address: Ip4,
    pub stopped: Traffic,
}
