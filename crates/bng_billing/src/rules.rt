use arrayvec::ArrayVec;
use bng_acct::AcctRules;
use bng_base::Peer;

/// What accounting is opened with: what its records say of the gateway and for how many terms there is room, the server, and
/// the secret that it shares.
#[derive(Drop)]
pub struct BillingRules {
    pub acct: AcctRules,
    pub server: Peer,
    pub secret: ArrayVec<u8, 64>,
}

/// Why accounting was not opened.
#[derive(Clone, Copy, Debug)]
pub enum BillingError {
    OutOfMemory,
}
