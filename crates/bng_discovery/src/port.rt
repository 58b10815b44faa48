use arrayvec::ArrayVec;
use bng_base::Mac;

/// What the gateway is on one access port.
#[derive(Drop)]
pub struct PortRules {
    /// The port's number.
    pub port: u8,
    /// The gateway's address on the port.
    pub mac: Mac,
    /// The key of the cookies.
    pub key: [u8; 16],
    /// The AC-Name.
    pub name: ArrayVec<u8, 64>,
    /// The Service-Names that are offered, in the order in which a PADO lists them.
    pub services: ArrayVec<ArrayVec<u8, 64>, 12>,
}
