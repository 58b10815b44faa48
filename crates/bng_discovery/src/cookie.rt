ghost use Rattle.std.specs.Prelude.{◌≡◌, length};
ghost use Rattle.bng_discovery.specs.Request.{cookie_of};

use crate::port::PortRules;
use bng_base::Mac;
use bng_digest::hmac_md5_of;

/// The value of the AC-Cookie for a host (RFC 2516 appendix A).
pub(crate) fn cookie_for(port: &PortRules, host: Mac) -> [u8; 16]
    ensures value { result ≡ cookie_of port.now host }
    ensures size { length result ≡ 16 }
{
    hmac_md5_of(&port.key, &[&[port.port], &host.0])
}
