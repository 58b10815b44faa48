ghost use Rattle.std.specs.Prelude.{◌≡◌, is_some};
ghost use Rattle.std.specs.Option.{option_copied};
ghost use Rattle.bng_l2tp_tunnel.specs.Sound.{IsTunnel};
ghost use Rattle.bng_l2tp_wire.specs.Values.{assigned_tunnel as assigned_tunnel_of};
ghost use Rattle.bng_l2tp_wire.specs.View.{octets_of, avps_of};
ghost use Rattle.bng_lns.specs.Tunnels.{lac_of as lac_with, secret_of, begun_with};

use crate::outcome::Came;
use arrayvec::ArrayVec;
use bng_base::{Ip4, Lac, TunnelNo};
use bng_l2tp_tunnel::{Tunnel, TunnelRules};
use bng_l2tp_wire::Control;
use bng_l2tp_wire::secret::{copied, copied_secret};
use bng_l2tp_wire::values::assigned_tunnel;

/// The configured access concentrator with this address.
pub(crate) fn lac_of(lacs: &[Lac], ip: Ip4) -> Option<&Lac>
    ensures { option_copied result ≡ lac_with lacs.now ip }
{
    lacs.iter().find(|l| l.ip.0 == ip.0)
}

// What a tunnel of this peer, or of one that is not configured, is to know.
fn rules_of(name: &ArrayVec<u8, 64>, lac: Option<&Lac>) -> TunnelRules
    ensures name { result.name.items ≡ name.now.items }
    ensures secret { octets_of result.secret ≡ secret_of (option_copied lac.entry) }
    ensures known { result.known ≡ is_some (option_copied lac.entry) }
{
    match lac {
        Some(lac) => TunnelRules {
            name: copied(name),
            secret: copied_secret(&lac.secret),
            known: true,
        },
        None => TunnelRules {
            name: copied(name),
            secret: None,
            known: false,
        },
    }
}

/// A tunnel with this number that has taken no message yet.
pub(crate) fn begun(
    name: &ArrayVec<u8, 64>,
    lac: Option<&Lac>,
    number: TunnelNo,
    came: &Came,
) -> Tunnel
    ensures state { result ≡ begun_with name.now.items (option_copied lac.entry) came.now.from came.now.moment number.0 }
    ensures sound { IsTunnel result }
{
    let rules = rules_of(name, lac);
    Tunnel::new(&rules, number, came.from, came.moment)
}

/// The Assigned Tunnel ID of a message, read with the secret that is shared with its sender.
pub(crate) fn assigned_by(message: &Control<'_>, lac: Option<&Lac>) -> Option<u16>
    ensures { result ≡ assigned_tunnel_of (secret_of (option_copied lac.entry)) (avps_of message.now.avps.items) }
{
    match lac {
        Some(lac) => assigned_tunnel(message, &lac.secret),
        None => assigned_tunnel(message, &None),
    }
}
