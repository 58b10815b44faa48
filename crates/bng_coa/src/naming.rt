ghost use Rattle.std.specs.Prelude.{◌≡◌, not};
ghost use Rattle.std.specs.List.{list_any};
ghost use Rattle.std.specs.Str.{bytes_eq};
ghost use Rattle.byteorder.specs.Endian.{big_bytes};
ghost use Rattle.bng_acct.specs.Texts.{port_id as its_port_id, session_id as its_session_id};
ghost use Rattle.bng_radius_wire.specs.Attributes.{field, fields};
ghost use Rattle.bng_radius_wire.specs.Grammar.{whole};
ghost use Rattle.bng_coa.specs.Naming.{differs, is_named, is_other_station, named};

use bng_acct::texts::{port_id, session_id, station_id};
use bng_base::{Circuit, Ip4, TermId};
use bng_radius_wire::{Attribute, Radius, kinds};

/// A term, by what its records say of it: `wall` is the second at which the run opened, and `user` the User-Name.
#[derive(Clone, Copy)]
pub struct Identity<'a> {
    pub wall: u64,
    pub term: TermId,
    pub circuit: Circuit,
    pub address: Ip4,
    pub user: &'a [u8],
}

// Whether a Calling-Station-Id (RFC 2865 section 5.31) is not that of this circuit. A call has none.
fn is_other_station(value: &[u8], circuit: Circuit) -> bool
    ensures { result ≡ is_other_station circuit value.now }
{
    match circuit {
        Circuit::Pppoe { mac, .. } => {
            let station = station_id(mac);
            value != station.as_slice()
        }
        Circuit::L2tp { .. } => true,
    }
}

// Whether a NAS-Port (RFC 2865 section 5.5) is not the session's number.
fn is_other_port(value: &[u8], of: &Identity<'_>) -> bool
    ensures { result ≡ not (bytes_eq value.now (big_bytes 4 of.now.term.session.0)) }
{
    let port = u32::from(of.term.session.0).to_be_bytes();
    value != port.as_slice()
}

// Whether a Framed-IP-Address (RFC 2865 section 5.8) is not the term's.
fn is_other_address(value: &[u8], of: &Identity<'_>) -> bool
    ensures { result ≡ not (bytes_eq value.now (big_bytes 4 of.now.address.0)) }
{
    let address = of.address.0.to_be_bytes();
    value != address.as_slice()
}

// Whether an Acct-Session-Id (RFC 2866 section 5.5) is not the term's.
fn is_other_id(value: &[u8], of: &Identity<'_>) -> bool
    ensures { result ≡ not (bytes_eq value.now (its_session_id of.now.wall of.now.term)) }
{
    let id = session_id(of.wall, of.term);
    value != id.as_slice()
}

// Whether a NAS-Port-Id (RFC 2869 section 5.17) is not that of the term's circuit.
fn is_other_port_id(value: &[u8], of: &Identity<'_>) -> bool
    ensures { result ≡ not (bytes_eq value.now (its_port_id of.now.circuit)) }
{
    let id = port_id(of.circuit);
    value != id.as_slice()
}

// Whether an attribute identifies a session, and has another value than the term has.
fn differs(attribute: &Attribute<'_>, of: &Identity<'_>) -> bool
    ensures { result ≡ differs (named of.now) (field attribute.now) }
{
    let value = attribute.value;
    if attribute.kind == kinds::USER_NAME {
        return value != of.user;
    }
    if attribute.kind == kinds::NAS_PORT {
        return is_other_port(value, of);
    }
    if attribute.kind == kinds::FRAMED_IP_ADDRESS {
        return is_other_address(value, of);
    }
    if attribute.kind == kinds::CALLING_STATION_ID {
        return is_other_station(value, of.circuit);
    }
    if attribute.kind == kinds::ACCT_SESSION_ID {
        return is_other_id(value, of);
    }
    if attribute.kind == kinds::NAS_PORT_ID {
        return is_other_port_id(value, of);
    }
    false
}

fn any_differs(attributes: &[Attribute<'_>], of: &Identity<'_>) -> bool
    ensures { result ≡ list_any (differs (named of.now)) (fields attributes.now) }
{
    attributes.iter().any(|a| differs(a, of))
}

/// Whether a term has all the values that a request names: User-Name, NAS-Port, which is the number of the session, Framed-IP-Address,
/// Calling-Station-Id, which a call has not, Acct-Session-Id and NAS-Port-Id, each as the term's records have it.
pub fn names(packet: &Radius<'_>, of: &Identity<'_>) -> bool
    ensures { result ≡ is_named (named of.now) (whole packet.now).attributes }
{
    !any_differs(packet.attributes.as_slice(), of)
}
