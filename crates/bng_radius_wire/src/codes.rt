//! The packet types of RADIUS (RFC 2865 section 3, RFC 2866 section 3, RFC 5176 section 2.3).
ghost use Rattle.std.specs.Prelude.{◌≡◌};
ghost use Rattle.bng_radius_wire.specs.Codes as standard;

pub const ACCESS_REQUEST: u8 = 1;

pub const ACCESS_ACCEPT: u8 = 2;

pub const ACCESS_REJECT: u8 = 3;

pub const ACCOUNTING_REQUEST: u8 = 4;

pub const ACCOUNTING_RESPONSE: u8 = 5;

pub const ACCESS_CHALLENGE: u8 = 11;

pub const DISCONNECT_REQUEST: u8 = 40;

pub const DISCONNECT_ACK: u8 = 41;

pub const DISCONNECT_NAK: u8 = 42;

pub const COA_REQUEST: u8 = 43;

pub const COA_ACK: u8 = 44;

pub const COA_NAK: u8 = 45;

/// Each of these codes is the one that its standard gives.
pub fn are_standard()
    ensures access_request { ACCESS_REQUEST ≡ standard.access_request }
    ensures access_accept { ACCESS_ACCEPT ≡ standard.access_accept }
    ensures access_reject { ACCESS_REJECT ≡ standard.access_reject }
    ensures accounting_request { ACCOUNTING_REQUEST ≡ standard.accounting_request }
    ensures accounting_response { ACCOUNTING_RESPONSE ≡ standard.accounting_response }
    ensures access_challenge { ACCESS_CHALLENGE ≡ standard.access_challenge }
    ensures disconnect_request { DISCONNECT_REQUEST ≡ standard.disconnect_request }
    ensures disconnect_ack { DISCONNECT_ACK ≡ standard.disconnect_ack }
    ensures disconnect_nak { DISCONNECT_NAK ≡ standard.disconnect_nak }
    ensures coa_request { COA_REQUEST ≡ standard.coa_request }
    ensures coa_ack { COA_ACK ≡ standard.coa_ack }
    ensures coa_nak { COA_NAK ≡ standard.coa_nak }
{}
