//! Codes of packets: of LCP (RFC 1661 section 5), of which IPCP has the first seven (RFC 1332 section 2), of PAP
//! (RFC 1334 section 2.2) and of CHAP (RFC 1994 section 4).
ghost use Rattle.std.specs.Prelude.{◌≡◌};
ghost use Rattle.bng_ppp_wire.specs.Codes as standard;

pub const CONFIGURE_REQUEST: u8 = 1;

pub const CONFIGURE_ACK: u8 = 2;

pub const CONFIGURE_NAK: u8 = 3;

pub const CONFIGURE_REJECT: u8 = 4;

pub const TERMINATE_REQUEST: u8 = 5;

pub const TERMINATE_ACK: u8 = 6;

pub const CODE_REJECT: u8 = 7;

pub const PROTOCOL_REJECT: u8 = 8;

pub const ECHO_REQUEST: u8 = 9;

pub const ECHO_REPLY: u8 = 10;

pub const DISCARD_REQUEST: u8 = 11;

pub const AUTHENTICATE_REQUEST: u8 = 1;

pub const AUTHENTICATE_ACK: u8 = 2;

pub const AUTHENTICATE_NAK: u8 = 3;

pub const CHALLENGE: u8 = 1;

pub const RESPONSE: u8 = 2;

pub const SUCCESS: u8 = 3;

pub const FAILURE: u8 = 4;

/// Each of these codes is the one that its standard gives.
pub fn are_standard()
    ensures configure_request { CONFIGURE_REQUEST ≡ standard.configure_request }
    ensures configure_ack { CONFIGURE_ACK ≡ standard.configure_ack }
    ensures configure_nak { CONFIGURE_NAK ≡ standard.configure_nak }
    ensures configure_reject { CONFIGURE_REJECT ≡ standard.configure_reject }
    ensures terminate_request { TERMINATE_REQUEST ≡ standard.terminate_request }
    ensures terminate_ack { TERMINATE_ACK ≡ standard.terminate_ack }
    ensures code_reject { CODE_REJECT ≡ standard.code_reject }
    ensures protocol_reject { PROTOCOL_REJECT ≡ standard.protocol_reject }
    ensures echo_request { ECHO_REQUEST ≡ standard.echo_request }
    ensures echo_reply { ECHO_REPLY ≡ standard.echo_reply }
    ensures discard_request { DISCARD_REQUEST ≡ standard.discard_request }
    ensures authenticate_request { AUTHENTICATE_REQUEST ≡ standard.authenticate_request }
    ensures authenticate_ack { AUTHENTICATE_ACK ≡ standard.authenticate_ack }
    ensures authenticate_nak { AUTHENTICATE_NAK ≡ standard.authenticate_nak }
    ensures challenge { CHALLENGE ≡ standard.challenge }
    ensures response { RESPONSE ≡ standard.response }
    ensures success { SUCCESS ≡ standard.success }
    ensures failure { FAILURE ≡ standard.failure }
{}
