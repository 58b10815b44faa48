//! Attribute Types of AVPs whose Vendor ID is 0 (RFC 2661 section 4.4).
ghost use Rattle.std.specs.Prelude.{◌≡◌};
ghost use Rattle.bng_l2tp_wire.specs.AttributeTypes as standard;

pub const MESSAGE_TYPE: u16 = 0;

pub const RESULT_CODE: u16 = 1;

pub const PROTOCOL_VERSION: u16 = 2;

pub const FRAMING_CAPABILITIES: u16 = 3;

pub const BEARER_CAPABILITIES: u16 = 4;

pub const TIE_BREAKER: u16 = 5;

pub const FIRMWARE_REVISION: u16 = 6;

pub const HOST_NAME: u16 = 7;

pub const VENDOR_NAME: u16 = 8;

pub const ASSIGNED_TUNNEL_ID: u16 = 9;

pub const RECEIVE_WINDOW_SIZE: u16 = 10;

pub const CHALLENGE: u16 = 11;

pub const Q931_CAUSE_CODE: u16 = 12;

pub const CHALLENGE_RESPONSE: u16 = 13;

pub const ASSIGNED_SESSION_ID: u16 = 14;

pub const CALL_SERIAL_NUMBER: u16 = 15;

pub const MINIMUM_BPS: u16 = 16;

pub const MAXIMUM_BPS: u16 = 17;

pub const BEARER_TYPE: u16 = 18;

pub const FRAMING_TYPE: u16 = 19;

pub const CALLED_NUMBER: u16 = 21;

pub const CALLING_NUMBER: u16 = 22;

pub const SUB_ADDRESS: u16 = 23;

pub const TX_CONNECT_SPEED: u16 = 24;

pub const PHYSICAL_CHANNEL_ID: u16 = 25;

pub const INITIAL_RECEIVED_LCP_CONFREQ: u16 = 26;

pub const LAST_SENT_LCP_CONFREQ: u16 = 27;

pub const LAST_RECEIVED_LCP_CONFREQ: u16 = 28;

pub const PROXY_AUTHEN_TYPE: u16 = 29;

pub const PROXY_AUTHEN_NAME: u16 = 30;

pub const PROXY_AUTHEN_CHALLENGE: u16 = 31;

pub const PROXY_AUTHEN_ID: u16 = 32;

pub const PROXY_AUTHEN_RESPONSE: u16 = 33;

pub const CALL_ERRORS: u16 = 34;

pub const ACCM: u16 = 35;

pub const RANDOM_VECTOR: u16 = 36;

pub const PRIVATE_GROUP_ID: u16 = 37;

pub const RX_CONNECT_SPEED: u16 = 38;

pub const SEQUENCING_REQUIRED: u16 = 39;

/// Each of these types is the one that RFC 2661 gives.
pub fn are_standard()
    ensures message_type { MESSAGE_TYPE ≡ standard.message_type }
    ensures result_code { RESULT_CODE ≡ standard.result_code }
    ensures protocol_version { PROTOCOL_VERSION ≡ standard.protocol_version }
    ensures framing_capabilities { FRAMING_CAPABILITIES ≡ standard.framing_capabilities }
    ensures bearer_capabilities { BEARER_CAPABILITIES ≡ standard.bearer_capabilities }
    ensures tie_breaker { TIE_BREAKER ≡ standard.tie_breaker }
    ensures firmware_revision { FIRMWARE_REVISION ≡ standard.firmware_revision }
    ensures host_name { HOST_NAME ≡ standard.host_name }
    ensures vendor_name { VENDOR_NAME ≡ standard.vendor_name }
    ensures assigned_tunnel_id { ASSIGNED_TUNNEL_ID ≡ standard.assigned_tunnel_id }
    ensures receive_window_size { RECEIVE_WINDOW_SIZE ≡ standard.receive_window_size }
    ensures challenge { CHALLENGE ≡ standard.challenge }
    ensures q931_cause_code { Q931_CAUSE_CODE ≡ standard.q931_cause_code }
    ensures challenge_response { CHALLENGE_RESPONSE ≡ standard.challenge_response }
    ensures assigned_session_id { ASSIGNED_SESSION_ID ≡ standard.assigned_session_id }
    ensures call_serial_number { CALL_SERIAL_NUMBER ≡ standard.call_serial_number }
    ensures minimum_bps { MINIMUM_BPS ≡ standard.minimum_bps }
    ensures maximum_bps { MAXIMUM_BPS ≡ standard.maximum_bps }
    ensures bearer_type { BEARER_TYPE ≡ standard.bearer_type }
    ensures framing_type { FRAMING_TYPE ≡ standard.framing_type }
    ensures called_number { CALLED_NUMBER ≡ standard.called_number }
    ensures calling_number { CALLING_NUMBER ≡ standard.calling_number }
    ensures sub_address { SUB_ADDRESS ≡ standard.sub_address }
    ensures tx_connect_speed { TX_CONNECT_SPEED ≡ standard.tx_connect_speed }
    ensures physical_channel_id { PHYSICAL_CHANNEL_ID ≡ standard.physical_channel_id }
    ensures initial_received_lcp_confreq { INITIAL_RECEIVED_LCP_CONFREQ ≡ standard.initial_received_lcp_confreq }
    ensures last_sent_lcp_confreq { LAST_SENT_LCP_CONFREQ ≡ standard.last_sent_lcp_confreq }
    ensures last_received_lcp_confreq { LAST_RECEIVED_LCP_CONFREQ ≡ standard.last_received_lcp_confreq }
    ensures proxy_authen_type { PROXY_AUTHEN_TYPE ≡ standard.proxy_authen_type }
    ensures proxy_authen_name { PROXY_AUTHEN_NAME ≡ standard.proxy_authen_name }
    ensures proxy_authen_challenge { PROXY_AUTHEN_CHALLENGE ≡ standard.proxy_authen_challenge }
    ensures proxy_authen_id { PROXY_AUTHEN_ID ≡ standard.proxy_authen_id }
    ensures proxy_authen_response { PROXY_AUTHEN_RESPONSE ≡ standard.proxy_authen_response }
    ensures call_errors { CALL_ERRORS ≡ standard.call_errors }
    ensures accm { ACCM ≡ standard.accm }
    ensures random_vector { RANDOM_VECTOR ≡ standard.random_vector }
    ensures private_group_id { PRIVATE_GROUP_ID ≡ standard.private_group_id }
    ensures rx_connect_speed { RX_CONNECT_SPEED ≡ standard.rx_connect_speed }
    ensures sequencing_required { SEQUENCING_REQUIRED ≡ standard.sequencing_required }
{}
