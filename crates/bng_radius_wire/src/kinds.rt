//! The attributes that the gateway writes or reads, by their types (RFC 2865 section 5, RFC 2866 section 5,
//! RFC 2869 section 5, RFC 5176 section 3.6).
ghost use Rattle.std.specs.Prelude.{◌≡◌};
ghost use Rattle.bng_radius_wire.specs.AttributeTypes as standard;

pub const USER_NAME: u8 = 1;

pub const USER_PASSWORD: u8 = 2;

pub const CHAP_PASSWORD: u8 = 3;

pub const NAS_IP_ADDRESS: u8 = 4;

pub const NAS_PORT: u8 = 5;

pub const SERVICE_TYPE: u8 = 6;

pub const FRAMED_PROTOCOL: u8 = 7;

pub const FRAMED_IP_ADDRESS: u8 = 8;

pub const FILTER_ID: u8 = 11;

pub const REPLY_MESSAGE: u8 = 18;

pub const STATE: u8 = 24;

pub const CLASS: u8 = 25;

pub const SESSION_TIMEOUT: u8 = 27;

pub const IDLE_TIMEOUT: u8 = 28;

pub const CALLING_STATION_ID: u8 = 31;

pub const NAS_IDENTIFIER: u8 = 32;

pub const PROXY_STATE: u8 = 33;

pub const ACCT_STATUS_TYPE: u8 = 40;

pub const ACCT_INPUT_OCTETS: u8 = 42;

pub const ACCT_OUTPUT_OCTETS: u8 = 43;

pub const ACCT_SESSION_ID: u8 = 44;

pub const ACCT_SESSION_TIME: u8 = 46;

pub const ACCT_INPUT_PACKETS: u8 = 47;

pub const ACCT_OUTPUT_PACKETS: u8 = 48;

pub const ACCT_TERMINATE_CAUSE: u8 = 49;

pub const ACCT_INPUT_GIGAWORDS: u8 = 52;

pub const ACCT_OUTPUT_GIGAWORDS: u8 = 53;

pub const EVENT_TIMESTAMP: u8 = 55;

pub const CHAP_CHALLENGE: u8 = 60;

pub const NAS_PORT_TYPE: u8 = 61;

pub const MESSAGE_AUTHENTICATOR: u8 = 80;

pub const ACCT_INTERIM_INTERVAL: u8 = 85;

pub const NAS_PORT_ID: u8 = 87;

pub const FRAMED_POOL: u8 = 88;

pub const ERROR_CAUSE: u8 = 101;

/// Each of these types is the one that its standard gives.
pub fn are_standard()
    ensures user_name { USER_NAME ≡ standard.user_name }
    ensures user_password { USER_PASSWORD ≡ standard.user_password }
    ensures chap_password { CHAP_PASSWORD ≡ standard.chap_password }
    ensures nas_ip_address { NAS_IP_ADDRESS ≡ standard.nas_ip_address }
    ensures nas_port { NAS_PORT ≡ standard.nas_port }
    ensures service_type { SERVICE_TYPE ≡ standard.service_type }
    ensures framed_protocol { FRAMED_PROTOCOL ≡ standard.framed_protocol }
    ensures framed_ip_address { FRAMED_IP_ADDRESS ≡ standard.framed_ip_address }
    ensures filter_id { FILTER_ID ≡ standard.filter_id }
    ensures reply_message { REPLY_MESSAGE ≡ standard.reply_message }
    ensures state { STATE ≡ standard.state }
    ensures class { CLASS ≡ standard.class }
    ensures session_timeout { SESSION_TIMEOUT ≡ standard.session_timeout }
    ensures idle_timeout { IDLE_TIMEOUT ≡ standard.idle_timeout }
    ensures calling_station_id { CALLING_STATION_ID ≡ standard.calling_station_id }
    ensures nas_identifier { NAS_IDENTIFIER ≡ standard.nas_identifier }
    ensures proxy_state { PROXY_STATE ≡ standard.proxy_state }
    ensures acct_status_type { ACCT_STATUS_TYPE ≡ standard.acct_status_type }
    ensures acct_input_octets { ACCT_INPUT_OCTETS ≡ standard.acct_input_octets }
    ensures acct_output_octets { ACCT_OUTPUT_OCTETS ≡ standard.acct_output_octets }
    ensures acct_session_id { ACCT_SESSION_ID ≡ standard.acct_session_id }
    ensures acct_session_time { ACCT_SESSION_TIME ≡ standard.acct_session_time }
    ensures acct_input_packets { ACCT_INPUT_PACKETS ≡ standard.acct_input_packets }
    ensures acct_output_packets { ACCT_OUTPUT_PACKETS ≡ standard.acct_output_packets }
    ensures acct_terminate_cause { ACCT_TERMINATE_CAUSE ≡ standard.acct_terminate_cause }
    ensures acct_input_gigawords { ACCT_INPUT_GIGAWORDS ≡ standard.acct_input_gigawords }
    ensures acct_output_gigawords { ACCT_OUTPUT_GIGAWORDS ≡ standard.acct_output_gigawords }
    ensures event_timestamp { EVENT_TIMESTAMP ≡ standard.event_timestamp }
    ensures chap_challenge { CHAP_CHALLENGE ≡ standard.chap_challenge }
    ensures nas_port_type { NAS_PORT_TYPE ≡ standard.nas_port_type }
    ensures message_authenticator { MESSAGE_AUTHENTICATOR ≡ standard.message_authenticator }
    ensures acct_interim_interval { ACCT_INTERIM_INTERVAL ≡ standard.acct_interim_interval }
    ensures nas_port_id { NAS_PORT_ID ≡ standard.nas_port_id }
    ensures framed_pool { FRAMED_POOL ≡ standard.framed_pool }
    ensures error_cause { ERROR_CAUSE ≡ standard.error_cause }
{}
