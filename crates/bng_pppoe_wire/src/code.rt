//! Codes of PPPoE frames (RFC 2516 sections 4 and 5).
ghost use Rattle.std.specs.Prelude.{◌≡◌};
ghost use Rattle.bng_pppoe_wire.specs.Codes as standard;

/// Active Discovery Initiation.
pub const PADI: u8 = 0x09;
/// Active Discovery Offer.
pub const PADO: u8 = 0x07;
/// Active Discovery Request.
pub const PADR: u8 = 0x19;
/// Active Discovery Session-confirmation.
pub const PADS: u8 = 0x65;
/// Active Discovery Terminate.
pub const PADT: u8 = 0xa7;
/// A frame of the session stage.
pub const SESSION_DATA: u8 = 0x00;

/// Each of these codes is the one that RFC 2516 gives.
pub fn are_standard()
    ensures padi { PADI ≡ standard.padi }
    ensures pado { PADO ≡ standard.pado }
    ensures padr { PADR ≡ standard.padr }
    ensures pads { PADS ≡ standard.pads }
    ensures padt { PADT ≡ standard.padt }
    ensures session_data { SESSION_DATA ≡ standard.session_data }
{}
