//! Message Types (RFC 2661 section 3.2), the value of the first AVP of a control message.
ghost use Rattle.std.specs.Prelude.{◌≡◌};
ghost use Rattle.bng_l2tp_wire.specs.MessageTypes as standard;

/// Start-Control-Connection-Request.
pub const SCCRQ: u16 = 1;
/// Start-Control-Connection-Reply.
pub const SCCRP: u16 = 2;
/// Start-Control-Connection-Connected.
pub const SCCCN: u16 = 3;
/// Stop-Control-Connection-Notification.
pub const STOP_CCN: u16 = 4;
/// Hello.
pub const HELLO: u16 = 6;
/// Outgoing-Call-Request.
pub const OCRQ: u16 = 7;
/// Outgoing-Call-Reply.
pub const OCRP: u16 = 8;
/// Outgoing-Call-Connected.
pub const OCCN: u16 = 9;
/// Incoming-Call-Request.
pub const ICRQ: u16 = 10;
/// Incoming-Call-Reply.
pub const ICRP: u16 = 11;
/// Incoming-Call-Connected.
pub const ICCN: u16 = 12;
/// Call-Disconnect-Notify.
pub const CDN: u16 = 14;
/// WAN-Error-Notify.
pub const WEN: u16 = 15;
/// Set-Link-Info.
pub const SLI: u16 = 16;

/// Each of these types is the one that RFC 2661 gives.
pub fn are_standard()
    ensures sccrq { SCCRQ ≡ standard.sccrq }
    ensures sccrp { SCCRP ≡ standard.sccrp }
    ensures scccn { SCCCN ≡ standard.scccn }
    ensures stop_ccn { STOP_CCN ≡ standard.stop_ccn }
    ensures hello { HELLO ≡ standard.hello }
    ensures ocrq { OCRQ ≡ standard.ocrq }
    ensures ocrp { OCRP ≡ standard.ocrp }
    ensures occn { OCCN ≡ standard.occn }
    ensures icrq { ICRQ ≡ standard.icrq }
    ensures icrp { ICRP ≡ standard.icrp }
    ensures iccn { ICCN ≡ standard.iccn }
    ensures cdn { CDN ≡ standard.cdn }
    ensures wen { WEN ≡ standard.wen }
    ensures sli { SLI ≡ standard.sli }
{}
