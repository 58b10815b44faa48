ghost use Rattle.std.specs.Prelude.{◌≡◌, ◌⊎◌, ◌≤◌, List, Some, None as Nothing, length};
ghost use Rattle.bng_base.specs.declared.address.SessionNo.{SessionNo as Number};
ghost use Rattle.bng_base.specs.PppoeGrammar.{PppoeTag, AreTags};
ghost use Rattle.bng_pppoe_wire.specs.View.{frame_of};
ghost use Rattle.bng_steps.specs.Discovery.{IsVacancy};
ghost use Rattle.bng_steps.specs.Replying.{IsDiscoveryReply};

use crate::host_uniq::host_uniq;
use crate::served::Served;
use crate::store::Store;
use bng_base::SessionNo;
use bng_discovery::{Answer, ErrorTag, PortRules, answer};
use bng_pppoe_wire::Pppoe;

/// What a discovery frame is answered.
#[derive(Clone, Copy)]
pub enum DiscoveryReply {
    /// A PADO.
    Offer,
    /// A session is made with this number, and its PADS sent.
    Make(SessionNo),
    /// The PADS of the session with this number.
    Again(SessionNo),
    /// A PADS that gives no session.
    Refuse(ErrorTag),
    Nothing,
}

// A new session, where there may be one more.
fn make_or_refuse<S: Store>(served: &Served<S>) -> DiscoveryReply
    ensures make { (n : Number) → result ≡ DiscoveryReply.Make n → IsVacancy served.now (Some n.0) }
    ensures refuse { (result ≡ DiscoveryReply.Refuse ErrorTag.AcSystemError × IsVacancy served.now Nothing) ⊎ ((n : Number) × (result ≡ DiscoveryReply.Make n)) }
{
    match served.vacant() {
        Some(number) => DiscoveryReply::Make(number),
        None => DiscoveryReply::Refuse(ErrorTag::AcSystemError),
    }
}

/// What a frame that came to the port with this number is answered (RFC 2516 section 5).
pub fn reply_to<S: Store>(
    served: &Served<S>,
    number: u8,
    offers: &PortRules,
    frame: &Pppoe<'_>,
) -> DiscoveryReply
    requires { (ts : List PppoeTag) × AreTags ts frame.now.payload.now × (length ts ≤ 64) }
    ensures { (ts : List PppoeTag) → AreTags ts frame.now.payload.now → IsDiscoveryReply result served.now number offers.now (frame_of frame.now) ts }
{
    let found = served.repeated(number, frame.src, host_uniq(frame));
    match answer(frame, offers, found.is_some(), true) {
        Answer::Offer => DiscoveryReply::Offer,
        Answer::Make => make_or_refuse(served),
        Answer::Again => match found {
            Some(session) => DiscoveryReply::Again(session),
            None => DiscoveryReply::Nothing,
        },
        Answer::Refuse(error) => DiscoveryReply::Refuse(error),
        Answer::Ended => DiscoveryReply::Nothing,
        Answer::NoSession => DiscoveryReply::Nothing,
        Answer::Ignore => DiscoveryReply::Nothing,
    }
}
