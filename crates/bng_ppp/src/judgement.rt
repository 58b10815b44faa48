//! How a Configure-Request that was judged is answered, for LCP and IPCP alike (RFC 1661 sections 5.2 to 5.4).
ghost use Rattle.std.specs.Prelude.{◌≡◌, ◌≤◌, length};
ghost use Rattle.bng_ppp.specs.Judgement.{event_of as event_in, code_of as code_in, body_of, naks_after as naks_in, IsSpellable};

use crate::counters::more_naks;
use bng_automaton::Event;
use bng_base::Frame;
use bng_ppp_wire::code::{CONFIGURE_ACK, CONFIGURE_NAK, CONFIGURE_REJECT};
use bng_ppp_wire::{Judged, put_made, write_options};

/// The event of the request.
pub(crate) fn event_of(judged: &Judged<'_>) -> Event
    ensures { result ≡ event_in judged.now }
{
    match judged {
        Judged::Ack => Event::RcrPlus,
        Judged::Nak(_) | Judged::Reject(_) => Event::RcrMinus,
    }
}

/// The code of the answer.
pub(crate) fn code_of(judged: &Judged<'_>) -> u8
    ensures { result ≡ code_in judged.now }
{
    match judged {
        Judged::Ack => CONFIGURE_ACK,
        Judged::Nak(_) => CONFIGURE_NAK,
        Judged::Reject(_) => CONFIGURE_REJECT,
    }
}

/// How many Configure-Naks have gone out without a Configure-Ack between, once the answer is out.
pub(crate) fn naks_after(naks: u8, judged: &Judged<'_>) -> u8
    ensures { result ≡ naks_in naks judged.now }
{
    match judged {
        Judged::Ack => 0,
        Judged::Nak(_) => more_naks(naks),
        Judged::Reject(_) => naks,
    }
}

/// Writes the options of the answer to a request with this body over what a frame has.
pub(crate) fn put_body(request: &[u8], judged: &Judged<'_>, into: &mut Frame)
    requires body { length request.now ≤ 4090 }
    requires fits { IsSpellable judged.now }
    ensures text { into.new.payload ≡ body_of request.now judged.now }
    ensures short { length into.new.payload ≤ 4090 }
{
    match judged {
        Judged::Ack => into.set(request),
        Judged::Nak(made) => {
            into.set(&[]);
            put_made(made.as_slice(), into);
        }
        Judged::Reject(rejected) => {
            let _done = write_options(rejected.as_slice(), into);
        }
    }
}
