//! The names of fates.
ghost use Rattle.std.specs.Prelude.{◌≡◌};
ghost use Rattle.bng_spell.specs.Fields.{cause_text, fate_text};

use bng_base::{DropCause, Fate};

/// The name of a fate.
pub(crate) fn fate_name(fate: Fate) -> &'static str
    ensures { result.now ≡ fate_text fate }
{
    match fate {
        Fate::Forwarded => "forwarded",
        Fate::Consumed => "consumed",
        Fate::Dropped(cause) => cause_name(cause),
    }
}

// The name of a cause.
fn cause_name(cause: DropCause) -> &'static str
    ensures { result.now ≡ cause_text cause }
{
    match cause {
        DropCause::Malformed => "malformed",
        DropCause::NoSession => "nosession",
        DropCause::NotOpen => "notopen",
        DropCause::Expired => "expired",
        DropCause::Spoofed => "spoofed",
        DropCause::TooBig => "toobig",
        DropCause::Exceeded => "exceeded",
        DropCause::LinkFailed => "linkfailed",
        DropCause::WantOfMemory => "wantofmemory",
    }
}
