ghost use Rattle.std.specs.Prelude.{◌≡◌, ◌<◌, ◌≤◌, List, length, MatchOption};
ghost use Rattle.bng_base.specs.PppoeGrammar.{PppoeTag, AreTags};
ghost use Rattle.bng_pppoe_wire.specs.View.{tag_of};
ghost use Rattle.bng_pppoe_wire.specs.Scan.{scan_of, scan_with};

use crate::front::{Front, read_front};
use crate::kind::{HOST_UNIQ, SERVICE_NAME};
use crate::view::Tag;

/// What a frame's grammar asks of its tags.
#[derive(Clone, Copy)]
pub(crate) struct Scan {
    /// How many there are.
    pub(crate) tags: usize,
    /// How many of them are Service-Names.
    pub(crate) services: usize,
    /// The octets of the first Host-Uniq.
    pub(crate) host: Option<usize>,
}

fn with(scan: Scan, tag: &Tag<'_>) -> Scan
    requires tags { scan.tags < 65536 }
    requires services { scan.services < 65536 }
    ensures { result ≡ scan_with scan (tag_of tag.now) }
{
    Scan {
        tags: scan.tags + 1,
        services: if tag.kind == SERVICE_NAME {
            scan.services + 1
        } else {
            scan.services
        },
        host: match scan.host {
            None if tag.kind == HOST_UNIQ => Some(tag.value.len()),
            host => host,
        },
    }
}

/// What there is to know of the tags that the octets list; None where they list none.
pub(crate) fn scan_tags(payload: &[u8]) -> Option<Scan>
    requires { length payload.now < 65536 }
    ensures { MatchOption result ((ts : List PppoeTag) → ¬ (AreTags ts payload.now)) (λ s. (ts : List PppoeTag) × AreTags ts payload.now × (s ≡ scan_of ts)) }
{
    let mut scan = Scan {
        tags: 0,
        services: 0,
        host: None,
    };
    let mut rest = payload;
    loop {
        match read_front(rest) {
            Front::One(tag, next) => {
                scan = with(scan, &tag);
                rest = next;
            }
            Front::End => return Some(scan),
            Front::Nothing => return None,
        }
    }
}
