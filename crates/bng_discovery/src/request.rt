ghost use Rattle.std.specs.Prelude.{◌≡◌, ◌≤◌, List, length};
ghost use Rattle.std.specs.Option.{option_map};
ghost use Rattle.bng_base.specs.PppoeGrammar.{PppoeTag, AreTags};
ghost use Rattle.bng_pppoe_wire.specs.View.{tag_of, tags_of};
ghost use Rattle.bng_discovery.specs.Request.{first_tag, value_of, IsRequest};

use bng_pppoe_wire::kind::{AC_COOKIE, HOST_UNIQ, RELAY_SESSION_ID, SERVICE_NAME};
use bng_pppoe_wire::{Pppoe, Tag, tags};

/// What counts of the tags of a request.
#[derive(Clone, Copy)]
pub(crate) struct DiscoveryRequest<'a> {
    /// The service that is asked for.
    pub(crate) service: &'a [u8],
    pub(crate) host_uniq: Option<Tag<'a>>,
    pub(crate) cookie: Option<Tag<'a>>,
    pub(crate) relay: Option<Tag<'a>>,
}

/// The first tag of a type.
fn first<'a>(found: &[Tag<'a>], kind: u16) -> Option<Tag<'a>>
    ensures { option_map tag_of result ≡ first_tag kind (tags_of found.now) }
{
    let mut left = found;
    while let [tag, after @ ..] = left {
        if tag.kind == kind {
            return Some(*tag);
        }
        left = after;
    }
    None
}

fn value<'a>(tag: Option<Tag<'a>>) -> &'a [u8]
    ensures { result.now ≡ value_of (option_map tag_of tag.entry) }
{
    match tag {
        Some(tag) => tag.value,
        None => &[],
    }
}

/// What counts of the tags of a frame.
pub(crate) fn request_of<'a>(frame: &Pppoe<'a>) -> DiscoveryRequest<'a>
    requires { (ts : List PppoeTag) × AreTags ts frame.now.payload.now × (length ts ≤ 64) }
    ensures { (ts : List PppoeTag) → AreTags ts frame.now.payload.now → IsRequest result ts }
{
    let found = tags(frame);
    let found = found.as_slice();
    DiscoveryRequest {
        service: value(first(found, SERVICE_NAME)),
        host_uniq: first(found, HOST_UNIQ),
        cookie: first(found, AC_COOKIE),
        relay: first(found, RELAY_SESSION_ID),
    }
}
