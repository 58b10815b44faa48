ghost use Rattle.std.specs.Prelude.{◌≡◌, ◌+◌, ◌≤◌, ◌<◌, ◌++◌, List, length, option_to_list};
ghost use Rattle.std.specs.List.{AllByRecursion};
ghost use Rattle.std.specs.Option.{option_map};
ghost use Rattle.arrayvec.specs.ArrayVec.{array_vec_len};
ghost use Rattle.bng_base.specs.declared.address.Mac.{Mac as Host};
ghost use Rattle.bng_base.specs.PppoeGrammar.{PppoeTag, TagFits};
ghost use Rattle.bng_pppoe_wire.specs.View.{tag_of, tags_of};
ghost use Rattle.bng_discovery.specs.Request.{cookie_of, IsRequest};
ghost use Rattle.bng_discovery.specs.Reply.{tag, others, offer_tags, confirm_tags, refuse_tags, error_kind};

use crate::answers::ErrorTag;
use crate::port::PortRules;
use crate::request::DiscoveryRequest;
use arrayvec::ArrayVec;
use bng_pppoe_wire::Tag;
use bng_pppoe_wire::kind::{AC_COOKIE, AC_NAME, AC_SYSTEM_ERROR, SERVICE_NAME, SERVICE_NAME_ERROR};

/// The tags of a frame that is sent: at most the AC-Name, thirteen Service-Names and three more.
pub(crate) type TagList<'a> = ArrayVec<Tag<'a>, 17>;

fn push_some<'a>(list: &mut TagList<'a>, tag: Option<Tag<'a>>)
    requires { array_vec_len list.old < 17 }
    ensures items { tags_of list.new.items ≡ tags_of list.old.items ++ option_to_list (option_map tag_of tag.entry) }
    ensures len { array_vec_len list.new ≤ array_vec_len list.old + 1 }
{
    if let Some(tag) = tag {
        list.push(tag);
    }
}

// what a PADS has of its PADR unmodified, after its other tags
fn push_repeated<'a>(list: &mut TagList<'a>, request: &DiscoveryRequest<'a>)
    requires { array_vec_len list.old ≤ 2 }
    ensures { tags_of list.new.items ≡ tags_of list.old.items ++ option_to_list (option_map tag_of request.now.host_uniq) ++ option_to_list (option_map tag_of request.now.relay) }
{
    push_some(list, request.host_uniq);
    push_some(list, request.relay);
}

// the tag that names the service that was asked for
fn asked<'a>(request: &DiscoveryRequest<'a>) -> Tag<'a>
    ensures { tag_of result ≡ tag SERVICE_NAME request.now.service.now }
{
    Tag {
        kind: SERVICE_NAME,
        value: request.service,
    }
}

// the services that are offered beside the one that was asked for
fn push_others<'a>(list: &mut TagList<'a>, port: &'a PortRules, service: &[u8])
    requires { array_vec_len list.old ≤ 2 }
    ensures items { tags_of list.new.items ≡ tags_of list.old.items ++ others service.now port.now.services.items }
    ensures len { array_vec_len list.new ≤ array_vec_len list.old + 12 }
    ensures fit { AllByRecursion TagFits (others service.now port.now.services.items) }
{
    for name in port.services.as_slice() {
        if name.as_slice() != service {
            list.push(Tag {
                kind: SERVICE_NAME,
                value: name.as_slice(),
            });
        }
    }
}

/// The tags of a PADO with this AC-Cookie.
pub(crate) fn offer_list<'a>(
    request: &DiscoveryRequest<'a>,
    port: &'a PortRules,
    cookie: &'a [u8; 16],
) -> TagList<'a>
    ensures tags { (host : Host) (ts : List PppoeTag) → cookie.now ≡ cookie_of port.now host → IsRequest request.now ts → tags_of result.items ≡ offer_tags port.now host ts }
    ensures fit { AllByRecursion TagFits (others request.now.service.now port.now.services.items) }
    ensures name { length port.now.name.items ≤ 64 }
{
    let mut list = ArrayVec::new();
    list.push(Tag {
        kind: AC_NAME,
        value: port.name.as_slice(),
    });
    let asked = asked(request);
    list.push(asked);
    push_others(&mut list, port, request.service);
    push_some(&mut list, request.host_uniq);
    list.push(Tag {
        kind: AC_COOKIE,
        value: cookie,
    });
    push_some(&mut list, request.relay);
    list
}

/// The tags of a PADS.
pub(crate) fn confirm_list<'a>(request: &DiscoveryRequest<'a>) -> TagList<'a>
    ensures { (ts : List PppoeTag) → IsRequest request.now ts → tags_of result.items ≡ confirm_tags ts }
{
    let mut list = ArrayVec::new();
    list.push(asked(request));
    push_repeated(&mut list, request);
    list
}

fn error_kind_of(error: ErrorTag) -> u16
    ensures { result ≡ error_kind error }
{
    match error {
        ErrorTag::ServiceNameError => SERVICE_NAME_ERROR,
        ErrorTag::AcSystemError => AC_SYSTEM_ERROR,
    }
}

/// The tags of a PADS that says why there is no session.
pub(crate) fn refuse_list<'a>(request: &DiscoveryRequest<'a>, error: ErrorTag) -> TagList<'a>
    ensures { (ts : List PppoeTag) → IsRequest request.now ts → tags_of result.items ≡ refuse_tags error ts }
{
    let mut list = ArrayVec::new();
    list.push(asked(request));
    list.push(Tag {
        kind: error_kind_of(error),
        value: &[],
    });
    push_repeated(&mut list, request);
    list
}
