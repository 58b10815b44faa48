//! The Host-Uniq of a request (RFC 2516 section 5.4).
ghost use Rattle.std.specs.Prelude.{◌≡◌, ◌≤◌, ◌==◌, List, length, option_map, find};
ghost use Rattle.bng_base.specs.PppoeGrammar.{PppoeTag, AreTags};
ghost use Rattle.bng_steps.specs.Discovery.{host_uniq_of};

use bng_pppoe_wire::kind::HOST_UNIQ;
use bng_pppoe_wire::{Pppoe, Tag, tags};

fn first<'a>(found: &[Tag<'a>]) -> Option<Tag<'a>>
    ensures { result ≡ find (λ t. t.kind == HOST_UNIQ) found.now }
{
    found.iter().copied().find(|t| t.kind == HOST_UNIQ)
}

fn value<'a>(tag: Option<Tag<'a>>) -> Option<&'a [u8]>
    ensures { option_map (λ o. o.now) result ≡ option_map (λ t. t.value.now) tag.entry }
{
    match tag {
        Some(tag) => Some(tag.value),
        None => None,
    }
}

/// The Host-Uniq of a request.
pub fn host_uniq<'a>(frame: &Pppoe<'a>) -> Option<&'a [u8]>
    requires { (ts : List PppoeTag) × AreTags ts frame.now.payload.now × (length ts ≤ 64) }
    ensures { (ts : List PppoeTag) → AreTags ts frame.now.payload.now → option_map (λ o. o.now) result ≡ host_uniq_of ts }
{
    let found = tags(frame);
    value(first(found.as_slice()))
}
