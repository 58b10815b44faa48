ghost use Rattle.std.specs.Prelude.{◌≡◌, ◌<◌, ◌≤◌, ◌↔◌, List, length, All};
ghost use Rattle.bng_base.specs.PppoeGrammar.{PppoeTag, AreTags, TagFits, tags_text};
ghost use Rattle.bng_pppoe_wire.specs.View.{tag_of, tags_of};

use crate::front::{Front, read_front};
use crate::view::{Pppoe, Tag};
use arrayvec::ArrayVec;
use bng_base::{Frame, HEADROOM, LONGEST, Written};

/// The tags of a discovery frame (RFC 2516 section 4) in their order, without End-Of-List and what stands after it.
pub fn tags<'a>(frame: &Pppoe<'a>) -> ArrayVec<Tag<'a>, 64>
    requires { (ts : List PppoeTag) × AreTags ts frame.now.payload.now × (length ts ≤ 64) }
    ensures are { AreTags (tags_of result.items) frame.now.payload.now }
    ensures only { (ts : List PppoeTag) → AreTags ts frame.now.payload.now → tags_of result.items ≡ ts }
{
    let mut found = ArrayVec::new();
    let mut rest = frame.payload;
    while let Front::One(tag, next) = read_front(rest) {
        found.push(tag);
        rest = next;
    }
    found
}

/// Writes the one spelling of a list of tags, as the payload of a discovery frame has it. Full comes exactly where it has
/// more than 4,096 octets; then `into` is as before.
pub fn write_tags(tags: &[Tag<'_>], into: &mut Frame) -> Written
    requires { All (λ t. TagFits (tag_of t)) tags.now }
    ensures done { result ≡ Written.Done → into.new ≡ record { payload = tags_text (tags_of tags.now); headroom = HEADROOM } }
    ensures full { (result ≡ Written.Full) ↔ (LONGEST < length (tags_text (tags_of tags.now))) }
    ensures kept { result ≡ Written.Full → into.new ≡ into.old }
    ensures again { result ≡ Written.Done → AreTags (tags_of tags.now) into.new.payload }
{
    let mut size = 0;
    for tag in tags {
        size += 4 + tag.value.len();
        if size > LONGEST {
            return Written::Full;
        }
    }
    into.set(&[]);
    for tag in tags {
        into.put_back(&tag.kind.to_be_bytes());
        into.put_back(&(tag.value.len() as u16).to_be_bytes());
        into.put_back(tag.value);
    }
    Written::Done
}
