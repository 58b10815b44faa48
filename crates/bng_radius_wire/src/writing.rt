ghost use Rattle.std.specs.Prelude.{◌≡◌, ◌≤◌, ◌<◌, ◌+◌, ◌*◌, ◌++◌, ◌↔◌, length};
ghost use Rattle.std.specs.List.{AllByRecursion};
ghost use Rattle.bng_radius_wire.specs.Attributes.{Fits, fields};
ghost use Rattle.bng_radius_wire.specs.Grammar.{whole, IsRadius, spelling, attributes_text};

use crate::views::{Attribute, Radius};
use bng_base::{Frame, HEADROOM, LONGEST, Written};

// How many octets the attributes have together.
fn size_of(attributes: &[Attribute<'_>]) -> usize
    requires few { length attributes.now ≤ 64 }
    requires fit { AllByRecursion Fits (fields attributes.now) }
    ensures size { result ≡ length (attributes_text (fields attributes.now)) }
    ensures small { result ≤ 255 * 64 }
{
    let mut size = 0;
    for attribute in attributes {
        size += 2 + attribute.value.len();
    }
    size
}

// Puts the attributes after what stands in a frame.
fn put_all(attributes: &[Attribute<'_>], into: &mut Frame)
    requires fit { AllByRecursion Fits (fields attributes.now) }
    requires room { 64 + length into.old.payload + length (attributes_text (fields attributes.now)) ≤ 4160 }
    requires headroom { into.old.headroom ≡ 64 }
    ensures payload { into.new.payload ≡ into.old.payload ++ attributes_text (fields attributes.now) }
    ensures headroom { into.new.headroom ≡ 64 }
{
    for attribute in attributes {
        into.put_back(&[attribute.kind, (2 + attribute.value.len()) as u8]);
        into.put_back(attribute.value);
    }
}

/// Writes the one spelling of a packet. The value of each attribute has 253 octets at most. Full comes exactly where the
/// packet does not fit 4,096 octets, and the frame is then as before.
pub fn write(value: &Radius<'_>, into: &mut Frame) -> Written
    requires { AllByRecursion Fits (fields value.now.attributes.items) }
    ensures done { result ≡ Written.Done → into.new.payload ≡ spelling (whole value.now) }
    ensures reads_back { result ≡ Written.Done → IsRadius (whole value.now) into.new.payload }
    ensures full { (result ≡ Written.Full) ↔ (LONGEST < length (spelling (whole value.now))) }
    ensures headroom { result ≡ Written.Done → into.new.headroom ≡ HEADROOM }
    ensures kept { result ≡ Written.Full → into.new ≡ into.old }
{
    let size = 20 + size_of(value.attributes.as_slice());
    if size > LONGEST {
        return Written::Full;
    }
    let [high, low] = (size as u16).to_be_bytes();
    into.set(&[value.code, value.id, high, low]);
    into.put_back(&value.authenticator);
    put_all(value.attributes.as_slice(), into);
    Written::Done
}
