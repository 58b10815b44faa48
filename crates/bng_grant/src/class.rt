//! The Class attributes.
ghost use Rattle.std.specs.Prelude.{◌≡◌, ◌≤◌, ◌<◌, ◌+◌, ◌++◌, ◌∷◌, length, nat_le, nat_lt, ◌&&◌};
ghost use Rattle.std.specs.List.{AllByRecursion};
ghost use Rattle.bng_radius_wire.specs.Attributes.{Fits, field, fields, text};
ghost use Rattle.bng_grant.specs.Classes.{AreKept};

use arrayvec::ArrayVec;
use bng_radius_wire::{Attribute, kinds};

// Of one packet at most so many Class attributes are kept, with at most so many octets in all.
const MOST: usize = 32;

const ROOM: usize = 512;

// Whether a Class with this value fits behind so many others of so many octets.
fn has_room(count: usize, octets: usize, value: &[u8]) -> bool
    requires { octets ≤ 512 }
    ensures { result ≡ (nat_lt count 32 && nat_le (octets + (2 + length value.now)) 512) }
{
    count < MOST && 2 + value.len() <= ROOM - octets
}

// Appends an attribute: type, length and value.
fn put(class: &mut ArrayVec<u8, 512>, attribute: &Attribute<'_>)
    requires fits { Fits (field attribute.now) }
    requires room { length class.old.items + (2 + length attribute.now.value.now) ≤ 512 }
    ensures { class.new.items ≡ class.old.items ++ text (field attribute.now) }
{
    class.push(attribute.kind);
    class.push((2 + attribute.value.len()) as u8);
    let Ok(()) = class.try_extend_from_slice(attribute.value) else {
        unreachable!();
    };
}

// The longest front of the Class attributes that has room, each whole.
pub(crate) fn kept_classes(attributes: &[Attribute<'_>]) -> ArrayVec<u8, 512>
    requires { AllByRecursion Fits (fields attributes.now) }
    ensures { AreKept (fields attributes.now) result.items }
{
    let mut class = ArrayVec::new();
    let mut count = 0;
    for attribute in attributes {
        if attribute.kind == kinds::CLASS {
            if !has_room(count, class.len(), attribute.value) {
                return class;
            }
            put(&mut class, attribute);
            count += 1;
        }
    }
    class
}
