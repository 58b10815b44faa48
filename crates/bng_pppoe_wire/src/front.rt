ghost use Rattle.bng_pppoe_wire.specs.Front.{IsFront};

use crate::kind::END_OF_LIST;
use crate::view::Tag;

/// What octets of a list of tags begin with.
#[derive(Clone, Copy)]
pub(crate) enum Front<'a> {
    /// A tag, and the octets after it.
    One(Tag<'a>, &'a [u8]),
    /// The end of the list.
    End,
    /// Neither.
    Nothing,
}

/// What the octets begin with.
pub(crate) fn read_front(rest: &[u8]) -> Front<'_>
    ensures { IsFront result rest.now }
{
    let [k1, k0, n1, n0, after @ ..] = rest else {
        return if rest.is_empty() {
            Front::End
        } else {
            Front::Nothing
        };
    };
    let kind = u16::from_be_bytes([*k1, *k0]);
    let size = usize::from(u16::from_be_bytes([*n1, *n0]));
    if kind == END_OF_LIST {
        return if size == 0 {
            Front::End
        } else {
            Front::Nothing
        };
    }
    if after.len() < size {
        return Front::Nothing;
    }
    let (value, next) = after.split_at(size);
    Front::One(Tag { kind, value }, next)
}
