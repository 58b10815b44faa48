ghost use Rattle.std.specs.Prelude.{◌<◌, ◌≤◌, length, IfOk, MatchResult};
ghost use Rattle.bng_radius_wire.specs.Attributes.{fields, AreAttributes, WhyNoList};

use crate::views::Attribute;
use arrayvec::ArrayVec;
use bng_base::ReadError;

// The attributes that the octets are, or why they are none.
pub(crate) fn list_of(octets: &[u8]) -> Result<ArrayVec<Attribute<'_>, 64>, ReadError>
    ensures answer { MatchResult result (λ v. AreAttributes (fields v.items) octets.now) (λ e. WhyNoList e octets.now) }
    ensures few { IfOk result (λ v. length v.items ≤ 64) }
{
    let mut found = ArrayVec::new();
    let mut many = false;
    let mut rest = octets;
    while let [kind, length, after @ ..] = rest {
        let length = usize::from(*length);
        if length < 2 || after.len() < length - 2 {
            return Err(ReadError::Outside);
        }
        let (value, next) = after.split_at(length - 2);
        if found.is_full() {
            many = true;
        } else {
            found.push(Attribute { kind: *kind, value });
        }
        rest = next;
    }
    if !rest.is_empty() {
        return Err(ReadError::Outside);
    }
    if many {
        return Err(ReadError::TooMany);
    }
    Ok(found)
}
