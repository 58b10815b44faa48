ghost use Rattle.std.specs.Prelude.{◌≡◌, ◌<◌, ◌≤◌, ◌↔◌, List, length, IfOk, IsOkAnd, MatchResult, All};
ghost use Rattle.bng_base.specs.PppGrammar.{PppOption, AreOptions, OptionFits, options_text};
ghost use Rattle.bng_ppp_wire.specs.View.{option_of, options_of};
ghost use Rattle.bng_ppp_wire.specs.Listing.{WhyNoOptions, names as has_type};

use crate::view::{Opt, Packet};
use arrayvec::ArrayVec;
use bng_base::{Frame, HEADROOM, LONGEST, ReadError, Written};

// the options that the octets are, or why they are none
fn list_of(body: &[u8]) -> Result<ArrayVec<Opt<'_>, 64>, ReadError>
    ensures answer { MatchResult result (λ v. AreOptions (options_of v.items) body.now) (λ e. WhyNoOptions e body.now) }
    ensures few { IfOk result (λ v. length v.items ≤ 64) }
{
    let mut found = ArrayVec::new();
    let mut many = false;
    let mut rest = body;
    while let [kind, length, after @ ..] = rest {
        let length = usize::from(*length);
        if length < 2 || after.len() < length - 2 {
            return Err(ReadError::Outside);
        }
        let (value, next) = after.split_at(length - 2);
        if found.is_full() {
            many = true;
        } else {
            found.push(Opt { kind: *kind, value });
        }
        rest = next;
    }
    if !rest.is_empty() {
        return Err(ReadError::Outside);
    }
    if many {
        return Err(ReadError::TooMany);
    }
    Ok(found)
}

/// The options that the body of a packet lists (RFC 1661 section 6), in their order. Outside comes exactly where the body
/// is no list of options, TooMany exactly where it is one of more than 64.
pub fn options<'a>(packet: &Packet<'a>) -> Result<ArrayVec<Opt<'a>, 64>, ReadError>
    ensures found { IfOk result (λ v. AreOptions (options_of v.items) packet.now.body.now) }
    ensures only { (os : List PppOption) → AreOptions os packet.now.body.now → length os ≤ 64 → IsOkAnd result (λ v. options_of v.items ≡ os) }
    ensures outside { (result ≡ Err ReadError.Outside) ↔ ((os : List PppOption) → ¬ (AreOptions os packet.now.body.now)) }
    ensures too_many { (result ≡ Err ReadError.TooMany) ↔ ((os : List PppOption) × AreOptions os packet.now.body.now × (64 < length os)) }
{
    list_of(packet.body)
}

/// Writes the one spelling of a list of options, as the body of a packet has it. Full comes exactly where it has more
/// than 4,096 octets; then `into` is as before.
pub fn write_options(options: &[Opt<'_>], into: &mut Frame) -> Written
    requires { All (λ o. OptionFits (option_of o)) options.now }
    ensures done { result ≡ Written.Done → into.new ≡ record { payload = options_text (options_of options.now); headroom = HEADROOM } }
    ensures full { (result ≡ Written.Full) ↔ (LONGEST < length (options_text (options_of options.now))) }
    ensures kept { result ≡ Written.Full → into.new ≡ into.old }
    ensures again { result ≡ Written.Done → AreOptions (options_of options.now) into.new.payload }
{
    let mut size = 0;
    for option in options {
        size += 2 + option.value.len();
        if size > LONGEST {
            return Written::Full;
        }
    }
    into.set(&[]);
    for option in options {
        into.put_back(&[option.kind, (2 + option.value.len()) as u8]);
        into.put_back(option.value);
    }
    Written::Done
}

/// Whether an option of this type is listed.
pub fn names(options: &[Opt<'_>], kind: u8) -> bool
    ensures { result ≡ has_type (options_of options.now) kind }
{
    for option in options {
        if option.kind == kind {
            return true;
        }
    }
    false
}
