ghost use Rattle.std.specs.Prelude.{◌≡◌, ◌<◌, ◌≤◌, ◌↔◌, ◌++◌, ℕ, List, IsTrue, IfOk, IsOkAnd, MatchOption, MatchResult, length};
ghost use Rattle.bng_base.specs.PppoeGrammar.{PppoeFrame, IsPppoe, HasFewTags, HasManyTags, pppoe_header, pppoe_text};
ghost use Rattle.bng_pppoe_wire.specs.View.{frame_of};
ghost use Rattle.bng_pppoe_wire.specs.Frame.{AsksOf, IsRight, DiscoveryFault, IsKeptDiscovery, Fault, IsKept, WhyNot};

use crate::code::{PADI, PADO, PADR, SESSION_DATA};
use crate::layout::{VERSION_AND_TYPE, ether_type, laid_out};
use crate::scan::{Scan, scan_tags};
use crate::view::Pppoe;
use bng_base::{Frame, HEADROOM, LONGEST, Mac, ReadError, Written};

const MOST_TAGS: usize = 64;

const LONGEST_HOST_UNIQ: usize = 64;

fn asks_one_service(scan: Scan) -> bool
    ensures { IsTrue result ↔ AsksOf scan }
{
    let host = match scan.host {
        Some(octets) => octets <= LONGEST_HOST_UNIQ,
        None => true,
    };
    scan.services == 1 && host
}

// what a discovery frame of this code needs
fn is_right(code: u8, session: u16, scan: Scan) -> bool
    ensures { IsTrue result ↔ IsRight code session scan }
{
    match code {
        PADI | PADR => session == 0 && asks_one_service(scan),
        PADO => session == 0,
        _ => true,
    }
}

fn discovery_fault(frame: &Pppoe<'_>) -> Option<ReadError>
    requires { length frame.now.payload.now < 65536 }
    ensures { MatchOption result (IsKeptDiscovery (frame_of frame.now)) (λ e. DiscoveryFault e (frame_of frame.now)) }
{
    let Some(scan) = scan_tags(frame.payload) else {
        return Some(ReadError::Outside);
    };
    if !is_right(frame.code, frame.session, scan) {
        return Some(ReadError::Outside);
    }
    if scan.tags > MOST_TAGS {
        return Some(ReadError::TooMany);
    }
    None
}

// why a frame that is laid out right is not read
fn fault(frame: &Pppoe<'_>) -> Option<ReadError>
    requires { length frame.now.payload.now < 65536 }
    ensures { MatchOption result (IsKept (frame_of frame.now)) (λ e. Fault e (frame_of frame.now)) }
{
    if frame.discovery {
        return discovery_fault(frame);
    }
    if frame.code != SESSION_DATA || frame.payload.len() < 2 {
        return Some(ReadError::Outside);
    }
    None
}

fn frame_at(bytes: &[u8]) -> Result<Pppoe<'_>, ReadError>
    ensures { MatchResult result (λ p. IsPppoe (frame_of p) bytes.now × HasFewTags (frame_of p)) (λ e. WhyNot e bytes.now) }
{
    let Some(frame) = laid_out(bytes) else {
        return Err(ReadError::Outside);
    };
    match fault(&frame) {
        Some(error) => Err(error),
        None => Ok(frame),
    }
}

fn mac_octets(mac: Mac) -> usize
    ensures size { result ≡ length mac.0 }
    ensures six { length mac.0 ≡ 6 }
{
    mac.0.len()
}

impl<'a> Pppoe<'a> {
    /// The frame at the front of the octets (RFC 2516 sections 4 to 6). Octets past its LENGTH are padding. Outside comes
    /// exactly where the octets begin with no frame of the grammar, which asks of the tags of a discovery frame too.
    /// TooMany comes exactly where they begin with one that has more than 64 tags.
    pub fn read(bytes: &'a [u8]) -> Result<Pppoe<'a>, ReadError>
        ensures found { IfOk result (λ p. IsPppoe (frame_of p) bytes.now) }
        ensures few { IfOk result (λ p. HasFewTags (frame_of p)) }
        ensures only { (p : PppoeFrame) → IsPppoe p bytes.now → HasFewTags p → IsOkAnd result (λ q. frame_of q ≡ p) }
        ensures outside { (result ≡ Err ReadError.Outside) ↔ ((p : PppoeFrame) → ¬ (IsPppoe p bytes.now)) }
        ensures too_many { (result ≡ Err ReadError.TooMany) ↔ ((p : PppoeFrame) × IsPppoe p bytes.now × HasManyTags p) }
    {
        frame_at(bytes)
    }

    fn octets(&self) -> usize
        ensures size { result ≡ length (pppoe_text (frame_of self.now)) }
        ensures payload { length self.now.payload.now ≤ result }
    {
        mac_octets(self.dst) + mac_octets(self.src) + 8 + self.payload.len()
    }

    /// The octets of the frame before its payload. Put before the payload they make the frame.
    pub fn header(&self) -> [u8; 20]
        requires { length self.now.payload.now < 65536 }
        ensures spelled { result ≡ pppoe_header (frame_of self.now) }
        ensures again { (bytes : List ℕ) → IsPppoe (frame_of self.now) bytes → IsPppoe (frame_of self.now) (result ++ self.now.payload.now) }
    {
        let [d0, d1, d2, d3, d4, d5] = self.dst.0;
        let [s0, s1, s2, s3, s4, s5] = self.src.0;
        let [e1, e0] = ether_type(self.discovery).to_be_bytes();
        let (version, code) = (VERSION_AND_TYPE, self.code);
        let [i1, i0] = self.session.to_be_bytes();
        let [n1, n0] = (self.payload.len() as u16).to_be_bytes();
        [
            d0, d1, d2, d3, d4, d5, s0, s1, s2, s3, s4, s5, e1, e0, version, code, i1, i0, n1, n0,
        ]
    }

    /// Writes the one spelling of the frame, without padding. Full comes exactly where it has more than 4,096 octets; then
    /// `into` is as before.
    pub fn write(&self, into: &mut Frame) -> Written
        ensures done { result ≡ Written.Done → into.new ≡ record { payload = pppoe_text (frame_of self.now); headroom = HEADROOM } }
        ensures full { (result ≡ Written.Full) ↔ (LONGEST < length (pppoe_text (frame_of self.now))) }
        ensures kept { result ≡ Written.Full → into.new ≡ into.old }
        ensures again { result ≡ Written.Done → (bytes : List ℕ) → IsPppoe (frame_of self.now) bytes → IsPppoe (frame_of self.now) into.new.payload }
    {
        if self.octets() > LONGEST {
            return Written::Full;
        }
        into.set(&self.header());
        into.put_back(self.payload);
        Written::Done
    }
}
