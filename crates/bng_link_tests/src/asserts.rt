//! What a test compares, each comparison in a function of its own: the prover carries all that is alive at such a place through it.
ghost use Rattle.std.specs.Prelude.{◌≡◌, true};

use std::fmt::Debug;
use std::process::Abort;

/// The test fails where these differ.
pub(crate) fn assert_same<T: PartialEq + Debug>(rt: &impl Abort, found: &T, wanted: &T) {
    assert_eq!(rt; found, wanted);
}

/// The test fails where these, which are of the packet with this code and these octets, differ: it tells the packet too.
pub(crate) fn assert_same_of<T: PartialEq + Debug>(
    rt: &impl Abort,
    code: u8,
    octets: &[u8],
    found: &T,
    wanted: &T,
) {
    assert_eq!(rt; found, wanted, "{code} {octets:?}");
}

/// The test fails where these octets differ.
pub(crate) fn assert_octets(rt: &impl Abort, found: &[u8], wanted: &[u8]) {
    assert_eq!(rt; found, wanted);
}

/// The test fails where there is another number of something.
pub(crate) fn assert_count(rt: &impl Abort, found: usize, wanted: usize)
    ensures { found ≡ wanted }
{
    assert_eq!(rt; found, wanted);
}

/// The test fails where this does not hold.
pub(crate) fn assert_holds(rt: &impl Abort, holds: bool)
    ensures { holds ≡ true }
{
    assert!(rt; holds);
}
