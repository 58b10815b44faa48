//! What a test compares, each comparison in a function of its own: the prover carries all that is alive at such a place through it.
ghost use Rattle.std.specs.Prelude.{◌≡◌, true};

use std::alloc::Global;
use std::fmt::Debug;
use std::process::Abort;
use std::test::Fail;

/// The test fails where these differ.
pub(crate) fn assert_same<T: PartialEq + Debug>(rt: &impl Abort, found: &T, wanted: &T) {
    assert_eq!(rt; found, wanted);
}

/// The test fails where these differ, and says of which case they are.
pub(crate) fn assert_same_for<T: PartialEq + Debug, C: Debug>(
    rt: &impl Abort,
    found: &T,
    wanted: &T,
    case: &C,
) {
    assert_eq!(rt; found, wanted, "{case:?}");
}

/// The test fails where these octets differ.
pub(crate) fn assert_octets(rt: &impl Abort, found: &[u8], wanted: &[u8]) {
    assert_eq!(rt; found, wanted);
}

/// The test fails where these octets have other hexadecimal digits.
pub(crate) fn assert_hex(
    rt: &impl Abort,
    alloc: Global,
    found: &[u8],
    wanted: &str,
) -> Result<(), Fail> {
    let digits = hex::encode(alloc, found)?;
    assert_same(rt, &digits.as_str(), &wanted);
    Ok(())
}

/// The test fails where there is another number of something.
pub(crate) fn assert_count(rt: &impl Abort, found: usize, wanted: usize)
    ensures { found ≡ wanted }
{
    assert_eq!(rt; found, wanted);
}

/// The test fails where this does not hold.
pub(crate) fn assert_holds(rt: &impl Abort, holds: bool)
    ensures { holds ≡ true }
{
    assert!(rt; holds);
}

/// The test fails where this does not hold, and says of which case it does not.
pub(crate) fn assert_holds_for(rt: &impl Abort, holds: bool, case: &str) {
    assert!(rt; holds, "{case}");
}
