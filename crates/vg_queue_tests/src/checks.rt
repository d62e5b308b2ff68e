//! What the tests compare by. A comparison that stands in a test is proved there, in a second or more; a call of one of these takes a tenth of it.
ghost use Rattle.std.specs.Prelude.{◌≡◌, true};

use std::fmt::Debug;
use std::process::Abort;

/// What was found is what is expected.
pub(crate) fn same<T: PartialEq + Debug + Drop>(rt: &impl Abort, found: T, expected: T) {
    assert_eq!(rt; found, expected);
}

/// It is so.
pub(crate) fn holds(rt: &impl Abort, fact: bool)
    ensures { fact ≡ true }
{
    assert!(rt; fact);
}

/// The length that was found is the one expected.
pub(crate) fn has_length(rt: &impl Abort, found: usize, expected: usize)
    ensures { found ≡ expected }
{
    assert_eq!(rt; found, expected);
}
