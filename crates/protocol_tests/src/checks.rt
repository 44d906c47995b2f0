//! The comparisons of tests. A test that compares two values itself carries both, borrowed, through the proof of all
//! that follows.
ghost use Rattle.std.specs.Prelude.{◌≡◌, true, Ok};

use std::fmt::Debug;
use std::process::Abort;

/// Ends the test if this doesn't hold.
pub(crate) fn holds(rt: &impl Abort, fact: bool)
    ensures { fact ≡ true }
{
    assert!(rt; fact);
}

/// Ends the test if the value isn't the expected one, and prints both.
pub(crate) fn same<T: PartialEq + Debug + Drop>(rt: &impl Abort, value: T, expected: T) {
    assert_eq!(rt; value, expected);
}

/// The value that was made. Ends the test if it wasn't, and prints why.
pub(crate) fn got<T, E: Debug + Drop>(rt: &impl Abort, made: Result<T, E>) -> T
    ensures { made ≡ Ok result }
{
    match made {
        Ok(value) => value,
        Err(error) => panic!(rt; "error: {error:?}"),
    }
}
