// A comparison without a note: `assert_eq!` writes out all that it says at each of its places, and each place is proved. A row of a table
// is told by what is beside the value, on both sides.
use std::fmt::Debug;
use std::process::Abort;

pub fn same<R: Abort, T: Debug + Drop + PartialEq>(rt: &R, got: T, wanted: T) {
    assert_eq!(rt; got, wanted);
}
