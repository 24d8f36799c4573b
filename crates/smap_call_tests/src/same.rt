//! The comparisons of all tests. An assertion in place costs a proof several times what a call of one of these does.
use std::process::Abort;

/// What was asked came to this text, and to no other.
pub fn assert_same(rt: &impl Abort, asked: &str, got: &str, wanted: &str) {
    assert_eq!(rt; got, wanted, "of {asked}");
}

/// What was asked is so.
pub fn assert_holds(rt: &impl Abort, asked: &str, holds: bool) {
    assert!(rt; holds, "{asked}");
}
