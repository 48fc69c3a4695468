// The program's own words, and the statuses of a listing that fails.

use crate::{NO_MEMORY, NO_WORDS, listing_status, words};
use std::io::ErrorKind;

#[test]
fn a_listing_that_fails_has_a_status_of_its_own(rt: HostRuntime) {
    for (kind, want) in [
        (ErrorKind::OutOfMemory, 7),
        (ErrorKind::InvalidData, 8),
        (ErrorKind::Other, 8),
    ] {
        assert_eq!(rt; listing_status(kind), want, "{kind:?}");
    }
    assert_eq!(rt; (NO_MEMORY, NO_WORDS), (7, 8));
}

#[test]
fn the_words_of_a_run_are_listed(rt: HostRuntime) {
    assert!(rt; words(&rt).is_ok());
}
