//! Random words of the system, and of a source that fails.

use rs_face::{Entropy, EntropyFault};
use rs_net::OsEntropy;
use std::io;
use std::io::{Error, ErrorKind};
use std::random::RandomSource;
use std::test::Fail;

/// A source that gives nothing.
#[derive(Drop)]
struct Dry;

impl RandomSource for Dry {
    fn fill_bytes(&self, _buf: &mut [u8]) -> io::Result<()> {
        Err(Error::from(ErrorKind::Other))
    }
}

#[test]
fn two_words_differ(rt: HostRuntime) -> Result<(), Fail> {
    let mut entropy = OsEntropy::new(&rt);
    let one = entropy.word()?;
    let other = entropy.word()?;
    assert!(rt; one != other);
    Ok(())
}

#[test]
fn a_dry_source_is_told(rt: HostRuntime) -> Result<(), Fail> {
    let mut entropy = OsEntropy::new(Dry);
    for _ in 0..2 {
        assert_eq!(rt; entropy.word(), Err(EntropyFault::Failed));
    }
    Ok(())
}
