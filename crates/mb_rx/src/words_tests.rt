//! That words are read where there is memory, and that those for what is still to come are refused.

use super::*;
use mb_base::WordsFault;
use std::alloc::{AllocError, Global};
use std::test::*;

fn owned(alloc: Global, words: &[&str]) -> Result<Vec<String>, AllocError> {
    words
        .iter()
        .map(|word| String::from_str(alloc, word))
        .try_collect(alloc)
}

/// The last moment to listen of words that are read, and `None` of words that are refused.
fn until_of(alloc: Global, words: &[&str]) -> Result<Option<u64>, WordsFault> {
    let Ok(words) = owned(alloc, words) else {
        return Err(WordsFault::Memory);
    };
    match read_words(alloc, words.as_slice()) {
        Ok(values) => Ok(Some(values.until)),
        Err(WordsFault::Refused) => Ok(None),
        Err(fault) => Err(fault),
    }
}

#[test]
fn words_of_a_server_or_of_an_address_are_refused(rt: HostRuntime) {
    let table = [
        (["--until=7", "--tsi=1"].as_slice(), Some(7)),
        (["--tsi=1", "host:80"].as_slice(), None),
        (["--tsi=1", "--listen=host:80"].as_slice(), None),
    ];
    for (words, until) in table {
        assert_eq!(&rt; until_of(rt.alloc(), words), Ok(until), "{words:?}");
    }
}
