//! How words are spelled, the ends of each range, and the values where words are missing.

use crate::{Mode, ReportWord, SchemeWord, number_of, rx_options, rx_refusal, rx_words, tx_words};
use std::alloc::{AllocError, Global};
use std::test::*;

/// The words of a line, between single spaces.
fn words_in(alloc: Global, line: &str) -> Result<Vec<String>, AllocError> {
    let mut words = Vec::new(alloc);
    for word in line.split(' ') {
        words.push(String::from_str(alloc, word)?)?;
    }
    Ok(words)
}

/// Whether the receiver's words are read.
fn is_read(alloc: Global, line: &str) -> Result<bool, Fail> {
    let words = words_in(alloc, line)?;
    Ok(rx_words(alloc, words.as_slice()).is_ok())
}

/// Words of the receiver that are read.
const READ: &str = "--tsi 1
--tsi=1
--tsi=0000000000000000000000000000000000000000001
--percent 5 --tsi 1
--tsi 281474976710655
--tsi 1 --workers 64
--tsi 1 --path /a~%20
--tsi 1 --tables=
--tsi 1 host:80 other:81";

/// Words of the receiver that are refused. The last ones are an empty word.
const REFUSED: &str = "--tsi 281474976710656
--tsi 340282366920938463463374607431768211457
--tsi +1
--tsi -1
--tsi=
--tsi
--tsi 1 --tsi 1
--tsi 1 --unknown 1
--tsi 1 --help
--tsi 1 -h
--help
--tsi 1 --workers 0
--tsi 1 --workers 65
--tsi 1 --path a
--tsi 1 --path=
--tsi 1 --path /a|b
--tsi 1 --mode Ranges
--tsi 1 host\t80
--tsi 1 ";

#[test]
fn words_are_spelled_with_a_space_or_an_equals_sign(rt: HostRuntime) -> Result<(), Fail> {
    for (lines, wanted) in [(READ, true), (REFUSED, false)] {
        for line in lines.split('\n') {
            assert_eq!(&rt; is_read(rt.alloc(), line)?, wanted, "{line:?}");
        }
    }
    Ok(())
}

#[test]
fn the_receiver_has_defaults(rt: HostRuntime) -> Result<(), Fail> {
    let words = words_in(rt.alloc(), "--tsi 7")?;
    let values = rx_words(rt.alloc(), words.as_slice()).expect(&rt, "the words are read");
    assert_eq!(&rt; values.tsi, 7);
    assert_eq!(&rt; values.until, 281_474_976_710_655);
    assert_eq!(&rt; values.offset, 0);
    assert_eq!(&rt; values.period, 0);
    assert_eq!(&rt; values.mode, Mode::Symbols);
    assert_eq!(&rt; values.attempts, 1);
    assert_eq!(&rt; values.workers, 1);
    assert_eq!(&rt; values.report, ReportWord::None);
    assert_eq!(&rt; values.percent, 100);
    assert_eq!(&rt; values.path.as_slice(), b"/repair".as_slice());
    assert!(&rt; values.tables.is_none());
    assert!(&rt; values.trace.is_none());
    assert!(&rt; values.listen.is_none());
    assert_eq!(&rt; values.folder.as_slice(), b".".as_slice());
    assert!(&rt; values.servers.is_empty());
    Ok(())
}

#[test]
fn the_sender_has_files_and_defaults(rt: HostRuntime) -> Result<(), Fail> {
    let words = words_in(
        rt.alloc(),
        "--scheme=raptor --symbol 65000 one --tsi 4294967295 --start 140737488355328 --expires=0 two",
    )?;
    let values = tx_words(rt.alloc(), words.as_slice()).expect(&rt, "the words are read");
    assert_eq!(&rt; values.scheme, SchemeWord::Raptor);
    assert_eq!(&rt; values.symbol, 65_000);
    assert_eq!(&rt; values.block, 64);
    assert_eq!(&rt; (values.z, values.n, values.al), (1, 1, 4));
    assert_eq!(&rt; values.start, 140_737_488_355_328);
    assert_eq!(&rt; (values.instance, values.percent), (1, 0));
    assert_eq!(&rt; (values.rounds, values.rate), (1, 1000));
    assert_eq!(&rt; values.files.len(), 2);
    let words = words_in(rt.alloc(), "--scheme=raptor --symbol 65000 one")?;
    assert!(&rt; tx_words(rt.alloc(), words.as_slice()).is_err());
    Ok(())
}

#[test]
fn numbers_are_digits_alone(rt: HostRuntime) {
    let table = [
        ("1", Some(1)),
        ("0009", Some(9)),
        ("10", None),
        ("0", None),
        ("", None),
        ("1a", None),
        (" 1", None),
        ("18446744073709551617", None),
    ];
    for (text, number) in table {
        assert_eq!(&rt; number_of(text, 1, 9), number, "{text:?}");
    }
}

#[test]
fn refused_words_are_said(rt: HostRuntime) -> Result<(), Fail> {
    let cases = [
        (
            "--tsi 1 --workers 65",
            "error: invalid value '65' for '--workers <workers>': threads, 1 to 64, else 1\n",
        ),
        (
            "--tsi 1 --unknown 1",
            "error: unexpected argument '--unknown' found\n",
        ),
        (
            "--tsi 1 host\t80",
            "error: invalid value 'host\t80' for '[server]...': 1 to 256 bytes, each of ! to ~\n",
        ),
    ];
    for (line, wanted) in cases {
        let words = words_in(rt.alloc(), line)?;
        let told = rx_refusal(rt.alloc(), words.as_slice())?.expect(&rt, "the words are refused");
        assert_eq!(&rt; told.as_str(), wanted);
    }
    let words = words_in(rt.alloc(), "--tsi 1 host:80")?;
    assert!(&rt; rx_refusal(rt.alloc(), words.as_slice())?.is_none());
    let options = rx_options(rt.alloc())?;
    assert!(&rt;
        options
            .as_str()
            .contains("--workers <workers>    threads, 1 to 64, else 1")
    );
    Ok(())
}
