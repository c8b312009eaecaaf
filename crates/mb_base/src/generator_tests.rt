use crate::{mix, word};
use std::process::Abort;

// Numbers and what they are mixed to, as MurmurHash3's finalizer gives them.
const MIXED: [(u32, u32); 5] = [
    (0, 0),
    (1, 0x514e_28b7),
    (2, 0x30f4_c306),
    (0xdead_beef, 0x0de5_c6a9),
    (0xffff_ffff, 0x81f1_6f39),
];

// A seed, a place and the number there.
const WORDS: [(u32, u32, u32); 5] = [
    (1, 0, 0x514e_28b7),
    (1, 1, 0x96a0_f96b),
    (1, 511, 0xccb7_e704),
    (0xffff_ffff, 1, 0x36de_b503),
    (7, 0xffff_ffff, 0x24c2_350c),
];

#[test]
fn numbers_are_those_of_other_programs(rt: HostRuntime) {
    for (z, want) in MIXED {
        assert_eq!(rt; mix(z), want);
    }
    for (seed, i, want) in WORDS {
        assert_eq!(rt; word(seed, i), want);
    }
}
