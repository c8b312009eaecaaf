//! Each call on rows and bytes that end inside a word or a block of lanes.
use crate::{add_row, first_bit, flip_bit, has_bit, words_for, xor_into, xor_plain};
use std::test::Fail;

#[test]
fn places_are_bits_of_words_from_the_lowest(rt: HostRuntime) -> Result<(), Fail> {
    assert_eq!(rt; [words_for(0), words_for(64), words_for(65)], [0, 1, 2]);
    let mut row = [0u64; 2];
    assert_eq!(rt; first_bit(&row), None);
    flip_bit(&mut row, 100);
    flip_bit(&mut row, 3);
    flip_bit(&mut row, 100);
    flip_bit(&mut row, 66);
    assert_eq!(rt; row, [8, 4]);
    assert_eq!(rt;
        [has_bit(&row, 3), has_bit(&row, 66), has_bit(&row, 100)],
        [true, true, false]
    );
    assert_eq!(rt; first_bit(&row), Some(3));
    let other = [0u64, 6];
    add_row(&mut row, &other, 1);
    assert_eq!(rt; row, [8, 2]);
    Ok(())
}

#[test]
fn bytes_are_added_alike_by_lanes_and_one_by_one(rt: HostRuntime) -> Result<(), Fail> {
    let mut src = [0u8; 71];
    for i in 0..71 {
        src[i] = ((7 * i + 1) % 256) as u8;
    }
    let mut lanes = [0x5au8; 71];
    let mut plain = lanes;
    xor_into(&mut lanes, &src);
    xor_plain(&mut plain, &src);
    assert_eq!(rt; lanes, plain);
    assert_eq!(rt;
        [lanes[0], lanes[31], lanes[70]],
        [0x5a ^ 1, 0x5a ^ 218, 0x5a ^ 235]
    );
    Ok(())
}
