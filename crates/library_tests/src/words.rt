// Words at their edges.

use word_ops::{
    add_carry, bytes_left, bytes_right, high_word, lanes32_add, lanes32_left, lanes32_right,
    le_bytes, low_word, mul_wide, pair_words, rotate_left, rotate_right, shuffle_bytes,
    shuffle_dwords, sub_borrow,
};

const TOP: u64 = 1 << 63;
// Its bytes count up from the lowest.
const COUNTED: u128 = 0x0f0e0d0c0b0a09080706050403020100;

const TOPS: u128 = 0x80000000800000008000000080000000;

#[test]
fn carries_and_borrows_at_the_edges(rt: HostRuntime) {
    assert_eq!(rt; add_carry(1, 2, false), (3, false));
    assert_eq!(rt; add_carry(u64::MAX, 0, true), (0, true));
    assert_eq!(rt; add_carry(u64::MAX, u64::MAX, true), (u64::MAX, true));
    assert_eq!(rt; add_carry(TOP, TOP, false), (0, true));
    assert_eq!(rt; sub_borrow(3, 2, false), (1, false));
    assert_eq!(rt; sub_borrow(0, 0, true), (u64::MAX, true));
    assert_eq!(rt; sub_borrow(0, u64::MAX, true), (0, true));
    assert_eq!(rt; sub_borrow(u64::MAX, u64::MAX, false), (0, false));
}

#[test]
fn multiplies_to_two_words(rt: HostRuntime) {
    assert_eq!(rt; mul_wide(u64::MAX, u64::MAX), (u64::MAX - 1, 1));
    assert_eq!(rt; mul_wide(1 << 32, 1 << 32), (1, 0));
    assert_eq!(rt; mul_wide(3, 5), (0, 15));
}

#[test]
fn rotates_and_tells_bytes(rt: HostRuntime) {
    assert_eq!(rt; rotate_left(TOP + 1, 1), 3);
    assert_eq!(rt; rotate_left(5, 0), 5);
    assert_eq!(rt; rotate_left(1, 63), TOP);
    assert_eq!(rt; rotate_right(3, 1), TOP + 1);
    assert_eq!(rt; rotate_right(5, 0), 5);
    assert_eq!(rt; rotate_right(TOP, 63), 1);
    assert_eq!(rt; le_bytes(0x0807060504030201), [1, 2, 3, 4, 5, 6, 7, 8]);
}

#[test]
fn pairs_words(rt: HostRuntime) {
    assert_eq!(rt; pair_words(1, u64::MAX), 0x1ffffffffffffffff);
    assert_eq!(rt; high_word(COUNTED), 0x0f0e0d0c0b0a0908);
    assert_eq!(rt; low_word(COUNTED), 0x0706050403020100);
}

#[test]
fn carries_stay_in_their_lane(rt: HostRuntime) {
    assert_eq!(rt; lanes32_add(TOPS, TOPS), 0);
    assert_eq!(rt; lanes32_add(u128::MAX, 1), u128::MAX - 0xffffffff);
    assert_eq!(rt; lanes32_left(u128::MAX, 31), TOPS);
    assert_eq!(rt; lanes32_left(u128::MAX, 32), 0);
    assert_eq!(rt; lanes32_left(u128::MAX, 255), 0);
    assert_eq!(rt;
        lanes32_right(u128::MAX, 31),
        0x00000001000000010000000100000001
    );
    assert_eq!(rt; lanes32_right(u128::MAX, 32), 0);
    assert_eq!(rt; lanes32_right(u128::MAX, 255), 0);
}

#[test]
fn shifts_by_bytes(rt: HostRuntime) {
    assert_eq!(rt; bytes_left(COUNTED, 1), 0x0e0d0c0b0a0908070605040302010000);
    assert_eq!(rt; bytes_left(u128::MAX, 15), 255 << 120);
    assert_eq!(rt; bytes_left(u128::MAX, 16), 0);
    assert_eq!(rt; bytes_right(COUNTED, 1), 0x0f0e0d0c0b0a090807060504030201);
    assert_eq!(rt; bytes_right(u128::MAX, 15), 255);
    assert_eq!(rt; bytes_right(u128::MAX, 16), 0);
}

#[test]
fn picks_lanes_and_bytes(rt: HostRuntime) {
    assert_eq!(rt;
        shuffle_dwords(COUNTED, 0x1b),
        0x03020100070605040b0a09080f0e0d0c
    );
    assert_eq!(rt; shuffle_dwords(COUNTED, 0xe4), COUNTED);
    assert_eq!(rt;
        shuffle_bytes(COUNTED, 0x000102030405060708090a0b0c0d0e0f),
        0x000102030405060708090a0b0c0d0e0f
    );
    assert_eq!(rt;
        shuffle_bytes(u128::MAX, 0x7f808f0f),
        u128::MAX - 0x00ffff00
    );
}
