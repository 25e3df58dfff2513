// The example of a cipher in appendix B of FIPS 197, and products without carries.

use aes_words::{aes_last, aes_round, clmul64, sub_byte};

// As they are printed: the first byte, which is the lowest of a word, stands at the left.
const TEXT: u128 = 0x3243f6a8885a308d313198a2e0370734;

const CIPHERED: u128 = 0x3925841d02dc09fbdc118597196a0b32;

const KEYS: [u128; 11] = [
    0x2b7e151628aed2a6abf7158809cf4f3c,
    0xa0fafe1788542cb123a339392a6c7605,
    0xf2c295f27a96b9435935807a7359f67f,
    0x3d80477d4716fe3e1e237e446d7a883b,
    0xef44a541a8525b7fb671253bdb0bad00,
    0xd4d1c6f87c839d87caf2b8bc11f915bc,
    0x6d88a37a110b3efddbf98641ca0093fd,
    0x4e54f70e5f5fc9f384a64fb24ea6dc4f,
    0xead27321b58dbad2312bf5607f8d292f,
    0xac7766f319fadc2128d12941575c006e,
    0xd014f9a8c9ee2589e13f0cc8b6630ca6,
];

// The states that rounds 1 to 10 start with.
const STATES: [u128; 10] = [
    0x193de3bea0f4e22b9ac68d2ae9f84808,
    0xa49c7ff2689f352b6b5bea43026a5049,
    0xaa8f5f0361dde3ef82d24ad26832469a,
    0x486c4eee671d9d0d4de3b138d65f58e7,
    0xe0927fe8c86363c0d9b1355085b8be01,
    0xf1006f55c1924cef7cc88b325db5d50c,
    0x260e2e173d41b77de86472a9fdd28b25,
    0x5a4142b11949dc1fa3e019657a8c040c,
    0xea835cf00445332d655d98ad8596b0c5,
    0xeb40f21e592e38848ba113e71bc342d2,
];

#[test]
fn enciphers_round_by_round(rt: HostRuntime) {
    assert_eq!(rt; TEXT ^ KEYS[0], STATES[0]);
    for i in 1..10 {
        let next = aes_round(STATES[i - 1].swap_bytes(), KEYS[i].swap_bytes());
        assert_eq!(rt; next.swap_bytes(), STATES[i]);
    }
    let ciphered = aes_last(STATES[9].swap_bytes(), KEYS[10].swap_bytes());
    assert_eq!(rt; ciphered.swap_bytes(), CIPHERED);
}

#[test]
fn looks_bytes_up(rt: HostRuntime) {
    assert_eq!(rt; sub_byte(0), 99);
    assert_eq!(rt; sub_byte(1), 124);
    assert_eq!(rt; sub_byte(83), 237);
}

// The second product fills both words.
#[test]
fn multiplies_without_carries(rt: HostRuntime) {
    assert_eq!(rt; clmul64(3, 3), 5);
    let product = clmul64(0x63746f725d53475d, 0x5b477565726f6e5d);
    assert_eq!(rt; product, 0x1d4d84c85c3440c0929633d5d36f0451);
}
