// Words of 128 bits: pairs of words, four numbers of 32 bits, or sixteen bytes, the lowest first.

ghost use Rattle.std.specs.Prelude.{◌≡◌, ◌*◌, ◌/◌, ◌%◌, ◌^◌, map};
ghost use Rattle.word_ops.specs.Words128.{pair, high, low, lane, lane_numbers, byte, byte_numbers, of_digits, paddd, pshufd, picked_byte, pshufb, pslld, psrld, pslldq, psrldq};

/// The word of 128 bits with this upper and this lower word.
pub fn pair_words(h: u64, l: u64) -> u128
    ensures { result ≡ pair h l }
{
    u128::from(h) << 64 | u128::from(l)
}

/// The upper word.
pub fn high_word(a: u128) -> u64
    ensures { result ≡ high a }
{
    (a >> 64) as u64
}

/// The lower word.
pub fn low_word(a: u128) -> u64
    ensures { result ≡ low a }
{
    (a % (1 << 64)) as u64
}

/// The sums of the four numbers of 32 bits, each modulo 2^32.
pub fn lanes32_add(a: u128, b: u128) -> u128
    ensures { result ≡ paddd a b }
{
    let [a0, a1, a2, a3] = lanes(a);
    let [b0, b1, b2, b3] = lanes(b);
    of_lanes([
        a0.wrapping_add(b0),
        a1.wrapping_add(b1),
        a2.wrapping_add(b2),
        a3.wrapping_add(b3),
    ])
}

/// The bytes of `a` that the low four bits of each byte of `c` pick, and 0 where that byte's highest bit is 1.
pub fn shuffle_bytes(a: u128, c: u128) -> u128
    ensures { result ≡ pshufb a c }
{
    let mut picked = bytes(c);
    for byte in &mut picked {
        *byte = picked_byte(a, *byte);
    }
    of_bytes(picked)
}

/// The numbers of 32 bits that each two bits of `n` pick.
pub fn shuffle_dwords(a: u128, n: u8) -> u128
    ensures { result ≡ pshufd a n }
{
    of_lanes([n, n >> 2, n >> 4, n >> 6].map(|pick| picked_lane(a, pick)))
}

/// Each number of 32 bits shifted to the left by bits; from 32 on nothing is left.
pub fn lanes32_left(a: u128, n: u8) -> u128
    ensures { result ≡ pslld a n }
{
    of_lanes(lanes(a).map(|x| lane_left(x, n)))
}

/// Each number of 32 bits shifted to the right by bits; from 32 on nothing is left.
pub fn lanes32_right(a: u128, n: u8) -> u128
    ensures { result ≡ psrld a n }
{
    of_lanes(lanes(a).map(|x| lane_right(x, n)))
}

/// The whole shifted to the left by bytes; from 16 on nothing is left.
pub fn bytes_left(a: u128, n: u8) -> u128
    ensures { result ≡ pslldq a n }
{
    if n < 16 { a << (8 * n) } else { 0 }
}

/// The whole shifted to the right by bytes; from 16 on nothing is left.
pub fn bytes_right(a: u128, n: u8) -> u128
    ensures { result ≡ psrldq a n }
{
    if n < 16 { a >> (8 * n) } else { 0 }
}

// The four numbers of 32 bits.
fn lanes(a: u128) -> [u32; 4]
    ensures { result ≡ map (lane a) lane_numbers }
{
    [
        low_lane(a),
        low_lane(a >> 32),
        low_lane(a >> 64),
        low_lane(a >> 96),
    ]
}

fn low_lane(a: u128) -> u32
    ensures { result ≡ a % 2 ^ 32 }
{
    (a % (1 << 32)) as u32
}

fn of_lanes(lanes: [u32; 4]) -> u128
    ensures { result ≡ of_digits (2 ^ 32) lanes }
{
    let [a, b, c, d] = lanes;
    u128::from(a) | u128::from(b) << 32 | u128::from(c) << 64 | u128::from(d) << 96
}

// The number of the place in the low two bits.
fn picked_lane(a: u128, n: u8) -> u32
    ensures { result ≡ lane a (n % 4) }
{
    lanes(a)[usize::from(n % 4)]
}

fn lane_left(x: u32, n: u8) -> u32
    ensures { result ≡ (x * 2 ^ n) % 2 ^ 32 }
{
    if n < 32 { x << n } else { 0 }
}

fn lane_right(x: u32, n: u8) -> u32
    ensures { result ≡ x / 2 ^ n }
{
    if n < 32 { x >> n } else { 0 }
}

// The sixteen bytes.
fn bytes(a: u128) -> [u8; 16]
    ensures { result ≡ map (byte a) byte_numbers }
{
    a.to_le_bytes()
}

fn of_bytes(bytes: [u8; 16]) -> u128
    ensures { result ≡ of_digits 256 bytes }
{
    u128::from_le_bytes(bytes)
}

// What one byte of the control picks.
fn picked_byte(a: u128, control: u8) -> u8
    ensures { result ≡ picked_byte a control }
{
    if control >= 128 {
        return 0;
    }
    let place = control % 16;
    ((a >> (8 * place)) % 256) as u8
}
