//! Rounds of AES. A state is a word as its 16 bytes, the lowest first: byte `row + 4 * column` is a cell.

ghost use Rattle.std.specs.Prelude.{◌≡◌, ◌<◌};
ghost use Rattle.aes_words.specs.Polynomials.{times};
ghost use Rattle.aes_words.specs.Rounds.{of_digits, cell, shift_rows, sub_bytes, mixed, mix_columns, aesenc, aesenclast};

use crate::s_box::sub_byte;

/// Twice a byte in GF(2^8).
fn double(y: u8) -> u8
    ensures { result ≡ times 2 y }
{
    if y < 128 { y << 1 } else { (y << 1) ^ 0x1b }
}

/// Three times a byte in GF(2^8).
fn triple(y: u8) -> u8
    ensures { result ≡ times 3 y }
{
    double(y) ^ y
}

fn cell(state: &[u8; 16], row: usize, column: usize) -> u8
    requires row_in { row < 4 }
    requires column_in { column < 4 }
    ensures { result ≡ cell (of_digits 256 state.now) row column }
{
    state[row + 4 * column]
}

fn shift_rows(state: &[u8; 16]) -> [u8; 16]
    ensures { of_digits 256 result ≡ shift_rows (of_digits 256 state.now) }
{
    let mut shifted = [0; 16];
    for k in 0..16 {
        let (row, column) = (k % 4, k / 4);
        shifted[k] = cell(state, row, (column + row) % 4);
    }
    shifted
}

fn sub_bytes(state: &[u8; 16]) -> [u8; 16]
    ensures { of_digits 256 result ≡ sub_bytes (of_digits 256 state.now) }
{
    let mut replaced = [0; 16];
    for k in 0..16 {
        replaced[k] = sub_byte(state[k]);
    }
    replaced
}

/// A cell of the state with its columns mixed.
fn mixed(state: &[u8; 16], row: usize, column: usize) -> u8
    requires row_in { row < 4 }
    requires column_in { column < 4 }
    ensures { result ≡ mixed (of_digits 256 state.now) row column }
{
    let twice = double(cell(state, row, column));
    let thrice = triple(cell(state, (row + 1) % 4, column));
    let second = cell(state, (row + 2) % 4, column);
    let third = cell(state, (row + 3) % 4, column);
    (twice ^ thrice) ^ (second ^ third)
}

fn mix_columns(state: &[u8; 16]) -> [u8; 16]
    ensures { of_digits 256 result ≡ mix_columns (of_digits 256 state.now) }
{
    let mut columns = [0; 16];
    for k in 0..16 {
        columns[k] = mixed(state, k % 4, k / 4);
    }
    columns
}

/// A round of AES: ShiftRows, SubBytes and MixColumns of the state, and the round key added.
pub fn aes_round(a: u128, k: u128) -> u128
    ensures { result ≡ aesenc a k }
{
    let replaced = sub_bytes(&shift_rows(&a.to_le_bytes()));
    let columns = mix_columns(&replaced);
    u128::from_le_bytes(columns) ^ k
}

/// The last round of AES, which leaves MixColumns out.
pub fn aes_last(a: u128, k: u128) -> u128
    ensures { result ≡ aesenclast a k }
{
    let replaced = sub_bytes(&shift_rows(&a.to_le_bytes()));
    u128::from_le_bytes(replaced) ^ k
}
