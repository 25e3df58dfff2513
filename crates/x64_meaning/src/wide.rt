// What instructions compute in xmm registers.

ghost use Rattle.std.specs.Prelude.{◌≡◌, ◌%◌};
ghost use Rattle.aes_words.specs.Rounds.{clmul};
ghost use Rattle.term_core.specs.Value.{T128};
ghost use Rattle.x64_meaning.specs.inner.Steps.{sums, combined, shifted, inserted, extracted, wide_effect};

use crate::machine::Machine;
use aes_words::{aes_last, aes_round, clmul64};
use word_ops::{
    bytes_left, bytes_right, high_word, lanes32_add, lanes32_left, lanes32_right, low_word,
    pair_words, shuffle_bytes, shuffle_dwords,
};
use x64_syntax::{Ins, XBinOp, XShiftOp};

// The sums of the words, each modulo 2^64.
fn sums(a: u128, s: u128) -> u128
    ensures { result ≡ sums a s }
{
    let high = high_word(a).wrapping_add(high_word(s));
    let low = low_word(a).wrapping_add(low_word(s));
    pair_words(high, low)
}

fn combined(op: XBinOp, a: u128, s: u128) -> u128
    ensures { result ≡ combined op a s }
{
    match op {
        XBinOp::Pxor => a ^ s,
        XBinOp::Pand => a & s,
        XBinOp::Por => a | s,
        XBinOp::Paddd => lanes32_add(a, s),
        XBinOp::Pshufb => shuffle_bytes(a, s),
        XBinOp::Paddq => sums(a, s),
        XBinOp::Punpcklqdq => pair_words(low_word(s), low_word(a)),
        XBinOp::Punpckhqdq => pair_words(high_word(s), high_word(a)),
        XBinOp::Aesenc => aes_round(a, s),
        XBinOp::Aesenclast => aes_last(a, s),
    }
}

fn shifted(op: XShiftOp, a: u128, n: u8) -> u128
    ensures { result ≡ shifted op a n }
{
    match op {
        XShiftOp::Pslld => lanes32_left(a, n),
        XShiftOp::Psrld => lanes32_right(a, n),
        XShiftOp::Pslldq => bytes_left(a, n),
        XShiftOp::Psrldq => bytes_right(a, n),
    }
}

// The words with a word in place of the lower one, or of the upper one.
fn inserted(n: u8, a: u128, word: u64) -> u128
    ensures { result ≡ inserted n a word }
{
    match n {
        0 => pair_words(high_word(a), word),
        _ => pair_words(word, low_word(a)),
    }
}

fn extracted(n: u8, a: u128) -> u64
    ensures { result ≡ extracted n a }
{
    match n {
        0 => low_word(a),
        _ => high_word(a),
    }
}

// The product without carries of the words that bits 0 and 4 of a number choose.
fn product(a: u128, s: u128, n: u8) -> u128
    ensures { result ≡ clmul a s n % T128 }
{
    clmul64(extracted(n % 2, a), extracted(n / 16 % 2, s))
}

/// Computes what an instruction on xmm registers leaves, memory aside; any other one leaves all as it is.
pub(crate) fn compute_wide(m: &mut Machine, ins: &Ins)
    ensures { m.new ≡ wide_effect ins.now m.old }
{
    match ins {
        Ins::XMov { d, s } => m.xmms[d.number()] = m.xmms[s.number()],
        Ins::XBin { op, d, s } => {
            m.xmms[d.number()] = combined(*op, m.xmms[d.number()], m.xmms[s.number()]);
        }
        Ins::XShuf { d, s, n } => m.xmms[d.number()] = shuffle_dwords(m.xmms[s.number()], *n),
        Ins::XShift { op, d, n } => {
            m.xmms[d.number()] = shifted(*op, m.xmms[d.number()], *n);
        }
        Ins::XIns { d, s, n } => {
            m.xmms[d.number()] = inserted(*n, m.xmms[d.number()], m.regs[s.number()]);
        }
        Ins::XExt { d, s, n } => m.regs[d.number()] = extracted(*n, m.xmms[s.number()]),
        Ins::XMovq { d, s } => m.xmms[d.number()] = pair_words(0, m.regs[s.number()]),
        Ins::XClmul { d, s, n } => {
            m.xmms[d.number()] = product(m.xmms[d.number()], m.xmms[s.number()], *n);
        }
        _ => {}
    }
}
