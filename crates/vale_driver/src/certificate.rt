// The certificate, read byte by byte: one section with one `ring` step.

ghost use Rattle.std.specs.Prelude.{◌≡◌, ◌≤◌, List, length, IfOk};
ghost use Rattle.std.specs.Option.{option_copied, option_map};
ghost use Rattle.vale_driver.specs.inner.CertificateFront.{pair_at, more_at, with_pairs, begins_pair, pairs_at, opening_at, certificate_at, ends, Reads};
ghost use Rattle.vale_driver.specs.Limits.{certificate_limit};
ghost use Rattle.vale_driver.specs.Certificate.{Pair, Proves};

use crate::reading::{after, number};
use std::alloc::{AllocError, AllocFailed, Global};

/// The highest number that a hypothesis of a source can have: the last of 4,096 statements with five each.
const HYPOTHESIS_LIMIT: u64 = 20479;

/// Why a text gives no pairs.
#[derive(Debug, Drop)]
pub(crate) enum CertificateFault {
    /// It isn't of the form.
    NotOfForm,
    NoMemory,
}

impl From<AllocError> for CertificateFault {
    ghost use Rattle.std.specs.Prelude.{◌≡◌};
    ghost use Rattle.vale_driver.specs.declared.certificate.CertificateFault.TheVariants.{NoMemory};

    ghost from_gives = { λ _ e. e ≡ NoMemory };

    fn from(_fault: AllocError) -> Self {
        CertificateFault::NoMemory
    }
}

impl<T: Drop> From<AllocFailed<T>> for CertificateFault {
    ghost use Rattle.std.specs.Prelude.{◌≡◌};
    ghost use Rattle.vale_driver.specs.declared.certificate.CertificateFault.TheVariants.{NoMemory};

    ghost from_gives = { λ _ e. e ≡ NoMemory };

    fn from(_fault: AllocFailed<T>) -> Self {
        CertificateFault::NoMemory
    }
}

/// A hypothesis's number, and the factor that it counts with.
pub(crate) type Pair = (usize, u64);

/// The pairs of the certificate for a procedure of this name, which are read exactly where the text is of the form. The
/// text's length is the caller's concern.
pub(crate) fn read_certificate(
    alloc: Global,
    name: &[u8],
    bytes: &[u8],
) -> Result<Vec<Pair>, CertificateFault>
    ensures found { IfOk result (λ v. length bytes.now ≤ certificate_limit → Proves bytes.now name.now v.items) }
    ensures refused { result ≡ Err CertificateFault.NotOfForm → (ps : List Pair) → Proves bytes.now name.now ps → ⊥ }
{
    pairs_of(alloc, name, bytes)
}

#[tactic(auto, unfolding(crate::specs::inner::CertificateFront::certificate_at))]
fn pairs_of(alloc: Global, name: &[u8], bytes: &[u8]) -> Result<Vec<Pair>, CertificateFault>
    ensures { Reads (λ v. v.items) (certificate_at name.now bytes.now) result }
{
    let Some(rest) = opening(name, bytes) else {
        return Err(CertificateFault::NotOfForm);
    };
    let (pairs, rest) = read_pairs(alloc, rest)?;
    let Some(rest) = after(rest, b"]]") else {
        return Err(CertificateFault::NotOfForm);
    };
    if is_end(rest) {
        Ok(pairs)
    } else {
        Err(CertificateFault::NotOfForm)
    }
}

#[tactic(auto, unfolding(crate::specs::inner::CertificateFront::opening_at))]
fn opening<'a>(name: &[u8], bytes: &'a [u8]) -> Option<&'a [u8]>
    ensures { option_copied result ≡ opening_at name.now bytes.now }
{
    let rest = after(bytes, b"{\"condition\":\"")?;
    let rest = after(rest, name)?;
    after(rest, b"()#0\"}\n[\"ring\",[")
}

#[tactic(auto, unfolding(crate::specs::inner::CertificateFront::pairs_at))]
fn read_pairs(alloc: Global, bytes: &[u8]) -> Result<(Vec<Pair>, &[u8]), CertificateFault>
    ensures { Reads (λ x. (x.0.items, x.1.now)) (pairs_at bytes.now) result }
{
    let mut pairs = Vec::new(alloc);
    if !begins_pair(bytes) {
        return Ok((pairs, bytes));
    }
    let Some((first, rest)) = pair(bytes) else {
        return Err(CertificateFault::NotOfForm);
    };
    pairs.push(first)?;
    more_pairs(pairs, rest)
}

// Further pairs, each behind a comma.
fn more_pairs(first: Vec<Pair>, bytes: &[u8]) -> Result<(Vec<Pair>, &[u8]), CertificateFault>
    ensures { Reads (λ x. (x.0.items, x.1.now)) (with_pairs first.items (more_at (length bytes.now) bytes.now)) result }
{
    let mut pairs = first;
    let mut rest = bytes;
    for _ in 0..bytes.len() {
        let Some(behind) = after(rest, b",") else {
            return Ok((pairs, rest));
        };
        let Some((next, behind)) = pair(behind) else {
            return Err(CertificateFault::NotOfForm);
        };
        pairs.push(next)?;
        rest = behind;
    }
    Ok((pairs, rest))
}

fn begins_pair(bytes: &[u8]) -> bool
    ensures { result ≡ begins_pair bytes.now }
{
    match bytes {
        [] => false,
        [first, ..] => *first == b'[',
    }
}

#[tactic(auto, unfolding(crate::specs::inner::CertificateFront::pair_at))]
fn pair(bytes: &[u8]) -> Option<(Pair, &[u8])>
    ensures { option_map (λ x. (x.0, x.1.now)) result ≡ pair_at bytes.now }
{
    let rest = after(bytes, b"[")?;
    let (hypothesis, rest) = number(rest)?;
    let rest = after(rest, b",")?;
    let (factor, rest) = number(rest)?;
    let rest = after(rest, b"]")?;
    if hypothesis <= HYPOTHESIS_LIMIT {
        Some(((hypothesis as usize, factor), rest))
    } else {
        None
    }
}

// Whether nothing is left but a newline that may lack.
fn is_end(bytes: &[u8]) -> bool
    ensures { result ≡ ends bytes.now }
{
    match bytes {
        [] => true,
        [only] => *only == b'\n',
        _ => false,
    }
}
