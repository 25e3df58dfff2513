// The command `build`, as far as the text that is to be written.

ghost use Rattle.std.specs.Prelude.{◌≡◌, ℕ, true, List, ◌≤◌, ◌<◌, ◌^◌, length, IsTrue, IfOk, IfErr, IfSome, OnOk};
ghost use Rattle.std.specs.List.{AllByRecursion, list_all};
ghost use Rattle.vale_outside.specs.Outside.{Rose};
ghost use Rattle.straight_line.specs.inner.Fits.{IsStraight};
ghost use Rattle.vale_driver.specs.Certificate.{Pair, Proves};
ghost use Rattle.vale_driver.specs.Ring.{ring_closes};
ghost use Rattle.vale_driver.specs.inner.ConditionTerms.{is_built};
ghost use Rattle.gas_text.specs.Gas.{gas_text};
ghost use Rattle.vale_driver.specs.Build.{condition_hyps, condition_goal, lowered_code};
ghost use Rattle.vale_driver.specs.Words.{texts};
ghost use Rattle.vale_driver.specs.inner.Phases.{build_of};
ghost use Rattle.vale_driver.specs.Builds.{IsBuilt, BuildRefused};
ghost use Rattle.vale_driver.specs.inner.Stops.{StopsBy, FileHolds, CertificateRefusal, StepRefusal};

use crate::cause::{Cause, refusal_of};
use crate::certificate::{CertificateFault, Pair, read_certificate};
use crate::code::items_of;
use crate::condition::condition;
use crate::ring::ring_closes;
use crate::sources::read_sources;
use crate::stop::{Stop, fetch};
use crate::words::BuildWords;
use gas_text::print;
use std::alloc::{AllocError, Global};
use straight_line::StraightLine;
use vale_outside::Store;

/// The most bytes of a certificate.
const CERTIFICATE_LIMIT: usize = 67108864;

// The steps of a certificate for a procedure of this name.
fn certificate_file<S: Store>(
    alloc: Global,
    store: &mut S,
    cert: &str,
    name: &[u8],
) -> Result<Vec<Pair>, Stop>
    requires { IsTrue (S.may_ask store.old cert.now) }
    ensures found { IfOk result (λ v. FileHolds (S.tells store.old cert.now) (λ c. Proves c name.now v.items)) }
    ensures stops { IfErr result (StopsBy (CertificateRefusal (S.tells store.old cert.now) cert.now name.now) (Rose (S.faults store.old) (S.faults store.new))) }
    ensures count { S.faults store.old ≤ S.faults store.new }
{
    let Some(bytes) = fetch(alloc, store, cert, CERTIFICATE_LIMIT)? else {
        let refusal = refusal_of(alloc, Cause::NoCertificate(cert))?;
        return Err(Stop::Refused(refusal));
    };
    match read_certificate(alloc, name, &bytes) {
        Ok(steps) => Ok(steps),
        Err(CertificateFault::NotOfForm) => {
            let refusal = refusal_of(alloc, Cause::NoCertificate(cert))?;
            Err(Stop::Refused(refusal))
        }
        Err(CertificateFault::NoMemory) => Err(Stop::NoMemory),
    }
}

// Whether the steps close the procedure's condition.
fn closes(alloc: Global, program: &StraightLine, steps: &[Pair]) -> Result<bool, AllocError>
    requires few { length program.now.instructions < 2 ^ 63 }
    requires built { list_all is_built program.now.instructions ≡ true }
    ensures { IfOk result (λ yes. yes ≡ ring_closes (condition_hyps program.now) (condition_goal program.now) steps.now) }
{
    let sequent = condition(alloc, program)?;
    ring_closes(alloc, sequent.hyps.as_slice(), &sequent.goal, steps)
}

// Refuses steps that don't close the procedure's condition.
fn check(alloc: Global, cert: &str, program: &StraightLine, steps: &[Pair]) -> Result<(), Stop>
    requires few { length program.now.instructions < 2 ^ 63 }
    requires built { list_all is_built program.now.instructions ≡ true }
    ensures closed { OnOk result (ring_closes (condition_hyps program.now) (condition_goal program.now) steps.now ≡ true) }
    ensures stops { IfErr result (StopsBy (StepRefusal program.now steps.now cert.now) ⊥) }
{
    if closes(alloc, program, steps)? {
        return Ok(());
    }
    let cause = Cause::NoStep(cert, program.name.as_bytes());
    Err(Stop::Refused(refusal_of(alloc, cause)?))
}

// The text of the procedure's export.
fn text_of(alloc: Global, program: &StraightLine) -> Result<Vec<u8>, AllocError>
    requires { IsStraight program.now }
    ensures { IfOk result (λ text. text.items ≡ gas_text (lowered_code program.now)) }
{
    let items = items_of(alloc, program)?;
    print(alloc, &items)
}

/// The text that a build writes.
pub(crate) fn build<S: Store>(
    alloc: Global,
    store: &mut S,
    words: BuildWords<'_>,
) -> Result<Vec<u8>, Stop>
    requires few { length words.files.now ≤ 16 }
    requires cert { IsTrue (S.may_ask store.old words.cert.now) }
    requires files { AllByRecursion (λ f. IsTrue (S.may_ask store.old f)) (texts words.files.now) }
    ensures built { IfOk result (λ text. IsBuilt (S.tells store.old) (build_of words.entry) text.items) }
    ensures stops { IfErr result (StopsBy (BuildRefused (S.tells store.old) (build_of words.entry)) (Rose (S.faults store.old) (S.faults store.new))) }
    ensures count { S.faults store.old ≤ S.faults store.new }
{
    let program = read_sources(alloc, store, words.files)?;
    let steps = certificate_file(alloc, store, words.cert, program.name.as_bytes())?;
    check(alloc, words.cert, &program, &steps)?;
    Ok(text_of(alloc, &program)?)
}
