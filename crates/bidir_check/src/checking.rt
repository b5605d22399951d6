//! Obligations, one after the other.
ghost use Rattle.std.specs.Prelude.{◌≡◌, [], IfOk};
ghost use Rattle.bidir_check.specs.Certification.{AreCertified};
ghost use Rattle.bidir_check.specs.Checking.{checked, certified, first_of, IsMet};

use crate::certified::Certified;
use crate::error::CheckError;
use crate::settling::certificate_of;
use crate::standing::facts_before;
use entail::{Entail, Kept};
use farkas::Cert;
use obligations::Obligation;
use sail_base::Items;
use sail_core::CoreModel;
use std::alloc::Global;

/// The certificates of obligations, in order, asked of an entailment in which no fact stands, or why the first that isn't closed has
/// none.
fn certificates<E: Entail>(
    alloc: Global,
    entail: &mut E,
    obligations: &[Obligation],
) -> Result<Items<Cert>, CheckError>
    requires { E.facts entail.old ≡ [] }
    ensures answer { IsMet result (checked obligations.now) }
    ensures certified { IfOk result (AreCertified obligations.now) }
{
    let none = Items::new(alloc);
    let mut made = Items::new(alloc);
    for place in 0..obligations.len() {
        let standing = facts_before(none.as_slice(), obligations, place);
        let certificate = certificate_of(alloc, entail, standing, &obligations[place])?;
        made.push(certificate)?;
    }
    Ok(made)
}

/// A model with a certificate for each of these obligations, or the first of them that isn't closed: `Open` with a point, `Limit` where
/// elimination passes one. They are asked of an entailment in which no fact stands, and which is handed back; from one to the next the
/// facts that both begin with stay. Whichever entailment it is, the answer is that of [`check`].
pub fn check_with<E: Entail + Drop>(
    alloc: Global,
    core: CoreModel,
    obligations: Items<Obligation>,
    entail: E,
) -> Result<(Certified, E), CheckError>
    requires { E.facts entail ≡ [] }
    ensures { IsMet (first_of result) (certified core obligations) }
{
    let mut entail = entail;
    let made = certificates(alloc, &mut entail, obligations.as_slice())?;
    Ok((Certified::new(core, obligations, made), entail))
}

/// A model with a certificate for each of these obligations, or the first of them that isn't closed: `Open` with a point, `Limit` where
/// elimination passes one.
pub fn check(
    alloc: Global,
    core: CoreModel,
    obligations: Items<Obligation>,
) -> Result<Certified, CheckError>
    ensures { IsMet result (certified core obligations) }
{
    let entail = Kept::new(alloc)?;
    match check_with(alloc, core, obligations, entail) {
        Ok((certified, _)) => Ok(certified),
        Err(error) => Err(error),
    }
}
