//! Codes that were accepted.

ghost use Rattle.std.specs.Prelude.{◌≡◌};
ghost use Rattle.bytecode_check.specs.Verdict.{Verdict};

use crate::checker::check_program;
use crate::shapes::PlaceShapes;
use crate::stops::VerifyStop;
use hog_ops::Code;
use std::alloc::Global;
use std::marker::Model;

/// A code that was accepted. Contracts see its operations.
#[derive(Drop)]
pub struct Verified<'c> {
    code: &'c Code,
}

impl<'c> Model for Verified<'c> {
    ghost use Rattle.hog_ops.specs.Plain.{Ops};
    ghost use Rattle.hog_ops.specs.Stored.{coded_ops};
    ghost use Rattle.bytecode_check.specs.Verify.{IsAccepted};

    ghost Value = { Ops };

    ghost coded = { coded_ops };

    ghost view = { λ v. v.code.now };

    ghost invariant = { λ v. IsAccepted v.code.now };
}

impl<'c> Verified<'c> {
    /// Takes no memory.
    pub fn code(&self) -> &'c Code
        ensures { result.now ≡ self.now }
    {
        self.code
    }
}

/// Takes a code through the pass: it is accepted, or the first refusal is answered.
pub fn verify(alloc: Global, code: &Code) -> Result<Verified<'_>, VerifyStop>
    ensures { Verdict result code.now }
{
    let mut shapes = PlaceShapes::new(alloc);
    check_program(code, &mut shapes)?;
    Ok(Verified { code })
}
