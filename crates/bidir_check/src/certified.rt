//! A model whose obligations hold.
ghost use Rattle.std.specs.Prelude.{◌≡◌, ◌++◌, OnOk};
ghost use Rattle.bidir_check.specs.Certification.{AreCertified};
ghost use Rattle.bidir_check.specs.Printed.{certificates_text, counts_text};

use farkas::Cert;
use obligations::{Obligation, push_certificates};
use sail_base::Items;
use sail_core::CoreModel;
use sail_types::push_integer;
use std::alloc::AllocError;
use std::marker::Model;

/// A model, its obligations, and a valid certificate for each of them, in order.
#[derive(Drop)]
pub struct Certified {
    core: CoreModel,
    obligations: Items<Obligation>,
    certificates: Items<Cert>,
}

impl Model for Certified {
    ghost use Rattle.std.specs.Prelude.{◌≡◌};
    ghost use Rattle.std.specs.Coded.{codes};
    ghost use Rattle.sail_types.specs.contracts.numbers.Con as con;
    ghost use Rattle.sail_types.specs.contracts.numbers.Num as num;
    ghost use Rattle.sail_types.specs.contracts.types.Typ as typ;
    ghost use Rattle.sail_core.specs.contracts.patterns.Pattern as pattern;
    ghost use Rattle.sail_core.specs.contracts.tree.Core as tree;
    ghost use Rattle.bidir_check.specs.Certification.{Certification};

    ghost Value = { Certification };

    ghost coded = { Prim.hlevel (codes, con.the_row.coded, num.the_row.coded, typ.the_row.coded, pattern.the_row.coded, tree.the_row.coded) };

    ghost use Rattle.bidir_check.specs.Certification.{AreCertified};

    ghost view = { λ c. record { core = c.core; obligations = c.obligations; certificates = c.certificates } };

    ghost invariant = { λ c. AreCertified c.obligations c.certificates };
}

impl Certified {
    /// A model with these obligations and a valid certificate for each of them.
    pub fn new(
        core: CoreModel,
        obligations: Items<Obligation>,
        certificates: Items<Cert>,
    ) -> Certified
        requires { AreCertified obligations certificates }
        ensures { result ≡ record { core = core; obligations = obligations; certificates = certificates } }
    {
        Certified {
            core,
            obligations,
            certificates,
        }
    }

    /// The model. It takes no memory.
    pub fn into_core(self) -> CoreModel
        ensures { result ≡ self.core }
    {
        let Certified {
            core,
            obligations: _,
            certificates: _,
        } = self;
        core
    }

    /// The model, lent.
    pub fn core(&self) -> &CoreModel
        ensures { result.now ≡ self.now.core }
    {
        &self.core
    }

    /// The obligations, lent in order.
    pub fn obligations(&self) -> &[Obligation]
        ensures obligations { result.now ≡ self.now.obligations }
    {
        self.obligations.as_slice()
    }

    /// The certificates, lent in order: one for each obligation.
    pub fn certificates(&self) -> &[Cert]
        ensures certificates { result.now ≡ self.now.certificates }
        ensures valid { AreCertified self.now.obligations self.now.certificates }
    {
        self.certificates.as_slice()
    }

    /// Puts how many functions and obligations there are, a line without its end. The one error is want of memory.
    pub fn push_counts(&self, out: &mut Vec<u8>) -> Result<(), AllocError>
        ensures { OnOk result (out.new.items ≡ out.old.items ++ counts_text self.now) }
    {
        let functions = self.core.functions.len() as i128
            + (self.core.directions.len() / 2) as i128;
        out.extend_from_slice(b"accepted ")?;
        push_integer(out, functions)?;
        out.extend_from_slice(b" functions ")?;
        push_integer(out, self.obligations.len() as i128)?;
        out.extend_from_slice(b" obligations")
    }

    /// Puts each obligation with its certificate. The one error is want of memory.
    pub fn push_certificates(&self, out: &mut Vec<u8>) -> Result<(), AllocError>
        ensures { OnOk result (out.new.items ≡ out.old.items ++ certificates_text self.now) }
    {
        push_certificates(
            out,
            self.obligations.as_slice(),
            self.certificates.as_slice(),
        )
    }
}
