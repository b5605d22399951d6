//! What certificates of obligations are worth.
ghost use Rattle.std.specs.Prelude.{List};
ghost use Rattle.farkas.specs.declared.certificate.Cert.{Cert};
ghost use Rattle.obligations.specs.declared.obligation.Obligation.{Obligation};
ghost use Rattle.bidir_check.specs.Certification.{AreCertified};
ghost use Rattle.bidir_check.specs.laws.Holding.{AllHold};

/// A law: where obligations have valid certificates, each assignment that makes the facts of one of them true makes its goal true.
pub fn obligations_with_certificates_hold()
    ensures { (obligations : List Obligation) (certificates : List Cert) → AreCertified obligations certificates → AllHold obligations }
{}
