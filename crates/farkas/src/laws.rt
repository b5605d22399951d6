//! What a certificate is worth.
ghost use Rattle.std.specs.Prelude.{◌≡◌, ℕ, ℤ, List, Ok};
ghost use Rattle.linear.specs.declared.problem.Problem.{Problem};
ghost use Rattle.linear.specs.declared.row.Row.{Row};
ghost use Rattle.linear.specs.laws.Alternatives.{SomeTrue};
ghost use Rattle.linear.specs.laws.Entailment.{IsImplied};
ghost use Rattle.farkas.specs.declared.certificate.Case.{Case};
ghost use Rattle.farkas.specs.declared.certificate.Cert.{Cert};
ghost use Rattle.farkas.specs.declared.points.Point.{Point};
ghost use Rattle.farkas.specs.declared.verdict.Verdict.TheVariants.{Open};
ghost use Rattle.farkas.specs.Problems.{IsValid, discharged};
ghost use Rattle.farkas.specs.Shown.{IsOpenAt};
ghost use Rattle.farkas.specs.Validity.{AreValid};

/// A law: where a problem has a valid certificate, each assignment that makes its facts true makes its goal true. An assignment
/// gives each variable an integer, a Bool variable one that is 1 or more where it is true, and each power of two its power or, where
/// its exponent isn't from 0 to 126, any integer from 1 to 2^126.
pub fn a_valid_certificate_proves()
    ensures { (problem : Problem) (certificate : Cert) → IsValid problem certificate → IsImplied problem }
{}

/// A law: where cases have a valid certificate, no integers for the variables make all rows of any of them true.
pub fn a_valid_certificate_refutes()
    ensures { (value : ℕ → ℤ) (cases : List (List Row)) (certificates : List Case) → AreValid cases certificates → SomeTrue value cases → ⊥ }
{}

/// A law: where a problem is open at a point, all rows of its first case that doesn't close are true there.
pub fn an_open_point_makes_the_rows_true()
    ensures { (problem : Problem) (point : Point) → discharged problem ≡ Ok (Open point) → IsOpenAt problem point }
{}
