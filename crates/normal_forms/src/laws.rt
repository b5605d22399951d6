//! A law of the definitions: the function's contract is the law, and it does nothing.
ghost use Rattle.std.specs.Prelude.{◌≡◌, Some};
ghost use Rattle.sail_syntax.specs.declared.types.TyExp.{TyExp as Text};
ghost use Rattle.sail_types.specs.Numbers.{Assignment, number, true_in};
ghost use Rattle.sail_types.specs.declared.numbers.Con.{Con as Constraint};
ghost use Rattle.sail_types.specs.declared.numbers.Num.{Num as Number};
ghost use Rattle.type_arguments.specs.declared.normal.Normal.TheVariants as meant;
ghost use Rattle.sail_kinds.specs.Normal.{reading};
ghost use Rattle.sail_kinds.specs.Scopes.{Within as Around};
ghost use Rattle.normal_forms.specs.laws.Amounts.{amount, integer, truth};

/// The normal form of a number is, under every assignment, the integer that its text is, and that of a constraint is
/// true where its text is.
pub fn normal_forms_keep_numbers()
    ensures number { (text : Text) (around : Around) (nu : Assignment) (n : Number)
        → (reading text around).normal ≡ Some (meant.Number n) → amount text around nu ≡ Some (integer (number nu n)) }
    ensures truth { (text : Text) (around : Around) (nu : Assignment) (c : Constraint)
        → (reading text around).normal ≡ Some (meant.Constraint c) → amount text around nu ≡ Some (truth (true_in nu c)) }
{}
