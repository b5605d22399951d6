//! Laws of the definitions: each function's contract is one, and it does nothing.
ghost use Rattle.std.specs.Prelude.{◌≡◌, false, IsTrue, ℕ, ℤ, List, Some};
ghost use Rattle.sail_types.specs.Belongs.{Readings, assigned, belongs, reading, under};
ghost use Rattle.sail_types.specs.Numbers.{Assignment, number, true_in};
ghost use Rattle.sail_types.specs.Readings.{read_con};
ghost use Rattle.sail_types.specs.Sums.{read};
ghost use Rattle.sail_types.specs.declared.numbers.Con.{Con as Constraint};
ghost use Rattle.sail_types.specs.declared.numbers.Index.{Index as Argument};
ghost use Rattle.sail_types.specs.declared.numbers.Num.{Num as Number};
ghost use Rattle.sail_types.specs.declared.table.Types.{Types as Table};
ghost use Rattle.sail_types.specs.declared.types.Typ.TheVariants as typ;
ghost use Rattle.sail_types.specs.declared.values.Value.{Value as Held};
ghost use Rattle.type_arguments.specs.Applied.{inside_indices};
ghost use Rattle.type_arguments.specs.Moved.{moved_con, moved_num};
ghost use Rattle.type_arguments.specs.Ranges.{is_empty_range, is_negative};
ghost use Rattle.type_arguments.specs.laws.Outside.{outside};
ghost use Rattle.type_arguments.specs.laws.Steady.{IsSteady};

/// With arguments in the place of its variables a number is, and a constraint is true, under an assignment as they
/// were under that which gives each variable what its argument is.
pub fn arguments_keep_meaning()
    ensures number { (arguments : List Argument) (nu : Assignment) (n m : Number) → read arguments n ≡ Some m
        → number nu m ≡ number (assigned nu arguments) n }
    ensures truth { (arguments : List Argument) (nu : Assignment) (c d : Constraint) → read_con arguments c ≡ Some d
        → true_in nu d ≡ true_in (assigned nu arguments) c }
{}

/// One binder further in a number is, and a constraint is true, under an assignment as they were outside of the
/// binder.
pub fn moves_keep_meaning()
    ensures number { (depth : ℕ) (nu : Assignment) (n m : Number) → moved_num depth n ≡ Some m
        → number nu m ≡ number (outside depth nu) n }
    ensures truth { (depth : ℕ) (nu : Assignment) (c d : Constraint) → moved_con depth c ≡ Some d
        → true_in nu d ≡ true_in (outside depth nu) c }
{}

/// Inside an existential type, with arguments in the place of its variables a number is, and a constraint is true, as
/// they were where the type's own variable stands for the same integer and each other for what its argument is outside:
/// no argument is captured. This is under an assignment that gives one number to all powers that aren't fixed.
pub fn binders_capture_nothing()
    ensures number { (nu : Assignment) → IsSteady nu → (z : ℤ) (arguments inside : List Argument) (n m : Number)
        → inside_indices arguments ≡ Some inside → read inside n ≡ Some m
        → number (under z nu) m ≡ number (under z (assigned nu arguments)) n }
    ensures truth { (nu : Assignment) → IsSteady nu → (z : ℤ) (arguments inside : List Argument) (c d : Constraint)
        → inside_indices arguments ≡ Some inside → read_con inside c ≡ Some d
        → true_in (under z nu) d ≡ true_in (under z (assigned nu arguments)) c }
{}

/// Nothing belongs to bits with a negative constant width, or to a range with constant ends the second below the
/// first, under any assignment.
pub fn void_types_are_empty()
    ensures bits { (types : Table) (value : Held) (nu : Assignment) (rs : Readings) (width : Number) → IsTrue (is_negative width)
        → belongs types value (reading (typ.Bits width) nu rs) ≡ false }
    ensures range { (types : Table) (value : Held) (nu : Assignment) (rs : Readings) (low high : Number)
        → IsTrue (is_empty_range low high) → belongs types value (reading (typ.Range low high) nu rs) ≡ false }
{}
