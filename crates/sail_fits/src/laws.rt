//! Laws of the definitions: each function's contract is one, and it does nothing.
ghost use Rattle.std.specs.Prelude.{◌≡◌, IsTrue, Some, []};
ghost use Rattle.sail_types.specs.Belongs.{Reading, Readings, assigned, belongs, no_readings, reading};
ghost use Rattle.sail_types.specs.Numbers.{Assignment};
ghost use Rattle.sail_types.specs.Shapes.{fits, shape};
ghost use Rattle.sail_types.specs.Zero.{zero_of};
ghost use Rattle.sail_types.specs.declared.numbers.Num.{Num as Number};
ghost use Rattle.sail_types.specs.declared.table.Types.{Types as Table};
ghost use Rattle.sail_types.specs.declared.types.Typ.{Typ as Written};
ghost use Rattle.sail_types.specs.declared.values.Value.{Value as Held};
ghost use Rattle.sail_fits.specs.laws.ReadShapes.{read_shape};

/// A value that belongs to a type has the type's shape, with what its Type variables stand for in their places, and with the
/// variables, which fit all.
pub fn what_belongs_fits()
    ensures filled { (types : Table) (value : Held) (r : Reading) → IsTrue (belongs types value r) → IsTrue (fits types value (read_shape r)) }
    ensures plain { (types : Table) (value : Held) (typ : Written) (nu : Assignment) (rs : Readings) → IsTrue (belongs types value (reading typ nu rs))
        → IsTrue (fits types value (shape typ)) }
{}

/// The zero of a type without variables, where it has one, belongs to the type, under an assignment that gives one number
/// to all powers that aren't fixed: in a width such powers may cancel.
pub fn zeros_belong_to_their_types()
    ensures { (types : Table) (typ : Written) (value : Held) (nu : Assignment) → ((n m : Number) → nu.beyond n ≡ nu.beyond m) → zero_of types typ ≡ Some value
        → IsTrue (belongs types value (reading typ (assigned nu []) no_readings)) }
{}
