//! Laws of values made of parts, and of calls: each function's contract is one, and it does nothing.
ghost use Rattle.soundness_values.specs.Laws.{
  BuiltinsAreFine,
  ConstructorsAreFine,
  FunctionsAreFine,
  ListsAreFine,
  MappingsAreFine,
  StructsAreFine,
  TuplesAreFine,
};

/// A tuple ends well beside its walk, where its parts do.
pub fn tuples_are_fine()
    ensures { TuplesAreFine }
{}

/// So do lists, vectors and `a :: b`.
pub fn lists_are_fine()
    ensures { ListsAreFine }
{}

/// So does a call of a builtin.
pub fn builtins_are_fine()
    ensures { BuiltinsAreFine }
{}

/// So does a call of a mapping.
pub fn mappings_are_fine()
    ensures { MappingsAreFine }
{}

/// So does a call of a function.
pub fn functions_are_fine()
    ensures { FunctionsAreFine }
{}

/// So does a struct.
pub fn structs_are_fine()
    ensures { StructsAreFine }
{}

/// So does a constructor.
pub fn constructors_are_fine()
    ensures { ConstructorsAreFine }
{}
