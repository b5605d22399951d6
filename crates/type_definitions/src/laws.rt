//! Laws of the definitions: each function's contract is one, and it does nothing.
ghost use Rattle.std.specs.Prelude.{◌≡◌, ℕ, List, ◌++◌, Some, take, length};
ghost use Rattle.sail_syntax.specs.declared.definitions.Def.{Def as Written};
ghost use Rattle.sail_kinds.specs.declared.scope.NamedType.{NamedType as Meant};
ghost use Rattle.type_definitions.specs.Defined.{types_of, all_type_failures, type_failures_behind};

/// A definition is read over those before it alone: behind further text each name keeps what it stands for, the
/// table only grows at its end, and the failures are those that there were, and then those of what came behind.
pub fn earlier_definitions_stay()
    ensures names { (text more : List Written) (name : List ℕ) (typ : Meant) → (types_of text).named name ≡ Some typ
        → (types_of (text ++ more)).named name ≡ Some typ }
    ensures table { (text more : List Written)
        → take (length (types_of text).table) (types_of (text ++ more)).table ≡ (types_of text).table }
    ensures failures { (text more : List Written)
        → all_type_failures (text ++ more) ≡ all_type_failures text ++ type_failures_behind (types_of text) more }
{}
