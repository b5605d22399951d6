//! Laws of what top-level names mean elsewhere: each function's contract is one, and it does nothing.
#![tactic(auto)]

ghost use Rattle.constant_laws.specs.Constants.{ConstantsMeanOneThing};
ghost use Rattle.constant_laws.specs.Own.{OwnTypesMeanNoLess};

/// Indices and readings that name no variable mean the same whatever variables stand for.
pub fn constants_mean_one_thing()
    ensures { ConstantsMeanOneThing }
{}

/// Where nothing stands for Type variables no more values have indices, or are of a type, than where something does; and a type that is one
/// and the same there for some integers is so here.
pub fn own_types_mean_no_less()
    ensures { OwnTypesMeanNoLess }
{}
