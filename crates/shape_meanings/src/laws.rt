//! Laws of the core that is found: each function's contract is one, and it does nothing.
ghost use Rattle.shape_meanings.specs.Choosing.{ValuesFill, ValuesShare, LearnsWhatThereIs, ChoicesAreTheSame};
ghost use Rattle.shape_meanings.specs.Forms.{LiteralsAreRight, NamesAreRight, BranchesAreRight, ShortIfsAreRight, AssertsAreRight, TypesAreRight};
ghost use Rattle.shape_meanings.specs.Forms.{ReturnsAreRight, ThrowsAreRight, ExitsAreRight, OverloadsAreRight, PrefixesAreRight, OperatorsAreRight};
ghost use Rattle.shape_meanings.specs.Forms.{LogicalsAreRight, CalleesAreRight};
ghost use Rattle.shape_meanings.specs.Forms.{TuplesAreRight, ListsAreRight, MatchesAreRight, BlocksAreRight, UnitBlocksAreRight, StepsAreRight, LetsAreRight};
ghost use Rattle.shape_meanings.specs.StepForms.{LetInsAreRight, VarInsAreRight, VarsAreRight, ForeachesAreRight};
ghost use Rattle.shape_meanings.specs.StepForms.{WhilesAreRight, RepeatsAreRight, TriesAreRight, VectorsAreRight};
ghost use Rattle.shape_meanings.specs.StepForms.{SizesAreRight, ConstraintsAreRight};
ghost use Rattle.shape_meanings.specs.PartForms.{PartsAreRight, UpdatesAreRight, WithsAreRight, StructsAreRight};
ghost use Rattle.shape_meanings.specs.PartForms.{VariableTargetsAreRight, RegisterTargetsAreRight, TupleTargetsAreRight, PartTargetsAreRight};
ghost use Rattle.shape_meanings.specs.PartForms.{AssignmentsAreRight, CallTargetsAreRight, OthersAreSettled};
ghost use Rattle.shape_meanings.specs.PatternForms.{LiteralPatternsAreRight, NegativePatternsAreRight, UnitPatternsAreRight, MemberPatternsAreRight};
ghost use Rattle.shape_meanings.specs.PatternForms.{NamePatternsAreRight, AsPatternsAreRight, TypedPatternsAreRight, TuplePatternsAreRight};
ghost use Rattle.shape_meanings.specs.PatternForms.{VectorPatternsAreRight, ListPatternsAreRight, ConsPatternsAreRight};
ghost use Rattle.shape_meanings.specs.CallForms.{RowsAreRight, ConversionsAreRight, MappingsAreRight};
ghost use Rattle.shape_meanings.specs.PatternForms.{ConstructorPatternsAreRight, DirectionPatternsAreRight, MappingPatternsAreRight, WordPatternsAreRight};
ghost use Rattle.shape_meanings.specs.Matching.{PatternsAreSound};
ghost use Rattle.shape_meanings.specs.PatternForms.{PatternsAreRight};
ghost use Rattle.shape_meanings.specs.Sound.{ElaborationIsSound};

/// A value of a shape is one of the shape with its open parts filled, and shapes that one value has may share values. Where some
/// shapes in the place of a callee's variables make its parameters those of the arguments, the variables can be learnt.
pub fn values_have_shapes()
    ensures fill { ValuesFill }
    ensures share { ValuesShare }
    ensures learn { LearnsWhatThereIs }
{}

/// The member of an overload that is chosen by the shapes of the arguments is the one that their values choose, where no two
/// members clash.
pub fn choices_are_the_same()
    ensures { ChoicesAreTheSame }
{}

/// Literals, names of values and branches mean in the core what they mean as they are written, and give values of the shapes that
/// are found of them, where their parts do.
pub fn simple_forms_are_right()
    ensures literals { LiteralsAreRight }
    ensures names { NamesAreRight }
    ensures branches { BranchesAreRight }
{}

/// So do tests, annotated expressions, and what leaves its place.
pub fn tests_are_right()
    ensures short { ShortIfsAreRight }
    ensures asserts { AssertsAreRight }
    ensures types { TypesAreRight }
    ensures returns { ReturnsAreRight }
    ensures throws { ThrowsAreRight }
    ensures exits { ExitsAreRight }
{}

/// So do calls of overloads, operators, and calls of a function, a constructor, a builtin or a mapping.
pub fn calls_are_right()
    ensures overloads { OverloadsAreRight }
    ensures prefixes { PrefixesAreRight }
    ensures operators { OperatorsAreRight }
    ensures logicals { LogicalsAreRight }
    ensures callees { CalleesAreRight }
    ensures rows { RowsAreRight }
    ensures conversions { ConversionsAreRight }
    ensures mappings { MappingsAreRight }
{}

/// So do tuples, lists, cases and blocks.
pub fn blocks_are_right()
    ensures tuples { TuplesAreRight }
    ensures lists { ListsAreRight }
    ensures matches { MatchesAreRight }
    ensures blocks { BlocksAreRight }
    ensures units { UnitBlocksAreRight }
    ensures steps { StepsAreRight }
    ensures lets { LetsAreRight }
{}

/// So do names that are bound, loops, and `try`; vectors, and what is asked of types.
pub fn steps_are_right()
    ensures lets { LetInsAreRight }
    ensures variables { VarInsAreRight }
    ensures declared { VarsAreRight }
    ensures foreaches { ForeachesAreRight }
    ensures whiles { WhilesAreRight }
    ensures repeats { RepeatsAreRight }
    ensures tries { TriesAreRight }
    ensures vectors { VectorsAreRight }
    ensures sizes { SizesAreRight }
    ensures constraints { ConstraintsAreRight }
{}

/// So do parts of values, values with another part, and structs.
pub fn parts_are_right()
    ensures parts { PartsAreRight }
    ensures updates { UpdatesAreRight }
    ensures withs { WithsAreRight }
    ensures structs { StructsAreRight }
{}

/// So do assignments to variables of settled shapes, to registers, to tuples and to parts of such, and `f(a) = e`. A variable's
/// shape is settled where the shape that is found of its first value leaves nothing open.
pub fn assignments_are_right()
    ensures variables { VariableTargetsAreRight }
    ensures registers { RegisterTargetsAreRight }
    ensures tuples { TupleTargetsAreRight }
    ensures parts { PartTargetsAreRight }
    ensures assignments { AssignmentsAreRight }
    ensures calls { CallTargetsAreRight }
    ensures settled { OthersAreSettled }
{}

/// Patterns do in the core what they do as they are written, and bind the names that are found, each to a value of its shape: each
/// form where its parts do, and so all.
pub fn patterns_are_right()
    ensures literals { LiteralPatternsAreRight }
    ensures negatives { NegativePatternsAreRight }
    ensures units { UnitPatternsAreRight }
    ensures members { MemberPatternsAreRight }
    ensures names { NamePatternsAreRight }
    ensures others { AsPatternsAreRight }
    ensures types { TypedPatternsAreRight }
    ensures tuples { TuplePatternsAreRight }
    ensures vectors { VectorPatternsAreRight }
    ensures lists { ListPatternsAreRight }
    ensures conses { ConsPatternsAreRight }
    ensures constructors { ConstructorPatternsAreRight }
    ensures directions { DirectionPatternsAreRight }
    ensures mappings { MappingPatternsAreRight }
    ensures words { WordPatternsAreRight }
    ensures all { PatternsAreSound }
    ensures once { PatternsAreRight }
{}

/// And so do all expressions, as the grammar has them.
pub fn expressions_are_right()
    ensures { ElaborationIsSound }
{}
