//! The code of functions.
ghost use Rattle.std.specs.Prelude.{◌≡◌, [], ◌∷◌, ◌++◌, map, true, IfOk, OnOk};
ghost use Rattle.std.specs.Option.{option_copied};
ghost use Rattle.jib.specs.declared.code.Instruction.TheVariants as code;
ghost use Rattle.lowered_slots.specs.declared.slots.Place.TheVariants as place;
ghost use Rattle.lowered_pieces.specs.Emitted.{Emits, no_labels};
ghost use Rattle.lowered_pieces.specs.Forms.{code_of, count_of};
ghost use Rattle.lowered_pieces.specs.Functions.{all_in, answer_code, ends_code, measure_of, measure_stand};
ghost use Rattle.lowered_steps.specs.Setting.{kit_for};
ghost use Rattle.lowered_nodes.specs.Around.{node_for, piece_for};
ghost use Rattle.lowered_pieces.specs.Places.{Naming, from};
ghost use Rattle.lowered_functions.specs.Made as spec;
ghost use Rattle.lowered_functions.specs.Made.{given_slots, CodeMade, called_for, event_for, first_slots, mapping_for, result_for};

use lowered_nodes::{Walk, put_node, put_optional};
use lowered_pieces::Coding;
use lowered_slots::{Place, Slot};
use lowered_steps::{Levels, Making, Scope, Setting, Stand, Tail, further, put_made};
use model_state::Cause;
use sail_base::{Items, Place as TextPlace};
use sail_core::{Core, Function};
use sail_types::Typ;
use size_values::Sized;
use std::alloc::{AllocError, Global};

/// The label for what is thrown.
pub const THROWN: u32 = 0;
/// The label for No.
pub const NOT_TAKEN: u32 = 1;
/// The label where no pattern of the measure matches.
const NO_MEASURE: u32 = 2;
/// How many labels a function has of its own.
const OWN_LABELS: u32 = 3;

/// The slots of a function that is called with values of these types. They fail where memory is wanting.
pub fn begin(walk: &Walk<'_>, given: &[Sized]) -> Result<Coding, AllocError>
    ensures slots { IfOk result (λ coding. coding.slots ≡ first_slots walk.now.setting.now given.now) }
    ensures code { IfOk result (λ coding. coding.code ≡ []) }
    ensures labels { IfOk result (λ coding. coding.labels ≡ 3) }
{
    let mut coding = Coding::new(walk.alloc, OWN_LABELS);
    coding.slot(Place::Raised, walk.setting.exception)?;
    begin_given(walk, &mut coding, 0, given)?;
    Ok(coding)
}

/// The slots of arguments of these types, from one on. They fail where memory is wanting.
fn begin_given(
    walk: &Walk<'_>,
    coding: &mut Coding,
    at: u32,
    given: &[Sized],
) -> Result<(), AllocError>
    requires apart { spec.Fresh coding.old at }
    ensures slots { OnOk result (coding.new.slots ≡ coding.old.slots ++ given_slots walk.now.setting.now at given.now) }
    ensures code { OnOk result (coding.new.code ≡ coding.old.code) }
    ensures labels { OnOk result (coding.new.labels ≡ coding.old.labels) }
{
    match given {
        [] => Ok(()),
        [first, rest @ ..] => {
            let typ = walk.setting.number(first)?;
            coding.slot(Place::Given(at), typ)?;
            let next = further(at, 1)?;
            begin_given(walk, coding, next, rest)
        }
    }
}

/// Where what is thrown leaves the function, and where no clause is taken. It fails where memory is wanting.
pub fn put_ends(
    coding: &mut Coding,
    setting: &Setting<'_>,
    place: TextPlace,
) -> Result<(), AllocError>
    ensures { OnOk result (Emits coding.old coding.new (λ name first. ends_code (kit_for setting.now name) place) no_labels) }
{
    coding.put_label(NOT_TAKEN)?;
    coding.put_stop(Cause::MatchFailure(place))?;
    coding.put_label(THROWN)?;
    coding.put_throw(Place::Raised, setting.exception)
}

/// The body, whose value comes to the type of the result at a node of its own, and the ends. It fails where memory is wanting.
fn put_answer<'x>(
    walk: &'x Walk<'x>,
    coding: &mut Coding,
    function: &'x Function,
) -> Result<(), AllocError>
    requires lowered { (name : Naming) → (node_for walk.now.setting.now walk.now.around.now name function.now.body).ok ≡ true }
    ensures { OnOk result (Emits coding.old coding.new (λ name first.
        answer_code (kit_for walk.now.setting.now name) function.now.place (result_for walk.now name function.now.last function.now.body) first)
        (λ name. (result_for walk.now name function.now.last function.now.body).labels 0)) }
{
    let scope = Scope::Empty;
    let levels = Levels::Outside;
    let stand = Stand {
        scope: &scope,
        temp: 0,
        on_throw: THROWN,
        on_no: NOT_TAKEN,
        levels: &levels,
    };
    put_node(&*walk, coding, &stand, &Tail::Stays, &function.body)?;
    put_made(
        walk.alloc,
        coding,
        walk.setting,
        &stand,
        &Tail::Returns(&stand),
        function.last,
        1,
        1,
        &Making::Casts,
    )?;
    put_ends(coding, walk.setting, function.place)
}

/// The measure of the call. It fails where memory is wanting.
fn put_measure<'x>(
    walk: &'x Walk<'x>,
    coding: &mut Coding,
    measure: &'x Core,
) -> Result<(), AllocError>
    requires lowered { (name : Naming) → (node_for walk.now.setting.now walk.now.around.now name measure.now).ok ≡ true }
    ensures { OnOk result (Emits coding.old coding.new (λ name first.
        code_of (piece_for walk.now.setting.now walk.now.around.now name measure.now) measure_stand first
        ++ code.Measure (from (kit_for walk.now.setting.now name) (place.Temp 0) walk.now.setting.now.integer) ∷ [])
        (λ name. count_of (piece_for walk.now.setting.now walk.now.around.now name measure.now))) }
{
    let scope = Scope::Empty;
    let levels = Levels::Outside;
    let stand = Stand {
        scope: &scope,
        temp: 0,
        on_throw: THROWN,
        on_no: NO_MEASURE,
        levels: &levels,
    };
    put_node(&*walk, coding, &stand, &Tail::Stays, &*measure)?;
    coding.put_measure(Place::Temp(0), walk.setting.integer)
}

/// The measure of a function that is in a cycle.
pub fn active_measure(function: &Function) -> Option<&Core>
    ensures { option_copied result ≡ measure_of function.now.cycle function.now.measure }
{
    match function.cycle {
        Some(_) => function.measure.as_ref(),
        None => None,
    }
}

/// The measure of the call, the body, and where no pattern of the measure matches. It fails where memory is wanting.
fn put_measured<'x>(
    walk: &'x Walk<'x>,
    coding: &mut Coding,
    function: &'x Function,
    measure: &'x Core,
) -> Result<(), AllocError>
    requires lowered { (name : Naming) → (node_for walk.now.setting.now walk.now.around.now name function.now.body).ok ≡ true }
    requires measure { (name : Naming) → (node_for walk.now.setting.now walk.now.around.now name measure.now).ok ≡ true }
    ensures { OnOk result (Emits coding.old coding.new (λ name first. spec.measured_for walk.now name function.now measure.now first)
        (λ name. spec.measured_labels walk.now name function.now measure.now)) }
{
    put_measure(&*walk, coding, &*measure)?;
    put_answer(&*walk, coding, &*function)?;
    coding.put_label(NO_MEASURE)?;
    coding.put_no_measure()
}

/// A function that calls enter, with values of these types. It fails where memory is wanting.
pub fn put_called<'x>(
    walk: &'x Walk<'x>,
    function: &'x Function,
    given: &[Sized],
) -> Result<Coding, AllocError>
    requires lowered { (name : Naming) → (node_for walk.now.setting.now walk.now.around.now name function.now.body).ok ≡ true }
    requires measure { (name : Naming) → all_in (λ c. (node_for walk.now.setting.now walk.now.around.now name c).ok)
        (measure_of function.now.cycle function.now.measure) ≡ true }
    ensures { IfOk result (λ coding. CodeMade walk.now coding given.now (λ name. called_for walk.now name function.now)) }
{
    let mut coding = begin(&*walk, given)?;
    coding.put_tick()?;
    match active_measure(function) {
        Some(measure) => {
            put_measured(&*walk, &mut coding, &*function, measure)?;
            Ok(coding)
        }
        None => {
            put_answer(&*walk, &mut coding, &*function)?;
            Ok(coding)
        }
    }
}

/// A function that an event enters, with values of these types. It fails where memory is wanting.
pub fn put_event<'x>(
    walk: &'x Walk<'x>,
    function: &'x Function,
    given: &[Sized],
) -> Result<Coding, AllocError>
    requires lowered { (name : Naming) → (node_for walk.now.setting.now walk.now.around.now name function.now.body).ok ≡ true }
    ensures { IfOk result (λ coding. CodeMade walk.now coding given.now (λ name. event_for walk.now name function.now)) }
{
    let mut coding = begin(&*walk, given)?;
    put_answer(&*walk, &mut coding, &*function)?;
    Ok(coding)
}

/// A direction of a mapping, with values of these types: an option, over a payload of this type, of what its clauses give. It fails where memory is wanting.
pub fn put_mapping<'x>(
    walk: &'x Walk<'x>,
    place: TextPlace,
    payload: &'x Typ,
    clauses: &'x Core,
    given: &[Sized],
) -> Result<Coding, AllocError>
    requires lowered { (name : Naming) → (node_for walk.now.setting.now walk.now.around.now name clauses.now).ok ≡ true }
    ensures { IfOk result (λ coding. CodeMade walk.now coding given.now
        (λ name. mapping_for walk.now name place payload.now clauses.now)) }
{
    let mut coding = begin(&*walk, given)?;
    let scope = Scope::Empty;
    let levels = Levels::Outside;
    let stand = Stand {
        scope: &scope,
        temp: 0,
        on_throw: THROWN,
        on_no: NOT_TAKEN,
        levels: &levels,
    };
    let tail = Tail::Returns(&stand);
    put_optional(&*walk, &mut coding, &stand, &tail, &*payload, &*clauses)?;
    put_ends(&mut coding, walk.setting, place)?;
    Ok(coding)
}

/// The types of slots. They fail where memory is wanting.
pub fn slot_types(alloc: Global, slots: &[Slot]) -> Result<Items<u32>, AllocError>
    ensures { IfOk result (λ types. types ≡ map (λ slot. slot.typ) slots.now) }
{
    let mut types = Items::new(alloc);
    push_types(&mut types, slots)?;
    Ok(types)
}

/// So behind others. They fail where memory is wanting.
fn push_types(types: &mut Items<u32>, slots: &[Slot]) -> Result<(), AllocError>
    ensures { OnOk result (types.new ≡ types.old ++ map (λ slot. slot.typ) slots.now) }
{
    match slots {
        [] => Ok(()),
        [first, rest @ ..] => {
            types.push(first.typ)?;
            push_types(types, rest)
        }
    }
}
