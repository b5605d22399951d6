use sail_base::{Items, Place, Text};
use sail_core::{
    Arm, Callee, Caller, Core, CoreModel, Direction, Form, Fragment, Head, Kind, Literal, Opening,
    OpeningKind, Pattern, Statement, Step, Target, TargetKind, core_in, model_in,
};
use sail_types::{Shape, Typ, Types};
use std::alloc::{AllocError, Global};
use std::test::Fail;

fn here() -> Place {
    Place {
        file: 1,
        line: 2,
        column: 3,
    }
}

fn unit(alloc: Global, number: u32) -> Core {
    Core::leaf(alloc, here(), number, Kind::Constant(Literal::Unit))
}

/// `_`, inside one pattern of this form where there is one.
fn nested(alloc: Global, form: Option<Form>) -> Result<Arm, AllocError> {
    let mut patterns = Items::new(alloc);
    let any = Pattern {
        place: here(),
        form: Form::Any,
        parts: Items::new(alloc),
    };
    match form {
        None => patterns.push(any)?,
        Some(form) => {
            let mut parts = Items::new(alloc);
            parts.push(any)?;
            let place = here();
            patterns.push(Pattern { place, form, parts })?;
        }
    }
    Ok(Arm::Nested(patterns))
}

/// `Some(x)`, flat.
fn flat(alloc: Global) -> Result<Arm, AllocError> {
    let mut steps = Items::new(alloc);
    steps.push(Step::Opens(0, Head::Constructor(0, 0), 1))?;
    steps.push(Step::Names(1, Text::new(alloc, "x")?))?;
    Ok(Arm::Flat(1, steps))
}

/// `match () { arm => () }`
fn matching(alloc: Global, arm: Arm) -> Result<Core, AllocError> {
    let mut arms = Items::new(alloc);
    arms.push(arm)?;
    Core::over_both(
        alloc,
        here(),
        1,
        Kind::Match(arms, Shape::Unit),
        unit(alloc, 2),
        unit(alloc, 3),
    )
}

/// `{ let arm = (); }`
fn block(alloc: Global, arm: Arm) -> Result<Core, AllocError> {
    let mut statements = Items::new(alloc);
    statements.push(Statement::Define(here(), arm))?;
    Core::over(alloc, here(), 1, Kind::Block(statements), unit(alloc, 2))
}

fn call(alloc: Global, callee: Callee) -> Result<Core, AllocError> {
    Core::over(alloc, here(), 1, Kind::Call(callee), unit(alloc, 2))
}

/// `(f(()), R) = e`, where f is this callee.
fn assignment(alloc: Global, callee: Callee) -> Result<Core, AllocError> {
    let caller = Caller { callee, number: 5 };
    let mut parts = Items::new(alloc);
    parts.push(Target {
        place: here(),
        number: 4,
        kind: TargetKind::Call(1, None, caller),
        parts: Items::new(alloc),
    })?;
    parts.push(Target {
        place: here(),
        number: 6,
        kind: TargetKind::Register(0),
        parts: Items::new(alloc),
    })?;
    let mut targets = Items::new(alloc);
    targets.push(Target {
        place: here(),
        number: 7,
        kind: TargetKind::Tuple,
        parts,
    })?;
    Core::over_both(
        alloc,
        here(),
        1,
        Kind::Assign(targets),
        unit(alloc, 2),
        unit(alloc, 3),
    )
}

/// Whether a core is resolved, map-free, flat.
fn fragments(core: &Core) -> (bool, bool, bool) {
    (
        core_in(Fragment::Resolved, core),
        core_in(Fragment::MapFree, core),
        core_in(Fragment::Flat, core),
    )
}

#[test]
fn fragments_of_cores(rt: HostRuntime) -> Result<(), Fail> {
    let alloc = rt.alloc();
    let plain = matching(alloc, nested(alloc, None)?)?;
    assert!(rt; fragments(&plain) == (true, true, false));
    let converts = matching(alloc, nested(alloc, Some(Form::Maps(0)))?)?;
    assert!(rt; fragments(&converts) == (true, false, false));
    Ok(())
}

#[test]
fn fragments_of_blocks(rt: HostRuntime) -> Result<(), Fail> {
    let alloc = rt.alloc();
    let sees = block(alloc, nested(alloc, Some(Form::Sees(0)))?)?;
    assert!(rt; fragments(&sees) == (false, true, false));
    let steps = block(alloc, flat(alloc)?)?;
    assert!(rt; fragments(&steps) == (false, true, true));
    Ok(())
}

#[test]
fn fragments_of_calls_and_targets(rt: HostRuntime) -> Result<(), Fail> {
    let alloc = rt.alloc();
    let enters = call(alloc, Callee::Converts(0))?;
    assert!(rt; fragments(&enters) == (true, false, false));
    let applies = assignment(alloc, Callee::Applies(0))?;
    assert!(rt; fragments(&applies) == (false, true, true));
    let writes = assignment(alloc, Callee::Converts(0))?;
    assert!(rt; fragments(&writes) == (true, false, false));
    Ok(())
}

#[test]
fn fragments_of_a_model(rt: HostRuntime) -> Result<(), Fail> {
    let alloc = rt.alloc();
    let mut directions = Items::new(alloc);
    directions.push(Direction {
        place: here(),
        name: Text::new(alloc, "m")?,
        parameter: Typ::Unit,
        result: Typ::Unit,
        body: Core::over(alloc, here(), 1, Kind::Optional(Typ::Unit), unit(alloc, 2))?,
    })?;
    let mut openings = Items::new(alloc);
    openings.push(Opening {
        place: here(),
        kind: OpeningKind::Let(nested(alloc, None)?),
        value: unit(alloc, 1),
    })?;
    let model = CoreModel {
        types: Types {
            definitions: Items::new(alloc),
        },
        exception: None,
        registers: Items::new(alloc),
        register_texts: Items::new(alloc),
        functions: Items::new(alloc),
        directions,
        openings,
        reset: 0,
        step: 1,
    };
    assert!(rt; !model_in(Fragment::Resolved, &model));
    assert!(rt; model_in(Fragment::MapFree, &model));
    assert!(rt; !model_in(Fragment::Flat, &model));
    Ok(())
}
