//! What is made of a form: its shape and its core.
ghost use Rattle.std.specs.Prelude.{◌≡◌, ◌∷◌, ◌++◌, [], IfOk, OnOk};
ghost use Rattle.shape_rules.specs.Findings as spec;
ghost use Rattle.shape_calls.specs.Made.{made_of};
ghost use Rattle.shape_calls.specs.Apart.{note_of};

use sail_base::{Items, Place};
use sail_core::{Core, Kind, Literal};
use sail_types::{Shape, copy_shape};
use shape_joins::join_shapes;
use shape_rules::{First, Mismatch, ShapeError};
use std::alloc::{AllocError, Global};

/// What is made of a form.
pub struct Made {
    /// Its shape; `Never` where it failed, and where it never ends normally.
    pub shape: Shape,
    /// Its core, whose nodes have no numbers yet.
    pub core: Core,
}

impl Drop for Made {
    fn drop(self) {
        let Made { shape: _, core: _ } = self;
    }
}

impl Made {
    /// The shape; the core goes behind others. The one error is want of memory.
    pub fn into_shape(self, cores: &mut Items<Core>) -> Result<Shape, AllocError>
        ensures shape { IfOk result (λ shape. shape ≡ self.shape) }
        ensures cores { OnOk result (cores.new ≡ cores.old ++ self.core ∷ []) }
    {
        let Made { shape, core } = self;
        cores.push(core)?;
        Ok(shape)
    }

    /// The shape; the core, where its value comes to the type that is wanted of it, goes behind others. The one error is want of
    /// memory.
    pub fn into_cast_shape(
        self,
        alloc: Global,
        place: Place,
        cores: &mut Items<Core>,
    ) -> Result<Shape, AllocError>
        ensures shape { IfOk result (λ shape. shape ≡ self.shape) }
        ensures cores { OnOk result (cores.new ≡ cores.old ++ spec.cast self.core place ∷ []) }
    {
        let Made { shape, core } = self;
        cores.push(cast(alloc, core, place)?)?;
        Ok(shape)
    }
}

/// A node without parts, and without a number yet.
pub fn leaf(alloc: Global, place: Place, kind: Kind) -> Core
    ensures { result ≡ spec.leaf place kind }
{
    Core::leaf(alloc, place, 0, kind)
}

/// A node over its parts, without a number yet.
pub fn over(place: Place, kind: Kind, parts: Items<Core>) -> Core
    ensures { result ≡ spec.over place kind parts }
{
    Core {
        place,
        number: 0,
        kind,
        parts,
    }
}

/// Where a value comes to the type that is wanted of it. The one error is want of memory.
pub fn cast(alloc: Global, core: Core, place: Place) -> Result<Core, AllocError>
    ensures { IfOk result (λ made. made ≡ spec.cast core place) }
{
    let mut parts = Items::new(alloc);
    parts.push(core)?;
    Ok(over(place, Kind::Cast(None), parts))
}

/// What stands in the place of a form that has no core.
pub fn missing(alloc: Global, place: Place) -> Core
    ensures { result ≡ spec.missing place }
{
    leaf(alloc, place, Kind::Constant(Literal::Unit))
}

/// A form that fails in nothing of its own, but of whose parts one failed that it needs.
pub fn unknown(alloc: Global, place: Place) -> Made
    ensures { result ≡ made_of (spec.unknown place) }
{
    Made {
        shape: Shape::Never,
        core: missing(alloc, place),
    }
}

/// A form that fails: notes its failure.
pub fn refused(alloc: Global, error: ShapeError, first: &mut First) -> Made
    ensures made { result ≡ made_of (spec.refused error) }
    ensures failures { first.new.error ≡ spec.first_failure first.old.error (spec.refused error).faults }
{
    let place = error.place();
    first.note(error);
    unknown(alloc, place)
}

/// That a shape isn't the wanted one. The one error is want of memory.
pub fn mismatched(
    alloc: Global,
    place: Place,
    wanted: &Shape,
    found: Shape,
) -> Result<ShapeError, AllocError>
    ensures { IfOk result (λ error. error ≡ spec.mismatched place wanted.now found) }
{
    let wanted = copy_shape(alloc, wanted)?;
    Ok(ShapeError::IllShaped {
        place,
        mismatch: Some(Mismatch { wanted, found }),
    })
}

/// A form of this shape, where that one is wanted (`Never`, where none is): notes the failure where they aren't one. The one error
/// is want of memory.
pub fn settled(
    alloc: Global,
    place: Place,
    want: &Shape,
    shape: Shape,
    core: Core,
    first: &mut First,
) -> Result<Made, AllocError>
    ensures made { IfOk result (λ made. made ≡ made_of (spec.settled place want.now shape (λ s. core))) }
    ensures failures { OnOk result (first.new.error ≡ spec.first_failure first.old.error (spec.settled place want.now shape (λ s. core)).faults) }
{
    match join_shapes(alloc, &shape, want)? {
        Some(shape) => Ok(Made { shape, core }),
        None => {
            let error = mismatched(alloc, place, want, shape)?;
            Ok(refused(alloc, error, first))
        }
    }
}

/// What is wanted of a branch or item behind one of the found shape, where that one was wanted before; and the shape of both. The one
/// error is want of memory.
pub fn given_on(alloc: Global, want: Shape, found: &Shape) -> Result<Shape, AllocError>
    ensures { IfOk result (λ shape. shape ≡ spec.given_on want found.now) }
{
    match join_shapes(alloc, &want, found)? {
        Some(shape) => Ok(shape),
        None => Ok(want),
    }
}

/// Notes what was noted apart.
pub fn note_apart(first: &mut First, mut apart: First)
    ensures { first.new.error ≡ note_of first.old.error apart.error }
{
    if let Some(error) = apart.error.take() {
        first.note(error);
    }
}
