//! Models with constant sizes.
ghost use Rattle.std.specs.Prelude.{◌≡◌, IfOk, map};
ghost use Rattle.size_splits.specs.Bodies.{body_read};
ghost use Rattle.monomorph.specs.Lasts.{model_in};
ghost use Rattle.sized_trees.specs.Trees as spec;

use crate::bodies::sized_bodies;
use crate::signatures::signature_under;
use monomorph::{Model, MonoError, copy_instance, listed};
use sail_base::Items;
use sail_core::CoreModel;
use size_notes::bodies;
use size_splits::{BodySteps, sizing_of};
use sized_nodes::{Instance, NodeSizes, Signature, SizedCore, SizedInstance};
use std::alloc::{AllocError, Global};

/// The types of an instance's parameters and of its result. They fail where memory is wanting.
fn instance_signature(
    alloc: Global,
    model: &Model<'_>,
    instance: &Instance,
) -> Result<Option<Signature>, AllocError>
    ensures { IfOk result (λ signature. signature ≡ spec.instance_signature (model_in model.now) instance.now) }
{
    match model.core.functions.get(instance.function as usize) {
        None => Ok(None),
        Some(function) => {
            let signature = signature_under(alloc, &model.core.types, instance, function)?;
            Ok(Some(signature))
        }
    }
}

/// What is constant at the nodes of an instance. It fails where memory is wanting.
fn instance_bodies(
    alloc: Global,
    model: &Model<'_>,
    list: &[Instance],
    instance: &Instance,
) -> Result<Items<Items<NodeSizes>>, AllocError>
    ensures { IfOk result (λ made. made ≡ spec.instance_bodies (model_in model.now) list.now instance.now) }
{
    let numbers = instance.numbers.as_slice();
    let own = instance.types.as_slice();
    match model.bodies.functions.get(instance.function as usize) {
        None => Ok(Items::new(alloc)),
        Some(bodies) => sized_bodies(alloc, model, list, numbers, own, bodies.as_slice()),
    }
}

/// An instance with constant sizes. It fails where memory is wanting.
fn sized_instance(
    alloc: Global,
    model: &Model<'_>,
    list: &[Instance],
    instance: &Instance,
) -> Result<SizedInstance, AllocError>
    ensures { IfOk result (λ made. made ≡ spec.sized_instance (model_in model.now) list.now instance.now) }
{
    let signature = instance_signature(alloc, model, instance)?;
    let bodies = instance_bodies(alloc, model, list, instance)?;
    let instance = copy_instance(alloc, instance)?;
    Ok(SizedInstance {
        instance,
        signature,
        bodies,
    })
}

/// The instances with constant sizes. They fail where memory is wanting.
fn sized_instances(
    alloc: Global,
    model: &Model<'_>,
    list: &[Instance],
) -> Result<Items<SizedInstance>, AllocError>
    ensures { IfOk result (λ made. made ≡ spec.sized_instances (model_in model.now) list.now list.now) }
{
    let mut made = Items::new(alloc);
    for instance in list {
        made.push(sized_instance(alloc, model, list, instance)?)?;
    }
    Ok(made)
}

/// What is constant at the nodes of bodies without type variables. It fails where memory is wanting.
fn plain_bodies(
    alloc: Global,
    model: &Model<'_>,
    list: &[Instance],
    bodies: &[BodySteps],
) -> Result<Items<Items<NodeSizes>>, AllocError>
    ensures { IfOk result (λ made. made ≡ spec.plain_bodies (model_in model.now) list.now (map body_read bodies.now)) }
{
    sized_bodies(alloc, model, list, &[], &[], bodies)
}

/// A model with constant sizes, of its instances. It fails where memory is wanting.
fn sized_list(alloc: Global, model: &Model<'_>, list: &[Instance]) -> Result<SizedCore, AllocError>
    ensures { IfOk result (λ made. made ≡ spec.sized_list (model_in model.now) list.now) }
{
    let instances = sized_instances(alloc, model, list)?;
    let mappings = plain_bodies(alloc, model, list, model.bodies.mappings.as_slice())?;
    let openings = plain_bodies(alloc, model, list, model.bodies.openings.as_slice())?;
    Ok(SizedCore {
        instances,
        mappings,
        openings,
    })
}

/// The same, or why there is no list of instances. It fails where memory is wanting.
fn sized_model(alloc: Global, model: &Model<'_>) -> Result<Result<SizedCore, MonoError>, AllocError>
    ensures { IfOk result (λ answer. answer ≡ spec.sized_model (model_in model.now)) }
{
    match listed(alloc, model)? {
        Ok(list) => Ok(Ok(sized_list(alloc, model, list.as_slice())?)),
        Err(refused) => Ok(Err(refused)),
    }
}

/// The same of a model that was resolved. It fails where memory is wanting.
fn answer(alloc: Global, core: &CoreModel) -> Result<Result<SizedCore, MonoError>, AllocError>
    ensures { IfOk result (λ answer. answer ≡ spec.sized_core core.now) }
{
    let bodies = bodies(alloc, core)?;
    let sizing = sizing_of(alloc, core, bodies.functions.as_slice())?;
    let model = Model {
        core,
        bodies: &bodies,
        sizing: sizing.as_slice(),
    };
    sized_model(alloc, &model)
}

/// The instances of a model that was resolved, in order of finding, each with what is constant at the nodes of its body: a case for each
/// combination of split numbers that counts at a node, if all its sizes are constants, from 0 to 128 for a width and from 0 to 4,096 for a
/// length, and the instance to which a call leads. It fails where `monomorph::instances` does. `OutOfMemory` says nothing of the model.
pub fn sized_core(alloc: Global, core: &CoreModel) -> Result<SizedCore, MonoError>
    ensures { spec.IsMet result (spec.sized_core core.now) }
{
    match answer(alloc, core) {
        Ok(answer) => answer,
        Err(_) => Err(MonoError::OutOfMemory),
    }
}
