//! What is constant in a model, as text.
use sail_base::dec_text;
use sail_core::Giver;
use size_values::{Picked, Sized};
use sized_nodes::{Case, Lead, NodeSizes, Signature, SizedCore, SizedInstance, Told};
use std::alloc::{AllocError, Global};

fn push_number(alloc: Global, out: &mut Vec<u8>, number: i128) -> Result<(), AllocError> {
    let text = dec_text(alloc, number)?;
    out.extend_from_slice(text.as_str().as_bytes())
}

/// The types that the models have.
fn push_type(alloc: Global, out: &mut Vec<u8>, sized: &Sized) -> Result<(), AllocError> {
    match sized {
        Sized::Unit => out.extend_from_slice(b"unit"),
        Sized::Int => out.extend_from_slice(b"int"),
        Sized::Bits(width) => {
            out.extend_from_slice(b"bits ")?;
            push_number(alloc, out, *width)
        }
        _ => out.extend_from_slice(b"another type"),
    }
}

/// `(bits 8, int)`
fn push_types(alloc: Global, out: &mut Vec<u8>, types: &[Sized]) -> Result<(), AllocError> {
    out.extend_from_slice(b"(")?;
    for at in 0..types.len() {
        if at > 0 {
            out.extend_from_slice(b", ")?;
        }
        push_type(alloc, out, &types[at])?;
    }
    out.extend_from_slice(b")")
}

/// `  [0=1]`
fn push_picked(alloc: Global, out: &mut Vec<u8>, picked: &[Picked]) -> Result<(), AllocError> {
    out.extend_from_slice(b"  ")?;
    for one in picked {
        out.extend_from_slice(b"[")?;
        push_number(alloc, out, one.variable as i128)?;
        out.extend_from_slice(b"=")?;
        push_number(alloc, out, one.number)?;
        out.extend_from_slice(b"] ")?;
    }
    Ok(())
}

fn push_case(alloc: Global, out: &mut Vec<u8>, case: &Case) -> Result<(), AllocError> {
    push_picked(alloc, out, case.picked.as_slice())?;
    push_types(alloc, out, case.takes.as_slice())?;
    out.extend_from_slice(b" -> ")?;
    push_type(alloc, out, &case.gives)?;
    out.extend_from_slice(b"\n")
}

fn push_lead(alloc: Global, out: &mut Vec<u8>, lead: &Lead) -> Result<(), AllocError> {
    push_picked(alloc, out, lead.picked.as_slice())?;
    push_types(alloc, out, lead.takes.as_slice())?;
    out.extend_from_slice(b" to instance ")?;
    push_number(alloc, out, lead.instance as i128)?;
    out.extend_from_slice(b"\n")
}

fn push_head(alloc: Global, out: &mut Vec<u8>, word: &[u8], number: u32) -> Result<(), AllocError> {
    out.extend_from_slice(word)?;
    push_number(alloc, out, number as i128)?;
    out.extend_from_slice(b"\n")
}

fn push_giver(alloc: Global, out: &mut Vec<u8>, giver: Giver) -> Result<(), AllocError> {
    match giver {
        Giver::Node(number) => push_head(alloc, out, b"gives ", number),
        Giver::Arm(number, behind) => {
            out.extend_from_slice(b"arm of ")?;
            push_number(alloc, out, number as i128)?;
            out.extend_from_slice(b" before ")?;
            push_number(alloc, out, behind as i128)?;
            out.extend_from_slice(b"\n")
        }
    }
}

fn push_node(alloc: Global, out: &mut Vec<u8>, node: &NodeSizes) -> Result<(), AllocError> {
    match node {
        NodeSizes::Makes(number, _, cases) => {
            push_head(alloc, out, b"makes ", *number)?;
            for case in cases.as_slice() {
                push_case(alloc, out, case)?;
            }
            Ok(())
        }
        NodeSizes::Calls(number, leads) => {
            push_head(alloc, out, b"calls ", *number)?;
            for lead in leads.as_slice() {
                push_lead(alloc, out, lead)?;
            }
            Ok(())
        }
        NodeSizes::Gives(giver, _) => push_giver(alloc, out, *giver),
    }
}

/// Each type that a value may tell; none, where a size isn't a constant.
fn push_told(alloc: Global, out: &mut Vec<u8>, told: &Told) -> Result<(), AllocError> {
    let cases = told.cases.as_slice();
    if cases.len() == 0 {
        return out.extend_from_slice(b"no type");
    }
    for at in 0..cases.len() {
        if at > 0 {
            out.extend_from_slice(b" or ")?;
        }
        push_type(alloc, out, &cases[at].gives)?;
    }
    Ok(())
}

/// `(bits 8, int)`
fn push_all_told(alloc: Global, out: &mut Vec<u8>, types: &[Told]) -> Result<(), AllocError> {
    out.extend_from_slice(b"(")?;
    for at in 0..types.len() {
        if at > 0 {
            out.extend_from_slice(b", ")?;
        }
        push_told(alloc, out, &types[at])?;
    }
    out.extend_from_slice(b")")
}

fn push_signature(
    alloc: Global,
    out: &mut Vec<u8>,
    signature: &Option<Signature>,
) -> Result<(), AllocError> {
    match signature {
        None => out.extend_from_slice(b"no types"),
        Some(signature) => {
            push_all_told(alloc, out, signature.parameters.as_slice())?;
            out.extend_from_slice(b" -> ")?;
            push_told(alloc, out, &signature.result)
        }
    }
}

fn push_instance(
    alloc: Global,
    out: &mut Vec<u8>,
    instance: &SizedInstance,
) -> Result<(), AllocError> {
    out.extend_from_slice(b"function ")?;
    push_number(alloc, out, instance.instance.function as i128)?;
    out.extend_from_slice(b": ")?;
    push_signature(alloc, out, &instance.signature)?;
    out.extend_from_slice(b"\n")?;
    for nodes in instance.bodies.as_slice() {
        for node in nodes.as_slice() {
            push_node(alloc, out, node)?;
        }
    }
    Ok(())
}

/// The instances of a model, in their order, each with its nodes.
pub fn printed(alloc: Global, sized: &SizedCore) -> Result<Vec<u8>, AllocError> {
    let mut out = Vec::new(alloc);
    for instance in sized.instances.as_slice() {
        push_instance(alloc, &mut out, instance)?;
    }
    Ok(out)
}
