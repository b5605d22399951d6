use sail_base::Boxed;
use sail_syntax::{Def, Member, TyExp, TypeOperator, TypePrefix};
use std::alloc::{AllocError, Global};
use std::collections::HashMap;

/// The greatest depth to which types are taken to nest: functions that copy a type, let go of it or put types for its parameters
/// go down into its parts, and so need stack for each.
const DEEPEST: usize = 1024;

/// How deep the types that a text has defined so far nest at most, in normal form.
#[derive(Drop)]
pub(crate) struct Depths<'a> {
    named: HashMap<&'a str, usize>,
}

/// The depth that an infix operator adds to that of its operands: a sum or a product is one number.
fn infix_depth(operator: TypeOperator) -> usize {
    match operator {
        TypeOperator::Star | TypeOperator::Plus | TypeOperator::Minus => 0,
        _ => 1,
    }
}

/// Likewise a prefix.
fn prefix_depth(prefix: TypePrefix) -> usize {
    match prefix {
        TypePrefix::Negate => 0,
        _ => 1,
    }
}

/// Wants memory where types nest too deep.
fn check(depth: usize) -> Result<(), AllocError> {
    if depth > DEEPEST {
        return Err(AllocError);
    }
    Ok(())
}

/// How deep a type nests that names a type of this depth: a union is one form, since its constructors stand in the table.
fn named_depth(definition: &Def, depth: usize) -> usize {
    match definition {
        Def::Union { .. } => 1,
        _ => depth,
    }
}

impl<'a> Depths<'a> {
    /// Before the first definition.
    pub(crate) fn new(alloc: Global) -> Depths<'a> {
        Depths {
            named: HashMap::new(alloc),
        }
    }

    /// How deep a named type nests, its arguments apart. One that isn't defined so far, as a builtin type, is one form.
    fn of_name(&self, name: &str) -> usize {
        self.named.get(name).copied().unwrap_or(1)
    }

    /// How deep the normal form of a type's text nests at most: an argument stands inside the named type, and each variable of an
    /// existential type is a form around what is inside.
    #[cycle(depth)]
    fn of_type(&self, typ: &TyExp) -> usize {
        match typ {
            TyExp::Named(name, arguments) => {
                let inside = self.of_types(arguments.as_slice());
                self.of_name(name.text.as_str()).saturating_add(inside)
            }
            TyExp::Variable(_) | TyExp::Number(_, _) | TyExp::Truth(_, _) => 1,
            TyExp::Prefix(_, prefix, part) => {
                let inside = self.of_type(part.get());
                inside.saturating_add(prefix_depth(*prefix))
            }
            TyExp::Infix {
                operator,
                left,
                right,
                ..
            } => {
                let left = self.of_type(left.get());
                let right = self.of_type(right.get());
                left.max(right).saturating_add(infix_depth(*operator))
            }
            TyExp::OneOf(_, part, _) => self.of_type(part.get()).saturating_add(1),
            TyExp::Tuple(_, parts) => self.of_types(parts.as_slice()).saturating_add(1),
            TyExp::Exists {
                variables,
                constraint,
                typ,
                ..
            } => {
                let constraint = self.of_constraint(constraint);
                let typ = self.of_type(typ.get());
                constraint.max(typ).saturating_add(variables.len())
            }
        }
    }

    #[cycle(depth)]
    fn of_constraint(&self, constraint: &Option<Boxed<TyExp>>) -> usize {
        match constraint {
            None => 1,
            Some(constraint) => self.of_type(constraint.get()),
        }
    }

    /// The greatest of several, 0 where there is none.
    #[cycle(depth)]
    fn of_types(&self, types: &[TyExp]) -> usize {
        let mut deepest = 0;
        for typ in types {
            deepest = self.of_type(typ).max(deepest);
        }
        deepest
    }

    /// The greatest of fields or constructors, 0 where there is none.
    fn of_members(&self, members: &[Member]) -> usize {
        let mut deepest = 0;
        for member in members {
            deepest = self.of_type(&member.typ).max(deepest);
        }
        deepest
    }

    /// The name that a type's definition defines, and how deep it nests: a struct or a union is a form around its members.
    fn of_definition(&self, definition: &'a Def) -> Option<(&'a str, usize)> {
        match definition {
            Def::Alias { name, typ, .. } => Some((name.text.as_str(), self.of_type(typ))),
            Def::Struct { name, fields, .. } => {
                let inside = self.of_members(fields.as_slice());
                Some((name.text.as_str(), inside.saturating_add(1)))
            }
            Def::Union {
                name,
                constructors,
                ..
            } => {
                let inside = self.of_members(constructors.as_slice());
                Some((name.text.as_str(), inside.saturating_add(1)))
            }
            _ => None,
        }
    }

    /// Reads one more definition. Of several types of one name the deepest counts.
    pub(crate) fn define(&mut self, definition: &'a Def) -> Result<(), AllocError> {
        let Some((name, depth)) = self.of_definition(definition) else {
            return Ok(());
        };
        check(depth)?;
        let deepest = self.of_name(name).max(named_depth(definition, depth));
        self.named.insert(name, deepest)?;
        Ok(())
    }

    /// Wants memory where a type nests too deep.
    pub(crate) fn check_type(&self, typ: &TyExp) -> Result<(), AllocError> {
        check(self.of_type(typ))
    }

    /// Likewise, where there is one.
    pub(crate) fn check_maybe(&self, typ: &Option<TyExp>) -> Result<(), AllocError> {
        match typ {
            None => Ok(()),
            Some(typ) => self.check_type(typ),
        }
    }
}
