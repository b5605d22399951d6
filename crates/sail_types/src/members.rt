ghost use Rattle.std.specs.Prelude.{◌≡◌, IfOk, OnOk, map, [], ◌∷◌, ◌++◌};
ghost use Rattle.sail_types.specs.Rows.{member, comparison, comparisons as comparisons_of, lengths as lengths_of, enums_from};
ghost use Rattle.sail_types.specs.Rows.{row_members as members_of_row, members_of};
ghost use Rattle.sail_types.specs.Sorts.{sort_shape};
ghost use Rattle.sail_types.specs.declared.shapes.Shape.TheVariants as V;

use crate::rows::Row;
use crate::shapes::Shape;
use crate::table::Types;
use sail_base::{Boxed, Items};
use std::alloc::{AllocError, Global};

/// A member of a builtin: what it takes and what it gives. The Type variable of `length` and `vector_init`
/// is variable 0.
pub struct Member {
    pub row: Row,
    /// The shapes of its parameters.
    pub params: Items<Shape>,
    /// The shape of its result.
    pub answer: Shape,
}

impl Drop for Member {
    fn drop(self) {
        let Member {
            row: _,
            params: _,
            answer: _,
        } = self;
    }
}

/// The shapes that builtins speak of.
#[derive(Clone, Copy)]
enum Sort {
    Int,
    Bits,
    Bit,
    Bool,
    String,
    Unit,
    Item,
    Items,
}

fn shape_of_sort(alloc: Global, sort: Sort) -> Result<Shape, AllocError>
    ensures { IfOk result (λ made. made ≡ sort_shape sort) }
{
    match sort {
        Sort::Int => Ok(Shape::Int),
        Sort::Bits => Ok(Shape::Bits),
        Sort::Bit => Ok(Shape::Bit),
        Sort::Bool => Ok(Shape::Bool),
        Sort::String => Ok(Shape::String),
        Sort::Unit => Ok(Shape::Unit),
        Sort::Item => Ok(Shape::Variable(0)),
        Sort::Items => Ok(Shape::Vector(Boxed::new(alloc, Shape::Variable(0))?)),
    }
}

/// The one member of a row.
fn one(alloc: Global, row: Row, params: &[Sort], answer: Sort) -> Result<Items<Member>, AllocError>
    ensures { IfOk result (λ made. made ≡ member row (map sort_shape params.now) (sort_shape answer) ∷ []) }
{
    let mut members = Items::new(alloc);
    members.push(make_member(alloc, row, params, answer)?)?;
    Ok(members)
}

fn make_member(alloc: Global, row: Row, params: &[Sort], answer: Sort) -> Result<Member, AllocError>
    ensures { IfOk result (λ made. made ≡ member row (map sort_shape params.now) (sort_shape answer)) }
{
    let mut shapes = Items::new(alloc);
    for sort in params {
        shapes.push(shape_of_sort(alloc, *sort)?)?;
    }
    let answer = shape_of_sort(alloc, answer)?;
    Ok(Member {
        row,
        params: shapes,
        answer,
    })
}

/// A member that takes two of a shape and compares them.
fn push_comparison(
    alloc: Global,
    members: &mut Items<Member>,
    row: Row,
    sort: Sort,
) -> Result<(), AllocError>
    ensures { OnOk result (members.new ≡ members.old ++ comparison row (sort_shape sort) ∷ []) }
{
    members.push(make_member(alloc, row, &[sort, sort], Sort::Bool)?)
}

fn push_enum_comparison(
    alloc: Global,
    members: &mut Items<Member>,
    row: Row,
    place: u32,
) -> Result<(), AllocError>
    ensures { OnOk result (members.new ≡ members.old ++ comparison row (V.Named place []) ∷ []) }
{
    let mut params = Items::new(alloc);
    params.push(Shape::Named(place, Items::new(alloc)))?;
    params.push(Shape::Named(place, Items::new(alloc)))?;
    members.push(Member {
        row,
        params,
        answer: Shape::Bool,
    })
}

/// The members of `eq` or `neq`: one for integers, bits, one bit, truths, strings, unit, and each enum.
fn comparisons(alloc: Global, types: &Types, row: Row) -> Result<Items<Member>, AllocError>
    ensures { IfOk result (λ made. made ≡ comparisons_of row types.now) }
{
    let mut members = Items::new(alloc);
    push_comparison(alloc, &mut members, row, Sort::Int)?;
    push_comparison(alloc, &mut members, row, Sort::Bits)?;
    push_comparison(alloc, &mut members, row, Sort::Bit)?;
    push_comparison(alloc, &mut members, row, Sort::Bool)?;
    push_comparison(alloc, &mut members, row, Sort::String)?;
    push_comparison(alloc, &mut members, row, Sort::Unit)?;
    push_enums(alloc, &mut members, types, row)?;
    Ok(members)
}

/// A place in a table of at most 2^32 definitions; a longer one is more than memory is taken to hold.
fn small_place(place: usize) -> Result<u32, AllocError>
    ensures { IfOk result (λ small. small ≡ place) }
{
    match u32::try_from(place) {
        Ok(small) => Ok(small),
        Err(_) => Err(AllocError),
    }
}

fn push_enums(
    alloc: Global,
    members: &mut Items<Member>,
    types: &Types,
    row: Row,
) -> Result<(), AllocError>
    ensures { OnOk result (members.new ≡ members.old ++ map (comparison row) (enums_from 0 types.now.definitions)) }
{
    let mut place = 0;
    for definition in types.definitions.as_slice() {
        if definition.is_enum() {
            push_enum_comparison(alloc, members, row, small_place(place)?)?;
        }
        place += 1;
    }
    Ok(())
}

/// The members of a row, in order. It fails where memory is wanting.
pub fn row_members(alloc: Global, types: &Types, row: Row) -> Result<Items<Member>, AllocError>
    ensures { IfOk result (λ made. made ≡ members_of_row types.now row) }
{
    match row {
        Row::Eq | Row::Neq => comparisons(alloc, types, row),
        Row::Length => lengths(alloc),
        Row::AddInt
        | Row::SubInt
        | Row::MultInt
        | Row::MinInt
        | Row::MaxInt
        | Row::EdivInt
        | Row::EmodInt
        | Row::TdivInt
        | Row::TmodInt => one(alloc, row, &[Sort::Int, Sort::Int], Sort::Int),
        Row::NegInt | Row::Pow2 | Row::AbsInt => one(alloc, row, &[Sort::Int], Sort::Int),
        Row::LtInt | Row::LteqInt | Row::GtInt | Row::GteqInt => one(
            alloc,
            row,
            &[Sort::Int, Sort::Int],
            Sort::Bool,
        ),
        Row::NotBool => one(alloc, row, &[Sort::Bool], Sort::Bool),
        Row::AddBits
        | Row::SubBits
        | Row::MultBits
        | Row::AndBits
        | Row::OrBits
        | Row::XorBits
        | Row::ShiftlBits
        | Row::ShiftrBits
        | Row::ArithShiftrBits
        | Row::Append
        | Row::MulWideUu
        | Row::MulWideSs
        | Row::MulWideSu => one(alloc, row, &[Sort::Bits, Sort::Bits], Sort::Bits),
        Row::AddBitsInt
        | Row::SubBitsInt
        | Row::Shiftl
        | Row::Shiftr
        | Row::ArithShiftr
        | Row::Truncate
        | Row::ReplicateBits => one(alloc, row, &[Sort::Bits, Sort::Int], Sort::Bits),
        Row::NotBits => one(alloc, row, &[Sort::Bits], Sort::Bits),
        Row::LtU
        | Row::LteqU
        | Row::GtU
        | Row::GteqU
        | Row::LtS
        | Row::LteqS
        | Row::GtS
        | Row::GteqS => one(alloc, row, &[Sort::Bits, Sort::Bits], Sort::Bool),
        Row::ZeroExtend | Row::SignExtend | Row::MemRead | Row::MemReserve => one(
            alloc,
            row,
            &[Sort::Int, Sort::Bits],
            Sort::Bits,
        ),
        Row::Zeros | Row::Ones => one(alloc, row, &[Sort::Int], Sort::Bits),
        Row::Unsigned | Row::Signed | Row::CountLeadingZeros => one(
            alloc,
            row,
            &[Sort::Bits],
            Sort::Int,
        ),
        Row::ToBits => one(alloc, row, &[Sort::Int, Sort::Int], Sort::Bits),
        Row::BoolToBits => one(alloc, row, &[Sort::Bool], Sort::Bits),
        Row::VectorInit => one(alloc, row, &[Sort::Int, Sort::Item], Sort::Items),
        Row::ConcatStr => one(alloc, row, &[Sort::String, Sort::String], Sort::String),
        Row::DecStr => one(alloc, row, &[Sort::Int], Sort::String),
        Row::BitsStr => one(alloc, row, &[Sort::Bits], Sort::String),
        Row::MemWrite => one(alloc, row, &[Sort::Int, Sort::Bits, Sort::Bits], Sort::Unit),
        Row::MemWriteCond => one(alloc, row, &[Sort::Int, Sort::Bits, Sort::Bits], Sort::Bool),
        Row::MemMapped => one(alloc, row, &[Sort::Int, Sort::Bits], Sort::Bool),
        Row::Print | Row::PrintEndline => one(alloc, row, &[Sort::String], Sort::Unit),
        Row::ConsolePut => one(alloc, row, &[Sort::Bits], Sort::Unit),
    }
}

fn lengths(alloc: Global) -> Result<Items<Member>, AllocError>
    ensures { IfOk result (λ made. made ≡ lengths_of) }
{
    let mut members = Items::new(alloc);
    members.push(make_member(alloc, Row::Length, &[Sort::Bits], Sort::Int)?)?;
    members.push(make_member(alloc, Row::Length, &[Sort::Items], Sort::Int)?)?;
    Ok(members)
}

/// The members of rows, one row after another. It fails where memory is wanting.
pub fn rows_members(alloc: Global, types: &Types, rows: &[Row]) -> Result<Items<Member>, AllocError>
    ensures { IfOk result (λ made. made ≡ members_of types.now rows.now) }
{
    let mut members = Items::new(alloc);
    for row in rows {
        members.append(row_members(alloc, types, *row)?)?;
    }
    Ok(members)
}
