//! What the builtins take and give.
ghost use Rattle.std.specs.Prelude.{◌≡◌};
ghost use Rattle.jib.specs.Sorts.{is_comparable, takes as takes_of, gives as gives_of};
ghost use Rattle.row_types.specs.Calls.{has_state as has_state_of};

use crate::types::Sort;
use sail_types::Row;

/// Whether values of a sort can be compared.
pub fn comparable(sort: Sort) -> bool
    ensures { result ≡ is_comparable sort }
{
    match sort {
        Sort::List | Sort::Vector | Sort::Tuple | Sort::Struct | Sort::Union => false,
        _ => true,
    }
}

/// The sorts that a builtin takes, but for `eq`, `neq`, `length` and `vector_init`.
pub fn takes(row: Row) -> &'static [Sort]
    ensures { result.now ≡ takes_of row }
{
    match row {
        Row::AddInt | Row::SubInt | Row::MultInt => &[Sort::Integer, Sort::Integer],
        Row::MinInt | Row::MaxInt => &[Sort::Integer, Sort::Integer],
        Row::EdivInt | Row::EmodInt | Row::TdivInt | Row::TmodInt => {
            &[Sort::Integer, Sort::Integer]
        }
        Row::LtInt | Row::LteqInt | Row::GtInt | Row::GteqInt => &[Sort::Integer, Sort::Integer],
        Row::ToBits => &[Sort::Integer, Sort::Integer],
        Row::NegInt | Row::Pow2 | Row::AbsInt => &[Sort::Integer],
        Row::Zeros | Row::Ones | Row::DecStr => &[Sort::Integer],
        Row::NotBool | Row::BoolToBits => &[Sort::Truth],
        Row::AddBitsInt | Row::SubBitsInt => &[Sort::Bits, Sort::Integer],
        Row::Shiftl | Row::Shiftr | Row::ArithShiftr => &[Sort::Bits, Sort::Integer],
        Row::Truncate | Row::ReplicateBits => &[Sort::Bits, Sort::Integer],
        Row::ZeroExtend | Row::SignExtend => &[Sort::Integer, Sort::Bits],
        Row::MemRead | Row::MemReserve | Row::MemMapped => &[Sort::Integer, Sort::Bits],
        Row::MemWrite | Row::MemWriteCond => &[Sort::Integer, Sort::Bits, Sort::Bits],
        Row::NotBits | Row::Unsigned | Row::Signed => &[Sort::Bits],
        Row::CountLeadingZeros | Row::BitsStr | Row::ConsolePut => &[Sort::Bits],
        Row::ConcatStr => &[Sort::String, Sort::String],
        Row::Print | Row::PrintEndline => &[Sort::String],
        _ => &[Sort::Bits, Sort::Bits],
    }
}

/// The sort that a builtin gives.
pub fn gives(row: Row) -> Sort
    ensures { result ≡ gives_of row }
{
    match row {
        Row::AddInt | Row::SubInt | Row::MultInt | Row::NegInt => Sort::Integer,
        Row::Pow2 | Row::AbsInt | Row::MinInt | Row::MaxInt => Sort::Integer,
        Row::EdivInt | Row::EmodInt | Row::TdivInt | Row::TmodInt => Sort::Integer,
        Row::Unsigned | Row::Signed | Row::Length | Row::CountLeadingZeros => Sort::Integer,
        Row::LtInt | Row::LteqInt | Row::GtInt | Row::GteqInt => Sort::Truth,
        Row::Eq | Row::Neq | Row::NotBool => Sort::Truth,
        Row::LtU | Row::LteqU | Row::GtU | Row::GteqU => Sort::Truth,
        Row::LtS | Row::LteqS | Row::GtS | Row::GteqS => Sort::Truth,
        Row::MemWriteCond | Row::MemMapped => Sort::Truth,
        Row::VectorInit => Sort::Vector,
        Row::ConcatStr | Row::DecStr | Row::BitsStr => Sort::String,
        Row::MemWrite | Row::Print | Row::PrintEndline | Row::ConsolePut => Sort::Unit,
        _ => Sort::Bits,
    }
}

/// Whether a builtin reads or writes the state.
pub fn has_state(row: Row) -> bool
    ensures { result ≡ has_state_of row }
{
    match row {
        Row::MemRead | Row::MemReserve | Row::MemWrite | Row::MemWriteCond => true,
        Row::MemMapped | Row::Print | Row::PrintEndline | Row::ConsolePut => true,
        _ => false,
    }
}
