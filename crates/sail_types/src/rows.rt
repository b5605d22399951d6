ghost use Rattle.std.specs.Prelude.{◌≡◌, find, bytes_eq};
ghost use Rattle.sail_types.specs.Rows.{row_name as name_of, row_named as named, operator_rows as rows_of_operator, prefix_rows as rows_of_prefix};

use sail_base::{Operator, Prefix};

/// The builtins, by the names that models call them; those from `mem_read` on read or write the state. The
/// members of an operator are tried in this order.
#[derive(Clone, Copy, PartialEq, Eq, Debug)]
pub enum Row {
    /// `add_int`
    AddInt,
    /// `sub_int`
    SubInt,
    /// `mult_int`
    MultInt,
    /// `neg_int`
    NegInt,
    /// `pow2`
    Pow2,
    /// `abs_int`
    AbsInt,
    /// `min_int`
    MinInt,
    /// `max_int`
    MaxInt,
    /// `ediv_int`
    EdivInt,
    /// `emod_int`
    EmodInt,
    /// `tdiv_int`
    TdivInt,
    /// `tmod_int`
    TmodInt,
    /// `lt_int`
    LtInt,
    /// `lteq_int`
    LteqInt,
    /// `gt_int`
    GtInt,
    /// `gteq_int`
    GteqInt,
    /// `eq`
    Eq,
    /// `neq`
    Neq,
    /// `not_bool`
    NotBool,
    /// `add_bits`
    AddBits,
    /// `sub_bits`
    SubBits,
    /// `mult_bits`
    MultBits,
    /// `add_bits_int`
    AddBitsInt,
    /// `sub_bits_int`
    SubBitsInt,
    /// `and_bits`
    AndBits,
    /// `or_bits`
    OrBits,
    /// `xor_bits`
    XorBits,
    /// `not_bits`
    NotBits,
    /// `shiftl`
    Shiftl,
    /// `shiftr`
    Shiftr,
    /// `arith_shiftr`
    ArithShiftr,
    /// `shiftl_bits`
    ShiftlBits,
    /// `shiftr_bits`
    ShiftrBits,
    /// `arith_shiftr_bits`
    ArithShiftrBits,
    /// `lt_u`
    LtU,
    /// `lteq_u`
    LteqU,
    /// `gt_u`
    GtU,
    /// `gteq_u`
    GteqU,
    /// `lt_s`
    LtS,
    /// `lteq_s`
    LteqS,
    /// `gt_s`
    GtS,
    /// `gteq_s`
    GteqS,
    /// `append`
    Append,
    /// `zero_extend`
    ZeroExtend,
    /// `sign_extend`
    SignExtend,
    /// `truncate`
    Truncate,
    /// `zeros`
    Zeros,
    /// `ones`
    Ones,
    /// `replicate_bits`
    ReplicateBits,
    /// `unsigned`
    Unsigned,
    /// `signed`
    Signed,
    /// `to_bits`
    ToBits,
    /// `length`
    Length,
    /// `mul_wide_uu`
    MulWideUu,
    /// `mul_wide_ss`
    MulWideSs,
    /// `mul_wide_su`
    MulWideSu,
    /// `count_leading_zeros`
    CountLeadingZeros,
    /// `bool_to_bits`
    BoolToBits,
    /// `vector_init`
    VectorInit,
    /// `concat_str`
    ConcatStr,
    /// `dec_str`
    DecStr,
    /// `bits_str`
    BitsStr,
    /// `mem_read`
    MemRead,
    /// `mem_reserve`
    MemReserve,
    /// `mem_write`
    MemWrite,
    /// `mem_write_cond`
    MemWriteCond,
    /// `mem_mapped`
    MemMapped,
    /// `print`
    Print,
    /// `print_endline`
    PrintEndline,
    /// `console_put`
    ConsolePut,
}

/// All of them, in order.
pub static ALL: [Row; 70] = [
    Row::AddInt,
    Row::SubInt,
    Row::MultInt,
    Row::NegInt,
    Row::Pow2,
    Row::AbsInt,
    Row::MinInt,
    Row::MaxInt,
    Row::EdivInt,
    Row::EmodInt,
    Row::TdivInt,
    Row::TmodInt,
    Row::LtInt,
    Row::LteqInt,
    Row::GtInt,
    Row::GteqInt,
    Row::Eq,
    Row::Neq,
    Row::NotBool,
    Row::AddBits,
    Row::SubBits,
    Row::MultBits,
    Row::AddBitsInt,
    Row::SubBitsInt,
    Row::AndBits,
    Row::OrBits,
    Row::XorBits,
    Row::NotBits,
    Row::Shiftl,
    Row::Shiftr,
    Row::ArithShiftr,
    Row::ShiftlBits,
    Row::ShiftrBits,
    Row::ArithShiftrBits,
    Row::LtU,
    Row::LteqU,
    Row::GtU,
    Row::GteqU,
    Row::LtS,
    Row::LteqS,
    Row::GtS,
    Row::GteqS,
    Row::Append,
    Row::ZeroExtend,
    Row::SignExtend,
    Row::Truncate,
    Row::Zeros,
    Row::Ones,
    Row::ReplicateBits,
    Row::Unsigned,
    Row::Signed,
    Row::ToBits,
    Row::Length,
    Row::MulWideUu,
    Row::MulWideSs,
    Row::MulWideSu,
    Row::CountLeadingZeros,
    Row::BoolToBits,
    Row::VectorInit,
    Row::ConcatStr,
    Row::DecStr,
    Row::BitsStr,
    Row::MemRead,
    Row::MemReserve,
    Row::MemWrite,
    Row::MemWriteCond,
    Row::MemMapped,
    Row::Print,
    Row::PrintEndline,
    Row::ConsolePut,
];

/// The name that models call a row.
pub fn row_name(row: Row) -> &'static str
    ensures { result.now ≡ name_of row }
{
    match row {
        Row::AddInt => "add_int",
        Row::SubInt => "sub_int",
        Row::MultInt => "mult_int",
        Row::NegInt => "neg_int",
        Row::Pow2 => "pow2",
        Row::AbsInt => "abs_int",
        Row::MinInt => "min_int",
        Row::MaxInt => "max_int",
        Row::EdivInt => "ediv_int",
        Row::EmodInt => "emod_int",
        Row::TdivInt => "tdiv_int",
        Row::TmodInt => "tmod_int",
        Row::LtInt => "lt_int",
        Row::LteqInt => "lteq_int",
        Row::GtInt => "gt_int",
        Row::GteqInt => "gteq_int",
        Row::Eq => "eq",
        Row::Neq => "neq",
        Row::NotBool => "not_bool",
        Row::AddBits => "add_bits",
        Row::SubBits => "sub_bits",
        Row::MultBits => "mult_bits",
        Row::AddBitsInt => "add_bits_int",
        Row::SubBitsInt => "sub_bits_int",
        Row::AndBits => "and_bits",
        Row::OrBits => "or_bits",
        Row::XorBits => "xor_bits",
        Row::NotBits => "not_bits",
        Row::Shiftl => "shiftl",
        Row::Shiftr => "shiftr",
        Row::ArithShiftr => "arith_shiftr",
        Row::ShiftlBits => "shiftl_bits",
        Row::ShiftrBits => "shiftr_bits",
        Row::ArithShiftrBits => "arith_shiftr_bits",
        Row::LtU => "lt_u",
        Row::LteqU => "lteq_u",
        Row::GtU => "gt_u",
        Row::GteqU => "gteq_u",
        Row::LtS => "lt_s",
        Row::LteqS => "lteq_s",
        Row::GtS => "gt_s",
        Row::GteqS => "gteq_s",
        Row::Append => "append",
        Row::ZeroExtend => "zero_extend",
        Row::SignExtend => "sign_extend",
        Row::Truncate => "truncate",
        Row::Zeros => "zeros",
        Row::Ones => "ones",
        Row::ReplicateBits => "replicate_bits",
        Row::Unsigned => "unsigned",
        Row::Signed => "signed",
        Row::ToBits => "to_bits",
        Row::Length => "length",
        Row::MulWideUu => "mul_wide_uu",
        Row::MulWideSs => "mul_wide_ss",
        Row::MulWideSu => "mul_wide_su",
        Row::CountLeadingZeros => "count_leading_zeros",
        Row::BoolToBits => "bool_to_bits",
        Row::VectorInit => "vector_init",
        Row::ConcatStr => "concat_str",
        Row::DecStr => "dec_str",
        Row::BitsStr => "bits_str",
        Row::MemRead => "mem_read",
        Row::MemReserve => "mem_reserve",
        Row::MemWrite => "mem_write",
        Row::MemWriteCond => "mem_write_cond",
        Row::MemMapped => "mem_mapped",
        Row::Print => "print",
        Row::PrintEndline => "print_endline",
        Row::ConsolePut => "console_put",
    }
}

/// The first of these rows that has this name.
fn find_row(rows: &[Row], name: &str) -> Option<Row>
    ensures { result ≡ find (λ row. bytes_eq (name_of row) name.now) rows.now }
{
    for row in rows {
        if row_name(*row) == name {
            return Some(*row);
        }
    }
    None
}

/// The row of this name.
#[tactic(auto, unfolding(crate::specs::Rows::all_rows))]
pub fn row_named(name: &str) -> Option<Row>
    ensures { result ≡ named name.now }
{
    find_row(&ALL, name)
}

/// The rows that an operator may mean, in order; `::` means none.
pub fn operator_rows(operator: Operator) -> &'static [Row]
    ensures { result.now ≡ rows_of_operator operator }
{
    match operator {
        Operator::Caret => &[Row::XorBits, Row::ConcatStr],
        Operator::Star => &[Row::MultInt, Row::MultBits],
        Operator::ShiftLeft => &[Row::Shiftl, Row::ShiftlBits],
        Operator::ShiftRight => &[Row::Shiftr, Row::ShiftrBits],
        Operator::Plus => &[Row::AddInt, Row::AddBits, Row::AddBitsInt],
        Operator::Minus => &[Row::SubInt, Row::SubBits, Row::SubBitsInt],
        Operator::Append => &[Row::Append],
        Operator::Equal => &[Row::Eq],
        Operator::NotEqual => &[Row::Neq],
        Operator::Less => &[Row::LtInt],
        Operator::LessEqual => &[Row::LteqInt],
        Operator::Greater => &[Row::GtInt],
        Operator::GreaterEqual => &[Row::GteqInt],
        Operator::LessUnsigned => &[Row::LtU],
        Operator::LessEqualUnsigned => &[Row::LteqU],
        Operator::GreaterUnsigned => &[Row::GtU],
        Operator::GreaterEqualUnsigned => &[Row::GteqU],
        Operator::LessSigned => &[Row::LtS],
        Operator::LessEqualSigned => &[Row::LteqS],
        Operator::GreaterSigned => &[Row::GtS],
        Operator::GreaterEqualSigned => &[Row::GteqS],
        Operator::And => &[Row::AndBits],
        Operator::Or => &[Row::OrBits],
        Operator::Cons => &[],
    }
}

/// The rows that a sign or a word before an operand may mean, in order.
pub fn prefix_rows(prefix: Prefix) -> &'static [Row]
    ensures { result.now ≡ rows_of_prefix prefix }
{
    match prefix {
        Prefix::Negate => &[Row::NegInt],
        Prefix::Power => &[Row::Pow2],
        Prefix::Tilde => &[Row::NotBool, Row::NotBits],
        Prefix::Not => &[Row::NotBool],
    }
}
