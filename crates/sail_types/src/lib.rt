//! Numbers of types, constraints, types, shapes and values, and the table of named types and of the
//! builtin rows.
#![tactic(auto)]

mod constraints;
pub mod laws;
mod members;
mod numbers;
mod rows;
mod shapes;
mod shaping;
mod small;
mod substitution;
mod sums;
mod table;
mod texts;
mod types;
mod value_texts;
mod values;
mod values_of;
mod zero;

pub use constraints::{
    copy_con, copy_index, read_con, read_index, read_indices, same_con, same_index,
};
pub use members::{Member, row_members, rows_members};
pub use numbers::{Atom, Comparison, Con, Index, Num, Term};
pub use rows::{ALL, Row, operator_rows, prefix_rows, row_name, row_named};
pub use sail_base::{Boxed, Items};
pub use shapes::Shape;
pub use shaping::{
    copy_shape, copy_shapes, may_share, parts_may_share, same_shape, same_shapes, shape_of,
    shapes_of,
};
pub use small::{is_small, small_power, small_product, small_sum};
pub use substitution::{read_number, subst};
pub use sums::{add, copy_atom, copy_num, multiply, plus, power, same_atom, same_num, subtract};
pub use table::{Definition, Field, Form, Parameter, Types};
pub use texts::{push_atom, push_integer, push_number, push_shape};
pub use types::Typ;
pub use value_texts::{push_bits, push_value};
pub use values::Value;
pub use values_of::{copy_value, copy_values, same_value, same_values};
pub use zero::{deepest, known_number, zero_of};
