ghost use Rattle.std.specs.Prelude.{◌≡◌};
ghost use Rattle.std.specs.List.{list_all};
ghost use Rattle.sail_declared.specs.Wanting.{is_annotated, is_typed_clause, is_typed as is_typed_body};

use sail_syntax::{Extent, FunctionClause, Pat};

/// Whether a parameter has its type.
fn is_annotated(pattern: &Pat) -> bool
    ensures { result ≡ is_annotated pattern.now }
{
    match pattern {
        Pat::Typed(_, _, _) => true,
        _ => false,
    }
}

fn are_annotated(patterns: &[Pat]) -> bool
    ensures { result ≡ list_all is_annotated patterns.now }
{
    for pattern in patterns {
        if !is_annotated(pattern) {
            return false;
        }
    }
    true
}

/// Whether a clause has the types of its parameters and of its result.
fn is_typed_clause(clause: &FunctionClause) -> bool
    ensures { result ≡ is_typed_clause clause.now }
{
    let has_result = clause.result.is_some();
    has_result && are_annotated(clause.parameters.as_slice())
}

fn are_typed_clauses(clauses: &[FunctionClause]) -> bool
    ensures { result ≡ list_all is_typed_clause clauses.now }
{
    for clause in clauses {
        if !is_typed_clause(clause) {
            return false;
        }
    }
    true
}

/// Whether a function's body has its types: those of all parameters and of the result, in one piece.
pub fn is_typed(extent: Extent, clauses: &[FunctionClause]) -> bool
    ensures { result ≡ is_typed_body extent clauses.now }
{
    match extent {
        Extent::Whole => are_typed_clauses(clauses),
        Extent::Gathered => false,
    }
}
