//! Certificates, points and limits as they are printed. A text is put behind a list of bytes; each call fails where memory is wanting.
ghost use Rattle.std.specs.Prelude.{◌≡◌, suc, min, ◌+◌, ◌++◌, ◌&&◌, IfOk, OnOk, codes};
ghost use Rattle.std.specs.Fmt.{signed_decimal};
ghost use Rattle.sail_types.specs.Texts.{text_at};
ghost use Rattle.linear.specs.Numbers.{is_zero};
ghost use Rattle.farkas.specs.Points as points;
ghost use Rattle.model_state.specs.Report.{number_text, place_text};
ghost use Rattle.obligations.specs.Texts as spec;

use crate::obligation::Obligation;
use farkas::{Case, Cert, FarkasError, Point, Step};
use linear::{Number, Row};
use sail_base::{Items, Place};
use sail_types::push_integer;
use std::alloc::AllocError;

/// The lesser one of two counts.
fn lesser(first: usize, second: usize) -> usize
    ensures { result ≡ min first second }
{
    if first < second { first } else { second }
}

/// Puts a word and an integer.
fn push_signed(out: &mut Vec<u8>, word: &[u8], number: i128) -> Result<(), AllocError>
    ensures { OnOk result (out.new.items ≡ out.old.items ++ (word.now ++ signed_decimal number)) }
{
    out.extend_from_slice(word)?;
    push_integer(out, number)
}

/// Puts a word and a number.
fn push_number(out: &mut Vec<u8>, word: &[u8], number: usize) -> Result<(), AllocError>
    ensures { OnOk result (out.new.items ≡ out.old.items ++ (word.now ++ number_text number)) }
{
    push_signed(out, word, number as i128)
}

/// Puts a coefficient and its variable, behind a plus unless it is the first one; nothing where it is 0. It answers whether there was
/// none so far.
fn push_term(
    out: &mut Vec<u8>,
    first: bool,
    coefficient: Number,
    name: &[u8],
) -> Result<bool, AllocError>
    ensures text { OnOk result (out.new.items ≡ out.old.items ++ spec.part_text first coefficient name.now) }
    ensures none { IfOk result (λ none. none ≡ (first && is_zero coefficient)) }
{
    if coefficient.is_zero() {
        return Ok(first);
    }
    if !first {
        out.extend_from_slice(b" + ")?;
    }
    push_integer(out, coefficient.value())?;
    out.extend_from_slice(b"*")?;
    out.extend_from_slice(name)?;
    Ok(false)
}

/// Puts a zero, for a sum that has no term.
fn push_zero(out: &mut Vec<u8>, none: bool) -> Result<(), AllocError>
    ensures { OnOk result (out.new.items ≡ out.old.items ++ spec.zero_text none) }
{
    if none {
        out.extend_from_slice(b"0")
    } else {
        Ok(())
    }
}

/// Puts a sum of coefficients, each times its variable; those that are 0 are left out.
fn push_sum(
    out: &mut Vec<u8>,
    names: &[Items<u8>],
    coefficients: &[Number],
) -> Result<(), AllocError>
    ensures { OnOk result (out.new.items ≡ out.old.items ++ spec.sum_text (spec.form_terms coefficients.now names.now)) }
{
    let count = lesser(coefficients.len(), names.len());
    let mut first = true;
    for place in 0..count {
        first = push_term(out, first, coefficients[place], names[place].as_slice())?;
    }
    push_zero(out, first)
}

/// Puts a row of this number.
fn push_row(
    out: &mut Vec<u8>,
    names: &[Items<u8>],
    number: usize,
    row: &Row,
) -> Result<(), AllocError>
    ensures { OnOk result (out.new.items ≡ out.old.items ++ spec.row_text names.now number row.now) }
{
    push_number(out, b"row ", number)?;
    out.extend_from_slice(b": ")?;
    push_sum(out, names, row.coefficients.as_slice())?;
    push_signed(out, b" <= ", row.bound.value())?;
    out.extend_from_slice(b"\n")
}

/// Puts rows, numbered from 1.
fn push_rows(out: &mut Vec<u8>, names: &[Items<u8>], rows: &[Row]) -> Result<(), AllocError>
    ensures { OnOk result (out.new.items ≡ out.old.items ++ spec.rows_text names.now 1 rows.now) }
{
    for place in 0..rows.len() {
        push_row(out, names, place + 1, &rows[place])?;
    }
    Ok(())
}

/// Puts a row of a step and how many times it is taken.
fn push_times(out: &mut Vec<u8>, word: &[u8], row: usize, times: Number) -> Result<(), AllocError>
    ensures { OnOk result (out.new.items ≡ out.old.items ++ (word.now ++ spec.times_text row times)) }
{
    push_number(out, word, row)?;
    push_signed(out, b" * ", times.value())
}

/// Puts the number of the step of this place behind so many rows and steps.
fn push_step_number(out: &mut Vec<u8>, before: usize, place: usize) -> Result<(), AllocError>
    ensures { OnOk result (out.new.items ≡ out.old.items ++ (codes "step " ++ number_text (suc (before + place)))) }
{
    push_signed(out, b"step ", before as i128 + place as i128 + 1)
}

/// Puts the step of this place behind so many rows and steps.
#[tactic(auto, using(std::proofs::Common::append_assoc))]
fn push_step(out: &mut Vec<u8>, before: usize, place: usize, step: &Step) -> Result<(), AllocError>
    ensures { OnOk result (out.new.items ≡ out.old.items ++ spec.step_text (suc (before + place)) step.now) }
{
    push_step_number(out, before, place)?;
    push_times(out, b": ", step.first, step.first_times)?;
    push_times(out, b" + ", step.second, step.second_times)?;
    push_signed(out, b" / ", step.divisor.value())?;
    out.extend_from_slice(b"\n")
}

/// Puts steps, numbered on from so many rows.
fn push_steps(out: &mut Vec<u8>, rows: usize, steps: &[Step]) -> Result<(), AllocError>
    ensures { OnOk result (out.new.items ≡ out.old.items ++ spec.steps_text (suc rows) steps.now) }
{
    for place in 0..steps.len() {
        push_step(out, rows, place, &steps[place])?;
    }
    Ok(())
}

/// Puts a case of this number.
fn push_case(
    out: &mut Vec<u8>,
    names: &[Items<u8>],
    number: usize,
    case: &Case,
) -> Result<(), AllocError>
    ensures { OnOk result (out.new.items ≡ out.old.items ++ spec.case_text names.now number case.now) }
{
    push_number(out, b"case ", number)?;
    out.extend_from_slice(b"\n")?;
    push_rows(out, names, case.starts.as_slice())?;
    push_steps(out, case.starts.len(), case.steps.as_slice())
}

/// Puts cases, numbered from 1.
fn push_cases(out: &mut Vec<u8>, names: &[Items<u8>], cases: &[Case]) -> Result<(), AllocError>
    ensures { OnOk result (out.new.items ≡ out.old.items ++ spec.cases_text names.now 1 cases.now) }
{
    for place in 0..cases.len() {
        push_case(out, names, place + 1, &cases[place])?;
    }
    Ok(())
}

/// Puts a word and a place as file, line and column.
fn push_place(out: &mut Vec<u8>, word: &[u8], place: Place) -> Result<(), AllocError>
    ensures { OnOk result (out.new.items ≡ out.old.items ++ (word.now ++ place_text place)) }
{
    push_signed(out, word, place.file as i128)?;
    push_signed(out, b":", place.line as i128)?;
    push_signed(out, b":", place.column as i128)
}

/// Puts the end of a line.
fn push_end(out: &mut Vec<u8>) -> Result<(), AllocError>
    ensures { OnOk result (out.new.items ≡ out.old.items ++ codes "\n") }
{
    out.extend_from_slice(b"\n")
}

/// Puts the line of an obligation of this number.
fn push_heading(out: &mut Vec<u8>, number: usize, place: Place) -> Result<(), AllocError>
    ensures { OnOk result (out.new.items ≡ out.old.items ++ spec.heading_text number place) }
{
    push_number(out, b"obligation ", number)?;
    push_place(out, b" ", place)?;
    push_end(out)
}

/// Puts an obligation of this number with its certificate.
fn push_certificate(
    out: &mut Vec<u8>,
    number: usize,
    obligation: &Obligation,
    certificate: &Cert,
) -> Result<(), AllocError>
    ensures { OnOk result (out.new.items ≡ out.old.items ++ spec.obligation_text number obligation.now certificate.now) }
{
    push_heading(out, number, obligation.place)?;
    push_cases(
        out,
        obligation.names.as_slice(),
        certificate.cases.as_slice(),
    )
}

/// Puts obligations, numbered from 1, each with the certificate at its place.
pub fn push_certificates(
    out: &mut Vec<u8>,
    obligations: &[Obligation],
    certificates: &[Cert],
) -> Result<(), AllocError>
    ensures { OnOk result (out.new.items ≡ out.old.items ++ spec.certs_text obligations.now certificates.now) }
{
    let count = lesser(obligations.len(), certificates.len());
    for place in 0..count {
        push_certificate(out, place + 1, &obligations[place], &certificates[place])?;
    }
    Ok(())
}

/// A number over a common part.
fn part(number: Number, common: Number) -> Number
    ensures { result ≡ points.part number common }
{
    if common.is_zero() {
        number
    } else {
        number.over(common)
    }
}

/// Puts a denominator; nothing where it is 1.
fn push_over(out: &mut Vec<u8>, denominator: i128) -> Result<(), AllocError>
    ensures { OnOk result (out.new.items ≡ out.old.items ++ spec.over_text denominator) }
{
    if denominator == 1 {
        return Ok(());
    }
    push_signed(out, b"/", denominator)
}

/// Puts a fraction in lowest terms.
fn push_fraction(
    out: &mut Vec<u8>,
    numerator: Number,
    denominator: Number,
) -> Result<(), AllocError>
    ensures { OnOk result (out.new.items ≡ out.old.items ++ spec.fraction_text numerator denominator) }
{
    let common = numerator.divisor_with(denominator);
    push_integer(out, part(numerator, common).value())?;
    push_over(out, part(denominator, common).value())
}

/// Puts a variable's name and its value, behind a comma unless it is the first one.
fn push_value(
    out: &mut Vec<u8>,
    first: bool,
    name: &[u8],
    numerator: Number,
    denominator: Number,
) -> Result<(), AllocError>
    ensures { OnOk result (out.new.items ≡ out.old.items ++ spec.separated first (codes ", ") (spec.value_text name.now numerator denominator)) }
{
    if !first {
        out.extend_from_slice(b", ")?;
    }
    out.extend_from_slice(name)?;
    out.extend_from_slice(b" = ")?;
    push_fraction(out, numerator, denominator)
}

/// Puts a point, by variables of these names; nothing where there are none.
pub fn push_point(out: &mut Vec<u8>, names: &[Items<u8>], point: &Point) -> Result<(), AllocError>
    ensures { OnOk result (out.new.items ≡ out.old.items ++ spec.point_text names.now point.now) }
{
    let numerators = point.numerators.as_slice();
    let count = lesser(numerators.len(), names.len());
    for place in 0..count {
        push_value(
            out,
            place == 0,
            names[place].as_slice(),
            numerators[place],
            point.denominator,
        )?;
    }
    Ok(())
}

/// Puts a variable's name; nothing past the end.
fn push_name(out: &mut Vec<u8>, names: &[Items<u8>], variable: usize) -> Result<(), AllocError>
    ensures { OnOk result (out.new.items ≡ out.old.items ++ text_at names.now variable) }
{
    match names.get(variable) {
        None => Ok(()),
        Some(name) => out.extend_from_slice(name.as_slice()),
    }
}

/// Puts a limit of elimination, where variables have these names.
pub fn push_limit(
    out: &mut Vec<u8>,
    names: &[Items<u8>],
    limit: &FarkasError,
) -> Result<(), AllocError>
    ensures { OnOk result (out.new.items ≡ out.old.items ++ spec.limit_text names.now limit.now) }
{
    match limit {
        FarkasError::RowLimit { variable } => {
            out.extend_from_slice(b"rows ")?;
            push_name(out, names, *variable)
        }
        FarkasError::NumberLimit => out.extend_from_slice(b"number"),
        FarkasError::CaseLimit { count } => push_signed(out, b"cases ", *count as i128),
        FarkasError::OutOfMemory => Ok(()),
    }
}
