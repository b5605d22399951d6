ghost use Rattle.std.specs.Prelude.{IfOk};
ghost use Rattle.sail_grammar.specs.Joined.{HaveTexts};

use sail_base::Place;
use sail_grammar::ParseError;
use sail_lex::{Tokens, lex};
use sail_parse_def::parse_model;
use sail_syntax::Def;
use std::alloc::{AllocError, Global};
use std::test::Fail;

/// What comes of a model's texts, and where: `=` a model, `x` refused as unfit, `-` at its end, `o` left out or
/// forbidden, `d` too deep.
#[derive(Clone, Copy)]
pub(crate) struct Found(pub(crate) char, pub(crate) Place);

// The tokens of a text. It fails where it has none.
fn tokens_of(alloc: Global, text: &str, file: u32) -> Result<Tokens<'_>, AllocError>
    ensures { IfOk result HaveTexts }
{
    let source = text.as_bytes();
    if source.len() > 4_194_304 {
        return Err(AllocError);
    }
    match lex(alloc, source, file, 0) {
        Ok(tokens) => Ok(tokens),
        Err(_) => Err(AllocError),
    }
}

// The model of these texts, a file each, or why there is none.
pub(crate) fn read(
    alloc: Global,
    texts: &[&str],
) -> Result<Result<Vec<Def>, ParseError>, AllocError> {
    let mut files = Vec::new(alloc);
    let mut file = 1;
    for text in texts {
        let tokens = tokens_of(alloc, text, file)?;
        files.push(tokens)?;
        file = file.wrapping_add(1);
    }
    Ok(parse_model(alloc, files.as_slice()))
}

// What comes of a model of these texts.
pub(crate) fn answer(alloc: Global, texts: &[&str]) -> Result<Found, AllocError> {
    Ok(told(read(alloc, texts)?))
}

fn told(model: Result<Vec<Def>, ParseError>) -> Found {
    let nowhere = Place {
        file: 0,
        line: 0,
        column: 0,
    };
    match model {
        Ok(_) => Found('=', nowhere),
        Err(ParseError::Outside(place, _)) => Found('o', place),
        Err(ParseError::Syntax(place, Some(_))) => Found('x', place),
        Err(ParseError::Syntax(place, None)) => Found('-', place),
        Err(ParseError::TooDeep(place)) => Found('d', place),
        Err(ParseError::OutOfMemory) => Found('m', nowhere),
    }
}

/// A text, what comes of it, and the column in its one line.
struct Row(&'static str, char, u32);

static ROWS: [Row; 95] = [
    // definitions
    Row("", '=', 0),
    Row("default Order dec", '=', 0),
    Row("default Order inc", 'o', 15),
    Row("default dec", 'x', 9),
    Row("Order", 'o', 1),
    Row("type t = int", '=', 0),
    Row("type t('n, 'm : Bool) : Int = 'n", '=', 0),
    Row("type t('n : Nat) = 'n", 'x', 13),
    Row("type t() = int", 'x', 8),
    Row("type t = ", '-', 10),
    Row("enum e = {A, B,}", '=', 0),
    Row("enum e = A | B | C", '=', 0),
    Row("enum e = {}", 'x', 11),
    Row("enum e = A | {B}", 'x', 14),
    Row("struct s = {f : int, g : bool}", '=', 0),
    Row("struct s = {f int}", 'x', 15),
    Row("struct s = {f : int,, g : int}", 'x', 21),
    Row("union u('a : Type) = {C : 'a, D : unit}", '=', 0),
    Row("union clause u = C : int", '=', 0),
    Row("union clause u('a) = C : int", 'x', 15),
    Row("val f : int -> int", '=', 0),
    Row(
        "val f : forall 'n ('m : Bool), 'n > 0. int('n) -> int",
        '=',
        0,
    ),
    Row("val m : int <-> bits(2)", '=', 0),
    Row("val f : forall. int -> int", '=', 0),
    Row("val f = int -> int", 'x', 7),
    Row("val f : int", '-', 12),
    Row("mapping m : int <-> int = {0 <-> 1, 1 <-> 0,}", '=', 0),
    Row("mapping clause m = 0b1 <-> A()", '=', 0),
    Row("mapping m = {_ <-> 1}", 'x', 14),
    Row("mapping m = {1 -> 1}", 'x', 16),
    Row("register r : bits(32)", '=', 0),
    Row("register r = 1", 'x', 12),
    Row("overload f = {g, h}", '=', 0),
    Row("overload operator + = {g}", '=', 0),
    Row("overload operator f = {g}", 'x', 19),
    Row(
        "scattered union u scattered function f scattered mapping m",
        '=',
        0,
    ),
    Row("scattered enum e", 'x', 11),
    Row("end u end f", '=', 0),
    Row("end", '-', 4),
    Row("typing t = int", 'x', 1),
    // types
    Row("type t = {'n, 'n > 0. int('n)}", '=', 0),
    Row("type t = {'n 'm. (int('n), int('m))}", '=', 0),
    Row(
        "type t = 'n + 2 ^ 3 * 'm == 4 & not(true) | 'k in {1, 2}",
        '=',
        0,
    ),
    Row("type t = 1 == 2 == 3", 'x', 17),
    Row("type t = (int, )", 'x', 16),
    Row("type t = bits(", '-', 15),
    // patterns
    Row(
        "mapping m = {(x, -5, \"s\", [a, b], [||], C(y)) <-> a @ b @ 0x1}",
        '=',
        0,
    ),
    Row("mapping m = {a :: b :: [| |] <-> x : int}", '=', 0),
    Row("mapping m = {x as y <-> 1}", 'x', 16),
    Row("mapping m = {- x <-> 1}", 'x', 16),
    Row("mapping m = {[] <-> 1}", 'x', 15),
    Row("mapping m = {(x <-> 1}", 'x', 17),
    Row("mapping m = {a @ <-> 1}", 'x', 18),
    Row("mapping m = {C( <-> 1}", 'x', 17),
    // levels
    Row("type t = a | b | c", '=', 0),
    Row("enum e = A | B }", 'x', 16),
    Row("type t = ((((((((int))))))))", '=', 0),
    Row("mapping m = {1 <-> 2} }", 'x', 23),
    Row("struct s = {f : {'n. 'n}, g : int} 5", 'x', 36),
    Row("val f : int -> int ;", 'x', 20),
    // expressions
    Row("function f(x, y) -> int = x + y", '=', 0),
    Row("function clause f((x, _)) = x", '=', 0),
    Row("function f() = return 1", '=', 0),
    Row("function f = 1", 'x', 12),
    Row("function f(x) if x = 1", 'x', 15),
    Row("function f(struct {a}) = 1", 'x', 12),
    Row("function f() = undefined", 'o', 16),
    Row("function f() = a.b(1)", 'x', 19),
    Row("function f() = g(a)(b)", 'x', 20),
    Row("function f() = a @ b = c", 'x', 22),
    Row("function f() = a < b < c", 'x', 22),
    Row("function f() = a + if b then c", 'x', 20),
    Row("val f : () -> unit", 'x', 10),
    Row("termination_measure f(x) = x", '=', 0),
    Row("termination_measure f(x) = {x}", 'o', 28),
    Row("let (x, y) : t = if a then b else c", '=', 0),
    Row("let x = match a {_ => 1}", '=', 0),
    Row("let x = let y = 1 in y", '=', 0),
    Row("let x = {p with f = 1,}", '=', 0),
    Row("let x = a = b", 'o', 9),
    Row("let x = {1}", 'o', 9),
    Row("let x = {}", 'o', 9),
    Row("let x = {1)", 'x', 11),
    Row("let x = {1", '-', 11),
    Row("let x = f(return 1)", 'o', 11),
    Row("let x = throw a", 'o', 9),
    Row("let x = exit ()", 'o', 9),
    Row("let x = assert(a)", 'o', 9),
    Row("let x = try a catch {_ => b}", 'o', 9),
    Row("let x = while a do b", 'o', 9),
    Row("register r : int = 1", '=', 0),
    Row("register r : int = repeat a until b", 'o', 20),
    Row("register r : int = foreach (i from 0 to 1) a", 'o', 20),
    Row("mapping clause m = x if x > 1 <-> y if return a", '=', 0),
    Row("scattered mapping m : a <-> b", 'x', 21),
];

#[test]
fn texts_are_models_or_refused_at_their_first_unfit_token(rt: HostRuntime) -> Result<(), Fail> {
    let alloc = rt.alloc();
    for row in &ROWS {
        let found = answer(alloc, &[row.0])?;
        assert!(rt; found.0 == row.1 && found.1.column == row.2, "{}", row.0);
    }
    Ok(())
}

/// The texts of a model, a file each, what comes of them, and the file, the line and the column.
struct Files(&'static [&'static str], char, u32, u32, u32);

static FILES: [Files; 11] = [
    Files(&[], '=', 0, 0, 0),
    Files(&[""], '=', 0, 0, 0),
    Files(&["type t =", "int"], '=', 0, 0, 0),
    Files(&["type", "t = bits(", "2", ")"], '=', 0, 0, 0),
    Files(&["type t = int", "", "val f : t -> t"], '=', 0, 0, 0),
    Files(&["type t =", ""], '-', 2, 1, 1),
    Files(&["type t =\n"], '-', 1, 2, 1),
    Files(&["type t =", "int )"], 'x', 2, 1, 5),
    Files(&["type t = int", "\n\nstruct"], '-', 2, 3, 7),
    Files(&["default Order", "inc"], 'o', 2, 1, 1),
    Files(&["type t = )", "type t = ]"], 'x', 1, 1, 10),
];

#[test]
fn files_are_one_model(rt: HostRuntime) -> Result<(), Fail> {
    let alloc = rt.alloc();
    for row in &FILES {
        let found = answer(alloc, row.0)?;
        assert!(rt;
            found.0 == row.1
                && found.1.file == row.2
                && found.1.line == row.3
                && found.1.column == row.4,
            "{} in file {}",
            found.0,
            found.1.file
        );
    }
    Ok(())
}
