use crate::models::answer;
use std::alloc::{AllocError, Global};
use std::test::Fail;

// A text of a beginning, a part so many times, a middle, another part as often, and an end.
fn text(
    alloc: Global,
    begin: &str,
    open: &str,
    middle: &str,
    close: &str,
    end: &str,
    times: usize,
) -> Result<String, AllocError> {
    let mut text = String::new(alloc);
    text.push_str(begin)?;
    for _ in 0..times {
        text.push_str(open)?;
    }
    text.push_str(middle)?;
    for _ in 0..times {
        text.push_str(close)?;
    }
    text.push_str(end)?;
    Ok(text)
}

/// How a text begins, what opens in it so many times at most, what stands inside, what closes, and its end.
struct Levels(
    &'static str,
    &'static str,
    &'static str,
    &'static str,
    &'static str,
    usize,
);

static LEVELS: [Levels; 53] = [
    Levels("type t = ", "(", "int", ")", "", 128),
    Levels("type t = ", "f(", "int", ")", "", 128),
    Levels("type t = ", "{'n. ", "int", "}", "", 128),
    Levels("type t = ", "- ", "1", "", "", 128),
    Levels("type t = ", "2 ^ ", "1", "", "", 128),
    Levels("type t = ", "a * ", "a", "", "", 128),
    Levels("type t = ", "a - ", "a", "", "", 128),
    Levels("type t = ", "a & ", "a", "", "", 128),
    Levels("type t = ", "a | ", "a", "", "", 128),
    Levels("struct s = {f : ", "(", "int", ")", "}", 127),
    Levels("val f : forall 'n. ", "(", "int", ")", " -> int", 127),
    Levels("mapping clause m = ", "(", "a", ")", " <-> 1", 128),
    Levels("mapping clause m = ", "[", "a", "]", " <-> 1", 128),
    Levels("mapping clause m = ", "[|", "a", "|]", " <-> 1", 128),
    Levels("mapping clause m = ", "C(", "a", ")", " <-> 1", 128),
    Levels("mapping clause m = ", "a @ ", "a", "", " <-> 1", 128),
    Levels("mapping clause m = ", "a :: ", "a", "", " <-> 1", 128),
    Levels("function f(", "(", "a", " as b)", ") = 1", 126),
    Levels("let x = ", "(", "1", ")", "", 127),
    Levels("function f() = ", "(", "1", ")", "", 128),
    Levels("function f() = ", "[", "1", "]", "", 128),
    Levels("function f() = ", "[|", "1", "|]", "", 128),
    Levels("function f() = ", "{", "1", "}", "", 128),
    Levels("function f() = ", "g(", "1", ")", "", 128),
    Levels("function f() = ", "~(", "1", ")", "", 128),
    Levels("function f() = ", "a[", "1", "]", "", 128),
    Levels("function f() = ", "[v with 0 = ", "1", "]", "", 128),
    Levels("function f() = ", "struct {x = ", "1", "}", "", 128),
    Levels("function f() = ", "{p with x = ", "1", "}", "", 128),
    Levels("function f() = ", "- ", "1", "", "", 128),
    Levels("function f() = ", "2 ^ ", "1", "", "", 128),
    Levels("function f() = ", "a ^ ", "a", "", "", 128),
    Levels("function f() = ", "a * ", "a", "", "", 128),
    Levels("function f() = ", "a << ", "a", "", "", 128),
    Levels("function f() = ", "a + ", "a", "", "", 128),
    Levels("function f() = ", "a @ ", "a", "", "", 128),
    Levels("function f() = ", "a :: ", "a", "", "", 128),
    Levels("function f() = ", "a & ", "a", "", "", 128),
    Levels("function f() = ", "a | ", "a", "", "", 128),
    Levels("function f() = ", "if a then ", "b", "", "", 128),
    Levels("function f() = ", "if a then b else ", "b", "", "", 128),
    Levels("function f() = ", "match a {_ => ", "1", "}", "", 64),
    Levels("function f() = ", "let x = 1 in ", "x", "", "", 128),
    Levels("function f() = ", "var x = 1 in ", "x", "", "", 128),
    Levels("function f() = ", "try ", "1", " catch {_ => 1}", "", 127),
    Levels(
        "function f() = ",
        "foreach (i from 0 to 1) ",
        "1",
        "",
        "",
        127,
    ),
    Levels("function f() = ", "while a do ", "1", "", "", 128),
    Levels("function f() = ", "repeat ", "1", " until a", "", 128),
    Levels("function f() = ", "return ", "1", "", "", 128),
    Levels("function f() = ", "throw ", "1", "", "", 128),
    Levels("function f() = ", "exit ", "1", "", "", 128),
    Levels("function f() = {let x = ", "(", "1", ")", "}", 126),
    Levels("function f() = {var x = ", "(", "1", ")", "}", 126),
];

#[test]
fn the_129th_level_of_each_kind_is_refused(rt: HostRuntime) -> Result<(), Fail> {
    let alloc = rt.alloc();
    for row in &LEVELS {
        let most = text(alloc, row.0, row.1, row.2, row.3, row.4, row.5)?;
        assert!(rt;
            answer(alloc, &[most.as_str()])?.0 == '=',
            "{}{}",
            row.0,
            row.1
        );
        let more = text(
            alloc,
            row.0,
            row.1,
            row.2,
            row.3,
            row.4,
            row.5.saturating_add(1),
        )?;
        assert!(rt;
            answer(alloc, &[more.as_str()])?.0 == 'd',
            "one more: {}{}",
            row.0,
            row.1
        );
    }
    Ok(())
}

/// How a model of a million tokens begins, of what it is a chain, how often, and how it ends.
struct Chain(&'static str, &'static str, usize, &'static str);

static CHAINS: [Chain; 14] = [
    Chain("", "end f ", 500_000, ""),
    Chain("type t(", "'n, ", 499_995, "'n) = int"),
    Chain("enum e = A", "| A", 499_997, ""),
    Chain("struct s = {", "f: a,", 249_998, "}"),
    Chain("val f : forall ", "'n ", 999_990, ". a -> a"),
    Chain("function f(", "a,", 499_990, "a) = 1"),
    Chain("mapping m = {", "1<->2,", 249_998, "}"),
    Chain("overload f = {", "g, ", 499_997, "}"),
    Chain("function f() = g(", "a,", 499_990, "a)"),
    Chain("function f() = {", "a;", 499_990, "}"),
    Chain("function f() = a", ".f", 499_990, ""),
    Chain("function f() = ", "a=", 499_990, "a"),
    Chain("function f() = match a {", "x=>a,", 249_990, "}"),
    Chain("function f() = {p with ", "a=0,", 249_990, "}"),
];

#[test]
fn chains_of_a_million_tokens_are_read(rt: HostRuntime) -> Result<(), Fail> {
    let alloc = rt.alloc();
    for row in &CHAINS {
        let model = text(alloc, row.0, row.1, row.3, "", "", row.2)?;
        assert!(rt;
            answer(alloc, &[model.as_str()])?.0 == '=',
            "{}{}",
            row.0,
            row.1
        );
    }
    Ok(())
}
