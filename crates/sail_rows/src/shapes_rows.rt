//! Models and what `check` writes for them, the status first, by the rules of shapes: the text, the body of a step behind it, and the
//! answer. Here stand what is wanted of forms, what branches give one another, and calls.

/// What is wanted of a form, and where it is found that another shape is there.
pub const WANTED: &str = r#"
% // the wanted shape goes through brackets, blocks, branches and bodies, to the innermost last expression
# ((0x1))
# 1 M14 1:4:21 wanted bool found bits
%
# { (); { let x = 1; x } }
# 1 M14 1:4:38 wanted bool found int
%
# if true then { 0x1 } else true
# 1 M14 1:4:34 wanted bool found bits
%
# if false then true else if true then () else true
# 1 M14 1:4:56 wanted bool found unit
%
# match 0x1 { 0x0 => true, _ => { ("a") } }
# 1 M14 1:4:52 wanted bool found string
%
union exception = { E : int }
# try 1 catch { E(n) => true }
# 1 M14 1:5:23 wanted bool found int
%
union exception = { E : int }
# try true catch { E(n) => n }
# 1 M14 1:5:44 wanted bool found int
%
# let x = 0x1 in x
# 1 M14 1:4:34 wanted bool found bits
%
# var x : bits(4) = 0x1 in x
# 1 M14 1:4:44 wanted bool found bits
%
val f : int -> int
function f(n) = if n < 1 then 0x1 else 2
# true
# 1 M14 1:2:31 wanted int found bits
%
function f() -> int = true
# true
# 1 M14 1:1:23 wanted int found bool
%
# { return 0x1; true }
# 1 M14 1:4:28 wanted bool found bits
% // of several failures the one with the least place is told
function f() -> int = true
val g : forall 'n. int -> int
function g(x) = x
# 0x1
# 1 M14 1:1:23 wanted int found bool
%
# { true; }
# 1 M14 1:4:19 wanted bool found unit
% // a block that ends with `;`, `let` or `var`, and one of nothing, is `()`, found at its bracket
# { (); }
# 1 M14 1:4:19 wanted bool found unit
%
# { let x = 0x1 }
# 1 M14 1:4:19 wanted bool found unit
%
# { (); { var x = 0x1 } }
# 1 M14 1:4:25 wanted bool found unit
%
# { }
# 1 M14 1:4:19 wanted bool found unit
% // what stands before a `;` is wanted to be unit
# { 0x01; true }
# 1 M14 1:4:21 wanted unit found bits
%
# { if true then 1 else (); true }
# 1 M14 1:4:34 wanted unit found int
%
register R : bits(8)
# { R = 0x01; (); { (); }; true }
# 0 accepted
% // without `else`, `if` is unit, and so is what it does
# if true then ()
# 1 M14 1:4:19 wanted bool found unit
%
# { if true then true; true }
# 1 M14 1:4:34 wanted unit found bool
% // a loop is unit, found at its word, and its body is wanted so
# foreach (i from 0 to 3) ()
# 1 M14 1:4:19 wanted bool found unit
%
# { foreach (i from 0 to 3) i; true }
# 1 M14 1:4:45 wanted unit found int
%
# { while termination_measure { 1 } false do 0x1; true }
# 1 M14 1:4:62 wanted unit found bits
%
# { repeat termination_measure { 1 } "a" until true; true }
# 1 M14 1:4:54 wanted unit found string
"#;

/// What is wanted of the parts of a form.
pub const WANTED_OF_PARTS: &str = r#"
% // conditions and guards are bool
# if 0x1 then true else false
# 1 M14 1:4:22 wanted bool found bits
%
# match 0x1 { 0x0 if 0b1 => true, _ => false }
# 1 M14 1:4:38 wanted bool found bits
%
# { while termination_measure { 1 } 1 do (); true }
# 1 M14 1:4:53 wanted bool found int
%
# { repeat termination_measure { 1 } () until (); true }
# 1 M14 1:4:63 wanted bool found unit
%
# { assert(1, "one"); true }
# 1 M14 1:4:28 wanted bool found int
%
# assert(true)
# 1 M14 1:4:19 wanted bool found unit
% // bounds, steps and measures are int
# { foreach (i from 0x0 to 3) (); true }
# 1 M14 1:4:37 wanted int found bits
%
# { foreach (i from 0 to true) (); true }
# 1 M14 1:4:42 wanted int found bool
%
# { foreach (i from 0 to 3 by 0x1) (); true }
# 1 M14 1:4:47 wanted int found bits
%
# { while termination_measure { true } false do (); true }
# 1 M14 1:4:49 wanted int found bool
%
val f : int -> int
function f(n) = f(n)
termination_measure f(n) = true
# true
# 1 M14 1:3:28 wanted int found bool
% // an annotation, an assignment and an initial value want their type's shape
# { let x : bits(8) = true; true }
# 1 M14 1:4:39 wanted bits found bool
%
# { var x : bits(8) = 1; true }
# 1 M14 1:4:39 wanted bits found int
%
# { let x = true : bits(8); true }
# 1 M14 1:4:29 wanted bits found bool
%
# 0x1 : bits(4)
# 1 M14 1:4:19 wanted bool found bits
%
register R : bits(8)
# { R = true; true }
# 1 M14 1:5:25 wanted bits found bool
%
register R : bits(8)
# R = 0x01
# 1 M14 1:5:19 wanted bool found unit
%
# { var x = 1; x = 0x1; true }
# 1 M14 1:4:36 wanted int found bits
%
register R : int = true
# true
# 1 M14 1:1:20 wanted int found bool
%
let L : bool = 0x1
# true
# 1 M14 1:1:16 wanted bool found bits
% // `exit` wants unit, `throw` the union of what is thrown
# { exit(0x1); true }
# 1 M14 1:4:26 wanted unit found bits
%
union exception = { E : int }
# { throw true; true }
# 1 M14 1:5:27 wanted exception found bool
%
union exception = { E : int }
# try true catch { 0x1 => false }
# 1 M14 1:5:36 wanted exception found bits
% // parts of a tuple are wanted one by one, where it has as many
# { let x : (bool, bits(4)) = (true, 1); true }
# 1 M14 1:4:54 wanted bits found int
%
# { let x : (bool, bool) = (true, true, true); true }
# 1 M14 1:4:44 wanted (bool, bool) found (bool, bool, bool)
% // the numbers of types are sizes of other phases
register A : range(3, 9)
register B : bits(8)
# { A = 700; B = 0x1; let x : nat = 0 - 1; true }
# 1 M20 1:6:21
%
# sizeof(3)
# 1 M14 1:4:19 wanted bool found int
%
# constraint(1 <= 2)
# 0 accepted
"#;

/// What branches and items give to one another, what leaves, and holes.
pub const BRANCHES: &str = r#"
% // where nothing is wanted, the first branch or item that has a shape gives it to the others
# { let x = if true then 0x1 else true; true }
# 1 M14 1:4:51 wanted bits found bool
%
# { let x = match 0x1 { 0x0 => 1, 0x1 => 2, _ => 0x3 }; true }
# 1 M14 1:4:66 wanted int found bits
%
# { let x = [| 1, true |]; true }
# 1 M14 1:4:35 wanted int found bool
%
# { let x = [0x1, 0x2, 3]; true }
# 1 M14 1:4:40 wanted bits found int
%
union exception = { E : int }
# { let x = if true then throw E(1) else 0x1; x + "a"; true }
# 1 M16 1:5:65 +
%
union exception = { E : int }
# { let x = match 0x1 { 0x0 => throw E(1), 0x1 => 1, _ => true }; true }
# 1 M14 1:5:75 wanted int found bool
%
# { let x = [| return true, 1, 0x1 |]; true }
# 1 M14 1:4:48 wanted int found bits
% // what leaves fits every shape, also as the last of a block
union exception = { E : int }
# throw E(1)
# 0 accepted
%
# { exit() }
# 0 accepted
%
val f : (int, bits(8)) -> bool
function f(x, y) = true
# f({ (); return true }, exit())
# 0 accepted
%
union exception = { E : int }
val f : int -> bool
function f(x) = true
# f({ throw E(1); })
# 1 M14 1:7:21 wanted int found unit
%
union exception = { E : int }
# { throw E(1); }
# 1 M14 1:5:19 wanted bool found unit
%
union exception = { E : int }
# { let x : int = if true then throw E(1) else 0x1; true }
# 1 M14 1:5:64 wanted int found bits
% // an empty list and a constructor that tells nothing of an argument have a hole, which takes what is wanted
# { let x : list(int) = [| |]; let y : option(bits(8)) = None(); true }
# 0 accepted
%
# { let x = if true then None() else Some(0x1); true }
# 1 M25 1:4:29 #1
%
# { let x = if true then [| |] else [| 1 |]; let y : list(bool) = x; true }
# 1 M14 1:4:83 wanted list(bool) found list(int)
%
# { let x = [| None(), Some(1), true |]; true }
# 1 M14 1:4:49 wanted option(int) found bool
%
# { let x : bits(8) = [| |]; true }
# 1 M14 1:4:39 wanted bits found list(_)
%
# { let x : bool = None(); true }
# 1 M14 1:4:36 wanted bool found option(_)
% // none is left to a `let` or `var` without a type; elsewhere it is harmless
# { let x = [| |]; true }
# 1 M14 1:4:21
%
# { var x = None(); true }
# 1 M14 1:4:21
%
# let x = (1, Some([| |])) in true
# 1 M14 1:4:19
%
let L = None()
# true
# 1 M14 1:1:1
%
# { let x = exit(); true }
# 0 accepted
%
# match [| |] { _ => true }
# 0 accepted
"#;

/// Arguments of calls: their shapes and their count.
pub const CALLS: &str = "
% // each argument is of its parameter's shape; a call has its result's shape, whatever its arguments
val f : (int, bits(8)) -> bool
function f(x, y) = true
# f(1, true)
# 1 M14 1:6:24 wanted bits found bool
%
val f : int -> int
function f(x) = x
# f(true)
# 1 M14 1:6:19 wanted bool found int
%
val f : int -> bool
function f(x) = true
# { f(1); true }
# 1 M14 1:6:21 wanted unit found bool
%
val f : forall ('a : Type). ('a, list('a)) -> 'a
function f(x, l) = x
# f(true, [| true, 1 |])
# 1 M14 1:6:36 wanted bool found int
%
val f : forall ('a : Type). ('a, 'a) -> 'a
function f(x, y) = x
# f(true, 1)
# 1 M14 1:6:27 wanted bool found int
%
val f : forall ('a : Type). ('a, 'a) -> 'a
function f(x, y) = x
# f(1, 2)
# 1 M14 1:6:19 wanted bool found int
%
val f : forall ('a : Type). 'a -> 'a
function f(x) = 1
# true
# 1 M14 1:2:17 wanted 'a found int
%
val f : forall 'n, 'n > 3. bits('n) -> bool
function f(x) = true
# f(0b1) & f(0x12)
# 1 M20 1:6:19
%
union U = { A : int, B : (int, bool), C : unit }
# match A(true) { _ => true }
# 1 M14 1:5:27 wanted int found bool
% // another count stands at the callee's name, before anything that its arguments say
val f : int -> bool
function f(x) = true
# f(true, true + true)
# 1 M15 1:6:19 wanted 1 found 2
%
val f : (int, bits(8)) -> bool
function f(x, y) = true
# f(1)
# 1 M15 1:6:19 wanted 2 found 1
%
union U = { A : int, B : (int, bool), C : unit }
# match B(1) { _ => true }
# 1 M15 1:5:25 wanted 2 found 1
% // `f()` has the argument `()` where the one parameter is unit or a type variable, else none
val f : unit -> bool
function f() = true
# f() & f(())
# 0 accepted
%
val f : forall ('a : Type). 'a -> bool
function f(x) = true
# f() & f(1) & f(0x1)
# 0 accepted
%
val f : int -> bool
function f(x) = true
# f()
# 1 M15 1:6:19 wanted 1 found 0
%
val f : (int, bits(8)) -> bool
function f(x, y) = true
# f()
# 1 M15 1:6:19 wanted 2 found 0
%
union U = { A : int, B : (int, bool), C : unit }
# { let x = C(); let y = Some(); let z : option(unit) = y; true }
# 0 accepted
%
val f : unit -> bool
function f() = true
# f((), ())
# 1 M15 1:6:19 wanted 1 found 2
% // a tuple type is that many parameters, so one tuple is another count
val f : (int, bits(8)) -> bool
function f(x, y) = true
# f((1, 0x12))
# 1 M15 1:6:19 wanted 2 found 1
%
val f : (int, bits(8)) -> bool
function f(x, y) = true
# { let t = (1, 0x12); f(t) }
# 1 M15 1:6:40 wanted 2 found 1
%
union U = { A : int, B : (int, bool), C : unit }
# { let t = (1, true); let u = B(t); true }
# 1 M15 1:5:48 wanted 2 found 1
%
val f : ((int, bool), int) -> bool
function f(p, x) = true
# f((1, true), 2)
# 0 accepted
% // `f(a) = e` is the call `f(a, e)`
val f : (int, bits(8)) -> unit
function f(x, y) = ()
# { f(1) = true; true }
# 1 M14 1:6:28 wanted bits found bool
%
val f : (int, bits(8)) -> unit
function f(x, y) = ()
# { f(1, 0x12) = 0x12; true }
# 1 M15 1:6:21 wanted 2 found 3
% // a builtin that has one member is called so too
# unsigned(true) == 1
# 1 M14 1:4:28 wanted bits found bool
%
# unsigned(0x1, 0x1) == 1
# 1 M15 1:4:19 wanted 1 found 2
%
# { print(1); true }
# 1 M14 1:4:27 wanted string found int
";

/// Parameters of clauses and measures, and what bodies give.
pub const CLAUSES: &str = "
% // another count of parameters stands at the clause's first word, or the measure's
val f : int -> int
function f(x, y) = x
# true
# 1 M15 1:2:1 wanted 1 found 2
%
val f : (int, int) -> int
function f(x) = 1
# true
# 1 M15 1:2:1 wanted 2 found 1
%
val f : (int, int) -> int
scattered function f
function clause f(x, y) = x
function clause f(p) = 1
end f
# true
# 1 M15 1:4:1 wanted 2 found 1
%
val f : int -> int
function f(x) = f(x)
termination_measure f(x, y) = 1
# true
# 1 M15 1:3:1 wanted 1 found 2
% // `()` is one parameter where the one parameter is unit, else none
val f : unit -> int
function f(x) = 1
# true
# 0 accepted
%
val f : int -> int
function f() = 1
# true
# 1 M15 1:2:1 wanted 1 found 0
%
val f : forall ('a : Type). 'a -> int
function f() = 1
# true
# 1 M15 1:2:1 wanted 1 found 0
%
val f : unit -> unit
function f() = f()
termination_measure f() = 1
# true
# 0 accepted
% // patterns are of the parameters' shapes
val f : (int, bits(8)) -> int
function f(x, 1) = x
# true
# 1 M14 1:2:15 wanted bits found int
%
val f : (int, bits(8)) -> int
function f(x, (y, z)) = x
# true
# 1 M14 1:2:15 wanted bits found (_, _)
%
val f : (int, bits(8)) -> int
function f(x : bool, y) = 1
# true
# 1 M14 1:2:12 wanted int found bool
%
val f : ((int, int), int) -> int
function f((a, b), c) = a + b + c
# true
# 1 M21 1:2:27 number
% // with a `val`, `-> T` is an annotation of the body
val f : int -> int
function f(x) -> int = true
# true
# 1 M14 1:2:24 wanted int found bool
%
val f : unit -> bits(8)
scattered function f
function clause f() = 0x12
function clause f() = true
end f
# true
# 1 M14 1:4:23 wanted bits found bool
%
function f(x : int, y : bits(8)) -> bits(8) = x
# true
# 1 M14 1:1:47 wanted bits found int
% // a `return` gives what the function around it gives
val f : int -> bits(8)
function f(x) = { if x == 1 then return true; 0x12 }
# true
# 1 M14 1:2:41 wanted bits found bool
%
mapping m : bits(1) <-> bool = { 0b0 if return true <-> true, 0b1 <-> false }
# true
# 1 M14 1:1:41
";
