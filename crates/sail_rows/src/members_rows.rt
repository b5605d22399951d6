//! Models and what `check` writes for them, the status first, by the rules of shapes: the text, the body of a step behind it, and the
//! answer. Here stand overloads, operators, and parts of values.

/// Which member of an overload is taken, and which members clash.
pub const OVERLOADS: &str = "
% // the first member that has as many parameters, of these shapes
val g : int -> bool
function g(x) = true
val h : bits(8) -> int
function h(x) = 1
overload o = { g, h }
# { let x : int = o(0x12); o(1) }
# 0 accepted
%
val g : int -> bool
function g(x) = true
val h : bits(8) -> int
function h(x) = 1
overload o = { g, h }
# o(0x12)
# 1 M14 1:9:19 wanted bool found int
%
val g : int -> bool
function g(x) = true
val h : bits(8) -> int
function h(x) = 1
overload o = { g, h }
# o(true)
# 1 M16 1:9:19 o
%
val g : int -> bool
function g(x) = true
val h : bits(8) -> int
function h(x) = 1
overload o = { g, h }
# o(1, 0x12)
# 1 M16 1:9:19 o
%
val g : int -> bool
function g(x) = true
val h : bits(8) -> int
function h(x) = 1
overload o = { g, h }
# o()
# 1 M16 1:9:19 o
%
val g : int -> bool
function g(x) = true
val u : unit -> bool
function u() = true
overload o = { g, u }
# o() & o(1) & o(())
# 0 accepted
%
val g : int -> bool
function g(x) = true
val p : (int, bits(8)) -> bool
function p(x, y) = true
overload o = { g, p }
# o(1) & o(1, 0x12)
# 0 accepted
%
val g : int -> bool
function g(x) = true
val p : (int, bits(8)) -> bool
function p(x, y) = true
overload o = { g, p }
# { let t = (1, 0x12); o(t) }
# 1 M16 1:9:40 o
%
val g : int -> bool
function g(x) = true
val p : (int, bits(8)) -> unit
function p(x, y) = ()
overload o = { g, p }
# { o(1) = 0x12; o(1) }
# 0 accepted
%
val g : int -> bool
function g(x) = true
val p : (int, bits(8)) -> unit
function p(x, y) = ()
overload o = { g, p }
# { o(1) = true; o(1) }
# 1 M16 1:9:21 o
%
val g : option(int) -> bool
function g(x) = true
overload o = { g }
# o(None())
# 0 accepted
%
val g : bits(8) -> bool
function g(x) = true
overload o = { g }
overload o = { h }
val h : bits(8) -> int
function h(x) = 1
# o(0x1)
# 1 M20 1:10:19
% // members of one count whose shapes differ and may share clash, at the later definition
val g : list(int) -> int
function g(x) = 1
val h : list(bool) -> int
function h(x) = 2
overload f = { g, h }
# true
# 1 M13 1:5:1 g h
%
val g : vector(2, int) -> int
function g(x) = 1
val h : vector(3, bool) -> int
function h(x) = 2
overload f = { g }
overload f = { h }
# true
# 1 M13 1:6:1 g h
%
val g : option(int) -> int
function g(x) = 1
val h : option(bool) -> int
function h(x) = 2
overload f = { h, g }
# true
# 1 M13 1:5:1 h g
%
val g : ((int, bool), int) -> int
function g(x, y) = 1
val h : forall ('a : Type). ((int, 'a), int) -> int
function h(x, y) = 2
overload f = { g, h }
# true
# 1 M13 1:5:1 g h
%
val g : ((int, bool), int) -> int
function g(x, y) = 1
val h : forall ('a : Type). ((bool, 'a), int) -> int
function h(x, y) = 2
overload f = { g, h }
# true
# 0 accepted
%
val g : (int, bool) -> int
function g(x, y) = 1
val h : forall ('a : Type). 'a -> int
function h(x) = 2
overload f = { g, h }
# f(1, true) == f(true)
# 0 accepted
%
val g : int -> bool
function g(x) = true
overload o = { Some, g }
# true
# 1 M13 1:3:1 Some g
%
mapping m : bool <-> bits(1) = { true <-> 0b0 }
val g : forall ('a : Type). 'a -> int
function g(x) = 1
overload o = { m_forwards, g }
# true
# 1 M13 1:4:1 m_forwards g
% // but not where both lists are one, with type variables numbered by where they first stand: then the first is always taken
val g : forall ('a : Type). 'a -> bool
function g(x) = true
val h : forall ('b : Type). 'b -> int
function h(x) = 1
overload o = { g, h }
# o(1)
# 0 accepted
%
val g : forall ('a : Type). 'a -> bool
function g(x) = true
val h : forall ('b : Type). 'b -> int
function h(x) = 1
overload o = { h, g }
# o(1)
# 1 M14 1:9:19 wanted bool found int
%
val g : forall ('a : Type) ('b : Type). ('a, 'b) -> int
function g(x, y) = 1
val h : forall ('b : Type) ('a : Type). ('a, 'b) -> int
function h(x, y) = 1
overload o = { g, h }
# true
# 0 accepted
%
val g : forall ('a : Type) ('b : Type). ('a, 'b) -> int
function g(x, y) = 1
val h : forall ('a : Type). ('a, 'a) -> int
function h(x, y) = 1
overload o = { g, h }
# true
# 1 M13 1:5:1 g h
% // what stands earlier in the text is refused, though members clash behind it
val g : list(int) -> int
function g(x) = true
val h : list(bool) -> int
function h(x) = 2
overload f = { g, h }
# true
# 1 M14 1:2:17 wanted int found bool
";

/// Operators, which are overloads with members of their own, and builtins with several members.
pub const OPERATORS: &str = r#"
% // no member is refused at the operator, by its text
# true + true
# 1 M16 1:4:24 +
%
# 0x1 @ 1
# 1 M16 1:4:23 @
%
# 0x1 < 1
# 1 M16 1:4:23 <
%
# 0x1 <_u 1
# 1 M16 1:4:23 <_u
%
# ("a" ^ 1) == "a"
# 1 M16 1:4:24 ^
%
# (- true) == 1
# 1 M16 1:4:20 -
%
# ~(1) == 1
# 1 M16 1:4:19 ~
%
# not(0x1)
# 1 M16 1:4:19 not
%
# ~(true) | ~(0x1) == 0xe
# 0 accepted
% // an operand that fails fits every shape, and the form has no shape then
# 0x1 + (true + true)
# 1 M16 1:4:31 +
%
# true + (true + true)
# 1 M16 1:4:24 +
% // equality is of numbers, bits, truths, strings, unit and members of enums
enum E = { A, B }
# 1 == 2 & 0x1 == 0x2 & bitone != bitzero & true == false & "a" != "b" & () == () & A == B
# 0 accepted
%
# (1, 2) == (1, 2)
# 1 M16 1:4:26 ==
%
# [| 1 |] != [| 1 |]
# 1 M16 1:4:27 !=
%
# [0x1] == [0x1]
# 1 M16 1:4:25 ==
%
# Some(1) == Some(1)
# 1 M16 1:4:27 ==
%
struct S = { a : int }
register R : S
# R == R
# 1 M16 1:6:21 ==
%
# 1 == 0x1
# 1 M16 1:4:21 ==
%
# eq(1, true)
# 1 M16 1:4:19 eq
%
# length(1) == 1
# 1 M16 1:4:19 length
%
# length([0x1]) == length(0x1)
# 0 accepted
% // on a truth, and on what fits every shape, `&` and `|` are no call
# true & 0x1
# 1 M14 1:4:26 wanted bool found bits
%
union exception = { E : int }
# (throw E(1)) | 1
# 1 M14 1:5:34 wanted bool found int
%
# 0x1 & true
# 1 M16 1:4:23 &
%
val g : (bool, bits(8)) -> bits(8)
function g(x, y) = y
overload operator & = { g }
# { let x = true & 0x12; true }
# 1 M14 1:7:36 wanted bool found bits
%
val g : (bits(8), bool) -> bool
function g(x, y) = y
overload operator & = { g }
# 0x12 & true
# 0 accepted
"#;

/// Members of operators: a list's first item, those that overloads add, and plain expressions.
pub const MEMBERS: &str = "
% // `::` puts an item before a list
# { let x : list(int) = 1 :: 2 :: [| |]; let y = true :: [| |]; true }
# 0 accepted
%
# 1 :: [| true |]
# 1 M16 1:4:21 ::
%
# { let x : list(option(int)) = None() :: [| Some(1) |]; true }
# 0 accepted
%
# { let x : bool = 1 :: [| |]; true }
# 1 M14 1:4:38 wanted bool found list(int)
%
val g : (int, int) -> bool
function g(x, y) = true
overload operator :: = { g }
# 1 :: 2
# 0 accepted
%
val g : (int, list(int)) -> bool
function g(x, y) = true
overload operator :: = { g }
# true
# 1 M13 1:3:1 cons g
% // members that overloads add stand behind the builtin ones
val g : (bool, bool) -> bool
function g(x, y) = true
overload operator + = { g }
# true + true
# 0 accepted
%
val g : (int, int) -> bool
function g(x, y) = true
overload operator + = { g }
# 1 + 2
# 1 M14 1:7:21 wanted bool found int
%
val g : forall ('a : Type). (bits(8), 'a) -> bits(8)
function g(x, y) = x
overload operator + = { g }
# true
# 1 M13 1:3:1 add_bits g
%
val g : forall ('a : Type). ('a, bits(8)) -> bits(8)
function g(x, y) = y
overload operator @ = { g }
# true
# 1 M13 1:3:1 append g
%
val g : forall ('a : Type). 'a -> bool
function g(x) = true
overload o = { not_bool, g }
# true
# 1 M13 1:3:1 not_bool g
% // in a plain expression they are no members
val g : (bool, bool) -> bool
function g(x, y) = true
overload operator + = { g }
let L = true + true
# true
# 1 M16 1:4:14 +
%
val g : (bool, bool) -> bool
function g(x, y) = true
overload operator + = { g }
register R : bool = true + true
# true
# 1 M16 1:4:26 +
%
let L = 1 + 2
register R : bits(8) = 0x1 @ 0x2
# { let x : int = L; true }
# 0 accepted
";

/// Parts of values, and structs.
pub const PARTS: &str = "
% // an index, a slice and a field have the shape of what they take out
register R : bits(8)
register V : vector(4, bits(8))
register I : int
# { let x : bit = R[0]; let y : bits(4) = R[7 .. 4]; let z : bits(8) = V[3]; V[3][0] == bitone }
# 0 accepted
%
register R : bits(8)
register V : vector(4, bits(8))
register I : int
# V[3]
# 1 M14 1:7:20 wanted bool found bits
%
register R : bits(8)
register V : vector(4, bits(8))
register I : int
# R[true] == bitone
# 1 M14 1:7:21 wanted int found bool
%
register R : bits(8)
register V : vector(4, bits(8))
register I : int
# R[3 .. 0x0] == 0x1
# 1 M14 1:7:26 wanted int found bits
%
struct S = { a : int, b : bits(8) }
register R : S
# R.a
# 1 M14 1:6:19 wanted bool found int
% // a base without them is refused at the base
register R : bits(8)
register V : vector(4, bits(8))
register I : int
# { let x = I[0]; true }
# 1 M14 1:7:29
%
register R : bits(8)
register V : vector(4, bits(8))
register I : int
# { let x = V[1 .. 0]; true }
# 1 M14 1:7:29
%
register R : bits(8)
register V : vector(4, bits(8))
register I : int
# { let x = I[1 .. 0]; true }
# 1 M14 1:7:29
%
register R : bits(8)
register V : vector(4, bits(8))
register I : int
struct T = { a : int }
# { let x = R.a; true }
# 1 M14 1:8:29
%
struct S = { a : int, b : bits(8) }
struct T = { c : int }
register R : S
# { let x = R.c; true }
# 1 M14 1:7:29
%
register R : bits(8)
register V : vector(4, bits(8))
register I : int
# { let x = V[0][1][0]; true }
# 1 M14 1:7:33
%
# { let x = (1, 2)[0]; true }
# 1 M14 1:4:29
% // also where they are written
register R : bits(8)
register V : vector(4, bits(8))
register I : int
# { V[0] = 0x12; V[0][1] = bitone; R[3 .. 0] = 0x1; true }
# 0 accepted
%
register R : bits(8)
register V : vector(4, bits(8))
register I : int
# { R[0] = 0b1; true }
# 1 M14 1:7:28 wanted bit found bits
%
register R : bits(8)
register V : vector(4, bits(8))
register I : int
# { V[0] = bitone; true }
# 1 M14 1:7:28 wanted bits found bit
%
struct S = { a : int, b : bits(8) }
register R : S
# { R.a = 0x1; true }
# 1 M14 1:6:27 wanted int found bits
%
register R : bits(8)
register V : vector(4, bits(8))
register I : int
# { I[0] = bitone; true }
# 1 M14 1:7:21
%
struct S = { a : int, b : bits(8) }
register Q : bits(8)
register V : vector(4, bits(8))
register I : int
# { I.a = 1; true }
# 1 M14 1:8:21
%
register R : bits(8)
register V : vector(4, bits(8))
register I : int
# { (I, R) = (1, true); true }
# 1 M14 1:7:34 wanted bits found bool
%
register R : bits(8)
register Q : bits(8)
# { R = Q = 0x12; true }
# 1 M14 1:6:25 wanted bits found unit
% // and in `with`
register R : bits(8)
register V : vector(4, bits(8))
register I : int
struct S = { a : int, b : bits(8) }
# { let x = [R with 0 = bitone]; let y = [R with 3 .. 0 = 0x1]; let z = [V with 0 = 0x12]; true }
# 0 accepted
%
register R : bits(8)
register V : vector(4, bits(8))
register I : int
# { let x = [R with 0 = 0b1]; true }
# 1 M14 1:7:41 wanted bit found bits
%
register R : bits(8)
register V : vector(4, bits(8))
register I : int
# { let x = [I with 0 = bitone]; true }
# 1 M14 1:7:30
%
register R : bits(8)
register V : vector(4, bits(8))
register I : int
# { let x = [V with 1 .. 0 = 0x12]; true }
# 1 M14 1:7:30
%
struct S = { a : int, b : bits(8) }
register R : S
# { R = { R with a = true }; true }
# 1 M14 1:6:38 wanted int found bool
%
struct S = { a : int, b : bits(8) }
register Q : bits(8)
register V : vector(4, bits(8))
register I : int
# { let x = { I with a = 1 }; true }
# 1 M14 1:8:31
";

/// Literals of structs, and how shapes are printed.
pub const STRUCTS: &str = r#"
% // fields of a struct that is named are counted, at `struct`
struct S = { a : int, b : bits(8) }
# { let x = struct S { a = 1 }; true }
# 1 M15 1:5:29 wanted 2 found 1
%
struct S = { a : int, b : bits(8) }
# { let x = struct S { b = 0x12, a = true }; true }
# 1 M14 1:5:54 wanted int found bool
%
struct S = { a : int, b : bits(8) }
# struct S { a = 1, b = 0x12 }
# 1 M14 1:5:19 wanted bool found S
% // without a name it is the one struct that has exactly these fields, whatever is wanted
struct S = { a : int, b : bits(8) }
struct T = { a : int }
# { let x = struct { b = 0x12, a = 1 }; let y : T = struct { a = 1 }; true }
# 0 accepted
%
struct S = { a : int, b : bits(8) }
# { let x : S = struct { a = 1 }; true }
# 1 M14 1:5:33
%
struct S = { a : int }
struct T = { a : int }
# { let x : T = struct { a = 1 }; true }
# 1 M14 1:6:33
%
struct S = { a : int, b : bits(8) }
struct T = { a : int }
# { let x : S = struct { a = 1 }; true }
# 1 M14 1:6:33 wanted S found T
%
struct P('a : Type) = { x : 'a, y : list('a) }
# { let p = struct { x = 1, y = [| true |] }; true }
# 1 M14 1:5:52 wanted int found bool
% // shapes have no numbers, and are printed as types without them
# [0x12, 0x34]
# 1 M14 1:4:19 wanted bool found vector(bits)
%
# (1, 0x12, "a", (), bitone)
# 1 M14 1:4:19 wanted bool found (int, bits, string, unit, bit)
%
# [| [| 1 |] |]
# 1 M14 1:4:19 wanted bool found list(list(int))
%
# Some((true, 1))
# 1 M14 1:4:19 wanted bool found option((bool, int))
%
# [bitone]
# 1 M14 1:4:19 wanted bool found vector(bit)
%
enum E = { A, B }
# A
# 1 M14 1:5:19 wanted bool found E
%
struct P('n, 'a : Type) = { x : 'a, y : bits('n) }
register R : P(8, int)
# R
# 1 M14 1:6:19 wanted bool found P(int)
%
val f : forall ('a : Type) ('b : Type). ('a, 'b) -> 'b
function f(x, y) = x
# true
# 1 M14 1:2:20 wanted 'b found 'a
%
val f : forall ('a : Type). list('a) -> list('a)
function f(x) = [| true |]
# true
# 1 M14 1:2:20 wanted 'a found bool
%
register N : nat
register X : range(0, 7)
val f : bool -> {'n, 'n > 0. int('n)}
function f(b) = 1
# { N = X; X = f(true); true }
# 1 M20 1:8:28 'n = 8
"#;
