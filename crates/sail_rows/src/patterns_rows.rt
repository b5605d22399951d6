//! Models and what `check` writes for them, the status first, by the rules of shapes: the text, the body of a step behind it, and the
//! answer. Here stand patterns, mappings, type variables and registers.

/// What patterns match.
pub const PATTERNS: &str = "
% // literals, members and typed parts are of one shape
# match 0x1 { 1 => true, _ => false }
# 1 M14 1:4:31 wanted bits found int
%
# match 1 { - 1 => true, 0 => false, _ => true }
# 0 accepted
%
# match 0x1 { - 1 => true, _ => false }
# 1 M14 1:4:31 wanted bits found int
%
enum E = { A, B }
# match 1 { A => true, _ => false }
# 1 M14 1:5:29 wanted int found E
%
# match 0x1 { x : int => true }
# 1 M14 1:4:31 wanted bits found int
%
# match true { () => true, _ => false }
# 1 M14 1:4:32 wanted bool found unit
%
# { let true = 0x1; true }
# 1 M14 1:4:25 wanted bits found bool
%
# match 1 { x as y => y }
# 1 M14 1:4:39 wanted bool found int
% // a tuple pattern has as many parts
# { let (x, y) = (1, 2, 3); true }
# 1 M14 1:4:25 wanted (int, int, int) found (_, _)
%
# match (1, true) { (x, y, z) => y, _ => false }
# 1 M14 1:4:37 wanted (int, bool) found (_, _, _)
%
# match 1 { (x, y) => true, _ => false }
# 1 M14 1:4:29 wanted int found (_, _)
%
# match (1, true) { (x, 0x1) => true, (x, y) => y }
# 1 M14 1:4:41 wanted bool found bits
% // a pattern of a vector is of no bits, one of a list of no vector
# match 0b01 { [x, y] => true, _ => false }
# 1 M14 1:4:32 wanted bits found vector(_)
%
# match [0x1] { [| x |] => true, _ => false }
# 1 M14 1:4:33 wanted vector(bits) found list(_)
%
# match [| 1 |] { [| true |] => true, _ => false }
# 1 M14 1:4:38 wanted int found bool
%
# match [| 1 |] { true :: _ => true, _ => false }
# 1 M14 1:4:35 wanted int found bool
%
# match 1 { x :: y => true, _ => false }
# 1 M14 1:4:31 wanted int found list(_)
%
# match [| 1 |] { x :: y => y }
# 1 M14 1:4:45 wanted bool found list(int)
%
# match 1 { (x : bits(4)) @ y => true, _ => false }
# 1 M14 1:4:43 wanted int found bits
%
# match 0x12 { true @ (y : bits(4)) => true, _ => false }
# 1 M14 1:4:32 wanted bits found bool
% // a constructor's pattern has as many parts, counted at its name
union U = { A : int, B : (int, bool), C : unit }
# match A(1) { A(x, y) => true, _ => false }
# 1 M15 1:5:32 wanted 1 found 2
%
union U = { A : int, B : (int, bool), C : unit }
# match A(1) { B(p) => true, _ => false }
# 1 M15 1:5:32 wanted 2 found 1
%
union U = { A : int, B : (int, bool), C : unit }
# match Some(1) { A(x) => true, _ => false }
# 1 M14 1:5:35 wanted option(int) found U
%
union U = { A : int, B : (int, bool), C : unit }
# match A(1) { C() => true, None => false }
# 0 accepted
%
union U = { A : int, B : (int, bool), C : unit }
# match A(1) { A() => true, _ => false }
# 1 M15 1:5:32 wanted 1 found 0
%
# match Some(1) { Some() => true, _ => false }
# 1 M14 1:4:35 wanted int found unit
%
# match Some(()) { Some() => true, None() => false }
# 0 accepted
";

/// Concatenations in patterns, of which one part may be of unknown width.
pub const WIDTHS: &str = "
% // known are literals of bits, parts with a type and calls of mappings
# match 0x12 { x @ 0x2 => true, (x : bits(4)) @ y => true, 0b1 @ 0x1 @ z => false }
# 0 accepted
%
mapping m : bits(2) <-> bool = { 0b00 <-> false, 0b01 <-> true }
# match 0x12 { m(x) @ y => x, _ => false }
# 0 accepted
%
# match 0x12 { x @ y => true }
# 1 M18 1:4:36
%
# match 0x12 { x @ 0x1 @ _ => true }
# 1 M18 1:4:42
%
# match 0x12 { x @ (y : bits(2)) @ z @ w => true }
# 1 M18 1:4:52
%
# match 0x12 { (0x1 as x) @ y => true, _ => false }
# 1 M18 1:4:45
%
# match 0x12 { (x @ 0b1) @ y => true, _ => false }
# 1 M18 1:4:44
%
val f : (bits(8), bits(8)) -> bits(8)
function f(x @ y, z) = z
# true
# 1 M18 1:2:16
%
# match 0x12 { x @ true => true, _ => false }
# 1 M14 1:4:36 wanted bits found bool
%
mapping m : bits(2) <-> bool = { 0b00 <-> false, 0b01 <-> true }
# match 0x12 { m_forwards(x) @ y => x, _ => false }
# 0 accepted
%
mapping m : bits(2) <-> bool = { 0b00 <-> false, 0b01 <-> true }
# match 0x12 { y @ m_forwards(x) => x, _ => false }
# 0 accepted
%
# { let x @ y = 0x12; true }
# 1 M18 1:4:29
% // in a mapping's clause also a bare name that has a place of a known width on the other side
mapping m : bits(8) <-> (bits(4), bits(4)) = { x @ y <-> (x, y) }
# true
# 0 accepted
%
mapping m : bits(8) <-> bits(8) = { x @ y <-> y @ x }
# true
# 1 M18 1:1:41
%
mapping m : bits(8) <-> (bits(4), bits(4)) = { x @ y <-> (y, x) }
# true
# 0 accepted
%
mapping m : bits(8) <-> bits(8) = { x @ y <-> (y : bits(4)) @ (x : bits(4)) }
# true
# 0 accepted
%
union U = { A : (bits(4), bits(4)) }
mapping m : U <-> bits(8) = { A(x, y) <-> x @ y }
# true
# 0 accepted
%
mapping m : bits(2) <-> bool = { 0b00 <-> false, 0b01 <-> true }
mapping n : bits(4) <-> (bool, bits(2)) = { m(x) @ y <-> (x, y) }
# true
# 0 accepted
";

/// Mappings: the sides of their clauses, and which direction a call takes.
pub const MAPPINGS: &str = "
% // each side is matched, and is what the other side is turned into
mapping m : bits(2) <-> bool = { true <-> false }
# true
# 1 M14 1:1:34 wanted bits found bool
%
mapping m : bits(2) <-> bool = { 0b00 <-> 0b0 }
# true
# 1 M14 1:1:43 wanted bool found bits
%
mapping m : bits(2) <-> bool = { x <-> x }
# true
# 1 M14 1:1:34 wanted bits found bool
%
mapping m : bits(2) <-> bool = { 0b00 if 0b1 <-> true }
# true
# 1 M14 1:1:42 wanted bool found bits
%
mapping m : bits(2) <-> bool = { 0b00 <-> true if 1 }
# true
# 1 M14 1:1:51 wanted bool found int
%
mapping m : (bits(2), int) <-> bool = { (0b00, 0b1) <-> true }
# true
# 1 M14 1:1:48 wanted int found bits
% // a call goes from the side whose shape the value has
mapping m : bits(2) <-> bool = { 0b00 <-> false, 0b01 <-> true }
# { let x : bits(2) = m(true); m(0b01) }
# 0 accepted
%
mapping m : bits(2) <-> bool = { 0b00 <-> false, 0b01 <-> true }
# m(true)
# 1 M14 1:5:19 wanted bool found bits
%
mapping m : bits(2) <-> bool = { 0b00 <-> false, 0b01 <-> true }
# m(1)
# 1 M14 1:5:21
%
mapping m : bits(2) <-> bits(3) = { 0b00 <-> 0b000, 0b01 <-> 0b111 }
# m(0b00) == 0b000
# 1 M13 1:5:19 m_forwards m_backwards
%
mapping m : bits(2) <-> bits(3) = { 0b00 <-> 0b000, 0b01 <-> 0b111 }
# m_forwards(0b00) == 0b000 & m_backwards(0b000) == 0b00
# 0 accepted
%
mapping m : list(int) <-> list(bool) = { [| |] <-> [| |] }
# { let x = m([| 1 |]); true }
# 1 M13 1:5:29 m_forwards m_backwards
%
mapping m : (int, bool) <-> (int, int) = { (0, true) <-> (0, 0) }
# { let x : (int, int) = m((0, true)); true }
# 1 M21 1:5:25 number
%
mapping m : bits(2) <-> bool = { 0b00 <-> false, 0b01 <-> true }
# m_forwards(true)
# 1 M14 1:5:30 wanted bits found bool
%
mapping m : bits(2) <-> bool = { 0b00 <-> false, 0b01 <-> true }
# m_backwards(true)
# 1 M14 1:5:19 wanted bool found bits
% // so does one in a pattern, by what is matched
mapping m : bits(2) <-> bool = { 0b00 <-> false, 0b01 <-> true }
# match 0b00 { m(x) => x, _ => true }
# 0 accepted
%
mapping m : bits(2) <-> bool = { 0b00 <-> false, 0b01 <-> true }
# match true { m(x) => x, _ => true }
# 1 M14 1:5:40 wanted bool found bits
%
mapping m : bits(2) <-> bool = { 0b00 <-> false, 0b01 <-> true }
# match 1 { m(x) => true, _ => true }
# 1 M14 1:5:29
%
mapping m : bits(2) <-> bits(3) = { 0b00 <-> 0b000, 0b01 <-> 0b111 }
# match 0b00 { m(x) => true, _ => true }
# 1 M13 1:5:32 m_forwards m_backwards
%
mapping m : bits(2) <-> bits(3) = { 0b00 <-> 0b000, 0b01 <-> 0b111 }
# match 0b00 { m_forwards(x) => true, m_backwards(y) => true, _ => false }
# 1 M20 1:5:55
%
mapping m : bits(2) <-> bool = { 0b00 <-> false, 0b01 <-> true }
# match true { m_forwards(x) => true, _ => true }
# 1 M14 1:5:32 wanted bool found bits
%
mapping m : bits(2) <-> bool = { 0b00 <-> false, 0b01 <-> true }
# match 0b00 { m(0x1) => true, _ => true }
# 1 M14 1:5:34 wanted bool found bits
% // it takes one value, a tuple where several stand
mapping m : (int, bits(2)) <-> bool = { (0, 0b00) <-> true }
# m(0, 0b00) & m((0, 0b00)) & m_forwards(0, 0b00)
# 0 accepted
%
mapping m : (int, bits(2)) <-> bool = { (0, 0b00) <-> true }
# match true { m(x, 0b00) => true, m((x, y)) => false, _ => false }
# 0 accepted
%
mapping m : (int, bits(2)) <-> bool = { (0, 0b00) <-> true }
# match true { m(x, true) => true, _ => false }
# 1 M14 1:5:37 wanted bits found bool
%
mapping m : unit <-> bool = { () <-> true }
# { let x = m(()); m() }
# 0 accepted
%
mapping m : unit <-> bool = { () <-> true }
# match true { m() => true, _ => false }
# 0 accepted
";

/// Type variables that get no number, and registers without a zero.
pub const VARIABLES: &str = "
% // a function's variables have their numbers from parameters or parts of tuple parameters
val f : forall 'n 'm 'k ('p : Bool). (bits('n), int('m), (vector('k, int), bool('p))) -> int
function f(x, y, z) = 1
# true
# 0 accepted
%
val f : forall 'n. int -> bits('n)
function f(x) = 0x1
# true
# 1 M17 1:1:16 'n
%
val f : forall 'n. bits(2 * 'n) -> int
function f(x) = 1
# true
# 1 M17 1:1:16 'n
%
val f : forall 'n. bits('n + 1) -> int
function f(x) = 1
# true
# 1 M17 1:1:16 'n
%
val f : forall 'm 'n. (range(0, 'n), int('m)) -> int
function f(x, y) = 1
# true
# 1 M17 1:1:19 'n
%
val f : forall 'n. list(bits('n)) -> int
function f(x) = 1
# true
# 1 M17 1:1:16 'n
%
val f : forall ('p : Bool). int -> bool('p)
function f(x) = true
# true
# 1 M17 1:1:17 'p
% // one of kind Type stands in a parameter
val f : forall ('a : Type). list(('a, int)) -> option('a)
function f(x) = None()
# true
# 0 accepted
%
val f : forall ('a : Type). int -> option('a)
function f(x) = None()
# true
# 1 M17 1:1:17 'a
% // a mapping has none
val m : forall 'n 'm. bits('n) <-> bool
mapping m = { 0b0 <-> true }
# true
# 1 M17 1:1:16 'n
%
val m : forall . bits(1) <-> bool
mapping m = { 0b0 <-> true }
# true
# 0 accepted
% // `{'n, C. T}` tells each of its variables
val f : bool -> {'n 'm, 'n < 'm. (int('n), bits('m))}
function f(x) = (1, 0x1)
# true
# 0 accepted
%
val f : bool -> {'n, 'n > 0. int}
function f(x) = 1
# true
# 1 M17 1:1:18 'n
%
val f : {'n 'm. (bits('n), bits('n + 'm))} -> int
function f(x) = 1
# true
# 1 M17 1:1:13 'm
%
# { let x : {'n. bits(2 * 'n)} = 0x1; true }
# 1 M17 1:4:30 'n
%
type t = {'n. list(bits('n))}
# true
# 1 M17 1:1:11 'n
% // a register's type has a zero
enum E = { A, B }
struct S = { a : int, b : (bits(8), E) }
register A1 : S
register A2 : vector(3, (bool, bit, unit))
register A3 : range(2, 4)
register A4 : nat
# true
# 0 accepted
%
register R : option(int)
# true
# 1 M14 1:1:14
%
union U = { A : int }
register R : U
# true
# 1 M14 1:2:14
%
register R : list(int) = [| |]
# true
# 1 M14 1:1:14
%
register R : string
# true
# 1 M14 1:1:14
%
register R : int(3)
# true
# 1 M14 1:1:14
%
register R : bool(true)
# true
# 1 M14 1:1:14
%
register R : {'n, 'n > 3. int('n)}
# true
# 1 M14 1:1:14
%
register R : (bits(8), vector(2, string))
# true
# 1 M14 1:1:14
%
struct S = { a : int, b : list(int) }
register R : S
# true
# 1 M14 1:2:14
";
