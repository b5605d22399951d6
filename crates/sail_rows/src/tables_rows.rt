//! Models and what `check` writes for them, the status first, by the rules of names, kinds, calls and parts: the text, the body of
//! a step behind it, if it has one, and the answer.

/// Names that are taken, and equal names in one list.
pub const NAMES: &str = "
% // the least place decides, at one place the lower number, over all failures together
let a = nope
let a = 1
# true
# 1 M10 1:1:9 nope
%
let f = 1
function f(x) = ()
# true
# 1 M09 1:2:1 f
%
val f : unit -> unit
function f() = f()
register R : bits(int)
# true
# 1 M12 1:2:1 f
%
register R : range(1, 0)
let R = 1
# true
# 1 M11 1:1:14
% // two spaces of names; the names of builtins are taken
union E = { E : int }
# true
# 0 accepted
%
let f = 1
val f : unit -> unit
function f() = ()
# true
# 1 M09 1:2:1 f
%
mapping m : bool <-> bool = { x <-> x }
let m_forwards = 1
# true
# 1 M09 1:2:1 m_forwards
%
mapping m : bool <-> bool = { x <-> x }
register m_backwards : bool
# true
# 1 M09 1:2:1 m_backwards
%
union U = { A : int }
let A = 1
# true
# 1 M09 1:2:1 A
%
register A : bool
enum E = { B, A }
# true
# 1 M09 1:2:15 A
%
register R : bool
register R : bool
# true
# 1 M09 1:2:1 R
%
val f : int -> int
function f(x) = x
let o = 1
overload o = { f }
# true
# 1 M09 1:4:1 o
%
let unsigned = 1
# true
# 1 M09 1:1:1 unsigned
%
let Some = 1
# true
# 1 M09 1:1:1 Some
%
type bits = int
# true
# 1 M09 1:1:1 bits
%
struct option = { a : int }
# true
# 1 M09 1:1:1 option
%
val f : int -> int
function f(x) = x
overload unsigned = { f }
# true
# 1 M09 1:3:1 unsigned
%
val f : int -> int
function f(x) = x
overload o = { f }
overload o = { not_bool }
# true
# 0 accepted
% // where a refused definition stands
val f : unit -> unit
# true
# 1 M10 1:1:1 f
%
let A = 1
union U = { A : int }
# true
# 1 M09 1:2:13 A
%
struct S = { a : int, a : bool }
# true
# 1 M09 1:1:23 a
%
let a = 1
let (b, a) = (1, 2)
# true
# 1 M09 1:2:9 a
%
let a = 1
let a : int = 2
# true
# 1 M09 1:2:1 a
% // equal names in one list
val f : (int, int) -> int
function f(a, a) = a
# true
# 1 M09 1:2:15 a
%
val f : unit -> int
function f() = match (1, 2) { (x, x) => x }
# true
# 1 M09 1:2:35 x
%
struct S = { a : int }
val f : unit -> S
function f() = struct S { a = 1, a = 2 }
# true
# 1 M09 1:3:34 a
%
struct S = { a : int }
val g : S -> S
function g(s) = { s with a = 1, a = 2 }
# true
# 1 M09 1:3:33 a
%
val f : forall 'n 'n. int('n) -> unit
function f(x) = ()
# true
# 1 M09 1:1:19 'n
%
type t('n, 'n) = int('n)
# true
# 1 M09 1:1:12 'n
%
val f : unit -> int
function f() = { let a = 1; let a = 2; var a = 3; a }
# true
# 0 accepted
%
mapping m : bool <-> bool = { x <-> x }
# true
# 0 accepted
";

/// Definitions and their parts, measures, and what reaches itself.
pub const BODIES: &str = "
% // what is one definition, and what is two
val m : bool <-> bool
mapping m : bool <-> bool = { true <-> true }
# true
# 1 M09 1:2:1 m
%
mapping m : bool <-> bool = { true <-> true }
val m : bool <-> bool
# true
# 1 M09 1:2:1 m
%
val m : bool <-> bool
mapping m = { true <-> true }
# true
# 0 accepted
%
function f() = ()
val f : unit -> unit
# true
# 0 accepted
% // bodies without types
function f(x) -> int = 1
# true
# 1 M10 1:1:1 f
%
function f(x : int) = 1
# true
# 1 M10 1:1:1 f
%
function f(x : int) -> int = x
# true
# 0 accepted
%
function f() -> int = 1
# true
# 0 accepted
%
mapping m = { true <-> true }
# true
# 1 M10 1:1:1 m
%
scattered function f
function clause f() = ()
end f
# true
# 1 M10 1:1:1 f
% // measures
val f : unit -> unit
function f() = f()
# true
# 1 M12 1:2:1 f
%
val f : unit -> unit
scattered function f
function clause f() = f()
end f
# true
# 1 M12 1:2:1 f
%
val f : int -> int
function f(x) = f(x)
termination_measure f(x) = 1
# true
# 0 accepted
%
val f : unit -> unit
function f() = while true do ()
# true
# 1 M12 1:2:16 while
%
val f : unit -> unit
function f() = repeat () until true
# true
# 1 M12 1:2:16 repeat
%
termination_measure g(x) = x
# true
# 1 M10 1:1:21 g
%
val f : int -> unit
function f(x) = ()
termination_measure f(x) = 1
termination_measure f(x) = 2
# true
# 1 M09 1:4:1 f
% // what reaches itself
mapping m : bool <-> bool = { m(x) <-> x }
# true
# 1 M24 1:1:1 m
%
mapping m : bool <-> bool = { x if match x { m(y) => y } <-> x }
# true
# 1 M24 1:1:1 m
%
val f : bits(1) -> bool
function f(x) = match x { m(y) => y }
termination_measure f(x) = 1
mapping m : bits(1) <-> bool = { 0b0 if f(0b1) <-> true }
# true
# 0 accepted
%
val f : bool -> bool
function f(x) = match x { m(y) => y }
mapping m : bool <-> bool = { x if f(x) <-> x }
# true
# 1 M12 1:2:1 f
%
mapping a : bool <-> bool = { b(x) <-> x }
mapping b : bool <-> bool = { a(x) <-> x }
# true
# 1 M24 1:1:1 a
%
val f : int -> int
val g : bool -> bool
overload o = { f, g }
function f(x) = x
function g(x) = if o(1) == 1 then x else x
# true
# 1 M12 1:5:1 g
";

/// Types, kinds and ranges.
pub const TYPES: &str = "
% // what is gathered stands at its opening; types alone are bound by order
scattered union U
struct S = { a : int }
union clause U = A : S
end U
# true
# 1 M10 1:3:22 S
%
struct S = { a : int }
scattered union U
union clause U = A : S
end U
# true
# 0 accepted
%
type t = s
type s = int
# true
# 1 M10 1:1:10 s
%
val f : S -> unit
register R : T
function f(x : S) = ()
struct S = { a : int }
type T = bool
# true
# 0 accepted
% // unions that name themselves, and kinds that are not written
union U = { A : list((int, U)), B : unit }
# true
# 0 accepted
%
union U = { A : (U, int) }
# true
# 1 M10 1:1:18 U
%
type n = 8
register R : bits(n)
# true
# 0 accepted
%
type n : Type = 8
# true
# 1 M11 1:1:17 wanted Type found Int
%
type t('n) = bits('n)
register R : t(8)
# true
# 0 accepted
%
type t('a) = list('a)
# true
# 1 M11 1:1:19 wanted Type found Int
%
type t = {'n, 0 <= 'n. int('n)}
# true
# 0 accepted
%
type t = {'n, 'n. int('n)}
# true
# 1 M11 1:1:15 wanted Bool found Int
% // the smallest wrong part
register R : bits(int)
# true
# 1 M11 1:1:19 wanted Int found Type
%
register R : int(1, 2)
# true
# 1 M11 1:1:14 wanted 1 found 2
%
register R : bool(true, true)
# true
# 1 M11 1:1:14 wanted 1 found 2
%
register R : bits
# true
# 1 M11 1:1:14 wanted 1 found 0
%
val f : forall 'n 'm. int('n * 'm) -> unit
function f(x) = ()
# true
# 1 M11 1:1:30
%
type n = 85070591730234615865843651857942052864 + 1
# true
# 1 M11 1:1:49
%
type n = 2 ^ 127
# true
# 1 M11 1:1:12
%
type n = 2 ^ 126
# true
# 0 accepted
%
register R : bits(-1)
# true
# 1 M11 1:1:14
%
union exception('n) = { A : int('n) }
# true
# 1 M11 1:1:1
% // empty ranges and negative widths, and what shows only behind a name
val f : range(2, 1) -> unit
function f(x) = ()
# true
# 1 M11 1:1:9
%
val f : unit -> unit
function f() = { let x : range(1, 0) = 1; () }
# true
# 1 M11 1:2:26
%
type t('n) = range(0, 'n)
register R : t(-1)
# true
# 1 M11 1:2:14
%
type t('n) = bits('n)
register R : t(-1)
# true
# 1 M11 1:2:14
%
struct S('n) = { a : range(0, 'n) }
register R : S(-1)
# true
# 1 M11 1:2:14
%
struct S('n) = { a : range(0, 'n) }
val f : S(-1) -> unit
function f(x) = ()
# true
# 0 accepted
%
type t('n) = bits(2 ^ 'n)
val f : t(127) -> unit
function f(x) = ()
# true
# 0 accepted
%
type t('n) = int('n + 1)
val f : t(85070591730234615865843651857942052864) -> unit
function f(x) = ()
# true
# 1 M11 1:2:9
";

/// Names where they are used.
pub const USES: &str = "
% // plain expressions
let a = b
let b = 1
# true
# 1 M10 1:1:9 b
%
let b = 1
let a = b + unsigned(0x1)
# true
# 0 accepted
%
val f : unit -> int
function f() = 1
let a = f()
# true
# 1 M10 1:3:9 f
%
register R : bool
let a = R
# true
# 1 M10 1:2:9 R
%
val f : int -> int
function f(x) = x
overload o = { f }
let a = o(1)
# true
# 1 M10 1:4:9 o
%
mapping m : bool <-> bool = { x <-> x }
let a = m(true)
# true
# 1 M10 1:2:9 m
%
let a = mem_mapped(1, 0x0000000000000000)
# true
# 1 M10 1:1:9 mem_mapped
%
mapping m : bool <-> bool = { x <-> x }
let a = match true { m(x) => x }
# true
# 1 M10 1:2:22 m
%
register R : int = a
let a = 1
# true
# 1 M10 1:1:20 a
%
val f : int -> unit
function f(x) = ()
termination_measure f(x) = x
# true
# 1 M20 1:3:28 x = -85070591730234615865843651857942052864
%
register R : bool
val f : unit -> unit
function f() = ()
termination_measure f() = R
# true
# 1 M10 1:4:27 R
%
register R : bool
val f : unit -> unit
function f() = { var i = 1; while termination_measure { if R then i else 0 } false do () }
# true
# 1 M20 1:3:67 i = -85070591730234615865843651857942052864
% // calls and names by themselves
val f : unit -> int
function f() = 1
val g : unit -> int
function g() = f
# true
# 1 M10 1:4:16 f
%
union U = { A : int }
val g : unit -> U
function g() = A
# true
# 1 M10 1:3:16 A
%
mapping m : bool <-> bool = { x <-> x }
val g : unit -> bool
function g() = m
# true
# 1 M10 1:3:16 m
%
val f : int -> int
function f(x) = x
overload o = { f }
val g : unit -> int
function g() = o
# true
# 1 M10 1:5:16 o
%
let a = 1
val g : unit -> int
function g() = a(1)
# true
# 1 M10 1:3:16 a
%
val g : int -> int
function g(x) = x(1)
# true
# 1 M10 1:2:17 x
%
val g : unit -> option(int)
function g() = None
# true
# 1 M10 1:2:16 None
%
val g : bool -> bool
function g(x) = match x { None => true }
# true
# 0 accepted
%
val f : int -> int
function f(x) = x
val g : int -> int
function g(f) = f(f)
# true
# 0 accepted
% // what is assigned to
register R : int
val g : int -> unit
function g(R) = { R = 1 }
# true
# 1 M10 1:3:19 R
%
register R : int
val g : unit -> unit
function g() = { let R = 1; R = 2 }
# true
# 1 M10 1:3:29 R
%
register R : int
val g : int -> unit
function g(x) = match x { R => { R = 1 } }
# true
# 1 M10 1:3:34 R
%
register R : int
val g : unit -> unit
function g() = { R = 1 }
# true
# 0 accepted
%
val g : unit -> unit
function g() = { x = 1 }
# true
# 1 M10 1:2:18 x
% // fields and exceptions
register R : int
val g : unit -> int
function g() = R.a
# true
# 1 M10 1:3:18 a
%
val g : unit -> unit
function g() = { let s = struct S { a = 1 }; () }
# true
# 1 M10 1:2:33 S
%
val g : unit -> unit
function g() = throw A(1)
# true
# 1 M10 1:2:16 exception
% // members of overloads
let a = 1
overload o = { a }
# true
# 1 M10 1:2:16 a
%
mapping m : bool <-> bool = { x <-> x }
overload o = { m }
# true
# 1 M10 1:2:16 m
%
val f : int -> int
function f(x) = x
overload p = { f }
overload o = { p }
# true
# 1 M10 1:4:16 p
%
register R : bool
overload o = { R }
# true
# 1 M10 1:2:16 R
%
overload o = { unsigned, nope }
# true
# 1 M10 1:1:26 nope
%
mapping m : bool <-> bool = { x <-> x }
union U = { A : int }
overload o = { m_forwards, unsigned, A }
# true
# 0 accepted
";

/// Definitions in parts, and entry points.
pub const TEXTS: &str = "
% // what is written in parts
scattered union U
end V
# true
# 1 M23 1:1:1 U
%
end V
scattered union U
# true
# 1 M22 1:1:1 V
%
scattered function f
scattered union f
end f
union clause f = A : int
end f
# true
# 1 M22 1:4:1 f
%
val f : unit -> unit
scattered function f
function clause f() = ()
end f
scattered function f
function clause f() = ()
end f
# true
# 1 M09 1:5:1 f
% // the entry points, which the text has itself
val reset : (range(0, 7), bits(64)) -> unit
function reset(h, e) = ()#
# 1 M19 1:2:26 step
%
let a = nope
#
# 1 M10 1:1:9 nope
%
val reset : (range(0, 7), bits(64)) -> unit
function reset(h, e) = ()
val step : unit -> bool
#
# 1 M10 1:3:1 step
%
function reset(h : range(0, 7), e : bits(64)) -> unit = ()
function step() -> bool = true
#
# 0 accepted
%
type hart = range(0, 3 + 4)
type xlen = 64
val reset : (hart, bits(xlen)) -> unit
function reset(h, e) = ()
val step : unit -> bool
function step() = true
#
# 0 accepted
%
val reset : forall 'n. (range(0, 7), bits(64)) -> unit
function reset(h, e) = ()
val step : unit -> bool
function step() = true
#
# 1 M19 1:5:1 reset
%
val reset : (range(0, 7), bits(64)) -> unit
function reset(h, e) = ()
val step : unit -> unit
function step() = ()
#
# 1 M19 1:5:1 step
%
val step : unit -> bool
function step() = true
#
# 1 M19 1:3:1 reset
";
