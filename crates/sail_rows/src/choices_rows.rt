//! Models and what `check` writes for them, the status first, by the rules of shapes: the text, the body of a step behind it, and the
//! answer.

/// Where a shape could tell less than the value does: what is refused for it, and what isn't.
pub const CHOICES: &str = "
% // a member is taken by the shapes of its arguments
register R : int
val show_bool : bool -> int
function show_bool(b) = 1
val show_int : int -> int
function show_int(i) = 2
overload show = { show_bool, show_int }
# { R = show(3); true }
# 0 accepted
% // `{ e with f = v }` and `[v with i = e]` have the shapes of what is put in too
register R : int
val show_bool : bool -> int
function show_bool(b) = 1
val show_int : int -> int
function show_int(i) = 2
overload show = { show_bool, show_int }
struct t('a : Type) = { g : list('a), h : int }
# { let y : t(bool) = { struct t { g = [||], h = 1 } with g = [| 1 |] }; R = (match y.g { b :: _ => show(b), _ => 0 }); true }
# 1 M14 1:11:39 wanted t(bool) found t(int)
%
struct t('a : Type) = { g : list('a), h : int }
# { let y = { struct t { g = [||], h = 1 } with g = [| 1 |] }; let z : t(int) = y; true }
# 1 M21 1:5:84 number
%
register R : int
val show_bool : bool -> int
function show_bool(b) = 1
val show_int : int -> int
function show_int(i) = 2
overload show = { show_bool, show_int }
# { let y : vector(2, list(bool)) = [ [ [||], [||] ] with 0 = [| 1 |] ]; R = (match y[0] { b :: _ => show(b), _ => 0 }); true }
# 1 M14 1:10:53 wanted vector(list(bool)) found vector(list(int))
% // `f(a)[i] = e` reads f(a), and the member that writes takes what is read
register R : int
val show_bool : bool -> int
function show_bool(b) = 1
val show_int : int -> int
function show_int(i) = 2
overload show = { show_bool, show_int }
register A : bits(8)
val get : int -> bits(8)
function get(i) = A
val set_bool : (int, bool) -> unit
function set_bool(i, b) = { R = 5 }
val set_bits : (int, bits(8)) -> unit
function set_bits(i, b) = { A = b }
overload acc = { get, set_bool, set_bits }
# { acc(1)[0] = bitone; true }
# 0 accepted
%
register R : int
val show_bool : bool -> int
function show_bool(b) = 1
val show_int : int -> int
function show_int(i) = 2
overload show = { show_bool, show_int }
register A : bits(8)
val get : int -> bits(8)
function get(i) = A
val set_bool : (int, bool) -> unit
function set_bool(i, b) = { if b then R = 5 else R = 6 }
overload acc = { get, set_bool }
# { acc(1)[0] = bitone; true }
# 1 M16 1:16:21 acc
%
val get : forall ('a : Type). list('a) -> vector(2, option('a))
function get(xs) = [None(), None()]
val set : (list(int), vector(2, option(int))) -> unit
function set(xs, v) = ()
overload acc = { get, set }
# { acc([||])[0] = Some(1); true }
# 1 M14 1:9:21
% // an assignment has the shape of what its writer gives, also inside another
register R : int
val show_bool : bool -> int
function show_bool(b) = 1
val show_int : int -> int
function show_int(i) = 2
overload show = { show_bool, show_int }
register A : bits(8)
val get : int -> bits(8)
function get(i) = A
val set : (int, bits(8)) -> int
function set(i, b) = { A = b; 7 }
overload acc = { get, set }
val shu : unit -> int
function shu(u) = 3
val shi : int -> int
function shi(i) = 4
overload sh = { shu, shi }
# { R = sh(acc(1)[0] = bitone); true }
# 0 accepted
%
register R : int
val show_bool : bool -> int
function show_bool(b) = 1
val show_int : int -> int
function show_int(i) = 2
overload show = { show_bool, show_int }
val set : (int, int) -> int
function set(i, b) = 7
val shu : unit -> int
function shu(u) = 3
val shi : int -> int
function shi(i) = 4
overload sh = { shu, shi }
register U : unit
# { U = set(1) = 3; R = sh(U); true }
# 1 M14 1:18:25 wanted unit found int
% // of a type variable it isn't known whether it is a truth
register R : int
val show_bool : bool -> int
function show_bool(b) = 1
val show_int : int -> int
function show_int(i) = 2
overload show = { show_bool, show_int }
val f : forall ('a : Type). ('a, int) -> bool
function f(x, i) = true
overload operator & = { f }
val g : forall ('a : Type). 'a -> bool
function g(x) = x & 3
# { if g(false) then R = 1 else R = 2; true }
# 1 M16 1:11:19 &
%
val g : forall ('a : Type). 'a -> bool
function g(x) = x | true
# true
# 1 M16 1:2:19 |
% // what never ends leaves the item of a list open
register R : int
val show_bool : bool -> int
function show_bool(b) = 1
val show_int : int -> int
function show_int(i) = 2
overload show = { show_bool, show_int }
# { var x = if R == 1 then Some([| exit() |]) else None(); x = Some([| 1 |]); R = (match x { Some(b :: _) => show(b), _ => 0 }); true }
# 1 M14 1:10:21
% // one argument that teaches two shapes of one variable
register R : int
val show_bool : bool -> int
function show_bool(b) = 1
val show_int : int -> int
function show_int(i) = 2
overload show = { show_bool, show_int }
val f : forall ('a : Type). (int, ('a, 'a)) -> 'a
function f(n, (x, y)) = x
# { R = show(f(0, (1, true))); true }
# 1 M14 1:12:35 wanted (_, _) found (int, bool)
%
register R : int
val show_bool : bool -> int
function show_bool(b) = 1
val show_int : int -> int
function show_int(i) = 2
overload show = { show_bool, show_int }
union pair('a : Type, 'b : Type) = { P : ('a, 'b) }
val f : forall ('a : Type). pair('a, 'a) -> 'a
function f(p) = match p { P(x, y) => x }
# { R = show(f(P(1, true))); true }
# 1 M14 1:13:32 wanted pair(_, _) found pair(int, bool)
%
register R : int
val show_bool : bool -> int
function show_bool(b) = 1
val show_int : int -> int
function show_int(i) = 2
overload show = { show_bool, show_int }
struct pp('a : Type) = { q : ('a, 'a) }
# { let z : pp(bool) = struct pp { q = (1, true) }; let (x, y) = z.q; R = show(x); true }
# 1 M14 1:11:56 wanted (_, _) found (int, bool)
% // a side `{'n, T}` of bits is matched as a part of a concatenation
register R : int
val show_bool : bool -> int
function show_bool(b) = 1
val show_int : int -> int
function show_int(i) = 2
overload show = { show_bool, show_int }
mapping m : {'n, 'n == 8. bits('n)} <-> (bits(4), int) = { 0x12 <-> (0x1, 2), 0x34 <-> (0x3, 4) }
mapping k : (bits(12), bits(4), int) <-> (bits(16), int) = { (m(x, i) @ (z : bits(4)), y, j) <-> (x @ m(y, j) @ z, i) }
# { R = (match (0x1125, 2) { k(a, b, c) => 1, _ => 2 }); true }
# 1 M21 1:8:98 number
%
register R : int
val show_bool : bool -> int
function show_bool(b) = 1
val show_int : int -> int
function show_int(i) = 2
overload show = { show_bool, show_int }
mapping m : {'n, 'n == 8. bits('n)} <-> (bits(4), int) = { 0x12 <-> (0x1, 2), 0x34 <-> (0x3, 4) }
mapping k : bits(12) <-> (bits(9), int) = { m(x, i) @ (z : bits(4)) <-> (x @ z, i) }
# { R = (match (0b000010101, 2) { k(a) => 1, _ => 2 }); true }
# 1 M21 1:8:73 number
% // what a writer in a chain gives is known before the value is found
register R : int
val show_bool : bool -> int
function show_bool(b) = 1
val show_int : int -> int
function show_int(i) = 2
overload show = { show_bool, show_int }
val f : forall ('a : Type). (int, ('a, 'a)) -> 'a
function f(n, (x, y)) = x
val g : (int, int) -> (int, bool)
function g(i, j) = (1, true)
# { let y : bool = (f(0) = g(0) = 5); R = show(y); true }
# 1 M14 1:14:37
%
val f : forall ('a : Type). ('a, int) -> 'a
function f(x, n) = x
# { var z = false; z = f(true) = 5; true }
# 0 accepted
%
val f : forall ('a : Type). ('a, int) -> 'a
function f(x, n) = x
# { var z = 1; z = f(true + 1) = 5; true }
# 1 M16 1:6:43 +
%
register R : int
val show_bool : bool -> int
function show_bool(b) = 1
val show_int : int -> int
function show_int(i) = 2
overload show = { show_bool, show_int }
register P : (int, int)
val f : forall ('a : Type). (list('a), 'a) -> 'a
function f(i, p) = p
# { P = f(if R == 0 then [||] else [| (exit(), 1) |]) = (true, 2); let (x, y) = P; R = show(x); true }
# 1 M14 1:13:25
% // a base that never ends has every field
struct t = { h : int }
# { let y : t = { exit() with h = 1 }; true }
# 0 accepted
";
