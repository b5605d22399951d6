//! Words, models and what is written for them, the status first, by the rules of obligations: the words, the text, the body of a step
//! behind it, and the answer. Here stand which facts count where, and variables and numbers as they are told.

/// Which facts count where.
pub const FACTS: &str = r#"
% check M // a condition in `then`, its negation in `else`
val f : range(0, 9) -> bit
function f(i) = if i < 8 then 0x12[i] else 0x34[i - 8]
# true
# 0 accepted 3 functions 3 obligations 2 instances
% check M
val f : range(0, 9) -> bit
function f(i) = if i < 8 then 0x12[i] else 0x34[i - 9]
# true
# 1 M20 1:2:48 i = 8
% check M // on the right of `&` its left operand, on the right of `|` the left one's negation, and not behind
val f : range(0, 9) -> bool
function f(i) = i < 8 & 0x12[i] == bitone
# true
# 0 accepted 3 functions 1 obligations 2 instances
% check M
val f : range(0, 9) -> bool
function f(i) = i >= 8 | 0x12[i] == bitone
# true
# 0 accepted 3 functions 1 obligations 2 instances
% check M
val f : range(0, 9) -> bool
function f(i) = { let b = i < 8 & true; 0x12[i] == bitone }
# true
# 1 M20 1:2:45 i = 8
% check M // an assert that is a statement, up to the end of its block
val f : range(0, 9) -> bit
function f(i) = { assert(i < 8, "i"); 0x12[i] }
# true
# 0 accepted 3 functions 1 obligations 2 instances
% check M
val f : range(0, 9) -> bit
function f(i) = { { assert(i < 8); () }; 0x12[i] }
# true
# 1 M20 1:2:46 i = 8
% check M // behind an `if` of which one branch never ends normally, the other branch's fact
val f : range(0, 9) -> bit
function f(i) = { if i >= 8 then return bitzero; 0x12[i] }
# true
# 0 accepted 3 functions 1 obligations 2 instances
% check M
val f : range(0, 9) -> bit
function f(i) = { if i < 8 then () else { exit(); }; 0x12[i] }
# true
# 0 accepted 3 functions 1 obligations 2 instances
% check M // a `match` may always end normally
val f : range(0, 9) -> bit
function f(i) = { if i >= 8 then match () { () => return bitzero }; 0x12[i] }
# true
# 1 M20 1:2:73 i = 8
% check M // the first way with a value gives the type, also behind one that is known by its body alone never to end
union exception = { Worse : unit }
val f : bool -> bit
function f(c) = (if c then (let a = 1 in throw(Worse())) else 0x12)[9]
# true
# 1 M20 1:3:68
% check M // what the result of a call leaves open is what its shape says, any integer
val f : forall ('a : Type). list('a) -> list(option('a))
function f(l) = match l { [||] => [||], x :: _ => [| Some(x) |] }
# { let l = match () { () => f([||]), _ => [| Some(300) |] }; match l { Some(x) :: _ => 0x12[x] == bitone, _ => true } }
# 1 M20 1:6:109 x = -85070591730234615865843651857942052864
% check M
val f : forall ('a : Type). list('a) -> list(option('a))
function f(l) = match l { [||] => [||], x :: _ => [| Some(x) |] }
# { let l = [| f([||]), [| Some(300) |] |]; match l { [| _, m |] => match m { Some(x) :: _ => 0x12[x] == bitone, _ => true }, _ => true } }
# 1 M20 1:6:115 x = -85070591730234615865843651857942052864
% check M // what is put into a struct fills the holes of its type, and so with vectors and lists
struct t('a : Type) = { g : list('a), h : int }
# { let y = { struct t { g = [||], h = 1 } with g = [| 300 |] }; match y.g { x :: _ => 0x12[x] == bitone, _ => true } }
# 1 M20 1:5:108 x = -85070591730234615865843651857942052864
% check M
# { let w = [ [ None(), None() ] with 0 = Some(300) ]; match w[0] { Some(x) => 0x12[x] == bitone, _ => true } }
# 1 M20 1:4:100 x = -85070591730234615865843651857942052864
% check M
val f : forall ('a : Type). list('a) -> list(option('a))
function f(l) = match l { [||] => [||], x :: _ => [| Some(x) |] }
# { let l = Some(300) :: f([||]); match l { Some(x) :: _ => 0x12[x] == bitone, _ => true } }
# 1 M20 1:6:81 x = -85070591730234615865843651857942052864
% check M // nothing is of a hole that the value of a `var` leaves
val f : forall ('a : Type). list('a) -> list(option('a))
function f(l) = match l { [||] => [||], x :: _ => [| Some(x) |] }
# { var l = (f([||]) : list(option(int))); l = [| Some(300) |]; match l { Some(x) :: _ => 0x12[x] == bitone, _ => true } }
# 1 M20 1:6:72
% check M // items of types that bind a variable are of the first way's type
val f : bool -> bits(16)
function f(c) = {
  let a : list({'n, 'n in {8, 16}. bits('n)}) = [| 0x00 |];
  let b : list(bits(32)) = [| 0x00000000 |];
  match (match c { true => a, _ => b }) { x :: _ => zero_extend(16, x), _ => 0x0000 }
}
# true
# 1 M20 1:5:36
% check M
val f : bool -> bits(16)
function f(c) = {
  let a : list({'n, 'n in {8, 16}. bits('n)}) = [| 0x00 |];
  let b : list({'n, 'n in {8, 16}. bits('n)}) = [| 0x0000, 0x00 |];
  match (match c { true => a, _ => b }) { x :: _ => zero_extend(16, x), _ => 0x0000 }
}
# true
# 0 accepted 3 functions 9 obligations 2 instances
% check M // a number that is given under a binder is owed by later places
val f : forall 'n, 0 <= 'n & 'n < 8. ({'m, 0 <= 'm. (int('m), int('n))}, int('n)) -> bit
function f(p, n) = 0x12[n]
# f((1, 2), 300) == bitone
# 1 M20 1:6:19
% check M
val f : forall 'n, 0 <= 'n & 'n < 8. ({'m, 0 <= 'm. (int('m), int('n))}, int('n)) -> bit
function f(p, n) = 0x12[n]
# f((1, 2), 2) == bitone
# 0 accepted 3 functions 2 obligations 3 instances
% check M // a Type variable takes its type from a place that leaves no hole in it
val f : forall ('a : Type). (list('a), 'a) -> 'a
function f(l, x) = x
# 0x12[f([||], 300)] == bitone
# 1 M20 1:6:23 #1 = -85070591730234615865843651857942052864
% check M
val f : forall ('a : Type). (list('a), 'a) -> 'a
function f(l, x) = x
# f([||], 300) == 300
# 0 accepted 3 functions 1 obligations 3 instances
% check M
union two('a : Type) = { Two : (list('a), 'a) }
# match Two([||], 300) { Two(l, x) => 0x12[x] == bitone }
# 1 M20 1:5:59 x = -85070591730234615865843651857942052864
% check M // where every place leaves a hole, nothing that another place has there is of it
val f : forall ('a : Type). ('a, 'a) -> 'a
function f(x, y) = y
# { let p = f(([||], [| bitone |]), ([| bitone |], [||])); true }
# 1 M20 1:6:29
% check M
val f : forall ('a : Type). (list('a), 'a) -> 'a
function f(l, x) = x
# { let l : list(bit) = f([||], [||]); true }
# 0 accepted 3 functions 0 obligations 3 instances
% check M // what names a variable that items bind is no one type of them
struct s('n) = { x : int('n) }
val two : forall ('a : Type). list((bit, 'a)) -> ('a, 'a)
function two(l) = match l { (_, p) :: (_, q) :: _ => (p, q), _ => exit() }
val g : list((bit, {'n, 0 <= 'n & 'n <= 1. (int('n), s('n))})) -> bit
function g(l) = { let ((_, a), (_, b)) = two(l); 0b1[b.x - a.x] }
# true
# 1 M20 1:5:42 #1 = 0
% check M // items of a type that binds a variable stay of it where a Type variable stands for their type
val f : forall ('a : Type). list('a) -> unit
function f(l) = ()
val g : list({'n, 0 <= 'n & 'n < 8. int('n)}) -> unit
function g(l) = f(l)
# true
# 0 accepted 4 functions 1 obligations 2 instances
% check M // a guard, in its case; an integer literal in a case's pattern
val f : range(0, 9) -> bit
function f(i) = match i { n if n < 8 => 0x12[n], _ => bitzero }
# true
# 0 accepted 3 functions 1 obligations 2 instances
% check M
val f : range(0, 9) -> bit
function f(i) = match i { n if n < 8 => bitone, n => 0x12[n] }
# true
# 1 M20 1:2:58 i = 8
% check M
val f : range(0, 9) -> bit
function f(i) = match (i, i) { (3, _) => 0x12[i], _ => bitzero }
# true
# 0 accepted 3 functions 1 obligations 2 instances
% check M // but no literal in a function's clause
val f : range(0, 9) -> range(0, 3)
function f(3 as i) = i
# true
# 1 M20 1:2:22 i = 4
% check M // the bounds of a `foreach`, up and down
# { foreach (i from 0 to 7) { let b = 0x12[i]; () }; true }
# 0 accepted 2 functions 2 obligations 2 instances
% check M
# { foreach (i from 7 to 0 in dec) { let b = 0x12[i]; () }; true }
# 0 accepted 2 functions 2 obligations 2 instances
% check M
# { foreach (i from 0 to 8) { let b = 0x12[i]; () }; true }
# 1 M20 1:4:59 i = 8
% check M // the condition of a loop is no fact, that of an `if` is
register I : range(0, 9)
# { let i = I; while termination_measure { 0 } i < 8 do { let b = 0x12[i]; () }; true }
# 1 M20 1:5:87 I = 8
% check M
register I : range(0, 9)
# { let i = I; if i < 8 then { let b = 0x12[i]; () }; true }
# 0 accepted 2 functions 1 obligations 2 instances
% check M // a register or `var` is read anew at each place
register I : range(0, 9)
# { if I < 8 then { let b = 0x12[I]; () }; true }
# 1 M20 1:5:49 I = 8
% check M
# { var i : range(0, 9) = 3; let b = 0x12[i]; true }
# 1 M20 1:4:58 i = 8
% check M // what is known of a base that a call gives comes into force behind the new value of its part, where it is written
register xs : bits(4)
val get : forall 'n. int('n) -> {'m, 'm == 8 & 0 <= 'n. bits('m)}
function get(n) = { if n < 0 then exit(); 0x12 }
val set : (int, bits(8)) -> unit
function set(n, v) = ()
overload acc = { get, set }
val f : range(-1, 3) -> unit
function f(n) = acc(n)[0] = xs[n]
# true
# 1 M20 1:8:31 n = -1
% check M
register xs : bits(4)
val get : forall 'n. int('n) -> {'m, 'm == 8 & 0 <= 'n. bits('m)}
function get(n) = { if n < 0 then exit(); 0x12 }
val set : (int, bits(8)) -> unit
function set(n, v) = ()
overload acc = { get, set }
val f : range(-1, 3) -> unit
function f(n) = acc(n)[7] = xs[0]
# true
# 0 accepted 5 functions 4 obligations 2 instances
% check M // what reads a base is owed of its arguments by itself, though the types of what writes are wanted of them
register v : vector(4, bits(8))
val get : range(0, 3) -> bits(8)
function get(i) = v[i]
val set : (range(0, 7), bits(8)) -> unit
function set(i, x) = ()
overload acc = { get, set }
val f : bool -> unit
function f(b) = acc(if b then 5 else 2)[0] = bitone
# true
# 1 M20 1:8:17 #1 = 4
% check M // what is known of a value opened on the right of `&` ends there, though the condition that names it stays
register I : range(0, 9)
val g : unit -> range(0, 7)
function g() = 7
# { let i = I; if g() == i & true then { let b = 0x12[i]; () }; true }
# 0 accepted 3 functions 2 obligations 3 instances
% check M
register I : range(0, 9)
val g : unit -> range(0, 7)
function g() = 7
# { let i = I; if true & g() == i then { let b = 0x12[i]; () }; true }
# 1 M20 1:7:70 I = 8, #1 = 8
% check M // payloads, fields and items are known by their types
union u = { C : range(0, 7), D : unit }
val f : u -> bit
function f(x) = match x { C(i) => 0x12[i], D() => bitzero }
# true
# 0 accepted 3 functions 1 obligations 2 instances
% check M
struct s = { a : range(0, 7) }
val f : s -> bit
function f(x) = 0x12[x.a]
# true
# 0 accepted 3 functions 1 obligations 2 instances
% check M
register V : vector(2, range(0, 7))
# { let b = 0x12[V[1]]; true }
# 0 accepted 2 functions 2 obligations 2 instances
% check M
union exception = { E : range(0, 9) }
val f : unit -> range(0, 3)
function f() = try throw E(3) catch { E(n) => n }
# true
# 1 M20 1:3:47 n = 4
% check M // a width is from 0 to 128
val f : forall 'n. bits('n) -> bit
function f(x) = x[0]
# true
# 1 M20 1:2:18 'n = 0
% check M
val f : forall 'n, 'n >= 1. bits('n) -> bit
function f(x) = x[0]
# true
# 0 accepted 3 functions 1 obligations 2 instances
% check M // a slice lies inside, and has as many bits
val f : (bits(8), range(0, 4)) -> bits(4)
function f(x, i) = x[i + 3 .. i]
# true
# 0 accepted 3 functions 3 obligations 2 instances
% check M
val f : (bits(8), range(0, 5)) -> bits(4)
function f(x, i) = x[i + 3 .. i]
# true
# 1 M20 1:2:21 i = 5
% check M // what a bool says holds where it is true
val g : forall 'n. int('n) -> bool('n < 8)
function g(n) = n < 8
val f : range(0, 9) -> bit
function f(i) = if g(i) then 0x12[i] else bitzero
# true
# 0 accepted 4 functions 2 obligations 2 instances
% check M // of the facts those that share a variable with what is owed: a conjunction is one fact, and two asserts are two
val f : (range(0, 9), range(0, 9)) -> range(0, 3)
function f(a, b) = { assert(a <= 5 & b <= 5); a }
# true
# 1 M20 1:2:47 a = 4, b = 0
% check M
val f : (range(0, 9), range(0, 9)) -> range(0, 3)
function f(a, b) = { assert(a <= 5); assert(b <= 5); a }
# true
# 1 M20 1:2:54 a = 4
% check M // a false fact without variables closes what has none
val f : bits(200) -> range(0, 3)
function f(x) = 4
# true
# 0 accepted 3 functions 1 obligations 2 instances
% check M // a power of two shares no variable with its exponent
val f : forall 'n, 0 <= 'n & 'n <= 3. (int('n), bits('n)) -> range(0, 7)
function f(n, x) = unsigned(x)
# true
# 1 M20 1:2:20 #1 = 8, 2 ^ ('n) = 9
% check M // where ways meet, two places that had one number inside a type are two fresh ones
struct s('n) = { x : int('n) }
val k : unit -> {'n, 0 <= 'n & 'n <= 3. int('n)}
function k() = 2
val two : forall 'n. int('n) -> list((s('n), s('n)))
function two(n) = [| (struct s { x = n }, struct s { x = n }) |]
val g : bool -> bit
function g(c) = { let l = if c then two(k()) else [| (struct s { x = 0 }, struct s { x = 1 }) |]; match l { (a, b) :: _ => 0b1[b.x - a.x], _ => bitzero } }
# true
# 1 M20 1:7:132 #2 = -85070591730234615865843651857942052865, #1 = 0
% check M // so nothing is owed of them there
struct s('n) = { x : int('n) }
val k : unit -> {'n, 0 <= 'n & 'n <= 3. int('n)}
function k() = 2
val two : forall 'n. int('n) -> list((s('n), s('n)))
function two(n) = [| (struct s { x = n }, struct s { x = n }) |]
val g : bool -> bool
function g(c) = { let l = if c then two(k()) else [| (struct s { x = 0 }, struct s { x = 1 }) |]; match l { (a, b) :: _ => b.x <= a.x, _ => false } }
# true
# 0 accepted 5 functions 8 obligations 2 instances
"#;

/// Variables as they are told, and numbers at their limits.
pub const NAMES: &str = "
% check M // what a call gives has a number, also under a `let`
val g : unit -> range(0, 9)
function g() = 3
val f : unit -> range(0, 3)
function f() = g()
# true
# 1 M20 1:4:16 #1 = 4
% check M
val g : unit -> range(0, 9)
function g() = 3
val f : unit -> range(0, 3)
function f() = { let x = g(); x }
# true
# 1 M20 1:4:31 #1 = 4
% check M // `_`, a comparison of bits and parts of a tuple count too
val g : unit -> range(0, 9)
function g() = 3
val f : (range(0, 9), bits(8)) -> range(0, 3)
function f(_, x) = if x == 0x00 then 0 else g()
# true
# 1 M20 1:4:45 #3 = 4
% check M
val g : unit -> range(0, 9)
function g() = 3
val f : ((range(0, 3), range(0, 3)), range(0, 9)) -> range(0, 3)
function f(p, i) = g()
# true
# 1 M20 1:4:20 #3 = 4
% check M // a hole of a first way is one variable, where the ways meet
val g : unit -> range(0, 9)
function g() = 3
val f : bool -> range(0, 3)
function f(c) = { let x = if c then None() else Some(0x1); g() }
# true
# 1 M20 1:4:60 #2 = 4
% check M // two variables may be told alike
register R : range(0, 9)
# { let a = R; let b = R; if a <= b then { let c = 0x12[b]; () }; true }
# 1 M20 1:5:72 R = 0, R = 8
% check M // a top-level `let` is its index where that is constant, else it is opened by its type
let n = 5
val f : unit -> range(0, 5)
function f() = n
# true
# 0 accepted 3 functions 1 obligations 2 instances
% check M
let n = if true then 5 else 4
val f : unit -> range(0, 5)
function f() = n
# true
# 1 M20 1:3:16 n = -85070591730234615865843651857942052864
% check M
let n : range(0, 5) = if true then 5 else 4
val f : unit -> range(0, 5)
function f() = n
# true
# 0 accepted 3 functions 3 obligations 2 instances
% check M // and the width of that type is any width elsewhere, unless it is constant
let z = zeros((if 1 == 1 then 4 else 8) : range(4, 8))
val g : forall 'n, 'n == 100. int('n) -> bit
function g(n) = z[50]
# g(100) == bitone
# 1 M20 1:3:18 #1 = 0
% check M // exponents where they are written, sizes at their word
val f : forall 'n, 0 <= 'n. (int('n), bits(2 ^ 'n)) -> unit
function f(n, x) = ()
# true
# 1 M20 1:1:46 'n = 127
% check M
val f : forall 'n, 0 <= 'n & 'n <= 8. (int('n), bits(2 ^ 'n)) -> unit
function f(n, x) = ()
# true
# 0 accepted 3 functions 1 obligations 2 instances
% check M
val f : forall 'n. int('n) -> unit
function f(n) = { let x = sizeof('n + 1); () }
# true
# 1 M20 1:2:27 'n = 85070591730234615865843651857942052864
% check M // fractions, and all facts where nothing owed has a variable
val f : forall 'n, 3 * 'n == 2. bits('n) -> bits(0)
function f(x) = 0b1
# true
# 1 M20 1:2:17 'n = 2/3
% check M // numbers: sums and products stay within the limits
val f : (range(0, 255), range(0, 255)) -> range(0, 510)
function f(a, b) = a + b
# true
# 0 accepted 3 functions 2 obligations 2 instances
% check M
val f : int -> int
function f(n) = n - 1
# true
# 1 M20 1:2:19 n = -85070591730234615865843651857942052864
% check M
val f : int -> int
function f(n) = { assert(n >= 0); n - 1 }
# true
# 0 accepted 3 functions 2 obligations 2 instances
% check M
val f : (int, range(0, 3)) -> int
function f(a, b) = a - b
# true
# 1 M21 1:2:22 number
% check M
val f : (range(0, 3), range(0, 3)) -> range(0, 9)
function f(a, b) = a * b
# true
# 1 M20 1:2:22 a = 0, b = 0
% check M
val f : range(0, 9) -> range(-9, 0)
function f(n) = -n
# true
# 0 accepted 3 functions 1 obligations 2 instances
% check M
val f : (int, range(0, 9)) -> int
function f(a, b) = ediv_int(a, b)
# true
# 1 M20 1:2:20 b = 0
% check M
val f : (int, range(1, 9)) -> int
function f(a, b) = ediv_int(a, b)
# true
# 0 accepted 3 functions 2 obligations 2 instances
% check M
# { let x : int = 85070591730234615865843651857942052864; true }
# 1 M21 1:4:25 number
% check M
# { let x : int = 85070591730234615865843651857942052862; true }
# 0 accepted 2 functions 1 obligations 2 instances
% check M // more than 64 cases
val f : forall 'n, 'n in {0, 1, 2, 3, 4, 5, 6, 7, 8, 9, 10, 11, 12, 13, 14, 15, 16, 17, 18, 19, 20, 21, 22, 23, 24, 25, 26, 27, 28, 29, 30, 31, 32}. int('n) -> range(0, 32)
function f(n) = n
# true
# 1 M21 1:2:17 cases 66
";
