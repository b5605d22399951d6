//! Words, models and what is written for them, the status first, by the rules of instances: the words, the text, the body of a step behind it,
//! and the answer.

/// Which sizes are read, where one is refused, and what is told of it.
pub const SIZES: &str = "
% check M // a size is refused at the form that has it, and told by its first variable: by the name that a pattern gives it
val s : range(0, 64) -> unit
function s(n) = { let b = zeros(n); () }
# { s(1); true }
# 1 M25 1:2:27 n
% check M // by its type variable
val p : bool -> {'k, 0 <= 'k & 'k <= 16. bits('k)}
function p(b) = 0x05
# { let x = p(true); true }
# 1 M25 1:6:29 'k
% check M // and without a name by its number in the function
register A : bits(7)
# { let b = zeros(unsigned(A)); true }
# 1 M25 1:5:29 #1
% check M // a width is at most 128, a length at most 4,096
# { let b : bits(128) = exit(); let v : vector(4096, bool) = exit(); true }
# 0 accepted 2 functions 0 obligations 2 instances
% check M
# { let b : bits(129) = exit(); true }
# 1 M26 1:4:34 129
% check M
# { let v : vector(4097, bool) = exit(); true }
# 1 M26 1:4:36 4097
% check M // neither is below 0
val z : forall 'n. int('n) -> unit
function z(n) = { let b : bits('n - 5) = exit(); () }
# { z(3); true }
# 1 M26 1:2:35 -2
% check M // a number past the limit of numbers is told as that limit
val z : forall 'n. int('n) -> unit
function z(n) = { let b : bits(2 * 'n) = exit(); () }
# { z(85070591730234615865843651857942052862); true }
# 1 M26 1:2:34 85070591730234615865843651857942052864
% check M // a size that comes through a named type is refused at that name
type w('n) = bits(3 * 'n)
val z : forall 'n. int('n) -> unit
function z(n) = { let b : w('n) = exit(); () }
# { z(43); true }
# 1 M26 1:3:27 129
% check M // a parameter's at its pattern
val g : {'k, 'k in {8, 136}. bits('k)} -> unit
function g(x) = ()
# { g(0x05); true }
# 1 M26 1:2:12 136
% check M
val g : {'k, 0 <= 'k & 'k <= 16. bits('k)} -> unit
function g(x) = ()
# { g(0x05); true }
# 1 M25 1:2:12 'k
% check M // types that are written: at a `var`, in a pattern, of items
# { var b : bits(129) = exit(); true }
# 1 M26 1:4:34 129
% check M
# { let (a, b : bits(129)) = exit(); true }
# 1 M26 1:4:38 129
% check M
# { let b : vector(2, bits(129)) = exit(); true }
# 1 M26 1:4:44 129
% check M // behind the value at which they are written
# { let b : bits(129) = zeros(129); true }
# 1 M26 1:4:41 129
% check M // what a builtin, a slice, a mapping and a literal make
val z : range(0, 17) -> unit
function z(n) = { let b = zeros(8 * n); () }
# { z(3); true }
# 1 M26 1:2:27 136
% check M
val f : (bits(80), range(0, 79)) -> unit
function f(x, n) = { let y = x[n .. 0]; () }
# { f(zeros(80), 3); true }
# 1 M25 1:2:31 n
% check M
mapping m : bits(129) <-> bool = { 0x00000000000000000000000000000000 @ 0b0 <-> true }
# { let b = m(true); true }
# 1 M26 1:5:29 129
% check M
# { let x : vector(2, option({'k, 'k in {8, 16}. bits('k)})) = [None(), None()]; true }
# 1 M25 1:4:80 'k
% check M
# { let x : list(option({'k, 'k in {8, 16}. bits('k)})) = [| None(), None() |]; true }
# 1 M25 1:4:75 'k
% check M // a payload and a field that are taken out, and what is in a named type
union u = { C : bits(129), D : unit }
# { let x = match D() { C(b) => true, D() => false }; true }
# 1 M26 1:5:41 129
% check M
struct s = { a : {'k, 'k in {8, 136}. bits('k)} }
# { let x = struct s { a = 0x05 }; let y = x.a; true }
# 1 M26 1:5:60 136
% check M
struct s = { a : bits(129) }
val f : unit -> s
function f() = exit()
# { let x = f(); true }
# 1 M26 1:7:29 129
% check M
union t = { C : (list(t), bits(129)), D : unit }
val f : unit -> t
function f() = D()
# { let x = f(); true }
# 1 M26 1:7:29 129
% check M // what is bound in a payload is no number of the value
val u : unit -> option({'k, 'k in {8, 16}. bits('k)})
function u() = None()
# { let x = u(); true }
# 1 M25 1:6:29 'k
% check M // `if`, `match` and `try`, of which each way has a size of its own
val small : unit -> range(0, 3)
function small() = 2
val z : bool -> unit
function z(b) = { let x = if b then { let k = small(); zeros(k) } else { let k = small(); zeros(k) }; () }
# { z(true); true }
# 1 M25 1:4:27 #3
% check M
val small : unit -> range(0, 3)
function small() = 2
val z : bool -> unit
function z(b) = { let x = match b { true => { let k = small(); zeros(k) }, false => { let k = small(); zeros(k) } }; () }
# { z(true); true }
# 1 M25 1:4:27 #3
% check M
union exception = { Worse : unit }
val small : unit -> range(0, 3)
function small() = 2
val z : bool -> unit
function z(b) = { let x = try { let k = small(); zeros(k) } catch { _ => { let k = small(); zeros(k) } }; () }
# { z(true); true }
# 1 M25 1:5:27 #3
% check M // a hole of a first way is one width, where the ways meet, behind what a later way opens
# { let x = if true then None() else Some(0x1); true }
# 1 M25 1:4:29 #1
% check M
val g : unit -> range(0, 9)
function g() = 3
# { let x = if true then None() else Some((g(), 0x1)); true }
# 1 M25 1:6:29 #2
% check M
val z : range(0, 3) -> unit
function z(n) = { let x = if n < 2 then zeros(n) else zeros(n); () }
# { z(1); true }
# 0 accepted 3 functions 4 obligations 3 instances
% check M // a name, a block and a `let` have no size of their own to be read, which for an n above 10 is past the limit
val z : range(0, 40) -> unit
function z(n) = { let x = { assert(n < 10); zeros(12 * n) }; let y = x; () }
# { z(3); true }
# 0 accepted 3 functions 3 obligations 3 instances
% check M // all obligations come before any size
register R : bits(129)
# { let x : range(0, 3) = 4; true }
# 1 M20 1:5:25
% certs M // a model that is refused is so by each command
register R : bits(129)
# true
# 1 M26 1:1:19 129
% run --elf Q M
register R : bits(129)
# true
# 1 M26 1:1:19 129
";

/// What values of a body take several numbers, and under which of them a place is read.
pub const SPLITS: &str = "
% check M // what is opened in a body takes each number of a range of at most 64
val s : range(0, 63) -> unit
function s(n) = { let b = zeros(n); () }
# { s(1); true }
# 0 accepted 3 functions 2 obligations 3 instances
% check M // of a loop
# { foreach (i from 0 to 63) { let b = zeros(i); () }; true }
# 0 accepted 2 functions 2 obligations 2 instances
% check M
# { foreach (i from 0 to 64) { let b = zeros(i); () }; true }
# 1 M25 1:4:56 i
% check M // of what a builtin gives
register A : bits(6)
# { let b = zeros(unsigned(A)); true }
# 0 accepted 2 functions 2 obligations 2 instances
% check M // of a range whose ends are constant for the numbers of the instance
val z : forall 'n, 0 <= 'n & 'n <= 100. int('n) -> unit
function z(n) = { let a = zeros(n); foreach (i from 0 to n) { let b = zeros(i); () } }
# { z(63); true }
# 0 accepted 3 functions 4 obligations 3 instances
% check M
val z : forall 'n, 0 <= 'n & 'n <= 100. int('n) -> unit
function z(n) = { let a = zeros(n); foreach (i from 0 to n) { let b = zeros(i); () } }
# { z(64); true }
# 1 M25 1:2:71 i
% check M
val z : forall 'n, 0 <= 'n & 'n <= 100. int('n) -> unit
function z(n) = foreach (i from 0 to n) { let b = zeros(i); () }
# { z(3); true }
# 1 M25 1:2:51 i
% check M // or each number of the set that its condition names
val p : bool -> {'k, 'k in {8, 16}. bits('k)}
function p(b) = if b then 0x05 else 0x0505
# { let x = p(true); true }
# 0 accepted 3 functions 2 obligations 3 instances
% check M
val p : bool -> {'k, 'k in {8, 136}. bits('k)}
function p(b) = 0x05
# { let x = p(true); true }
# 1 M26 1:6:29 136
% check M
val p : bool -> {'k, 'k in {8, 16}. bits('k)}
function p(b) = if b then 0x05 else 0x0505
# { let x : {'k, 'k in {8, 16}. bits('k)} = p(true); true }
# 0 accepted 3 functions 3 obligations 3 instances
% check M // up to 64 combinations, in order of opening
val z : (range(0, 7), range(0, 7)) -> unit
function z(n, m) = { let b = zeros(n + m); () }
# { z(3, 3); true }
# 0 accepted 3 functions 3 obligations 3 instances
% check M
val z : (range(0, 12), range(0, 4)) -> unit
function z(n, m) = { let b = zeros(n + m); () }
# { z(3, 3); true }
# 1 M25 1:2:30 m
% check M
val z : (range(0, 12), range(0, 4)) -> unit
function z(n, m) = { let b = zeros(m); let c = zeros(n); () }
# { z(3, 3); true }
# 1 M25 1:2:30 m
% check M // a combination under which a fact in force is constant and false isn't counted
val z : range(0, 40) -> unit
function z(n) = if n < 10 then { let b = zeros(12 * n); () } else ()
# { z(3); true }
# 0 accepted 3 functions 3 obligations 3 instances
% check M // one under which a fact isn't constant is
val z : (range(0, 11), int) -> unit
function z(n, m) = if n < m then if m <= 10 then { let b = zeros(12 * n); () } else () else ()
# { z(3, 4); true }
# 1 M26 1:2:60 132
% check M // a place without a combination is dead: no size is read there, and nothing is found
register I : range(0, 3)
val big : unit -> unit
function big() = { let b : bits(129) = exit(); () }
# { let n = I; let c = zeros(n); if n > 3 then big(); true }
# 0 accepted 3 functions 1 obligations 2 instances
% check M // but a variable that is in no size isn't split
register I : range(0, 3)
# { let n = I; if n > 3 then { let b : bits(129) = exit(); () }; true }
# 1 M26 1:5:61 129
% check M // of an empty range its lower end is taken, so a place where its own facts are in force is dead, and no other
# { foreach (i from 5 to 3) { let b = zeros(100 * i); () }; true }
# 0 accepted 2 functions 3 obligations 2 instances
% check M
# { foreach (i from 5 to 3) { let b = zeros(100 * i); () }; let b : bits(129) = exit(); true }
# 1 M26 1:4:90 129
% check M // what a value opens itself isn't in force where its size is read
val v : unit -> {'k, 'k in {128, 136}. bits('k)}
function v() = exit()
# { let x = v(); true }
# 1 M26 1:6:29 136
";

/// Which instances there are, in which order they are found, and what comes last.
pub const FOUND: &str = "
% check M // a function for the numbers of the variables that are in a width or length of its signature or body
val dup : forall 'n. bits('n) -> bits(2 * 'n)
function dup(x) = x @ x
# { let a = dup(0x5); let b = dup(0x5a); true }
# 0 accepted 3 functions 1 obligations 4 instances
% check M
type w('n) = bits(3 * 'n)
val z : forall 'n. int('n) -> unit
function z(n) = { let b : w('n) = exit(); () }
# { z(4); z(5); z(4); true }
# 0 accepted 3 functions 0 obligations 4 instances
% check M // or in a number that is given to such a variable
val y : forall 'm, 0 <= 'm & 'm <= 9. int('m) -> unit
function y(m) = { let b = zeros(m); () }
val z : forall 'n, 0 <= 'n & 'n <= 3. int('n) -> unit
function z(n) = y(n + 1)
# { z(1); z(2); z(3); true }
# 0 accepted 4 functions 6 obligations 8 instances
% check M // and of no others
val y : forall 'n. int('n) -> unit
function y(n) = ()
val z : int -> unit
function z(n) = ()
# { y(1); y(2); z(3); z(4); true }
# 0 accepted 4 functions 2 obligations 4 instances
% check M // what is opened in a body makes no instance
val z : range(1, 4) -> bits(8)
function z(n) = truncate(zeros(8 * n), 8)
# { let a = z(3); let b = z(4); true }
# 0 accepted 3 functions 6 obligations 3 instances
% check M // the width of an access to memory is a size
val z : (range(1, 16), bits(64)) -> unit
function z(w, a) = { let b = mem_read(w, a); () }
# { z(2, zeros(64)); true }
# 0 accepted 3 functions 3 obligations 3 instances
% check M
val z : (int, bits(64)) -> unit
function z(w, a) = if 1 <= w & w <= 16 then { let b = mem_mapped(w, a); () } else ()
# { z(2, zeros(64)); true }
# 1 M25 1:2:55 w
% check M // and for what its Type variables stand for, of which widths and lengths count, but no other numbers
val pick : forall ('a : Type). (bool, 'a, 'a) -> 'a
function pick(c, x, y) = if c then x else y
# { let a = pick(true, 1, 2); let b = pick(true, 3, 4); let c = pick(true, 0x1, 0x2); let d = pick(true, 0x01, 0x02); let e = pick(true, 0x3, 0x4); true }
# 0 accepted 3 functions 5 obligations 5 instances
% check M
val pick : forall ('a : Type). (bool, 'a, 'a) -> 'a
function pick(c, x, y) = if c then x else y
register I : range(0, 70)
# { let b = I; let a = pick(true, Some(b), None()); true }
# 0 accepted 3 functions 2 obligations 3 instances
% check M
val pick : forall ('a : Type). (bool, 'a, 'a) -> 'a
function pick(c, x, y) = if c then x else y
val z : range(0, 3) -> unit
function z(n) = { let x = zeros(n); let y = pick(true, x, x); () }
# { z(2); true }
# 0 accepted 4 functions 3 obligations 7 instances
% check M // a call leads to an instance under each combination
val y : forall 'n 'm, 0 <= 'n & 'n <= 3 & 0 <= 'm & 'm <= 3. (int('n), int('m)) -> unit
function y(n, m) = { let a = zeros(n); let b = zeros(m); () }
val z : (range(0, 3), range(0, 3)) -> unit
function z(n, m) = if n < m then y(n, m) else ()
# { z(1, 2); true }
# 0 accepted 4 functions 4 obligations 9 instances
% check M // what is never reached is never read
val big : bits(500) -> unit
function big(x) = ()
# true
# 0 accepted 3 functions 0 obligations 2 instances
% check M // what is found first is read first, behind all that is found by then
val a : unit -> unit
function a() = c()
val b : unit -> unit
function b() = { let x = zeros(129); () }
val c : unit -> unit
function c() = { let x = zeros(130); () }
# { a(); b(); true }
# 1 M26 1:4:26 129
% check M // a measure before its body
val a : range(0, 5) -> unit
termination_measure a(n) = unsigned(truncate(zeros(129), 3))
function a(n) = { let y = zeros(130); if n == 0 then () else a(n - 1) }
# { a(3); true }
# 1 M26 1:2:46 129
% check M // a mapping that is reached, by a call or a pattern, is read once, and is no instance
enum E = A | B
mapping em : E <-> bits(2) = { A <-> 0b00, B <-> 0b01 }
# { let x = em(A); let y = match 0b00 { em(e) => true, _ => false }; true }
# 0 accepted 3 functions 5 obligations 2 instances
% check M
val g : unit -> bool
function g() = { let x = zeros(129); true }
mapping bm : bool <-> bits(8) = { true <-> 0x00 if g(), false <-> 0x01 }
# { let x = bm(true); true }
# 1 M26 1:2:26 129
% check M
val g : unit -> bool
function g() = { let x = zeros(129); true }
mapping bm : bool <-> bits(8) = { true <-> 0x00 if g(), false <-> 0x01 }
# match true { bm(0x00) => true, _ => false }
# 1 M26 1:2:26 129
% check M
val g : unit -> bool
function g() = { let x = zeros(129); true }
mapping bm : bool <-> bits(8) = { true <-> 0x00 if g(), false <-> 0x01 }
# true
# 0 accepted 4 functions 5 obligations 2 instances
% check M // top-level `let`s and registers last, in the order of the text
val z : unit -> unit
function z() = { let b = zeros(129); () }
let T = zeros(130)
# { z(); true }
# 1 M26 1:2:26 129
% check M
let T = zeros(140)
type w = bits(129)
register R : w
# true
# 1 M26 1:1:9 140
% check M // a register's type before its initial value, a size that comes through a named type at that name
type w = bits(129)
register R : w = zeros(131)
# true
# 1 M26 1:2:14 129
% check M // sizes of fields and payloads at the register
struct P = { f : bits(129) }
register R : (bool, P)
# true
# 1 M26 1:2:1 129
% check M // each of 4,096 instances is good, `reset` and `step` among them; the call that makes one more isn't
register I : range(0, 63)
register J : range(0, 61)
register K : range(0, 62)
val g : forall 'n, 0 <= 'n & 'n <= 4096. int('n) -> vector('n, bool)
function g(n) = exit()
val f : forall 'k, 0 <= 'k & 'k <= 61. int('k) -> unit
function f(k) = { let i = I; let v = g(64 * k + i); () }
val h : unit -> unit
function h() = { let k = K; let v = g(4000 + k); () }
# { let j = J; f(j); h(); true }
# 0 accepted 5 functions 6 obligations 4096 instances
% check M
register I : range(0, 63)
register J : range(0, 61)
register K : range(0, 63)
val g : forall 'n, 0 <= 'n & 'n <= 4096. int('n) -> vector('n, bool)
function g(n) = exit()
val f : forall 'k, 0 <= 'k & 'k <= 61. int('k) -> unit
function f(k) = { let i = I; let v = g(64 * k + i); () }
val h : unit -> unit
function h() = { let k = K; let v = g(4000 + k); () }
# { let j = J; f(j); h(); true }
# 1 M27 1:9:37 4097
";
