//! Words, models and what is written for them, the status first, by the rules of obligations: the words, the text, the body of a step
//! behind it, and the answer. Here stand which obligation is the first, what is wanted of a form and where it is owed, and what forms owe.

/// Which obligation is the first that is not closed, and how many functions and obligations there are.
pub const ORDER: &str = "
% check M // a function stands at its first word, not at its `val`
val f : int -> range(0, 3)
let a = 0x1[4]
function f(n) = n
# true
# 1 M20 1:2:12
% check M // and a measure at its own
val f : range(0, 3) -> range(0, 2)
termination_measure f(n) = 0 - 1
function f(n) = n
# true
# 1 M20 1:2:30 n = 0
% check M
val f : range(0, 3) -> range(0, 2)
function f(n) = n
termination_measure f(n) = 0 - 1
# true
# 1 M20 1:2:17 n = 3
% check M
register R : range(0, 3) = 4
val f : int -> range(0, 3)
function f(n) = n
# true
# 1 M20 1:1:28
% check M // a loop's measure comes before its condition, and `1 <= s` before what a body owes
# { while termination_measure { 0 - 1 } 0x1[4] == bitzero do (); true }
# 1 M20 1:4:51
% check M
# { foreach (i from 0 to 9 by 0) { let b = 0x1[4]; () }; true }
# 1 M20 1:4:21
% check M // an expression comes before its pattern, and a pattern's parts before it
# { let 0b11 = 0x1[4 .. 4]; true }
# 1 M20 1:4:35
% check M
# { match 0x12 { 0b1 @ (x : bits(8)) => (), _ => () }; true }
# 1 M20 1:4:38
% check M // what a pattern owes has the facts in force before its parts were read
val f : range(0, 9) -> bool
function f(i) = match i { 3 : range(0, 3) => true, _ => false }
# true
# 1 M20 1:2:27 i = 4
% check M // a mapping is read twice: forwards, then backwards
mapping m : range(0, 3) <-> range(0, 3) = { i <-> i }
# true
# 0 accepted 3 functions 2 obligations 2 instances
% check M
mapping m : range(0, 3) <-> range(0, 7) = { i <-> i }
# true
# 1 M20 1:1:45 i = 4
% check M
mapping m : range(0, 7) <-> range(0, 3) = { i <-> i }
# true
# 1 M20 1:1:51 i = 4
% check M // a `let` with a wrong type keeps the index of its value, so an earlier function that reads it may be the first
val f : unit -> range(0, 3)
function f() = n
let n : range(0, 3) = 4
# true
# 1 M20 1:2:16
% check M // counts: a scattered function once, one without a `val` too, no overload, member or constructor; a mapping once
enum e = P | Q
union u = { D : int }
val f : int -> int
scattered function f
function clause f(0) = 0
function clause f(n) = n
end f
function g() -> unit = ()
overload h = {f}
mapping m : bits(1) <-> bool = { 0b0 <-> true, 0b1 <-> false }
# true
# 0 accepted 5 functions 6 obligations 2 instances
% check M
# true
# 0 accepted 2 functions 0 obligations 2 instances
";

/// What is wanted of a form, and where that is owed.
pub const WANTED: &str = "
% check M // a body, a `return`, an initial value, a measure, a field, a payload, an item, an argument
val f : range(0, 9) -> range(0, 3)
function f(n) = { if n > 3 then return n; n }
# true
# 1 M20 1:2:33 n = 4
% check M
val f : range(0, 9) -> range(0, 3)
function f(n) = { if n > 3 then return 3; n }
# true
# 0 accepted 3 functions 2 obligations 2 instances
% check M
register R : range(0, 3) = 3
val f : range(0, 3) -> unit
termination_measure f(n) = n
function f(n) = ()
# true
# 0 accepted 3 functions 2 obligations 2 instances
% check M
struct s = { a : range(0, 3), b : bits(4) }
# { let x = struct s { a = 4, b = 0x1 }; true }
# 1 M20 1:5:44
% check M
union u = { C : (range(0, 3), range(0, 3)) }
# { let x = C(1, 5); true }
# 1 M20 1:5:34
% check M
register V : vector(2, range(0, 3))
# { V = [3, 4]; true }
# 1 M20 1:5:29
% check M
val g : range(0, 3) -> bool
function g(n) = true
# g(4)
# 1 M20 1:6:19
% check M // also where an overload chose the callee
val g : range(0, 3) -> bool
function g(n) = true
overload h = {g}
# h(4)
# 1 M20 1:7:19
% check M // an argument whose parameter names a type variable gives its number, and the constraint is owed
val g : forall 'n, 0 <= 'n & 'n <= 3. int('n) -> bool
function g(n) = true
# g(4)
# 1 M20 1:6:19
% check M
val g : forall 'n, 0 <= 'n & 'n <= 3. int('n) -> bool
function g(n) = true
# g(3)
# 0 accepted 3 functions 1 obligations 3 instances
% check M // a call all of whose parameters give numbers, without a constraint, owes nothing
val dup : forall 'n. bits('n) -> bits('n)
function dup(x) = x
# { let y = dup(0x1); true }
# 0 accepted 3 functions 1 obligations 3 instances
% check M // `f(a) = e` is the call `f(a, e)`
val f : (range(0, 3), bits(8)) -> unit
function f(i, v) = ()
# { f(4) = 0x12; true }
# 1 M20 1:6:21
% check M // a wanted type goes into branches, and each owes
val f : range(0, 9) -> range(0, 9)
function f(n) = if n < 5 then n + 5 else n - 5
# true
# 0 accepted 3 functions 4 obligations 2 instances
% check M
val f : range(0, 9) -> range(0, 9)
function f(n) = if n < 5 then n + 5 else n + 5
# true
# 1 M20 1:2:44 n = 5
% check M // through a block to its last expression, with the facts there
val f : range(0, 9) -> range(0, 3)
function f(n) = { assert(n <= 3); n }
# true
# 0 accepted 3 functions 1 obligations 2 instances
% check M // it doesn't go into calls, operators or indexes: those have their own
val f : range(0, 9) -> range(0, 3)
function f(n) = if n <= 3 then n else emod_int(n, 4)
# true
# 0 accepted 3 functions 3 obligations 2 instances
% check M // `let x : T = e` owes once, and x keeps what e has; where e has branches, they owe, and x has T
val f : range(0, 3) -> range(0, 3)
function f(n) = { let x : range(0, 9) = n; x }
# true
# 0 accepted 3 functions 2 obligations 2 instances
% check M
val f : range(0, 3) -> range(0, 3)
function f(n) = { let x : range(0, 9) = if n < 2 then n else 1; x }
# true
# 1 M20 1:2:65 #1 = 4
% check M // parts of a tuple owe together, but for branches among them
val f : range(0, 3) -> (range(0, 3), range(0, 9))
function f(n) = (n, n)
# true
# 0 accepted 3 functions 1 obligations 2 instances
% check M
val f : range(0, 3) -> (range(0, 3), range(0, 9))
function f(n) = (n, if n < 2 then n + 2 else n)
# true
# 0 accepted 3 functions 4 obligations 2 instances
% check M // a literal owes at each item and as a whole
register V : vector(2, bits(8))
# { V = [0x01, 0x02]; true }
# 0 accepted 2 functions 3 obligations 2 instances
% check M // with a `val`, types at parameters and before a body are owed; without one they are the types
val f : range(0, 3) -> range(0, 9)
function f(n : range(0, 5)) -> range(0, 7) = n
# true
# 0 accepted 3 functions 3 obligations 2 instances
% check M
val f : range(0, 3) -> range(0, 5)
function f(n) -> range(0, 9) = { assert(n <= 2); n }
# true
# 0 accepted 3 functions 2 obligations 2 instances
% check M
function f(n : range(0, 3)) -> range(0, 9) = n
# true
# 0 accepted 3 functions 1 obligations 2 instances
% check M // an assignment owes at its target, one that ends with an index at its `[`, an earlier index for itself
register R : range(0, 3)
# { R = 4; true }
# 1 M20 1:5:21
% check M
register V : vector(2, bits(8))
# { V[2] = 0x12; true }
# 1 M20 1:5:22
% check M
register V : vector(2, bits(8))
# { V[1][3] = bitone; true }
# 0 accepted 2 functions 2 obligations 2 instances
% check M
register V : vector(2, bits(8))
# { V[2][8] = bitone; true }
# 1 M20 1:5:22
% check M
register A : bits(8)
register B : bits(8)
# { (A, B[9]) = (0x12, bitone); true }
# 1 M20 1:6:26
% check M
register A : bits(8)
register B : bits(8)
# { (A, B[7]) = (0x12, bitone); true }
# 0 accepted 2 functions 2 obligations 2 instances
% check M // without a wanted type other branches owe the widths of the first, and items those of the first item
register T : bool
# { let x = if T then 0x1 else 0x12; true }
# 1 M20 1:5:48 T = 0
% check M
# { let v = [0x1, 0x12]; true }
# 1 M20 1:4:35
% check M
# { let v = [0x1, 0x2]; true }
# 0 accepted 2 functions 2 obligations 2 instances
% check M // a `var` without a type is as wide as can be, and owes nothing at first
# { var x = 3; x = 400; true }
# 0 accepted 2 functions 1 obligations 2 instances
% check M // a struct fits field by field, a union by its arguments alone
struct s = { a : range(0, 3), b : bits(4) }
register P : s
# { P = P; true }
# 0 accepted 2 functions 1 obligations 2 instances
% check M
union u = { C : range(0, 3) }
val f : u -> u
function f(x) = x
# true
# 0 accepted 3 functions 0 obligations 2 instances
% check M // items that lists may have fit, if there are any
val f : list(range(0, 3)) -> list(range(0, 9))
function f(l) = l
# true
# 0 accepted 3 functions 1 obligations 2 instances
% check M
val f : list(range(0, 9)) -> list(range(0, 3))
function f(l) = l
# true
# 1 M20 1:2:17 #1 = 4
";

/// What forms owe, and certificates.
pub const FORMS: &str = "
% check M // conditions of constants count
register PC : bits(8)
# { PC = PC + 0x01; true }
# 0 accepted 2 functions 2 obligations 2 instances
% check M // the step of a `foreach`
# { foreach (i from 0 to 3) { () }; true }
# 0 accepted 2 functions 1 obligations 2 instances
% check M // a part of a concatenation, besides the whole
# { match 0x1 { 0b0 @ (x : bits(3)) => (), _ => () }; true }
# 0 accepted 2 functions 3 obligations 2 instances
% check M // a condition owes nothing
# { assert(1 < 2); true }
# 0 accepted 2 functions 0 obligations 2 instances
% check M // an operand that never ends normally
val f : range(0, 3) -> range(0, 3)
function f(n) = { let b = 0x12[return n]; n }
# true
# 0 accepted 3 functions 2 obligations 2 instances
% certs M // certificates: nothing for a model that owes nothing, a line for what has no cases
# true
# 0 % certs M
register PC : bits(8)
# { PC = PC + 0x01; true }
# 0 obligation 1 1:5:29
obligation 2 1:5:21
% certs M // rows of the facts and of the negated goal, and the steps to the row that closes a case
val f : (bits(4), range(0, 4)) -> bit
function f(x, n) = if n != 4 then x[n] else bitone
# true
# 0 obligation 1 1:2:36
case 1
row 1: -1*n <= 0
row 2: 1*n <= -1
step 3: 2 * 1 + 1 * 1 / 1
case 2
row 1: -1*n <= -5
row 2: 1*n <= -1
step 3: 2 * 1 + 1 * 1 / 6
case 3
row 1: -1*n <= -4
row 2: 1*n <= 3
step 3: 2 * 1 + 1 * 1 / 1
case 4
row 1: -1*n <= -5
row 2: 1*n <= 4
step 3: 2 * 1 + 1 * 1 / 1
% certs M // a model that is refused is so by each command
val f : int -> int
function f(n) = n - 1
# true
# 1 M20 1:2:19 n = -85070591730234615865843651857942052864
% run --elf Q M
val f : int -> int
function f(n) = n - 1
# true
# 1 M20 1:2:19 n = -85070591730234615865843651857942052864
% run --elf Q --ram-size 8 --steps 2 M // a model without registers
val f : int -> int
function f(n) = n
# true
# 0 == report
stop steps-done
steps 2
console 0
hart 0
== end
";
