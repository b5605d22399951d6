//! Runs of models with mappings in patterns, each with its report, which was worked out by hand.

/// Words, a text, the body of `step`, and what is written, the status first.
pub const RUNS: &str = "
% run --elf Q --steps 1 M // the first case whose pattern fits is taken; where no clause of the mapping fits, none with that pattern is
enum color = { Red, Green, Blue }
mapping code : color <-> bits(2) = { Red <-> 0b00, Green <-> 0b01, Blue <-> 0b11 }
register A : bits(8)
register B : bits(8)
register C : color
# { A = match 0b01 { code(Red) => 0x01, code(Green) => 0x02, code(_) => 0x03, _ => 0x04 };
B = match 0b10 { code(Red) => 0x01, code(Green) => 0x02, code(_) => 0x03, _ => 0x04 };
C = match 0b11 { code(Red) => Green, code(c) => c, _ => Red }; true }
# 0 == report
stop steps-done
steps 1
console 0
hart 0
A = 0x02
B = 0x04
C = Blue
== end
% run --elf Q M // none fits
enum color = { Red, Green, Blue }
mapping code : color <-> bits(2) = { Red <-> 0b00, Green <-> 0b01, Blue <-> 0b11 }
register A : bits(2)
# { let b : bits(8) = match A { code(_) => 0x01 }; A = A + 0b01; true }
# 0 == report
stop match-failure 1:7:39
steps 2
console 0
hart 0
A = 0b10
== end
% run --elf Q M // in a `let`
enum color = { Red, Green, Blue }
mapping code : color <-> bits(2) = { Red <-> 0b00, Green <-> 0b01, Blue <-> 0b11 }
register A : bits(2)
register C : color
# { let code(c) = A; C = c; A = A + 0b01; true }
# 0 == report
stop match-failure 1:8:21
steps 2
console 0
hart 0
A = 0b10
C = Green
== end
% run --elf Q M // in a parameter
enum color = { Red, Green, Blue }
mapping code : color <-> bits(2) = { Red <-> 0b00, Green <-> 0b01, Blue <-> 0b11 }
scattered function f
val f : (bits(2), bool) -> bits(8)
function clause f(code(Green), true) = 0x10
function clause f(code(Green), _) = 0x20
function clause f(code(c), false) = if c == Blue then 0x30 else 0x40
function clause f(0b10, b) = if b then 0x50 else 0x60
end f
register A : bits(8)
register B : bits(8)
register C : bits(8)
register D : bits(8)
register E : bits(8)
register F : bits(8)
# { A = f(0b01, true); B = f(0b01, false); C = f(0b11, false); D = f(0b00, false); E = f(0b10, true); F = f(0b11, true); true }
# 0 == report
stop match-failure 1:3:1
steps 0
console 0
hart 0
A = 0x10
B = 0x20
C = 0x30
D = 0x40
E = 0x50
F = 0x00
== end
% run --elf Q --steps 1 M // in a mapping, which stands before those that it names
mapping outer : (color, bool) <-> bits(3) = { (c, b) <-> code(c) @ flag(b), (Blue, true) <-> 0b101 }
mapping flag : bool <-> bits(1) = { true <-> 0b1, false <-> 0b0 }
enum color = { Red, Green, Blue }
mapping code : color <-> bits(2) = { Red <-> 0b00, Green <-> 0b01, Blue <-> 0b11 }
mapping pair : bits(3) <-> (bits(2), bits(1)) = { x @ y <-> (x, y) }
register A : bits(3)
register B : (color, bool)
register C : (color, bool)
register D : bits(8)
register E : bits(8)
register F : bits(8)
# { A = outer(Green, true); B = outer(0b110);
C = match 0b101 { outer(c, b) => (c, b), _ => (Red, false) };
D = match 0b100 { outer(c, b) => 0x01, _ => 0x02 };
E = match 0b011 { outer(Green, false) => 0x01, outer(Red, _) => 0x02, outer(Green, true) => 0x03, _ => 0x04 };
F = match 0b110 { pair(code(Red), _) => 0x05, pair(code(Blue), flag(true)) => 0x06, pair(code(c), flag(b)) => 0x07, _ => 0x08 }; true }
# 0 == report
stop steps-done
steps 1
console 0
hart 0
A = 0b011
B = (Blue, false)
C = (Blue, true)
D = 0x02
E = 0x03
F = 0x07
== end
% run --elf Q --steps 1 M // a direction by its name, both ways, of a mapping whose sides are alike
mapping twist : bits(4) <-> bits(4) = { 0x1 <-> 0x2, 0x2 <-> 0x3, x if x == 0xf <-> x if x == 0xf }
register A : bits(4)
register B : bits(4)
register C : bits(8)
register D : bits(8)
register E : bits(4)
register F : bits(4)
# { A = twist_forwards(0x2); B = twist_backwards(0x2);
C = match 0x2 { twist_forwards(0x2) => 0x01, twist_backwards(0x2) => 0x02, twist_forwards(0x3) => 0x03, _ => 0x04 };
D = match 0x2 { twist_backwards(0x3) => 0x01, twist_backwards(0x1) => 0x02, _ => 0x03 };
E = match 0xf { twist_forwards(y) => y, _ => 0x0 }; F = match 0xe { twist_forwards(y) => y, _ => 0x0 }; true }
# 0 == report
stop steps-done
steps 1
console 0
hart 0
A = 0x3
B = 0x1
C = 0x03
D = 0x02
E = 0xf
F = 0x0
== end
% run --elf Q M // a guard that throws
union exception = { Bad : bits(8) }
register R : bits(8)
register A : bits(8)
register B : bits(8)
register C : bits(8)
val note : bits(8) -> bool
function note(x) = { R = R + x; if x == 0x02 then throw Bad(0x07); true }
mapping m : bool <-> bits(2) = { true <-> 0b01 if note(0x01), false <-> 0b10 if note(0x02), true if note(0x10) <-> 0b11 }
# { if R == 0x04 then { B = match 0b10 { m(_) => 0x11, _ => 0x12 } };
A = try match 0b10 { m(true) => 0x01, _ => 0x02 } catch { Bad(v) => v };
B = match 0b11 { m(true) => 0x03, _ => 0x04 };
C = match 0b01 { m(false) => 0x05, m(true) => 0x06, _ => 0x07 }; true }
# 0 == report
stop exception Bad
steps 1
console 0
hart 0
R = 0x06
A = 0x07
B = 0x03
C = 0x06
== end
% run --elf Q --steps 1 M // a guard that writes a register: it is evaluated anew for each pattern
register R : bits(8)
register A : bits(8)
register B : bits(8)
val note : unit -> bool
function note() = { R = R + 0x01; R == 0x02 }
mapping m : bool <-> bits(2) = { true <-> 0b01 if note(), false <-> 0b01 }
# { A = match 0b01 { m(true) => 0x01, m(false) => 0x02, _ => 0x03 };
B = match 0b01 { m(b) if b => 0x04, m(b) => if b then 0x05 else 0x06, _ => 0x07 }; true }
# 0 == report
stop steps-done
steps 1
console 0
hart 0
R = 0x04
A = 0x03
B = 0x06
== end
% run --elf Q M // a guard that stops
register R : bits(8)
register A : bits(8)
val small : unit -> bool
function small() = { assert(R != 0x02, \"two\"); R == 0x01 }
mapping m : bool <-> bits(2) = { true <-> 0b01 if small(), false <-> 0b01 }
# { A = match 0b01 { m(true) => 0x01, _ => 0x02 }; R = R + 0x01; true }
# 0 == report
stop assertion 1:4:22 \"two\"
steps 2
console 0
hart 0
R = 0x02
A = 0x01
== end
% run --elf Q --steps 3 M // words that are decoded
union ast = { Add : (bits(2), bits(2)), Jump : bits(4), Halt : unit }
val encdec : ast <-> bits(8)
scattered mapping encdec
mapping clause encdec = Add(r, s) <-> 0x1 @ r @ s
mapping clause encdec = Jump(t) if t != 0x0 <-> 0x2 @ t if t != 0x0
mapping clause encdec = Halt() <-> 0x20
end encdec
register W : bits(8) = 0x1b
register A : bits(8)
register H : bits(8)
# { match W { encdec(Add(r, s)) => { A = A + (0x0 @ r @ s); W = 0x25 }, encdec(Jump(t)) => { A = A + (0x0 @ t); W = 0x20 },
encdec(Halt()) => { H = H + 0x01; W = encdec(Jump(0x9)) }, _ => W = 0x00 }; true }
# 0 == report
stop steps-done
steps 3
console 0
hart 0
W = 0x29
A = 0x10
H = 0x01
== end
% run --elf Q --steps 1 M // in what is caught, in tuples and in lists
union exception = { Code : bits(2), Other : unit }
enum color = { Red, Green, Blue }
mapping code : color <-> bits(2) = { Red <-> 0b00, Green <-> 0b01, Blue <-> 0b11 }
register A : bits(8)
register B : bits(8)
register C : bits(8)
register D : color
# { A = try throw Code(0b01) catch { Code(code(Red)) => 0x01, Code(code(Green)) => 0x02, _ => 0x03 };
B = try { try throw Code(0b10) catch { Code(code(_)) => 0x04, Other() => 0x05 } } catch { Code(b) => 0b000000 @ b, _ => 0x06 };
C = match (0b11, [| 0b00, 0b01 |]) { (code(Red), _) => 0x07, (code(Blue), [| code(Green), _ |]) => 0x08,
(_, code(Red) :: code(c) :: _) => if c == Green then 0x09 else 0x0a, _ => 0x0b };
let (code(d), x) = (0b11, 0x0c); D = d; true }
# 0 == report
stop steps-done
steps 1
console 0
hart 0
A = 0x02
B = 0x02
C = 0x09
D = Blue
== end
% run --elf Q --steps 1 M // in a function that a guard of the mapping calls
val odd : bits(3) -> bool
termination_measure odd(x) = unsigned(x)
function odd(x) = if x == 0b000 then false else match x - 0b001 { next(_, true) => false, _ => true }
mapping next : bits(3) <-> (bits(3), bool) = { x if odd(x) <-> (x, true), x <-> (x, false) }
register A : bool
register B : bool
register C : (bits(3), bool)
# { A = odd(0b101); B = odd(0b110); C = next(0b011); true }
# 0 == report
stop steps-done
steps 1
console 0
hart 0
A = true
B = false
C = (0b011, true)
== end
% run --elf Q M // a measure that doesn't fall there
val odd : bits(3) -> bool
termination_measure odd(x) = unsigned(x)
function odd(x) = if x == 0b000 then false else match x { next(_, true) => false, _ => true }
mapping next : bits(3) <-> (bits(3), bool) = { x if odd(x) <-> (x, true), x <-> (x, false) }
register A : bits(3)
register B : bool
# { B = odd(A); A = A + 0b001; true }
# 0 == report
stop measure 1:4:53
steps 1
console 0
hart 0
A = 0b001
B = false
== end
% run --elf Q M // a pattern is no tick, the calls in its guards and that of a mapping are, as turns are: here are 1,000,001
enum color = { Red, Green, Blue }
mapping code : color <-> bits(2) = { Red <-> 0b00, Green <-> 0b01 if sure(), Blue <-> 0b11 }
val sure : unit -> bool
function sure() = true
register N : bits(16)
register D : bits(16)
register C : color
# { foreach (i from 1 to 960000) (); let a = sure();
foreach (i from 1 to 10000) { N = N + 0x0001; match 0b01 { code(Green) => C = code(0b11), _ => () }; let b = sure(); D = D + 0x0001 }; true }
# 0 == report
stop work-limit
steps 0
console 0
hart 0
N = 0x2710
D = 0x270f
C = Blue
== end
";
