//! The models of `docs/TUTORIAL.md` with what is written for them, the status first, written by `tools/shipped_models.py`.

/// Words, a text, no body, and the answer.
pub const TUTORIAL: &str = "
% check M
val step : unit -> bool
function step() = true
#
# 1 M19 1:3:1 reset
% check M
val reset : (range(0, 7), bits(64)) -> unit
function reset(h, e) = ()

val step : unit -> bool
function step() = true
#
# 0 accepted 2 functions 0 obligations 2 instances
% check M
register PC : bits(64)
register R : list(bits(16))

val reset : (range(0, 7), bits(64)) -> unit
function reset(h, e) = { PC = e }

val step : unit -> bool
function step() = true
#
# 1 M14 1:2:14
% check M
register PC : bits(64)
register R : vector(16, bits(16))

val reset : (range(0, 7), bits(64)) -> unit
function reset(h, e) = { pc = e }

val step : unit -> bool
function step() = true
#
# 1 M10 1:5:26 pc
% check M
register PC : bits(64)
register R : vector(16, bits(16))

val reset : (range(0, 7), bits(64)) -> unit
function reset(h, e) = { PC = e }

val step : unit -> bool
function step() = true
#
# 0 accepted 2 functions 1 obligations 2 instances
% check M
register PC : bits(64)
register R : vector(16, bits(16))

val reset : (range(0, 7), bits(64)) -> unit
function reset(h, e) = { PC = e }

val step : unit -> bool
function step() = {
  let word = mem_read(2, PC);
  PC = PC + 0x0002;
  true
}
#
# 1 M20 1:10:11
% check M
register PC : bits(64)
register R : vector(16, bits(16))

val reset : (range(0, 7), bits(64)) -> unit
function reset(h, e) = { PC = e }

val step : unit -> bool
function step() = {
  let word = mem_read(2, PC);
  PC = PC + 2;
  true
}
#
# 0 accepted 2 functions 3 obligations 2 instances
% check M
register PC : bits(64)
register R : vector(16, bits(16))

val reset : (range(0, 7), bits(64)) -> unit
function reset(h, e) = { PC = e }

val step : unit -> bool
function step() = {
  let word = mem_read(2, PC);
  let op = word[16 .. 12];
  PC = PC + 2;
  true
}
#
# 1 M20 1:10:16
% check M
register PC : bits(64)
register R : vector(16, bits(16))

val reset : (range(0, 7), bits(64)) -> unit
function reset(h, e) = { PC = e }

val step : unit -> bool
function step() = {
  let word = mem_read(2, PC);
  R[1] = word[7 .. 0];
  PC = PC + 2;
  true
}
#
# 1 M20 1:10:4
% check M
register PC : bits(64)
register R : vector(16, bits(16))

val reset : (range(0, 7), bits(64)) -> unit
function reset(h, e) = { PC = e }

val step : unit -> bool
function step() = {
  let word = mem_read(2, PC);
  R[unsigned(word[12 .. 8])] = zero_extend(16, word[7 .. 0]);
  PC = PC + 2;
  true
}
#
# 1 M20 1:10:4 #1 = 16
% check M
register PC : bits(64)
register R : vector(16, bits(16))

val reset : (range(0, 7), bits(64)) -> unit
function reset(h, e) = { PC = e }

val step : unit -> bool
function step() = {
  let word = mem_read(2, PC);
  assert(unsigned(word[12 .. 8]) < 16, \"register\");
  R[unsigned(word[12 .. 8])] = zero_extend(16, word[7 .. 0]);
  PC = PC + 2;
  true
}
#
# 1 M20 1:11:4 #2 = 16
% check M
register PC : bits(64)
register R : vector(16, bits(16))

val reset : (range(0, 7), bits(64)) -> unit
function reset(h, e) = { PC = e }

val step : unit -> bool
function step() = {
  let word = mem_read(2, PC);
  let i = unsigned(word[12 .. 8]);
  assert(i < 16, \"register\");
  R[i] = zero_extend(16, word[7 .. 0]);
  PC = PC + 2;
  true
}
#
# 0 accepted 2 functions 8 obligations 2 instances
% check M
val target : (int, bits(8)) -> int
function target(pc, b) = pc + 2 * signed(b)

register PC : bits(64)

val reset : (range(0, 7), bits(64)) -> unit
function reset(h, e) = { PC = e }

val step : unit -> bool
function step() = { PC = to_bits(64, target(unsigned(PC), 0xff)); true }
#
# 1 M21 1:2:29 number
% check M
val target : (range(0, 18446744073709551615), bits(8)) -> int
function target(pc, b) = pc + 2 * signed(b)

register PC : bits(64)

val reset : (range(0, 7), bits(64)) -> unit
function reset(h, e) = { PC = e }

val step : unit -> bool
function step() = { PC = to_bits(64, target(unsigned(PC), 0xff)); true }
#
# 0 accepted 3 functions 9 obligations 3 instances
% check M
register R : vector(16, bits(16))

val reset : (range(0, 7), bits(64)) -> unit
function reset(h, e) = ()

val step : unit -> bool
function step() = {
  while R[0] != 0x0000 do R[0] = R[0] - 1;
  true
}
#
# 1 M12 1:8:3 while
% check M
register R : vector(16, bits(16))

val reset : (range(0, 7), bits(64)) -> unit
function reset(h, e) = ()

val step : unit -> bool
function step() = {
  while termination_measure { unsigned(R[0]) } R[0] != 0x0000 do R[0] = R[0] - 1;
  true
}
#
# 0 accepted 2 functions 7 obligations 2 instances
% check M
register PC : bits(64)
register R : vector(16, bits(16))

val reset : (range(0, 7), bits(64)) -> unit
function reset(h, e) = { PC = e }

val step : unit -> bool
function step() = match mem_read(2, PC) {
  0x0 @ b => false,
  0x1 @ rd @ b => { R[unsigned(rd)] = zero_extend(16, b); PC = PC + 2; true }
}
#
# 1 M18 1:10:14
% check M
register PC : bits(64)
register R : vector(16, bits(16))

val reset : (range(0, 7), bits(64)) -> unit
function reset(h, e) = { PC = e }

val step : unit -> bool
function step() = match mem_read(2, PC) {
  0x0 @ b => false,
  0x1 @ (rd : bits(4)) @ (b : bits(4)) => { R[unsigned(rd)] = zero_extend(16, b); PC = PC + 2; true }
}
#
# 1 M20 1:10:7
% check M
register PC : bits(64)
register R : vector(16, bits(16))

val reset : (range(0, 7), bits(64)) -> unit
function reset(h, e) = { PC = e }

val step : unit -> bool
function step() = match mem_read(2, PC) {
  0x0 @ (b : bits(12)) => false,
  0x1 @ (rd : bits(4)) @ (b : bits(8)) => {
    R[unsigned(rd)] = zero_extend(16, b);
    PC = PC + 2;
    true
  },
  0x2 @ (rd : bits(4)) @ (b : bits(8)) => {
    R[unsigned(rd)] = R[unsigned(rd)] + sign_extend(16, b);
    PC = PC + 2;
    true
  },
  0x3 @ (rd : bits(4)) @ (rs : bits(4)) @ 0x0 => {
    R[unsigned(rd)] = R[unsigned(rd)] + R[unsigned(rs)];
    PC = PC + 2;
    true
  },
  0x4 @ (rd : bits(4)) @ (b : bits(8)) => {
    PC = PC + (if R[unsigned(rd)] == 0x0000 then 2 else 2 * signed(b));
    true
  }
}
#
# 0 accepted 2 functions 47 obligations 2 instances
% check M
register PC : bits(64)
register R : vector(16, bits(16))

union ast = {
  HALT : bits(12),
  SET : (bits(4), bits(8))
}

val execute : ast -> bool
function execute(instruction) = match instruction {
  HALT() => false,
  SET(rd, b) => { R[unsigned(rd)] = zero_extend(16, b); PC = PC + 2; true }
}

val reset : (range(0, 7), bits(64)) -> unit
function reset(h, e) = { PC = e }

val step : unit -> bool
function step() = execute(SET(0x1, 0x05))
#
# 1 M15 1:11:3 wanted 1 found 0
% check M
register PC : bits(64)
register R : vector(16, bits(16))

union ast = {
  HALT : bits(12),
  SET : (bits(4), bits(8))
}

val execute : ast -> bool
function execute(instruction) = match instruction {
  HALT(_) => false,
  SET(rd, b) => { R[unsigned(rd)] = zero_extend(16, b); PC = PC + 2; true }
}

val reset : (range(0, 7), bits(64)) -> unit
function reset(h, e) = { PC = e }

val step : unit -> bool
function step() = execute(SET(0x1, 0x5))
#
# 1 M20 1:19:36
% check M
register PC : bits(64)
register R : vector(16, bits(16))

union ast = {
  HALT : bits(12),
  SET : (bits(4), bits(8))
}

val execute : ast -> bool
function execute(instruction) = match instruction {
  HALT(_) => false,
  SET(rd, b) => { R[unsigned(rd)] = zero_extend(16, b); PC = PC + 2; true }
}

val reset : (range(0, 7), bits(64)) -> unit
function reset(h, e) = { PC = e }

val step : unit -> bool
function step() = execute(SET(0x1, 0x05))
#
# 0 accepted 3 functions 7 obligations 3 instances
% check M
union ast = {
  HALT : bits(12),
  ADD : (bits(4), bits(4))
}

mapping encdec : ast <-> bits(16) = {
  HALT(b) <-> 0x0 @ b,
  ADD(rd, rs) <-> 0x3 @ rd @ rs
}

val reset : (range(0, 7), bits(64)) -> unit
function reset(h, e) = ()

val step : unit -> bool
function step() = true
#
# 1 M20 1:8:23
% check M
union ast = {
  HALT : bits(12),
  ADD : (bits(4), bits(4))
}

mapping encdec : ast <-> bits(16) = {
  HALT(_) <-> 0x0 @ 0x000,
  ADD(rd, rs) <-> 0x3 @ rd @ rs @ 0x0
}

val reset : (range(0, 7), bits(64)) -> unit
function reset(h, e) = ()

val step : unit -> bool
function step() = true
#
# 1 M06 1:7:8 _
% check M
default Order dec

register PC : bits(64)
register R : vector(16, bits(16))

/* The instructions */
union ast = {
  HALT : bits(12),
  SET : (bits(4), bits(8)),
  ADDI : (bits(4), bits(8)),
  ADD : (bits(4), bits(4)),
  JNZ : (bits(4), bits(8))
}

/* Their words. Twelve bits of HALT mean nothing. */
mapping encdec : ast <-> bits(16) = {
  HALT(b) <-> 0x0 @ b,
  SET(rd, b) <-> 0x1 @ rd @ b,
  ADDI(rd, b) <-> 0x2 @ rd @ b,
  ADD(rd, rs) <-> 0x3 @ rd @ rs @ 0x0,
  JNZ(rd, b) <-> 0x4 @ rd @ b
}

/* What they do. HALT leaves PC where it is, and the hart rests. */
val execute : ast -> bool
function execute(instruction) = match instruction {
  HALT(_) => false,
  SET(rd, b) => { R[unsigned(rd)] = zero_extend(16, b); PC = PC + 2; true },
  ADDI(rd, b) => { R[unsigned(rd)] = R[unsigned(rd)] + sign_extend(16, b); PC = PC + 2; true },
  ADD(rd, rs) => { R[unsigned(rd)] = R[unsigned(rd)] + R[unsigned(rs)]; PC = PC + 2; true },
  JNZ(rd, b) => { PC = PC + (if R[unsigned(rd)] == 0x0000 then 2 else 2 * signed(b)); true }
}

val reset : (range(0, 7), bits(64)) -> unit
function reset(h, e) = { PC = e }

val step : unit -> bool
function step() = execute(encdec(mem_read(2, PC)))
#
# 0 accepted 4 functions 53 obligations 3 instances
% certs M
register R : vector(16, bits(16))

val get : range(0, 31) -> bits(16)
function get(i) = if i < 16 then R[i] else 0x0000

val reset : (range(0, 7), bits(64)) -> unit
function reset(h, e) = ()

val step : unit -> bool
function step() = true
#
# 0 obligation 1 1:4:35
case 1
row 1: -1*i <= 0
row 2: 1*i <= -1
step 3: 2 * 1 + 1 * 1 / 1
case 2
row 1: -1*i <= -16
row 2: 1*i <= 15
step 3: 2 * 1 + 1 * 1 / 1
obligation 2 1:4:35
obligation 3 1:4:44
";
