//! The examples with their reports, the status first, and their images, in hexadecimal digits, written by `tools/shipped_models.py`.

/// Words, a text, no body, and the answer.
pub const EXAMPLES: &str = "
% run --elf C --steps 20 M
val reset : (range(0, 7), bits(64)) -> unit
function reset(h, e) = ()

val step : unit -> bool
function step() = true
#
# 0 == report
stop steps-done
steps 20
console 0
hart 0
== end
% run --elf C --steps 20 M
register PC : bits(64)
register R : vector(16, bits(16))

val reset : (range(0, 7), bits(64)) -> unit
function reset(h, e) = { PC = e }

val step : unit -> bool
function step() = true
#
# 0 == report
stop steps-done
steps 20
console 0
hart 0
PC = 0x0000000080000000
R = [0x0000, 0x0000, 0x0000, 0x0000, 0x0000, 0x0000, 0x0000, 0x0000, 0x0000, 0x0000, 0x0000, 0x0000, 0x0000, 0x0000, 0x0000, 0x0000]
== end
% run --elf C --steps 20 M
register PC : bits(64)
register R : vector(16, bits(16))

val reset : (range(0, 7), bits(64)) -> unit
function reset(h, e) = { PC = e }

val step : unit -> bool
function step() = {
  let word = mem_read(2, PC);
  PC = PC + 2;
  true
}
#
# 0 == report
stop steps-done
steps 20
console 0
hart 0
PC = 0x0000000080000028
R = [0x0000, 0x0000, 0x0000, 0x0000, 0x0000, 0x0000, 0x0000, 0x0000, 0x0000, 0x0000, 0x0000, 0x0000, 0x0000, 0x0000, 0x0000, 0x0000]
== end
% run --elf C --steps 20 M
register PC : bits(64)
register R : vector(16, bits(16))

val reset : (range(0, 7), bits(64)) -> unit
function reset(h, e) = { PC = e }

val step : unit -> bool
function step() = {
  let word = mem_read(2, PC);
  let i = unsigned(word[12 .. 8]);
  assert(i < 16, \"register\");
  R[i] = zero_extend(16, word[7 .. 0]);
  PC = PC + 2;
  true
}
#
# 0 == report
stop assertion 1:11:3 \"register\"
steps 0
console 0
hart 0
PC = 0x0000000080000000
R = [0x0000, 0x0000, 0x0000, 0x0000, 0x0000, 0x0000, 0x0000, 0x0000, 0x0000, 0x0000, 0x0000, 0x0000, 0x0000, 0x0000, 0x0000, 0x0000]
== end
% run --elf C --steps 20 M
register R : vector(16, bits(16))

val reset : (range(0, 7), bits(64)) -> unit
function reset(h, e) = ()

val step : unit -> bool
function step() = {
  while termination_measure { unsigned(R[0]) } R[0] != 0x0000 do R[0] = R[0] - 1;
  true
}
#
# 0 == report
stop steps-done
steps 20
console 0
hart 0
R = [0x0000, 0x0000, 0x0000, 0x0000, 0x0000, 0x0000, 0x0000, 0x0000, 0x0000, 0x0000, 0x0000, 0x0000, 0x0000, 0x0000, 0x0000, 0x0000]
== end
% run --elf C --steps 20 M
register PC : bits(64)
register R : vector(16, bits(16))

val reset : (range(0, 7), bits(64)) -> unit
function reset(h, e) = { PC = e }

val step : unit -> bool
function step() = match mem_read(2, PC) {
  0x0 @ (b : bits(12)) => false,
  0x1 @ (rd : bits(4)) @ (b : bits(8)) => {
    R[unsigned(rd)] = zero_extend(16, b);
    PC = PC + 2;
    true
  },
  0x2 @ (rd : bits(4)) @ (b : bits(8)) => {
    R[unsigned(rd)] = R[unsigned(rd)] + sign_extend(16, b);
    PC = PC + 2;
    true
  },
  0x3 @ (rd : bits(4)) @ (rs : bits(4)) @ 0x0 => {
    R[unsigned(rd)] = R[unsigned(rd)] + R[unsigned(rs)];
    PC = PC + 2;
    true
  },
  0x4 @ (rd : bits(4)) @ (b : bits(8)) => {
    PC = PC + (if R[unsigned(rd)] == 0x0000 then 2 else 2 * signed(b));
    true
  }
}
#
# 0 == report
stop all-rest
steps 8
console 0
hart 0
PC = 0x0000000080000006
R = [0x0000, 0x0000, 0x0000, 0x0000, 0x0000, 0x0000, 0x0000, 0x0000, 0x0000, 0x0000, 0x0000, 0x0000, 0x0000, 0x0000, 0x0000, 0x0000]
== end
% run --elf C --steps 20 M
register PC : bits(64)
register R : vector(16, bits(16))

union ast = {
  HALT : bits(12),
  SET : (bits(4), bits(8))
}

val execute : ast -> bool
function execute(instruction) = match instruction {
  HALT(_) => false,
  SET(rd, b) => { R[unsigned(rd)] = zero_extend(16, b); PC = PC + 2; true }
}

val reset : (range(0, 7), bits(64)) -> unit
function reset(h, e) = { PC = e }

val step : unit -> bool
function step() = execute(SET(0x1, 0x05))
#
# 0 == report
stop steps-done
steps 20
console 0
hart 0
PC = 0x0000000080000028
R = [0x0000, 0x0005, 0x0000, 0x0000, 0x0000, 0x0000, 0x0000, 0x0000, 0x0000, 0x0000, 0x0000, 0x0000, 0x0000, 0x0000, 0x0000, 0x0000]
== end
% run --elf C --steps 20 M
default Order dec

register PC : bits(64)
register R : vector(16, bits(16))

/* The instructions */
union ast = {
  HALT : bits(12),
  SET : (bits(4), bits(8)),
  ADDI : (bits(4), bits(8)),
  ADD : (bits(4), bits(4)),
  JNZ : (bits(4), bits(8))
}

/* Their words. Twelve bits of HALT mean nothing. */
mapping encdec : ast <-> bits(16) = {
  HALT(b) <-> 0x0 @ b,
  SET(rd, b) <-> 0x1 @ rd @ b,
  ADDI(rd, b) <-> 0x2 @ rd @ b,
  ADD(rd, rs) <-> 0x3 @ rd @ rs @ 0x0,
  JNZ(rd, b) <-> 0x4 @ rd @ b
}

/* What they do. HALT leaves PC where it is, and the hart rests. */
val execute : ast -> bool
function execute(instruction) = match instruction {
  HALT(_) => false,
  SET(rd, b) => { R[unsigned(rd)] = zero_extend(16, b); PC = PC + 2; true },
  ADDI(rd, b) => { R[unsigned(rd)] = R[unsigned(rd)] + sign_extend(16, b); PC = PC + 2; true },
  ADD(rd, rs) => { R[unsigned(rd)] = R[unsigned(rd)] + R[unsigned(rs)]; PC = PC + 2; true },
  JNZ(rd, b) => { PC = PC + (if R[unsigned(rd)] == 0x0000 then 2 else 2 * signed(b)); true }
}

val reset : (range(0, 7), bits(64)) -> unit
function reset(h, e) = { PC = e }

val step : unit -> bool
function step() = execute(encdec(mem_read(2, PC)))
#
# 0 == report
stop all-rest
steps 8
console 0
hart 0
PC = 0x0000000080000006
R = [0x0000, 0x0000, 0x0000, 0x0000, 0x0000, 0x0000, 0x0000, 0x0000, 0x0000, 0x0000, 0x0000, 0x0000, 0x0000, 0x0000, 0x0000, 0x0000]
== end
% run --elf C --steps 20 M
register R : vector(16, bits(16))

val get : range(0, 31) -> bits(16)
function get(i) = if i < 16 then R[i] else 0x0000

val reset : (range(0, 7), bits(64)) -> unit
function reset(h, e) = ()

val step : unit -> bool
function step() = true
#
# 0 == report
stop steps-done
steps 20
console 0
hart 0
R = [0x0000, 0x0000, 0x0000, 0x0000, 0x0000, 0x0000, 0x0000, 0x0000, 0x0000, 0x0000, 0x0000, 0x0000, 0x0000, 0x0000, 0x0000, 0x0000]
== end
% run --elf L M
/* A calculator in another style than the register machines: its stack is a list, which a function hands on, and no register. A step reads
   one line, in which operators stand behind their operands, and writes the line's value. The program is its text, as in

        12 30+ 2*

   A blank puts a zero on the stack, a digit goes behind the number on top, and an operator takes two numbers and puts one. So a line begins
   with a blank. The value of a line is the one number that it leaves. */

default Order dec

register PC : bits(64)

/* What ends a run: an operator without operands, or a line that leaves another count of numbers than one, with the address; and a character
   that means nothing */
union exception = {
  E_Stack : bits(64),
  E_Character : bits(8)
}

/* Two numbers of the top in one, the upper one on the right */
val operate : (bits(8), bits(32), bits(32)) -> bits(32)
function operate(sign, left, right) = match sign {
  0x2a => left * right,
  0x2b => left + right,
  0x2d => left - right,
  character => throw(E_Character(character))
}

/* The stack behind a character that is neither a blank nor the end of a line */
val changed : (bits(64), bits(8), list(bits(32))) -> list(bits(32))
function changed(address, character, stack) = match stack {
  top :: rest => match character {
    0x3 @ (digit : bits(4)) if digit <_u 0xa => (top * 0x0000000a + zero_extend(32, digit)) :: rest,
    sign => match rest {
      under :: others => operate(sign, under, top) :: others,
      _ => throw(E_Stack(address))
    }
  },
  _ => throw(E_Stack(address))
}

/* The address behind the line that goes on at an address with a stack, and has at most so many characters more; its value is written. */
val line : (bits(64), list(bits(32)), range(0, 80)) -> bits(64)
termination_measure line(address, stack, left) = left
function line(address, stack, left) = {
  assert(left > 0, \"a line of more than 80 characters\");
  let character = mem_read(1, address);
  match character {
    0x0a => match stack {
      [|value|] => { print_endline(dec_str(signed(value))); address + 1 },
      _ => throw(E_Stack(address))
    },
    0x20 => line(address + 1, 0x00000000 :: stack, left - 1),
    _ => line(address + 1, changed(address, character, stack), left - 1)
  }
}

val reset : (range(0, 7), bits(64)) -> unit
function reset(h, e) = { PC = e }

/* A line, unless the text is at its end */
val step : unit -> bool
function step() = {
  if mem_read(1, PC) == 0x00 then return false;
  PC = line(PC, [||], 80);
  true
}
#
# 0 84
120
999000
-7
0
== report
stop all-rest
steps 6
console 19
hart 0
PC = 0x000000008000003d
== end
";

/// The file `C`, `examples/tutorial/countdown.elf`
pub const COUNTDOWN: &str = concat!(
    "7f454c460201010000000000000000000200f3000100000000000080000000004000000000000000000000000000000000000000400038000100000000000000",
    "01000000050000007800000000000000000000800000000000000080000000000800000000000000080000000000000004000000000000000311ff21ff410000",
);

/// The file `L`, `examples/stack/lines.elf`
pub const LINES: &str = concat!(
    "7f454c460201010000000000000000000200f3000100000000000080000000004000000000000000000000000000000000000000400038000100000000000000",
    "01000000050000007800000000000000000000800000000000000080000000003d000000000000003d0000000000000004000000000000002031322033302b20",
    "322a0a203120322033203420352a2a2a2a0a203130303030303020313030302d0a203020372d0a2036353533362036353533362a0a",
);
