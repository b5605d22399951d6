//! Models of `data`, written by `tools/shipped_models.py`.

/// `rv64_begin.sail`
pub const RV64_BEGIN: &str =
    "/* What the instructions of RV64 share: types, registers, addresses, and where the parts of the instruction set begin.
   With rv32i.sail, rv64i.sail and rv32_end.sail this is RV64I of the RISC-V unprivileged manual; with rv32m.sail,
   rv64m.sail, rv32a.sail and rv64a.sail before the last one it is RV64IMA. It differs from rv32_begin.sail in xlen and
   log2_xlen alone. */

default Order dec

/* The machine that an image's header has to name, EM_RISCV */
let elf_machine = 243

type xlen : Int = 64
type log2_xlen : Int = 6
let xlen = sizeof(xlen)
let log2_xlen = sizeof(log2_xlen)

type xlenbits = bits(xlen)
type regidx = bits(5)

/* The manual's exceptions. Nothing handles them, so they end the run. */
union exception = {
  E_Fetch_Addr_Align : xlenbits,
  E_Illegal_Instr : bits(32),
  E_Breakpoint : xlenbits,
  E_Load_Addr_Align : bits(64),
  E_SAMO_Addr_Align : bits(64)
}

/* What an instruction comes to: its hart goes on behind it, or at another address, or rests. */
union Retired = {
  Retire_Success : unit,
  Retire_Jump : xlenbits,
  Retire_Rest : unit
}

let RETIRE_SUCCESS = Retire_Success()

/* The registers. x0 is none: it reads as zero, and what is written to it is lost. */

register pc : xlenbits
register x1 : xlenbits
register x2 : xlenbits
register x3 : xlenbits
register x4 : xlenbits
register x5 : xlenbits
register x6 : xlenbits
register x7 : xlenbits
register x8 : xlenbits
register x9 : xlenbits
register x10 : xlenbits
register x11 : xlenbits
register x12 : xlenbits
register x13 : xlenbits
register x14 : xlenbits
register x15 : xlenbits
register x16 : xlenbits
register x17 : xlenbits
register x18 : xlenbits
register x19 : xlenbits
register x20 : xlenbits
register x21 : xlenbits
register x22 : xlenbits
register x23 : xlenbits
register x24 : xlenbits
register x25 : xlenbits
register x26 : xlenbits
register x27 : xlenbits
register x28 : xlenbits
register x29 : xlenbits
register x30 : xlenbits
register x31 : xlenbits

val rX : regidx -> xlenbits
function rX(r) = match r {
  0b00000 => zeros(xlen),
  0b00001 => x1,
  0b00010 => x2,
  0b00011 => x3,
  0b00100 => x4,
  0b00101 => x5,
  0b00110 => x6,
  0b00111 => x7,
  0b01000 => x8,
  0b01001 => x9,
  0b01010 => x10,
  0b01011 => x11,
  0b01100 => x12,
  0b01101 => x13,
  0b01110 => x14,
  0b01111 => x15,
  0b10000 => x16,
  0b10001 => x17,
  0b10010 => x18,
  0b10011 => x19,
  0b10100 => x20,
  0b10101 => x21,
  0b10110 => x22,
  0b10111 => x23,
  0b11000 => x24,
  0b11001 => x25,
  0b11010 => x26,
  0b11011 => x27,
  0b11100 => x28,
  0b11101 => x29,
  0b11110 => x30,
  0b11111 => x31
}

val wX : (regidx, xlenbits) -> unit
function wX(r, v) = match r {
  0b00000 => (),
  0b00001 => x1 = v,
  0b00010 => x2 = v,
  0b00011 => x3 = v,
  0b00100 => x4 = v,
  0b00101 => x5 = v,
  0b00110 => x6 = v,
  0b00111 => x7 = v,
  0b01000 => x8 = v,
  0b01001 => x9 = v,
  0b01010 => x10 = v,
  0b01011 => x11 = v,
  0b01100 => x12 = v,
  0b01101 => x13 = v,
  0b01110 => x14 = v,
  0b01111 => x15 = v,
  0b10000 => x16 = v,
  0b10001 => x17 = v,
  0b10010 => x18 = v,
  0b10011 => x19 = v,
  0b10100 => x20 = v,
  0b10101 => x21 = v,
  0b10110 => x22 = v,
  0b10111 => x23 = v,
  0b11000 => x24 = v,
  0b11001 => x25 = v,
  0b11010 => x26 = v,
  0b11011 => x27 = v,
  0b11100 => x28 = v,
  0b11101 => x29 = v,
  0b11110 => x30 = v,
  0b11111 => x31 = v
}

/* X(r) reads a register, and X(r) = v writes it. */
overload X = {rX, wX}

/* Addresses. Those of memory have 64 bits. A run ends where bytes are read or written that aren't all in RAM. */

/* The address of a load or a store. It need not be aligned. */
val vaddr : (regidx, bits(12)) -> bits(64)
function vaddr(rs1, imm) = zero_extend(64, X(rs1) + sign_extend(xlen, imm))

/* The target of a jump or of a branch that is taken. It has to be a multiple of four. */
val target : xlenbits -> xlenbits
function target(address) = {
  if address[1 .. 0] != 0b00 then throw(E_Fetch_Addr_Align(address));
  address
}

/* A branch by imm where its condition is true. */
val branch : (bool, bits(13)) -> Retired
function branch(taken, imm) =
  if taken then Retire_Jump(target(pc + sign_extend(xlen, imm))) else RETIRE_SUCCESS

/* Each instruction has a clause of all three, in the files between this one and the last. */

scattered union ast

val encdec : ast <-> bits(32)
scattered mapping encdec

val execute : ast -> Retired
scattered function execute
";

/// `rv64i.sail`
pub const RV64I: &str =
    "/* RV64I, what it has beside RV32I: 12 instructions, in the order of the manual's table of them, and the constant shifts by
   32 and more. The forms with W work on the lower 32 bits, and rd is extended by the sign of the result. */

/* Loads and stores */

union clause ast = LWU : (bits(12), regidx, regidx)
mapping clause encdec = LWU(imm, rs1, rd) <-> imm @ rs1 @ 0b110 @ rd @ 0b0000011
function clause execute(LWU(imm, rs1, rd)) = {
  X(rd) = zero_extend(xlen, mem_read(4, vaddr(rs1, imm)));
  RETIRE_SUCCESS
}

union clause ast = LD : (bits(12), regidx, regidx)
mapping clause encdec = LD(imm, rs1, rd) <-> imm @ rs1 @ 0b011 @ rd @ 0b0000011
function clause execute(LD(imm, rs1, rd)) = {
  X(rd) = sign_extend(xlen, mem_read(8, vaddr(rs1, imm)));
  RETIRE_SUCCESS
}

union clause ast = SD : (bits(12), regidx, regidx)
mapping clause encdec = SD(imm11_5 @ imm4_0, rs2, rs1)
  <-> imm11_5 : bits(7) @ rs2 @ rs1 @ 0b011 @ imm4_0 : bits(5) @ 0b0100011
function clause execute(SD(imm, rs2, rs1)) = {
  mem_write(8, vaddr(rs1, imm), X(rs2));
  RETIRE_SUCCESS
}

/* SLLI, SRLI and SRAI by 32 and more: the sixth bit of the amount, which RV32I hasn't, is set */

union clause ast = SLLI_32 : (bits(5), regidx, regidx)
mapping clause encdec = SLLI_32(shamt, rs1, rd) <-> 0b0000001 @ shamt @ rs1 @ 0b001 @ rd @ 0b0010011
function clause execute(SLLI_32(shamt, rs1, rd)) = {
  X(rd) = X(rs1) << (0b1 @ shamt);
  RETIRE_SUCCESS
}

union clause ast = SRLI_32 : (bits(5), regidx, regidx)
mapping clause encdec = SRLI_32(shamt, rs1, rd) <-> 0b0000001 @ shamt @ rs1 @ 0b101 @ rd @ 0b0010011
function clause execute(SRLI_32(shamt, rs1, rd)) = {
  X(rd) = X(rs1) >> (0b1 @ shamt);
  RETIRE_SUCCESS
}

union clause ast = SRAI_32 : (bits(5), regidx, regidx)
mapping clause encdec = SRAI_32(shamt, rs1, rd) <-> 0b0100001 @ shamt @ rs1 @ 0b101 @ rd @ 0b0010011
function clause execute(SRAI_32(shamt, rs1, rd)) = {
  X(rd) = arith_shiftr_bits(X(rs1), 0b1 @ shamt);
  RETIRE_SUCCESS
}

/* A register and a constant */

union clause ast = ADDIW : (bits(12), regidx, regidx)
mapping clause encdec = ADDIW(imm, rs1, rd) <-> imm @ rs1 @ 0b000 @ rd @ 0b0011011
function clause execute(ADDIW(imm, rs1, rd)) = {
  X(rd) = sign_extend(xlen, X(rs1)[31 .. 0] + sign_extend(32, imm));
  RETIRE_SUCCESS
}

union clause ast = SLLIW : (bits(5), regidx, regidx)
mapping clause encdec = SLLIW(shamt, rs1, rd) <-> 0b0000000 @ shamt @ rs1 @ 0b001 @ rd @ 0b0011011
function clause execute(SLLIW(shamt, rs1, rd)) = {
  X(rd) = sign_extend(xlen, X(rs1)[31 .. 0] << shamt);
  RETIRE_SUCCESS
}

union clause ast = SRLIW : (bits(5), regidx, regidx)
mapping clause encdec = SRLIW(shamt, rs1, rd) <-> 0b0000000 @ shamt @ rs1 @ 0b101 @ rd @ 0b0011011
function clause execute(SRLIW(shamt, rs1, rd)) = {
  X(rd) = sign_extend(xlen, X(rs1)[31 .. 0] >> shamt);
  RETIRE_SUCCESS
}

union clause ast = SRAIW : (bits(5), regidx, regidx)
mapping clause encdec = SRAIW(shamt, rs1, rd) <-> 0b0100000 @ shamt @ rs1 @ 0b101 @ rd @ 0b0011011
function clause execute(SRAIW(shamt, rs1, rd)) = {
  X(rd) = sign_extend(xlen, arith_shiftr_bits(X(rs1)[31 .. 0], shamt));
  RETIRE_SUCCESS
}

/* Two registers. A shift looks at the lowest five bits of rs2 alone. */

union clause ast = ADDW : (regidx, regidx, regidx)
mapping clause encdec = ADDW(rs2, rs1, rd) <-> 0b0000000 @ rs2 @ rs1 @ 0b000 @ rd @ 0b0111011
function clause execute(ADDW(rs2, rs1, rd)) = {
  X(rd) = sign_extend(xlen, X(rs1)[31 .. 0] + X(rs2)[31 .. 0]);
  RETIRE_SUCCESS
}

union clause ast = SUBW : (regidx, regidx, regidx)
mapping clause encdec = SUBW(rs2, rs1, rd) <-> 0b0100000 @ rs2 @ rs1 @ 0b000 @ rd @ 0b0111011
function clause execute(SUBW(rs2, rs1, rd)) = {
  X(rd) = sign_extend(xlen, X(rs1)[31 .. 0] - X(rs2)[31 .. 0]);
  RETIRE_SUCCESS
}

union clause ast = SLLW : (regidx, regidx, regidx)
mapping clause encdec = SLLW(rs2, rs1, rd) <-> 0b0000000 @ rs2 @ rs1 @ 0b001 @ rd @ 0b0111011
function clause execute(SLLW(rs2, rs1, rd)) = {
  X(rd) = sign_extend(xlen, X(rs1)[31 .. 0] << X(rs2)[4 .. 0]);
  RETIRE_SUCCESS
}

union clause ast = SRLW : (regidx, regidx, regidx)
mapping clause encdec = SRLW(rs2, rs1, rd) <-> 0b0000000 @ rs2 @ rs1 @ 0b101 @ rd @ 0b0111011
function clause execute(SRLW(rs2, rs1, rd)) = {
  X(rd) = sign_extend(xlen, X(rs1)[31 .. 0] >> X(rs2)[4 .. 0]);
  RETIRE_SUCCESS
}

union clause ast = SRAW : (regidx, regidx, regidx)
mapping clause encdec = SRAW(rs2, rs1, rd) <-> 0b0100000 @ rs2 @ rs1 @ 0b101 @ rd @ 0b0111011
function clause execute(SRAW(rs2, rs1, rd)) = {
  X(rd) = sign_extend(xlen, arith_shiftr_bits(X(rs1)[31 .. 0], X(rs2)[4 .. 0]));
  RETIRE_SUCCESS
}
";

/// `rv64m.sail`
pub const RV64M: &str =
    "/* RV64M, what it has beside RV32M: 5 instructions, in the order of the manual's table of them. They work on the lower 32
   bits, and rd is extended by the sign of the result. */

union clause ast = MULW : (regidx, regidx, regidx)
mapping clause encdec = MULW(rs2, rs1, rd) <-> 0b0000001 @ rs2 @ rs1 @ 0b000 @ rd @ 0b0111011
function clause execute(MULW(rs2, rs1, rd)) = {
  X(rd) = sign_extend(xlen, X(rs1)[31 .. 0] * X(rs2)[31 .. 0]);
  RETIRE_SUCCESS
}

union clause ast = DIVW : (regidx, regidx, regidx)
mapping clause encdec = DIVW(rs2, rs1, rd) <-> 0b0000001 @ rs2 @ rs1 @ 0b100 @ rd @ 0b0111011
function clause execute(DIVW(rs2, rs1, rd)) = {
  let n = signed(X(rs1)[31 .. 0]);
  let d = signed(X(rs2)[31 .. 0]);
  X(rd) = if d == 0 then ones(xlen) else sign_extend(xlen, to_bits(32, tdiv_int(n, d)));
  RETIRE_SUCCESS
}

union clause ast = DIVUW : (regidx, regidx, regidx)
mapping clause encdec = DIVUW(rs2, rs1, rd) <-> 0b0000001 @ rs2 @ rs1 @ 0b101 @ rd @ 0b0111011
function clause execute(DIVUW(rs2, rs1, rd)) = {
  let n = unsigned(X(rs1)[31 .. 0]);
  let d = unsigned(X(rs2)[31 .. 0]);
  X(rd) = if d == 0 then ones(xlen) else sign_extend(xlen, to_bits(32, tdiv_int(n, d)));
  RETIRE_SUCCESS
}

union clause ast = REMW : (regidx, regidx, regidx)
mapping clause encdec = REMW(rs2, rs1, rd) <-> 0b0000001 @ rs2 @ rs1 @ 0b110 @ rd @ 0b0111011
function clause execute(REMW(rs2, rs1, rd)) = {
  let n = signed(X(rs1)[31 .. 0]);
  let d = signed(X(rs2)[31 .. 0]);
  let r = if d == 0 then X(rs1)[31 .. 0] else to_bits(32, tmod_int(n, d));
  X(rd) = sign_extend(xlen, r);
  RETIRE_SUCCESS
}

union clause ast = REMUW : (regidx, regidx, regidx)
mapping clause encdec = REMUW(rs2, rs1, rd) <-> 0b0000001 @ rs2 @ rs1 @ 0b111 @ rd @ 0b0111011
function clause execute(REMUW(rs2, rs1, rd)) = {
  let n = unsigned(X(rs1)[31 .. 0]);
  let d = unsigned(X(rs2)[31 .. 0]);
  let r = if d == 0 then X(rs1)[31 .. 0] else to_bits(32, tmod_int(n, d));
  X(rd) = sign_extend(xlen, r);
  RETIRE_SUCCESS
}
";

/// `rv64a.sail`
pub const RV64A: &str =
    "/* RV64A, what it has beside RV32A: 11 instructions on 64 bits, in the order of the manual's table of them. Their addresses
   are multiples of eight. */

/* The address of eight bytes that are only read */
val lr_address_d : regidx -> bits(64)
function lr_address_d(rs1) = {
  let address = zero_extend(64, X(rs1));
  if address[2 .. 0] != 0b000 then throw(E_Load_Addr_Align(address));
  address
}

/* The address of eight bytes that may be written */
val amo_address_d : regidx -> bits(64)
function amo_address_d(rs1) = {
  let address = zero_extend(64, X(rs1));
  if address[2 .. 0] != 0b000 then throw(E_SAMO_Addr_Align(address));
  address
}

/* The eight bytes become the new ones, and rd the old ones. */
val amo_d : (regidx, bits(64), bits(64), regidx) -> Retired
function amo_d(rs1, new, old, rd) = {
  mem_write(8, amo_address_d(rs1), new);
  X(rd) = old;
  RETIRE_SUCCESS
}

/* LR.D: rd is what stands there, and the hart's reservation is on its bytes. */
union clause ast = LR_D : (bits(1), bits(1), regidx, regidx)
mapping clause encdec = LR_D(aq, rl, rs1, rd) <-> 0b00010 @ aq @ rl @ 0b00000 @ rs1 @ 0b011 @ rd @ 0b0101111
function clause execute(LR_D(aq, rl, rs1, rd)) = {
  X(rd) = mem_reserve(8, lr_address_d(rs1));
  RETIRE_SUCCESS
}

/* SC.D: where the hart's reservation still stands on these bytes they are written and rd is 0, else rd is 1. */
union clause ast = SC_D : (bits(1), bits(1), regidx, regidx, regidx)
mapping clause encdec = SC_D(aq, rl, rs2, rs1, rd) <-> 0b00011 @ aq @ rl @ rs2 @ rs1 @ 0b011 @ rd @ 0b0101111
function clause execute(SC_D(aq, rl, rs2, rs1, rd)) = {
  let written = mem_write_cond(8, amo_address_d(rs1), X(rs2));
  X(rd) = zero_extend(xlen, bool_to_bits(not(written)));
  RETIRE_SUCCESS
}

/* The eight bytes become what the instruction makes of them and rs2; rd is what they were. */

union clause ast = AMOSWAP_D : (bits(1), bits(1), regidx, regidx, regidx)
mapping clause encdec = AMOSWAP_D(aq, rl, rs2, rs1, rd)
  <-> 0b00001 @ aq @ rl @ rs2 @ rs1 @ 0b011 @ rd @ 0b0101111
function clause execute(AMOSWAP_D(aq, rl, rs2, rs1, rd)) = {
  let old = mem_read(8, amo_address_d(rs1));
  amo_d(rs1, X(rs2), old, rd)
}

union clause ast = AMOADD_D : (bits(1), bits(1), regidx, regidx, regidx)
mapping clause encdec = AMOADD_D(aq, rl, rs2, rs1, rd)
  <-> 0b00000 @ aq @ rl @ rs2 @ rs1 @ 0b011 @ rd @ 0b0101111
function clause execute(AMOADD_D(aq, rl, rs2, rs1, rd)) = {
  let old = mem_read(8, amo_address_d(rs1));
  amo_d(rs1, old + X(rs2), old, rd)
}

union clause ast = AMOXOR_D : (bits(1), bits(1), regidx, regidx, regidx)
mapping clause encdec = AMOXOR_D(aq, rl, rs2, rs1, rd)
  <-> 0b00100 @ aq @ rl @ rs2 @ rs1 @ 0b011 @ rd @ 0b0101111
function clause execute(AMOXOR_D(aq, rl, rs2, rs1, rd)) = {
  let old = mem_read(8, amo_address_d(rs1));
  amo_d(rs1, old ^ X(rs2), old, rd)
}

union clause ast = AMOAND_D : (bits(1), bits(1), regidx, regidx, regidx)
mapping clause encdec = AMOAND_D(aq, rl, rs2, rs1, rd)
  <-> 0b01100 @ aq @ rl @ rs2 @ rs1 @ 0b011 @ rd @ 0b0101111
function clause execute(AMOAND_D(aq, rl, rs2, rs1, rd)) = {
  let old = mem_read(8, amo_address_d(rs1));
  amo_d(rs1, old & X(rs2), old, rd)
}

union clause ast = AMOOR_D : (bits(1), bits(1), regidx, regidx, regidx)
mapping clause encdec = AMOOR_D(aq, rl, rs2, rs1, rd)
  <-> 0b01000 @ aq @ rl @ rs2 @ rs1 @ 0b011 @ rd @ 0b0101111
function clause execute(AMOOR_D(aq, rl, rs2, rs1, rd)) = {
  let old = mem_read(8, amo_address_d(rs1));
  amo_d(rs1, old | X(rs2), old, rd)
}

union clause ast = AMOMIN_D : (bits(1), bits(1), regidx, regidx, regidx)
mapping clause encdec = AMOMIN_D(aq, rl, rs2, rs1, rd)
  <-> 0b10000 @ aq @ rl @ rs2 @ rs1 @ 0b011 @ rd @ 0b0101111
function clause execute(AMOMIN_D(aq, rl, rs2, rs1, rd)) = {
  let old = mem_read(8, amo_address_d(rs1));
  amo_d(rs1, if old <_s X(rs2) then old else X(rs2), old, rd)
}

union clause ast = AMOMAX_D : (bits(1), bits(1), regidx, regidx, regidx)
mapping clause encdec = AMOMAX_D(aq, rl, rs2, rs1, rd)
  <-> 0b10100 @ aq @ rl @ rs2 @ rs1 @ 0b011 @ rd @ 0b0101111
function clause execute(AMOMAX_D(aq, rl, rs2, rs1, rd)) = {
  let old = mem_read(8, amo_address_d(rs1));
  amo_d(rs1, if old >_s X(rs2) then old else X(rs2), old, rd)
}

union clause ast = AMOMINU_D : (bits(1), bits(1), regidx, regidx, regidx)
mapping clause encdec = AMOMINU_D(aq, rl, rs2, rs1, rd)
  <-> 0b11000 @ aq @ rl @ rs2 @ rs1 @ 0b011 @ rd @ 0b0101111
function clause execute(AMOMINU_D(aq, rl, rs2, rs1, rd)) = {
  let old = mem_read(8, amo_address_d(rs1));
  amo_d(rs1, if old <_u X(rs2) then old else X(rs2), old, rd)
}

union clause ast = AMOMAXU_D : (bits(1), bits(1), regidx, regidx, regidx)
mapping clause encdec = AMOMAXU_D(aq, rl, rs2, rs1, rd)
  <-> 0b11100 @ aq @ rl @ rs2 @ rs1 @ 0b011 @ rd @ 0b0101111
function clause execute(AMOMAXU_D(aq, rl, rs2, rs1, rd)) = {
  let old = mem_read(8, amo_address_d(rs1));
  amo_d(rs1, if old >_u X(rs2) then old else X(rs2), old, rd)
}
";
