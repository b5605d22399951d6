//! Models of `data`, written by `tools/shipped_models.py`.

/// `rv32_begin.sail`
pub const RV32_BEGIN: &str =
    "/* What the instructions of RV32 share: types, registers, addresses, and where the parts of the instruction set begin.
   With rv32i.sail and rv32_end.sail this is RV32I of the RISC-V unprivileged manual; with rv32m.sail and rv32a.sail
   before the last one it is RV32IMA. */

default Order dec

/* The machine that an image's header has to name, EM_RISCV */
let elf_machine = 243

type xlen : Int = 32
type log2_xlen : Int = 5
let xlen = sizeof(xlen)
let log2_xlen = sizeof(log2_xlen)

type xlenbits = bits(xlen)
type regidx = bits(5)

/* The manual's exceptions. Nothing handles them, so they end the run. */
union exception = {
  E_Fetch_Addr_Align : xlenbits,
  E_Illegal_Instr : bits(32),
  E_Breakpoint : xlenbits,
  E_Load_Addr_Align : bits(64),
  E_SAMO_Addr_Align : bits(64)
}

/* What an instruction comes to: its hart goes on behind it, or at another address, or rests. */
union Retired = {
  Retire_Success : unit,
  Retire_Jump : xlenbits,
  Retire_Rest : unit
}

let RETIRE_SUCCESS = Retire_Success()

/* The registers. x0 is none: it reads as zero, and what is written to it is lost. */

register pc : xlenbits
register x1 : xlenbits
register x2 : xlenbits
register x3 : xlenbits
register x4 : xlenbits
register x5 : xlenbits
register x6 : xlenbits
register x7 : xlenbits
register x8 : xlenbits
register x9 : xlenbits
register x10 : xlenbits
register x11 : xlenbits
register x12 : xlenbits
register x13 : xlenbits
register x14 : xlenbits
register x15 : xlenbits
register x16 : xlenbits
register x17 : xlenbits
register x18 : xlenbits
register x19 : xlenbits
register x20 : xlenbits
register x21 : xlenbits
register x22 : xlenbits
register x23 : xlenbits
register x24 : xlenbits
register x25 : xlenbits
register x26 : xlenbits
register x27 : xlenbits
register x28 : xlenbits
register x29 : xlenbits
register x30 : xlenbits
register x31 : xlenbits

val rX : regidx -> xlenbits
function rX(r) = match r {
  0b00000 => zeros(xlen),
  0b00001 => x1,
  0b00010 => x2,
  0b00011 => x3,
  0b00100 => x4,
  0b00101 => x5,
  0b00110 => x6,
  0b00111 => x7,
  0b01000 => x8,
  0b01001 => x9,
  0b01010 => x10,
  0b01011 => x11,
  0b01100 => x12,
  0b01101 => x13,
  0b01110 => x14,
  0b01111 => x15,
  0b10000 => x16,
  0b10001 => x17,
  0b10010 => x18,
  0b10011 => x19,
  0b10100 => x20,
  0b10101 => x21,
  0b10110 => x22,
  0b10111 => x23,
  0b11000 => x24,
  0b11001 => x25,
  0b11010 => x26,
  0b11011 => x27,
  0b11100 => x28,
  0b11101 => x29,
  0b11110 => x30,
  0b11111 => x31
}

val wX : (regidx, xlenbits) -> unit
function wX(r, v) = match r {
  0b00000 => (),
  0b00001 => x1 = v,
  0b00010 => x2 = v,
  0b00011 => x3 = v,
  0b00100 => x4 = v,
  0b00101 => x5 = v,
  0b00110 => x6 = v,
  0b00111 => x7 = v,
  0b01000 => x8 = v,
  0b01001 => x9 = v,
  0b01010 => x10 = v,
  0b01011 => x11 = v,
  0b01100 => x12 = v,
  0b01101 => x13 = v,
  0b01110 => x14 = v,
  0b01111 => x15 = v,
  0b10000 => x16 = v,
  0b10001 => x17 = v,
  0b10010 => x18 = v,
  0b10011 => x19 = v,
  0b10100 => x20 = v,
  0b10101 => x21 = v,
  0b10110 => x22 = v,
  0b10111 => x23 = v,
  0b11000 => x24 = v,
  0b11001 => x25 = v,
  0b11010 => x26 = v,
  0b11011 => x27 = v,
  0b11100 => x28 = v,
  0b11101 => x29 = v,
  0b11110 => x30 = v,
  0b11111 => x31 = v
}

/* X(r) reads a register, and X(r) = v writes it. */
overload X = {rX, wX}

/* Addresses. Those of memory have 64 bits. A run ends where bytes are read or written that aren't all in RAM. */

/* The address of a load or a store. It need not be aligned. */
val vaddr : (regidx, bits(12)) -> bits(64)
function vaddr(rs1, imm) = zero_extend(64, X(rs1) + sign_extend(xlen, imm))

/* The target of a jump or of a branch that is taken. It has to be a multiple of four. */
val target : xlenbits -> xlenbits
function target(address) = {
  if address[1 .. 0] != 0b00 then throw(E_Fetch_Addr_Align(address));
  address
}

/* A branch by imm where its condition is true. */
val branch : (bool, bits(13)) -> Retired
function branch(taken, imm) =
  if taken then Retire_Jump(target(pc + sign_extend(xlen, imm))) else RETIRE_SUCCESS

/* Each instruction has a clause of all three, in the files between this one and the last. */

scattered union ast

val encdec : ast <-> bits(32)
scattered mapping encdec

val execute : ast -> Retired
scattered function execute
";

/// `rv32i.sail`
pub const RV32I: &str =
    "/* RV32I, the base integer instruction set: 40 instructions, in the order of the manual's table of them. Each has a clause
   of the tree, one of its encoding and one of what it does. */

/* LUI: imm above twelve zeros */
union clause ast = LUI : (bits(20), regidx)
mapping clause encdec = LUI(imm, rd) <-> imm @ rd @ 0b0110111
function clause execute(LUI(imm, rd)) = {
  X(rd) = sign_extend(xlen, imm @ 0x000);
  RETIRE_SUCCESS
}

/* AUIPC: the same, added to the instruction's own address */
union clause ast = AUIPC : (bits(20), regidx)
mapping clause encdec = AUIPC(imm, rd) <-> imm @ rd @ 0b0010111
function clause execute(AUIPC(imm, rd)) = {
  X(rd) = pc + sign_extend(xlen, imm @ 0x000);
  RETIRE_SUCCESS
}

/* JAL: a jump by imm; rd is the address behind it */
union clause ast = JAL : (bits(21), regidx)
mapping clause encdec = JAL(imm20 @ imm19_12 @ imm11 @ imm10_1 @ 0b0, rd)
  <-> imm20 : bits(1) @ imm10_1 : bits(10) @ imm11 : bits(1) @ imm19_12 : bits(8) @ rd @ 0b1101111
function clause execute(JAL(imm, rd)) = {
  let address = target(pc + sign_extend(xlen, imm));
  X(rd) = pc + 4;
  Retire_Jump(address)
}

/* JALR: a jump to rs1 plus imm, with the lowest bit cleared */
union clause ast = JALR : (bits(12), regidx, regidx)
mapping clause encdec = JALR(imm, rs1, rd) <-> imm @ rs1 @ 0b000 @ rd @ 0b1100111
function clause execute(JALR(imm, rs1, rd)) = {
  let address = target([X(rs1) + sign_extend(xlen, imm) with 0 = bitzero]);
  X(rd) = pc + 4;
  Retire_Jump(address)
}

/* Branches by imm */

union clause ast = BEQ : (bits(13), regidx, regidx)
mapping clause encdec = BEQ(imm12 @ imm11 @ imm10_5 @ imm4_1 @ 0b0, rs2, rs1)
  <-> imm12 : bits(1) @ imm10_5 : bits(6) @ rs2 @ rs1 @ 0b000 @ imm4_1 : bits(4) @ imm11 : bits(1) @ 0b1100011
function clause execute(BEQ(imm, rs2, rs1)) = branch(X(rs1) == X(rs2), imm)

union clause ast = BNE : (bits(13), regidx, regidx)
mapping clause encdec = BNE(imm12 @ imm11 @ imm10_5 @ imm4_1 @ 0b0, rs2, rs1)
  <-> imm12 : bits(1) @ imm10_5 : bits(6) @ rs2 @ rs1 @ 0b001 @ imm4_1 : bits(4) @ imm11 : bits(1) @ 0b1100011
function clause execute(BNE(imm, rs2, rs1)) = branch(X(rs1) != X(rs2), imm)

union clause ast = BLT : (bits(13), regidx, regidx)
mapping clause encdec = BLT(imm12 @ imm11 @ imm10_5 @ imm4_1 @ 0b0, rs2, rs1)
  <-> imm12 : bits(1) @ imm10_5 : bits(6) @ rs2 @ rs1 @ 0b100 @ imm4_1 : bits(4) @ imm11 : bits(1) @ 0b1100011
function clause execute(BLT(imm, rs2, rs1)) = branch(X(rs1) <_s X(rs2), imm)

union clause ast = BGE : (bits(13), regidx, regidx)
mapping clause encdec = BGE(imm12 @ imm11 @ imm10_5 @ imm4_1 @ 0b0, rs2, rs1)
  <-> imm12 : bits(1) @ imm10_5 : bits(6) @ rs2 @ rs1 @ 0b101 @ imm4_1 : bits(4) @ imm11 : bits(1) @ 0b1100011
function clause execute(BGE(imm, rs2, rs1)) = branch(X(rs1) >=_s X(rs2), imm)

union clause ast = BLTU : (bits(13), regidx, regidx)
mapping clause encdec = BLTU(imm12 @ imm11 @ imm10_5 @ imm4_1 @ 0b0, rs2, rs1)
  <-> imm12 : bits(1) @ imm10_5 : bits(6) @ rs2 @ rs1 @ 0b110 @ imm4_1 : bits(4) @ imm11 : bits(1) @ 0b1100011
function clause execute(BLTU(imm, rs2, rs1)) = branch(X(rs1) <_u X(rs2), imm)

union clause ast = BGEU : (bits(13), regidx, regidx)
mapping clause encdec = BGEU(imm12 @ imm11 @ imm10_5 @ imm4_1 @ 0b0, rs2, rs1)
  <-> imm12 : bits(1) @ imm10_5 : bits(6) @ rs2 @ rs1 @ 0b111 @ imm4_1 : bits(4) @ imm11 : bits(1) @ 0b1100011
function clause execute(BGEU(imm, rs2, rs1)) = branch(X(rs1) >=_u X(rs2), imm)

/* Loads, with the sign or with zeros above what is read */

union clause ast = LB : (bits(12), regidx, regidx)
mapping clause encdec = LB(imm, rs1, rd) <-> imm @ rs1 @ 0b000 @ rd @ 0b0000011
function clause execute(LB(imm, rs1, rd)) = {
  X(rd) = sign_extend(xlen, mem_read(1, vaddr(rs1, imm)));
  RETIRE_SUCCESS
}

union clause ast = LH : (bits(12), regidx, regidx)
mapping clause encdec = LH(imm, rs1, rd) <-> imm @ rs1 @ 0b001 @ rd @ 0b0000011
function clause execute(LH(imm, rs1, rd)) = {
  X(rd) = sign_extend(xlen, mem_read(2, vaddr(rs1, imm)));
  RETIRE_SUCCESS
}

union clause ast = LW : (bits(12), regidx, regidx)
mapping clause encdec = LW(imm, rs1, rd) <-> imm @ rs1 @ 0b010 @ rd @ 0b0000011
function clause execute(LW(imm, rs1, rd)) = {
  X(rd) = sign_extend(xlen, mem_read(4, vaddr(rs1, imm)));
  RETIRE_SUCCESS
}

union clause ast = LBU : (bits(12), regidx, regidx)
mapping clause encdec = LBU(imm, rs1, rd) <-> imm @ rs1 @ 0b100 @ rd @ 0b0000011
function clause execute(LBU(imm, rs1, rd)) = {
  X(rd) = zero_extend(xlen, mem_read(1, vaddr(rs1, imm)));
  RETIRE_SUCCESS
}

union clause ast = LHU : (bits(12), regidx, regidx)
mapping clause encdec = LHU(imm, rs1, rd) <-> imm @ rs1 @ 0b101 @ rd @ 0b0000011
function clause execute(LHU(imm, rs1, rd)) = {
  X(rd) = zero_extend(xlen, mem_read(2, vaddr(rs1, imm)));
  RETIRE_SUCCESS
}

/* Stores, of the lowest bits of rs2 */

union clause ast = SB : (bits(12), regidx, regidx)
mapping clause encdec = SB(imm11_5 @ imm4_0, rs2, rs1)
  <-> imm11_5 : bits(7) @ rs2 @ rs1 @ 0b000 @ imm4_0 : bits(5) @ 0b0100011
function clause execute(SB(imm, rs2, rs1)) = {
  mem_write(1, vaddr(rs1, imm), truncate(X(rs2), 8));
  RETIRE_SUCCESS
}

union clause ast = SH : (bits(12), regidx, regidx)
mapping clause encdec = SH(imm11_5 @ imm4_0, rs2, rs1)
  <-> imm11_5 : bits(7) @ rs2 @ rs1 @ 0b001 @ imm4_0 : bits(5) @ 0b0100011
function clause execute(SH(imm, rs2, rs1)) = {
  mem_write(2, vaddr(rs1, imm), truncate(X(rs2), 16));
  RETIRE_SUCCESS
}

union clause ast = SW : (bits(12), regidx, regidx)
mapping clause encdec = SW(imm11_5 @ imm4_0, rs2, rs1)
  <-> imm11_5 : bits(7) @ rs2 @ rs1 @ 0b010 @ imm4_0 : bits(5) @ 0b0100011
function clause execute(SW(imm, rs2, rs1)) = {
  mem_write(4, vaddr(rs1, imm), truncate(X(rs2), 32));
  RETIRE_SUCCESS
}

/* A register and a constant. It is extended by its sign, also where what is compared is unsigned. */

union clause ast = ADDI : (bits(12), regidx, regidx)
mapping clause encdec = ADDI(imm, rs1, rd) <-> imm @ rs1 @ 0b000 @ rd @ 0b0010011
function clause execute(ADDI(imm, rs1, rd)) = {
  X(rd) = X(rs1) + sign_extend(xlen, imm);
  RETIRE_SUCCESS
}

union clause ast = SLTI : (bits(12), regidx, regidx)
mapping clause encdec = SLTI(imm, rs1, rd) <-> imm @ rs1 @ 0b010 @ rd @ 0b0010011
function clause execute(SLTI(imm, rs1, rd)) = {
  X(rd) = zero_extend(xlen, bool_to_bits(X(rs1) <_s sign_extend(xlen, imm)));
  RETIRE_SUCCESS
}

union clause ast = SLTIU : (bits(12), regidx, regidx)
mapping clause encdec = SLTIU(imm, rs1, rd) <-> imm @ rs1 @ 0b011 @ rd @ 0b0010011
function clause execute(SLTIU(imm, rs1, rd)) = {
  X(rd) = zero_extend(xlen, bool_to_bits(X(rs1) <_u sign_extend(xlen, imm)));
  RETIRE_SUCCESS
}

union clause ast = XORI : (bits(12), regidx, regidx)
mapping clause encdec = XORI(imm, rs1, rd) <-> imm @ rs1 @ 0b100 @ rd @ 0b0010011
function clause execute(XORI(imm, rs1, rd)) = {
  X(rd) = X(rs1) ^ sign_extend(xlen, imm);
  RETIRE_SUCCESS
}

union clause ast = ORI : (bits(12), regidx, regidx)
mapping clause encdec = ORI(imm, rs1, rd) <-> imm @ rs1 @ 0b110 @ rd @ 0b0010011
function clause execute(ORI(imm, rs1, rd)) = {
  X(rd) = X(rs1) | sign_extend(xlen, imm);
  RETIRE_SUCCESS
}

union clause ast = ANDI : (bits(12), regidx, regidx)
mapping clause encdec = ANDI(imm, rs1, rd) <-> imm @ rs1 @ 0b111 @ rd @ 0b0010011
function clause execute(ANDI(imm, rs1, rd)) = {
  X(rd) = X(rs1) & sign_extend(xlen, imm);
  RETIRE_SUCCESS
}

/* Shifts by a constant */

union clause ast = SLLI : (bits(5), regidx, regidx)
mapping clause encdec = SLLI(shamt, rs1, rd) <-> 0b0000000 @ shamt @ rs1 @ 0b001 @ rd @ 0b0010011
function clause execute(SLLI(shamt, rs1, rd)) = {
  X(rd) = X(rs1) << shamt;
  RETIRE_SUCCESS
}

union clause ast = SRLI : (bits(5), regidx, regidx)
mapping clause encdec = SRLI(shamt, rs1, rd) <-> 0b0000000 @ shamt @ rs1 @ 0b101 @ rd @ 0b0010011
function clause execute(SRLI(shamt, rs1, rd)) = {
  X(rd) = X(rs1) >> shamt;
  RETIRE_SUCCESS
}

union clause ast = SRAI : (bits(5), regidx, regidx)
mapping clause encdec = SRAI(shamt, rs1, rd) <-> 0b0100000 @ shamt @ rs1 @ 0b101 @ rd @ 0b0010011
function clause execute(SRAI(shamt, rs1, rd)) = {
  X(rd) = arith_shiftr_bits(X(rs1), shamt);
  RETIRE_SUCCESS
}

/* Two registers. A shift looks at the lowest bits of rs2 alone. */

union clause ast = ADD : (regidx, regidx, regidx)
mapping clause encdec = ADD(rs2, rs1, rd) <-> 0b0000000 @ rs2 @ rs1 @ 0b000 @ rd @ 0b0110011
function clause execute(ADD(rs2, rs1, rd)) = {
  X(rd) = X(rs1) + X(rs2);
  RETIRE_SUCCESS
}

union clause ast = SUB : (regidx, regidx, regidx)
mapping clause encdec = SUB(rs2, rs1, rd) <-> 0b0100000 @ rs2 @ rs1 @ 0b000 @ rd @ 0b0110011
function clause execute(SUB(rs2, rs1, rd)) = {
  X(rd) = X(rs1) - X(rs2);
  RETIRE_SUCCESS
}

union clause ast = SLL : (regidx, regidx, regidx)
mapping clause encdec = SLL(rs2, rs1, rd) <-> 0b0000000 @ rs2 @ rs1 @ 0b001 @ rd @ 0b0110011
function clause execute(SLL(rs2, rs1, rd)) = {
  X(rd) = X(rs1) << X(rs2)[log2_xlen - 1 .. 0];
  RETIRE_SUCCESS
}

union clause ast = SLT : (regidx, regidx, regidx)
mapping clause encdec = SLT(rs2, rs1, rd) <-> 0b0000000 @ rs2 @ rs1 @ 0b010 @ rd @ 0b0110011
function clause execute(SLT(rs2, rs1, rd)) = {
  X(rd) = zero_extend(xlen, bool_to_bits(X(rs1) <_s X(rs2)));
  RETIRE_SUCCESS
}

union clause ast = SLTU : (regidx, regidx, regidx)
mapping clause encdec = SLTU(rs2, rs1, rd) <-> 0b0000000 @ rs2 @ rs1 @ 0b011 @ rd @ 0b0110011
function clause execute(SLTU(rs2, rs1, rd)) = {
  X(rd) = zero_extend(xlen, bool_to_bits(X(rs1) <_u X(rs2)));
  RETIRE_SUCCESS
}

union clause ast = XOR : (regidx, regidx, regidx)
mapping clause encdec = XOR(rs2, rs1, rd) <-> 0b0000000 @ rs2 @ rs1 @ 0b100 @ rd @ 0b0110011
function clause execute(XOR(rs2, rs1, rd)) = {
  X(rd) = X(rs1) ^ X(rs2);
  RETIRE_SUCCESS
}

union clause ast = SRL : (regidx, regidx, regidx)
mapping clause encdec = SRL(rs2, rs1, rd) <-> 0b0000000 @ rs2 @ rs1 @ 0b101 @ rd @ 0b0110011
function clause execute(SRL(rs2, rs1, rd)) = {
  X(rd) = X(rs1) >> X(rs2)[log2_xlen - 1 .. 0];
  RETIRE_SUCCESS
}

union clause ast = SRA : (regidx, regidx, regidx)
mapping clause encdec = SRA(rs2, rs1, rd) <-> 0b0100000 @ rs2 @ rs1 @ 0b101 @ rd @ 0b0110011
function clause execute(SRA(rs2, rs1, rd)) = {
  X(rd) = arith_shiftr_bits(X(rs1), X(rs2)[log2_xlen - 1 .. 0]);
  RETIRE_SUCCESS
}

union clause ast = OR : (regidx, regidx, regidx)
mapping clause encdec = OR(rs2, rs1, rd) <-> 0b0000000 @ rs2 @ rs1 @ 0b110 @ rd @ 0b0110011
function clause execute(OR(rs2, rs1, rd)) = {
  X(rd) = X(rs1) | X(rs2);
  RETIRE_SUCCESS
}

union clause ast = AND : (regidx, regidx, regidx)
mapping clause encdec = AND(rs2, rs1, rd) <-> 0b0000000 @ rs2 @ rs1 @ 0b111 @ rd @ 0b0110011
function clause execute(AND(rs2, rs1, rd)) = {
  X(rd) = X(rs1) & X(rs2);
  RETIRE_SUCCESS
}

/* FENCE: nothing is left to do, since a step of a hart is whole before another begins. FENCE.TSO and PAUSE are words of
   it, and so are those that the manual reserves. */
union clause ast = FENCE : (bits(4), bits(4), bits(4), regidx, regidx)
mapping clause encdec = FENCE(fm, pred, succ, rs1, rd) <-> fm @ pred @ succ @ rs1 @ 0b000 @ rd @ 0b0001111
function clause execute(FENCE(fm, pred, succ, rs1, rd)) = RETIRE_SUCCESS

/* The bytes from an address on, so many of them, to the console */
val write_console : (xlenbits, xlenbits) -> unit
function write_console(address, count) = {
  let n = unsigned(count);
  foreach (i from 0 to n - 1) console_put(mem_read(1, zero_extend(64, address + i)))
}

/* ECALL: two calls of Linux, by the number in a7. 64 is write: the a2 bytes from a1 on go to the console, whatever
   descriptor a0 holds, and a0 becomes their count. 93 is exit: the hart rests. Of any other a0 becomes -ENOSYS. */
union clause ast = ECALL : unit
mapping clause encdec = ECALL() <-> 0b000000000000 @ 0b00000 @ 0b000 @ 0b00000 @ 0b1110011
function clause execute(ECALL()) = {
  match unsigned(x17) {
    64 => { write_console(x11, x12); x10 = x12; RETIRE_SUCCESS },
    93 => Retire_Rest(),
    _ => { x10 = to_bits(xlen, -38); RETIRE_SUCCESS }
  }
}

/* EBREAK: the run ends, with pc at this instruction */
union clause ast = EBREAK : unit
mapping clause encdec = EBREAK() <-> 0b000000000001 @ 0b00000 @ 0b000 @ 0b00000 @ 0b1110011
function clause execute(EBREAK()) = throw(E_Breakpoint(pc))
";

/// `rv32m.sail`
pub const RV32M: &str =
    "/* RV32M, multiplication and division: 8 instructions, in the order of the manual's table of them. */

/* The lower half of the product */
union clause ast = MUL : (regidx, regidx, regidx)
mapping clause encdec = MUL(rs2, rs1, rd) <-> 0b0000001 @ rs2 @ rs1 @ 0b000 @ rd @ 0b0110011
function clause execute(MUL(rs2, rs1, rd)) = {
  X(rd) = X(rs1) * X(rs2);
  RETIRE_SUCCESS
}

/* The upper half of the product: of signed numbers, of a signed rs1 and an unsigned rs2, of unsigned numbers */

union clause ast = MULH : (regidx, regidx, regidx)
mapping clause encdec = MULH(rs2, rs1, rd) <-> 0b0000001 @ rs2 @ rs1 @ 0b001 @ rd @ 0b0110011
function clause execute(MULH(rs2, rs1, rd)) = {
  X(rd) = mul_wide_ss(X(rs1), X(rs2))[2 * xlen - 1 .. xlen];
  RETIRE_SUCCESS
}

union clause ast = MULHSU : (regidx, regidx, regidx)
mapping clause encdec = MULHSU(rs2, rs1, rd) <-> 0b0000001 @ rs2 @ rs1 @ 0b010 @ rd @ 0b0110011
function clause execute(MULHSU(rs2, rs1, rd)) = {
  X(rd) = mul_wide_su(X(rs1), X(rs2))[2 * xlen - 1 .. xlen];
  RETIRE_SUCCESS
}

union clause ast = MULHU : (regidx, regidx, regidx)
mapping clause encdec = MULHU(rs2, rs1, rd) <-> 0b0000001 @ rs2 @ rs1 @ 0b011 @ rd @ 0b0110011
function clause execute(MULHU(rs2, rs1, rd)) = {
  X(rd) = mul_wide_uu(X(rs1), X(rs2))[2 * xlen - 1 .. xlen];
  RETIRE_SUCCESS
}

/* Quotients, towards zero. By zero the quotient has all bits set; the most negative number by -1 is that number. */

union clause ast = DIV : (regidx, regidx, regidx)
mapping clause encdec = DIV(rs2, rs1, rd) <-> 0b0000001 @ rs2 @ rs1 @ 0b100 @ rd @ 0b0110011
function clause execute(DIV(rs2, rs1, rd)) = {
  let n = signed(X(rs1));
  let d = signed(X(rs2));
  X(rd) = if d == 0 then ones(xlen) else to_bits(xlen, tdiv_int(n, d));
  RETIRE_SUCCESS
}

union clause ast = DIVU : (regidx, regidx, regidx)
mapping clause encdec = DIVU(rs2, rs1, rd) <-> 0b0000001 @ rs2 @ rs1 @ 0b101 @ rd @ 0b0110011
function clause execute(DIVU(rs2, rs1, rd)) = {
  let n = unsigned(X(rs1));
  let d = unsigned(X(rs2));
  X(rd) = if d == 0 then ones(xlen) else to_bits(xlen, tdiv_int(n, d));
  RETIRE_SUCCESS
}

/* Remainders, with the sign of rs1. By zero the remainder is rs1; of the most negative number by -1 it is 0. */

union clause ast = REM : (regidx, regidx, regidx)
mapping clause encdec = REM(rs2, rs1, rd) <-> 0b0000001 @ rs2 @ rs1 @ 0b110 @ rd @ 0b0110011
function clause execute(REM(rs2, rs1, rd)) = {
  let n = signed(X(rs1));
  let d = signed(X(rs2));
  X(rd) = if d == 0 then X(rs1) else to_bits(xlen, tmod_int(n, d));
  RETIRE_SUCCESS
}

union clause ast = REMU : (regidx, regidx, regidx)
mapping clause encdec = REMU(rs2, rs1, rd) <-> 0b0000001 @ rs2 @ rs1 @ 0b111 @ rd @ 0b0110011
function clause execute(REMU(rs2, rs1, rd)) = {
  let n = unsigned(X(rs1));
  let d = unsigned(X(rs2));
  X(rd) = if d == 0 then X(rs1) else to_bits(xlen, tmod_int(n, d));
  RETIRE_SUCCESS
}
";

/// `rv32a.sail`
pub const RV32A: &str =
    "/* RV32A, atomic instructions: 11 instructions, in the order of the manual's table of them. A step of a hart is whole
   before another begins, so aq and rl order nothing. Their addresses are multiples of four. */

/* The address of a word that is only read */
val lr_address : regidx -> bits(64)
function lr_address(rs1) = {
  let address = zero_extend(64, X(rs1));
  if address[1 .. 0] != 0b00 then throw(E_Load_Addr_Align(address));
  address
}

/* The address of a word that may be written */
val amo_address : regidx -> bits(64)
function amo_address(rs1) = {
  let address = zero_extend(64, X(rs1));
  if address[1 .. 0] != 0b00 then throw(E_SAMO_Addr_Align(address));
  address
}

/* The word becomes the new one, and rd the old one. */
val amo : (regidx, bits(32), bits(32), regidx) -> Retired
function amo(rs1, new, old, rd) = {
  mem_write(4, amo_address(rs1), new);
  X(rd) = sign_extend(xlen, old);
  RETIRE_SUCCESS
}

/* LR.W: rd is the word, and the hart's reservation is on its bytes. */
union clause ast = LR_W : (bits(1), bits(1), regidx, regidx)
mapping clause encdec = LR_W(aq, rl, rs1, rd) <-> 0b00010 @ aq @ rl @ 0b00000 @ rs1 @ 0b010 @ rd @ 0b0101111
function clause execute(LR_W(aq, rl, rs1, rd)) = {
  X(rd) = sign_extend(xlen, mem_reserve(4, lr_address(rs1)));
  RETIRE_SUCCESS
}

/* SC.W: where the hart's reservation still stands on these bytes the word is written and rd is 0, else rd is 1. */
union clause ast = SC_W : (bits(1), bits(1), regidx, regidx, regidx)
mapping clause encdec = SC_W(aq, rl, rs2, rs1, rd) <-> 0b00011 @ aq @ rl @ rs2 @ rs1 @ 0b010 @ rd @ 0b0101111
function clause execute(SC_W(aq, rl, rs2, rs1, rd)) = {
  let written = mem_write_cond(4, amo_address(rs1), truncate(X(rs2), 32));
  X(rd) = zero_extend(xlen, bool_to_bits(not(written)));
  RETIRE_SUCCESS
}

/* The word becomes what the instruction makes of it and rs2; rd is the word as it was. */

union clause ast = AMOSWAP_W : (bits(1), bits(1), regidx, regidx, regidx)
mapping clause encdec = AMOSWAP_W(aq, rl, rs2, rs1, rd)
  <-> 0b00001 @ aq @ rl @ rs2 @ rs1 @ 0b010 @ rd @ 0b0101111
function clause execute(AMOSWAP_W(aq, rl, rs2, rs1, rd)) = {
  let old = mem_read(4, amo_address(rs1));
  amo(rs1, X(rs2)[31 .. 0], old, rd)
}

union clause ast = AMOADD_W : (bits(1), bits(1), regidx, regidx, regidx)
mapping clause encdec = AMOADD_W(aq, rl, rs2, rs1, rd)
  <-> 0b00000 @ aq @ rl @ rs2 @ rs1 @ 0b010 @ rd @ 0b0101111
function clause execute(AMOADD_W(aq, rl, rs2, rs1, rd)) = {
  let old = mem_read(4, amo_address(rs1));
  amo(rs1, old + X(rs2)[31 .. 0], old, rd)
}

union clause ast = AMOXOR_W : (bits(1), bits(1), regidx, regidx, regidx)
mapping clause encdec = AMOXOR_W(aq, rl, rs2, rs1, rd)
  <-> 0b00100 @ aq @ rl @ rs2 @ rs1 @ 0b010 @ rd @ 0b0101111
function clause execute(AMOXOR_W(aq, rl, rs2, rs1, rd)) = {
  let old = mem_read(4, amo_address(rs1));
  amo(rs1, old ^ X(rs2)[31 .. 0], old, rd)
}

union clause ast = AMOAND_W : (bits(1), bits(1), regidx, regidx, regidx)
mapping clause encdec = AMOAND_W(aq, rl, rs2, rs1, rd)
  <-> 0b01100 @ aq @ rl @ rs2 @ rs1 @ 0b010 @ rd @ 0b0101111
function clause execute(AMOAND_W(aq, rl, rs2, rs1, rd)) = {
  let old = mem_read(4, amo_address(rs1));
  amo(rs1, old & X(rs2)[31 .. 0], old, rd)
}

union clause ast = AMOOR_W : (bits(1), bits(1), regidx, regidx, regidx)
mapping clause encdec = AMOOR_W(aq, rl, rs2, rs1, rd)
  <-> 0b01000 @ aq @ rl @ rs2 @ rs1 @ 0b010 @ rd @ 0b0101111
function clause execute(AMOOR_W(aq, rl, rs2, rs1, rd)) = {
  let old = mem_read(4, amo_address(rs1));
  amo(rs1, old | X(rs2)[31 .. 0], old, rd)
}

union clause ast = AMOMIN_W : (bits(1), bits(1), regidx, regidx, regidx)
mapping clause encdec = AMOMIN_W(aq, rl, rs2, rs1, rd)
  <-> 0b10000 @ aq @ rl @ rs2 @ rs1 @ 0b010 @ rd @ 0b0101111
function clause execute(AMOMIN_W(aq, rl, rs2, rs1, rd)) = {
  let old = mem_read(4, amo_address(rs1));
  let operand = X(rs2)[31 .. 0];
  amo(rs1, if old <_s operand then old else operand, old, rd)
}

union clause ast = AMOMAX_W : (bits(1), bits(1), regidx, regidx, regidx)
mapping clause encdec = AMOMAX_W(aq, rl, rs2, rs1, rd)
  <-> 0b10100 @ aq @ rl @ rs2 @ rs1 @ 0b010 @ rd @ 0b0101111
function clause execute(AMOMAX_W(aq, rl, rs2, rs1, rd)) = {
  let old = mem_read(4, amo_address(rs1));
  let operand = X(rs2)[31 .. 0];
  amo(rs1, if old >_s operand then old else operand, old, rd)
}

union clause ast = AMOMINU_W : (bits(1), bits(1), regidx, regidx, regidx)
mapping clause encdec = AMOMINU_W(aq, rl, rs2, rs1, rd)
  <-> 0b11000 @ aq @ rl @ rs2 @ rs1 @ 0b010 @ rd @ 0b0101111
function clause execute(AMOMINU_W(aq, rl, rs2, rs1, rd)) = {
  let old = mem_read(4, amo_address(rs1));
  let operand = X(rs2)[31 .. 0];
  amo(rs1, if old <_u operand then old else operand, old, rd)
}

union clause ast = AMOMAXU_W : (bits(1), bits(1), regidx, regidx, regidx)
mapping clause encdec = AMOMAXU_W(aq, rl, rs2, rs1, rd)
  <-> 0b11100 @ aq @ rl @ rs2 @ rs1 @ 0b010 @ rd @ 0b0101111
function clause execute(AMOMAXU_W(aq, rl, rs2, rs1, rd)) = {
  let old = mem_read(4, amo_address(rs1));
  let operand = X(rs2)[31 .. 0];
  amo(rs1, if old >_u operand then old else operand, old, rd)
}
";

/// `rv32_end.sail`
pub const RV32_END: &str =
    "/* Where the parts of the instruction set end, and what a step of a hart is */

/* A word that no clause above has is no instruction, and ends the run, with pc at it. */
union clause ast = ILLEGAL : bits(32)
mapping clause encdec = ILLEGAL(word) <-> word
function clause execute(ILLEGAL(word)) = throw(E_Illegal_Instr(word))

end ast
end encdec
end execute

/* A hart begins at the program's entry, with its number in a0. */
val reset : (range(0, 7), bits(64)) -> unit
function reset(h, e) = {
  pc = target(truncate(e, xlen));
  x10 = to_bits(xlen, h)
}

/* One instruction; false where the hart rests, with pc at that instruction. */
val step : unit -> bool
function step() = match execute(encdec(mem_read(4, zero_extend(64, pc)))) {
  Retire_Success() => { pc = pc + 4; true },
  Retire_Jump(address) => { pc = address; true },
  Retire_Rest() => false
}
";

/// `toy16.sail`
pub const TOY16: &str =
    "/* toy16, a machine of sixteen registers of 16 bits. An instruction has two bytes: what is done and with which register,
   in four bits each, and a byte b. A word that is none of these five ends the run with a match failure. */

default Order dec

register PC : bits(64)
register R : vector(16, bits(16))

/* The instructions */
union ast = {
  HALT : bits(12),
  SET : (bits(4), bits(8)),
  ADDI : (bits(4), bits(8)),
  ADD : (bits(4), bits(4)),
  JNZ : (bits(4), bits(8))
}

/* Their words. Twelve bits of HALT mean nothing. */
mapping encdec : ast <-> bits(16) = {
  HALT(b) <-> 0x0 @ b,
  SET(rd, b) <-> 0x1 @ rd @ b,
  ADDI(rd, b) <-> 0x2 @ rd @ b,
  ADD(rd, rs) <-> 0x3 @ rd @ rs @ 0x0,
  JNZ(rd, b) <-> 0x4 @ rd @ b
}

/* What they do. HALT leaves PC where it is, and the hart rests. */
val execute : ast -> bool
function execute(instruction) = match instruction {
  HALT(_) => false,
  SET(rd, b) => { R[unsigned(rd)] = zero_extend(16, b); PC = PC + 2; true },
  ADDI(rd, b) => { R[unsigned(rd)] = R[unsigned(rd)] + sign_extend(16, b); PC = PC + 2; true },
  ADD(rd, rs) => { R[unsigned(rd)] = R[unsigned(rd)] + R[unsigned(rs)]; PC = PC + 2; true },
  JNZ(rd, b) => { PC = PC + (if R[unsigned(rd)] == 0x0000 then 2 else 2 * signed(b)); true }
}

val reset : (range(0, 7), bits(64)) -> unit
function reset(h, e) = { PC = e }

val step : unit -> bool
function step() = execute(encdec(mem_read(2, PC)))
";
