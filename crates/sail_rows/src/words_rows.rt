//! Words, the registers of the model M, the body of its step, and what is written for them; `answers` says how a row is written. Without a
//! body M has its registers alone; N is what stands behind registers, with a body that counts. The image Q has one segment, S has two, and
//! P is cut short.

/// What is written for words.
pub const WORDS: &str = "
% run --elf Q --ram-size 4096 --steps 3 M // what runs, by words
register PC : bits(8)
# { PC = PC + 0x01; true }
# 0 == report
stop steps-done
steps 3
console 0
hart 0
PC = 0x03
== end
% run M --steps=000256 --elf=Q --ram-size 8
register PC : bits(8)
# { PC = PC + 0x01; true }
# 0 == report
stop steps-done
steps 256
console 0
hart 0
PC = 0x00
== end
% run --elf Q M
register PC : bits(8)
# { PC = PC + 0x01; true }
# 0 == report
stop steps-done
steps 1000
console 0
hart 0
PC = 0xe8
== end
% run --steps 0 --ram-size=0008 --elf Q -- M
register PC : bits(8)
# { PC = PC + 0x01; true }
# 0 == report
stop steps-done
steps 0
console 0
hart 0
PC = 0x00
== end
% run --elf Q --ram-size 32 --steps 5 --harts 2 M
register PC : bits(8)
# { PC = PC + 0x01; true }
# 0 == report
stop steps-done
steps 5
console 0
hart 0
PC = 0x03
hart 1
PC = 0x02
== end
% run --elf Q --order 110 --steps 7 --harts 3 --ram-size 9 M
register PC : bits(8)
# { PC = PC + 0x01; true }
# 0 == report
stop steps-done
steps 7
console 0
hart 0
PC = 0x02
hart 1
PC = 0x05
hart 2
PC = 0x00
== end
% run --elf S --ram-size 4128 --steps 1 M
register PC : bits(8)
# { PC = PC + 0x01; true }
# 0 == report
stop steps-done
steps 1
console 0
hart 0
PC = 0x01
== end
% run --elf Q --ram-base 2147483640 --ram-size 16 --steps 1 M
register PC : bits(8)
# { PC = PC + 0x01; true }
# 0 == report
stop steps-done
steps 1
console 0
hart 0
PC = 0x01
== end
% run --elf Q --ram-size 8 --steps 2 M N // what runs, by models
register PC : bits(8)
#
# 0 == report
stop steps-done
steps 2
console 0
hart 0
PC = 0x02
== end
% run --elf Q --ram-size 8 --steps 1 M
# { true }
# 0 == report
stop steps-done
steps 1
console 0
hart 0
== end
% run --elf Q --ram-size 8 --steps 1 M
register R:bits(3)# {R=R+0b111;true}
# 0 == report
stop steps-done
steps 1
console 0
hart 0
R = 0b111
== end
% run --elf Q --ram-size 8 --steps 2 M
register R : bits(012)\r
# { R = R + 0x00F; true }
# 0 == report
stop steps-done
steps 2
console 0
hart 0
R = 0x01e
== end
% run --elf Q --ram-size 8 --steps 1 M
/* of A */ register a_1 : (bits((0_8)))
# { (a_1) = ((a_1) + 0x0_1); (true) } // B

# 0 == report
stop steps-done
steps 1
console 0
hart 0
a_1 = 0x01
== end
% run --elf Q --ram-size 8 --steps 1 M
register A : bits(8) register B : bits(8)\t# { A = B + 0x01; B = A + 0x01; A = B + 0xff; true, }
# 1 M06 1:4:67 ,
% run --elf Q --ram-size 8 --steps 1 M
register A : bits(8) register B : bits(8)\t# { A = B + 0x01; B = A + 0x01; A = B + 0xff; true }
# 0 == report
stop steps-done
steps 1
console 0
hart 0
A = 0x01
B = 0x02
== end
% run --elf Q --ram-size 8 --steps 1 M
register W : bits(128)
# { W = W + 0xffffffffffffffffffffffffffffffff; true }
# 0 == report
stop steps-done
steps 1
console 0
hart 0
W = 0xffffffffffffffffffffffffffffffff
== end
% // words that are no command
register PC : bits(8)
# { PC = PC + 0x01; true }
# 2 sail-run: usage
% --help
register PC : bits(8)
# { PC = PC + 0x01; true }
# 2 sail-run: usage
% check
register PC : bits(8)
# { PC = PC + 0x01; true }
# 2 sail-run: usage
% check --elf Q M
register PC : bits(8)
# { PC = PC + 0x01; true }
# 2 sail-run: usage
% certs --steps 1 M
register PC : bits(8)
# { PC = PC + 0x01; true }
# 2 sail-run: usage
% run --elf Q
register PC : bits(8)
# { PC = PC + 0x01; true }
# 2 sail-run: usage
% run --elf -Q M
register PC : bits(8)
# { PC = PC + 0x01; true }
# 2 sail-run: usage
% run --elf Q --steps +3 M
register PC : bits(8)
# { PC = PC + 0x01; true }
# 2 sail-run: usage
% run --elf Q --steps 4294967296 M
register PC : bits(8)
# { PC = PC + 0x01; true }
# 2 sail-run: usage
% run --elf Q --harts 9 M
register PC : bits(8)
# { PC = PC + 0x01; true }
# 2 sail-run: usage
% run --elf Q --harts 2 --order 012 M
register PC : bits(8)
# { PC = PC + 0x01; true }
# 2 sail-run: usage
% run --elf Q --ram-size 67108865 M
register PC : bits(8)
# { PC = PC + 0x01; true }
# 2 sail-run: usage
% run --elf Q --ram-base 18446744073709551615 --ram-size 2 M
register PC : bits(8)
# { PC = PC + 0x01; true }
# 2 sail-run: usage
% synth 1
register PC : bits(8)
# { PC = PC + 0x01; true }
# 2 sail-run: usage
% synth 65536 1
register PC : bits(8)
# { PC = PC + 0x01; true }
# 2 sail-run: usage
% synth 0 0
register PC : bits(8)
# { PC = PC + 0x01; true }
# 2 sail-run: usage
% synth 0 4001
register PC : bits(8)
# { PC = PC + 0x01; true }
# 2 sail-run: usage
% synth 1 3 M
register PC : bits(8)
# { PC = PC + 0x01; true }
# 2 sail-run: usage
% run --elf NONE M // files that aren't there; the first decides, before any model
register PC : bits(8)
#
# 9 no file: NONE
% run --elf NONE M X
register PC : bits(8)
# { PC = PC + 0x01; true }
# 9 no file: X
% run --elf Q 
register PC : bits(8)
# { PC = PC + 0x01; true }
# 9 no file: 
% run --elf P M // images, behind the models
register PC : bits(8)
#
# 1 M19 1:2:1 reset
% run --elf P M
register PC : bits(8)
# { PC = PC + 0x01; true }
# 6 E11 0
% run --elf M M
register PC : bits(8)
# { PC = PC + 0x01; true }
# 6 E2
% run --elf Q --ram-size 7 M
register PC : bits(8)
# { PC = PC + 0x01; true }
# 6 E13 0
% run --elf Q --ram-base 2147483649 M
register PC : bits(8)
# { PC = PC + 0x01; true }
# 6 E13 0
% run --elf S --ram-size 4127 M
register PC : bits(8)
# { PC = PC + 0x01; true }
# 6 E13 2
% run --elf Q --steps 1 M // the machine that a model is for, where a number says it
let elf_machine = 62
register PC : bits(8)
# { PC = PC + 0x01; true }
# 6 E7
% run --elf Q --steps 1 M
let elf_machine = 243
register PC : bits(8)
# { PC = PC + 0x01; true }
# 0 == report
stop steps-done
steps 1
console 0
hart 0
PC = 0x01
== end
% run --elf Q --steps 1 M
let elf_machine = (62)
register PC : bits(8)
# { PC = PC + 0x01; true }
# 6 E7
% run --elf Q --steps 1 M
let elf_machine : range(0, 255) = 62
register PC : bits(8)
# { PC = PC + 0x01; true }
# 6 E7
% run --elf Q --steps 1 M
let elf_machine = 0x3e
register PC : bits(8)
# { PC = PC + 0x01; true }
# 0 == report
stop steps-done
steps 1
console 0
hart 0
PC = 0x01
== end
% run --elf Q --steps 1 M
let elf_machine = 62 : range(0, 255)
register PC : bits(8)
# { PC = PC + 0x01; true }
# 0 == report
stop steps-done
steps 1
console 0
hart 0
PC = 0x01
== end
% run --elf Q --steps 1 M
let elf_machine = 60 + 2
register PC : bits(8)
# { PC = PC + 0x01; true }
# 0 == report
stop steps-done
steps 1
console 0
hart 0
PC = 0x01
== end
% run --elf P M Q // tokens, of all models first
)#
# 1 M01 2:1:1 7f
% run --elf P Q M
/*#
# 1 M01 1:1:1 7f
% run --elf Q M

 /* /* */# { PC = PC + 0x01; true }
# 1 M03 1:2:2
% run --elf Q M
register PC : bits(8)
# 85070591730234615865843651857942052865
# 1 M04 1:5:19
% run --elf Q M
register 0P : bits(8)
# { true }
# 1 M02 1:1:10
% run --elf Q M
register PC : bits(8)\x0c# { PC = PC + 0x01; true }
# 1 M01 1:1:22 0c
% run --elf Q M
register PC : bits(8)
# { PC = PC + 0X01; true }
# 1 M02 1:5:31
% run --elf Q M // then the grammar, of all models joined
register PC : bits(8)
# undefined
# 1 M05 1:5:19 undefined
% run --elf Q M
let x = { 1 }
# { PC = PC + 0x01; true }
# 1 M05 1:1:9 {
% run --elf Q M
let L : unit = a = b
# { PC = PC + 0x01; true }
# 1 M05 1:1:16 a
% run --elf Q M
let x = { 1 )
# { PC = PC + 0x01; true }
# 1 M06 1:1:13 )
% run --elf Q M
registerPC : bits(8)
# { PC = PC + 0x01; true }
# 1 M06 1:1:1 registerPC
% run --elf Q M
register PC : bits(8)
# { PC = PC + 0x01 true }
# 1 M06 1:5:36 true
% run --elf Q M
register PC : bits(8)
# { PC = PC + 0x01; true } true
# 1 M06 1:5:44 true
% run --elf Q M
register PC : bits(8)
# { PC = PC
# 1 M06 1:5:28 end
% run --elf Q M N
default#
# 1 M06 2:1:1 val
% run --elf Q N M
register PC :
#
# 1 M06 2:2:1 end
% run --elf Q M
register PC : bits(8)
# (((((((((((((((((((((((((((((((((((((((((((((((((((((((((((((((((((((((((((((((((((((((((((((((((((((((((((((((((((((((((((((((((
# 1 M07 1:5:147
% run --elf Q M // then what is written in parts
end f
# { PC = PC + 0x01; true }
# 1 M22 1:1:1 f
% run --elf Q M N
scattered function step function clause g() = ()#
# 1 M23 1:1:1 step
% run --elf Q M
scattered function step end step function clause step() = true
#
# 1 M22 1:1:34 step
% run --elf Q M // then what names mean, in all models, with the end of the last one
scattered function f end f
# { PC = PC + 0x01; true }
# 1 M10 1:1:1 f
% run --elf Q M
#
# 1 M19 1:1:1 reset
% run --elf Q M M
register PC : bits(8)
# { PC = PC + 0x01; true }
# 1 M09 2:1:1 PC
% run --elf Q M M M
type t = int
#
# 1 M09 2:1:1 t
% run --elf Q N N
#
# 1 M10 1:4:21 PC
% run --elf Q M
register PC : bits(8) register PC : bits(8)# { PC = PC + 0x01; true }
# 1 M09 1:1:23 PC
% run --elf Q M
register PC : bits(8)
# { PC = Q + 0x01; true }
# 1 M10 1:5:26 Q
% run --elf Q --ram-size 8 --steps 3 N M // files one after another
register PC : bits(8)
#
# 0 == report
stop steps-done
steps 3
console 0
hart 0
PC = 0x03
== end
% synth 1 3 // made of a seed
register PC : bits(8)
# { PC = PC + 0x01; true }
# 0 synth 1 3
accepted 5 functions 18 obligations 5 instances
== report
stop all-rest
steps 4
console 0
hart 0
PC = 0x0000000080000006
A = 0xf3
== end
% run --elf Q --ram-size 8 --steps 3 M // what steps do
register PC : bits(0)
# { true }
# 0 == report
stop steps-done
steps 3
console 0
hart 0
PC = 0b
== end
% run --elf Q M
register PC : bits(129)
# { true }
# 1 M26 1:1:20 129
% run --elf Q --ram-size 8 --steps 3 M
register PC : bits(8) = 0x40
# { PC = PC + 0x01; true }
# 0 == report
stop steps-done
steps 3
console 0
hart 0
PC = 0x43
== end
% run --elf Q --ram-size 8 --steps 3 M
register PC : bits(8)
# true
# 0 == report
stop steps-done
steps 3
console 0
hart 0
PC = 0x00
== end
% run --elf Q M
register PC : bits(8)
# { PC = PC + 0x001; true }
# 1 M20 1:5:29
% run --elf Q --ram-size 8 --steps 3 M
register PC : bits(8)
# { PC = PC - 0x01; true }
# 0 == report
stop steps-done
steps 3
console 0
hart 0
PC = 0xfd
== end
% run --elf Q --ram-size 8 --steps 3 M
register PC : bits(8)
# { PC = 0x01 + PC; true }
# 0 == report
stop steps-done
steps 3
console 0
hart 0
PC = 0x03
== end
% run --elf Q M
register PC : bits(8)
# { PC = PC + 0x01; true; }
# 1 M14 1:5:19 wanted bool found unit
% run --elf Q --ram-size 8 M
register PC : bits(8)
# { PC = PC + 0x01; false }
# 0 == report
stop all-rest
steps 1
console 0
hart 0
PC = 0x01
== end
";
