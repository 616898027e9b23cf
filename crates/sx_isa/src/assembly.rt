//! Instructions as TI's guide writes them, the source before the destination, for code that writes
//! some out. `specs/Assembly.antt` has the same names.

use crate::instruction::Operand;

/// R0, the program counter.
pub const PC: Operand = Operand::Reg(0);

/// R1, the stack pointer.
pub const SP: Operand = Operand::Reg(1);

/// R2, the status register.
pub const SR: Operand = Operand::Reg(2);

/// The general register R4.
pub const R4: Operand = Operand::Reg(4);

/// The general register R5.
pub const R5: Operand = Operand::Reg(5);

/// The general register R6.
pub const R6: Operand = Operand::Reg(6);

/// The general register R7.
pub const R7: Operand = Operand::Reg(7);

/// The general register R8.
pub const R8: Operand = Operand::Reg(8);

/// The general register R9.
pub const R9: Operand = Operand::Reg(9);

/// The general register R10.
pub const R10: Operand = Operand::Reg(10);

/// The general register R11.
pub const R11: Operand = Operand::Reg(11);

/// The general register R12.
pub const R12: Operand = Operand::Reg(12);

/// The general register R13.
pub const R13: Operand = Operand::Reg(13);

/// The general register R14.
pub const R14: Operand = Operand::Reg(14);

/// The general register R15.
pub const R15: Operand = Operand::Reg(15);

/// `@SP+`.
pub const POPPED: Operand = Operand::Increment(1);

/// `0(SP)`.
pub const TOP: Operand = Operand::Indexed(1, 0);

/// One instruction by its mnemonic in the guide, as `instruction!(mov R12, TOP)`. A jump takes its
/// offset in words from the word after it.
#[macro_export]
macro_rules! instruction {
    (mov $s:expr, $d:expr) => {
        $crate::Instr::Two {
            op: $crate::Op2::Mov,
            byte: false,
            src: $s,
            dst: $d,
        }
    };
    (mov_b $s:expr, $d:expr) => {
        $crate::Instr::Two {
            op: $crate::Op2::Mov,
            byte: true,
            src: $s,
            dst: $d,
        }
    };
    (add $s:expr, $d:expr) => {
        $crate::Instr::Two {
            op: $crate::Op2::Add,
            byte: false,
            src: $s,
            dst: $d,
        }
    };
    (sub $s:expr, $d:expr) => {
        $crate::Instr::Two {
            op: $crate::Op2::Sub,
            byte: false,
            src: $s,
            dst: $d,
        }
    };
    (cmp $s:expr, $d:expr) => {
        $crate::Instr::Two {
            op: $crate::Op2::Cmp,
            byte: false,
            src: $s,
            dst: $d,
        }
    };
    (bis $s:expr, $d:expr) => {
        $crate::Instr::Two {
            op: $crate::Op2::Bis,
            byte: false,
            src: $s,
            dst: $d,
        }
    };
    (xor $s:expr, $d:expr) => {
        $crate::Instr::Two {
            op: $crate::Op2::Xor,
            byte: false,
            src: $s,
            dst: $d,
        }
    };
    (and $s:expr, $d:expr) => {
        $crate::Instr::Two {
            op: $crate::Op2::And,
            byte: false,
            src: $s,
            dst: $d,
        }
    };
    (push $s:expr) => {
        $crate::Instr::One {
            op: $crate::Op1::Push,
            byte: false,
            arg: $s,
        }
    };
    (call $s:expr) => {
        $crate::Instr::One {
            op: $crate::Op1::Call,
            byte: false,
            arg: $s,
        }
    };
    (pop $d:expr) => {
        $crate::instruction!(mov $crate::Operand::Increment(1), $d)
    };
    (ret) => {
        $crate::instruction!(pop $crate::assembly::PC)
    };
    (br $s:expr) => {
        $crate::instruction!(mov $s, $crate::assembly::PC)
    };
    (clr $d:expr) => {
        $crate::instruction!(mov $crate::Operand::Const(0), $d)
    };
    (tst $d:expr) => {
        $crate::instruction!(cmp $crate::Operand::Const(0), $d)
    };
    (inc $d:expr) => {
        $crate::instruction!(add $crate::Operand::Const(1), $d)
    };
    (incd $d:expr) => {
        $crate::instruction!(add $crate::Operand::Const(2), $d)
    };
    (dec $d:expr) => {
        $crate::instruction!(sub $crate::Operand::Const(1), $d)
    };
    (rla $d:expr) => {
        $crate::instruction!(add $d, $d)
    };
    (jnz $n:expr) => {
        $crate::Instr::Jump {
            cond: 0,
            offset: $n,
        }
    };
    (jz $n:expr) => {
        $crate::Instr::Jump {
            cond: 1,
            offset: $n,
        }
    };
    (jnc $n:expr) => {
        $crate::Instr::Jump {
            cond: 2,
            offset: $n,
        }
    };
    (jc $n:expr) => {
        $crate::Instr::Jump {
            cond: 3,
            offset: $n,
        }
    };
    (jge $n:expr) => {
        $crate::Instr::Jump {
            cond: 5,
            offset: $n,
        }
    };
    (jmp $n:expr) => {
        $crate::Instr::Jump {
            cond: 7,
            offset: $n,
        }
    };
    (wrap) => {
        $crate::Instr::Sancus(4)
    };
    (unwrap) => {
        $crate::Instr::Sancus(5)
    };
}
