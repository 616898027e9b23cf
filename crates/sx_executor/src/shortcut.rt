//! Shortcuts: what is kept of an instruction that code runs often, in eight bytes.
//!
//! Jumps have one, and so have the operations that compiled code is made of: from registers,
//! constants and places in memory onto registers and such places, on words and on bytes, pushes,
//! calls and returns. An instruction is of its form, and is no module instruction, by facts that the
//! shortcut carries, so nothing else has to be believed of what is kept.

ghost use Rattle.std.specs.Prelude.{◌≡◌, ℕ, true, false, Some, IfSome};
ghost use Rattle.std.proofs.Props.{props};
ghost use Rattle.sx_isa.specs.declared.instruction.Instr.TheVariants.{Jump, One, Two};
ghost use Rattle.sx_isa.specs.declared.instruction.Op2.TheVariants.{Add};
ghost use Rattle.sx_isa.specs.declared.instruction.Operand.TheVariants.{Reg, Const, Increment};
ghost use Rattle.sx_isa.specs.declared.instruction.Operand.TheVariants.{Immediate, Absolute};
ghost use Rattle.sx_isa.specs.declared.instruction.Operand.TheVariants.{Indexed};
ghost use Rattle.sx_isa.specs.Reading.{instruction_at};
ghost use Rattle.sx_isa.specs.Extending.{extended};
ghost use Rattle.spec_machine.specs.Step.{is_module_word};
ghost use Rattle.sx_executor.specs.Reads.{IsDecoded};
ghost use Rattle.sx_executor.specs.Shortcuts.{instruction_of, words_of, is_general, is_fit};
ghost use Rattle.sx_executor.specs.Shortcuts.{double_of, triple_of, IsForm, IsByteDouble};

use sx_isa::{Instr, Op1, Op2, Operand};

/// A form of instruction: what it does, without its extension words. The jumps are told apart here,
/// so that none asks for its condition.
#[derive(Clone, Copy)]
pub enum Form {
    JumpNotEqual { offset: i16 },
    JumpEqual { offset: i16 },
    JumpNoCarry { offset: i16 },
    JumpCarry { offset: i16 },
    JumpNegative { offset: i16 },
    JumpGreater { offset: i16 },
    JumpLess { offset: i16 },
    JumpAlways { offset: i16 },
    /// From a register onto a general register.
    Registers { op: Op2, src: u8, dst: u8 },
    /// The sum of a general register and a constant. This and the next two are told apart, so that
    /// none asks for its operation.
    AddConstant { value: u16, dst: u8 },
    /// A constant taken from a general register.
    SubtractConstant { value: u16, dst: u8 },
    /// A general register compared with a constant.
    CompareConstant { value: u16, dst: u8 },
    /// Another operation from a constant onto a general register.
    Constant { op: Op2, value: u16, dst: u8 },
    /// From a constant onto memory at a register plus the extension word.
    OntoIndexed { op: Op2, value: u16, base: u8 },
    /// From a constant onto memory at the extension word's address plus the extension word.
    OntoSymbolic { op: Op2, value: u16 },
    /// From a constant onto memory at the extension word.
    OntoAbsolute { op: Op2, value: u16 },
    /// The sum of a general register and memory at the extension word. This and the next ask for no
    /// operation either.
    AddAbsolute { dst: u8 },
    /// The sum of a general register and memory at a register plus the extension word.
    AddIndexed { base: u8, dst: u8 },
    /// Another one without an extension word.
    Single(Single),
    /// Another one with one extension word.
    Double(Double),
    /// One with two extension words.
    Triple(Triple),
    /// From a constant onto PC, SP, SR or R3.
    ConstantOntoSpecial { op: Op2, value: u16, dst: u8 },
    /// From a constant onto a general register, on bytes.
    ByteConstant { op: Op2, value: u16, dst: u8 },
    /// From a constant onto memory at a register plus the extension word, on bytes.
    ByteOntoIndexed { op: Op2, value: u16, base: u8 },
    /// From a constant onto memory at the extension word, on bytes.
    ByteOntoAbsolute { op: Op2, value: u16 },
    /// Another one on bytes without an extension word.
    ByteSingle(ByteSingle),
    /// Another one on bytes with one extension word.
    ByteDouble(ByteDouble),
}

/// A form of instruction without an extension word, on words.
#[derive(Clone, Copy)]
pub enum Single {
    /// From a register onto PC, SP, SR or R3.
    OntoSpecial { op: Op2, src: u8, dst: u8 },
    /// From memory at a register, which goes on, onto a register.
    FromIncrement { op: Op2, src: u8, dst: u8 },
    /// From memory at a register onto a register.
    FromIndirect { op: Op2, src: u8, dst: u8 },
    /// One operand, which is a register.
    OnRegister { op: Op1, arg: u8 },
    /// One operand, which is a constant.
    OnConstant { op: Op1, value: u16 },
}

/// A form of instruction with one extension word, `x`, on words if it doesn't say bytes.
#[derive(Clone, Copy)]
pub enum Double {
    /// From the value `x` onto a register.
    FromImmediate { op: Op2, dst: u8 },
    /// From memory at `x` onto a register.
    FromAbsolute { op: Op2, dst: u8 },
    /// From memory at a register plus `x` onto a register.
    FromIndexed { op: Op2, base: u8, dst: u8 },
    /// From a register onto memory at `x`.
    RegisterOntoAbsolute { op: Op2, src: u8 },
    /// From a register onto memory at a register plus `x`.
    RegisterOntoIndexed { op: Op2, src: u8, base: u8 },
    /// From memory at a register, which goes on, onto memory at `x`.
    IncrementOntoAbsolute { op: Op2, src: u8 },
    /// From memory at a register, which goes on, onto memory at a register plus `x`.
    IncrementOntoIndexed { op: Op2, src: u8, base: u8 },
    /// The same on bytes.
    BytesOntoIndexed { op: Op2, src: u8, base: u8 },
    /// One operand, which is the value `x`.
    OnImmediate { op: Op1 },
    /// One operand, in memory at `x`.
    OnAbsolute { op: Op1 },
    /// One operand, in memory at a register plus `x`.
    OnIndexed { op: Op1, base: u8 },
}

/// A form of instruction with two extension words, `x` and `z`, on words.
#[derive(Clone, Copy)]
pub enum Triple {
    /// From the value `x` onto memory at `z`.
    ImmediateOntoAbsolute { op: Op2 },
    /// From the value `x` onto memory at a register plus `z`.
    ImmediateOntoIndexed { op: Op2, base: u8 },
    /// From memory at `x` onto memory at `z`.
    AbsoluteOntoAbsolute { op: Op2 },
    /// From memory at `x` onto memory at a register plus `z`.
    AbsoluteOntoIndexed { op: Op2, base: u8 },
    /// From memory at a register plus `x` onto memory at `z`.
    IndexedOntoAbsolute { op: Op2, base: u8 },
    /// From memory at a register plus `x` onto memory at a register plus `z`.
    IndexedOntoIndexed { op: Op2, from: u8, base: u8 },
}

/// A form of instruction without an extension word, on bytes.
#[derive(Clone, Copy)]
pub enum ByteSingle {
    /// From a register onto a general register.
    Registers { op: Op2, src: u8, dst: u8 },
    /// From memory at a register, which goes on, onto a general register.
    FromIncrement { op: Op2, src: u8, dst: u8 },
    /// From memory at a register onto a general register.
    FromIndirect { op: Op2, src: u8, dst: u8 },
    /// One operand, which is a register.
    OnRegister { op: Op1, arg: u8 },
}

/// A form of instruction with one extension word, `x`, on bytes.
#[derive(Clone, Copy)]
pub enum ByteDouble {
    /// From the value `x` onto a general register.
    FromImmediate { op: Op2, dst: u8 },
    /// From memory at `x` onto a general register.
    FromAbsolute { op: Op2, dst: u8 },
    /// From memory at a register plus `x` onto a general register.
    FromIndexed { op: Op2, base: u8, dst: u8 },
    /// From a register onto memory at `x`.
    OntoAbsolute { op: Op2, src: u8 },
    /// From a register onto memory at a register plus `x`.
    OntoIndexed { op: Op2, src: u8, base: u8 },
}

/// From here up to the first jump are the words of the module instructions and those that no
/// instruction has.
const FIRST_MODULE_WORD: u16 = 0x1380;

const FIRST_JUMP: u16 = 0x2000;

/// A first word with its form.
#[derive(Clone, Copy)]
pub struct Shortcut {
    pub first: u16,
    pub form: Form,
    pub ghost read: { IsDecoded first (instruction_of form) (words_of form) } by { Prim.hlevel props },
    pub ghost fit: { is_fit form ≡ true } by { Prim.hlevel props },
    pub ghost plain: { is_module_word first ≡ false } by { Prim.hlevel props },
}

/// The form of a jump.
fn jump_form(cond: u8, offset: i16) -> Option<Form>
    ensures { IfSome result (λ form. IsForm form (Jump cond offset) 1) }
{
    match cond {
        0 => Some(Form::JumpNotEqual { offset }),
        1 => Some(Form::JumpEqual { offset }),
        2 => Some(Form::JumpNoCarry { offset }),
        3 => Some(Form::JumpCarry { offset }),
        4 => Some(Form::JumpNegative { offset }),
        5 => Some(Form::JumpGreater { offset }),
        6 => Some(Form::JumpLess { offset }),
        7 => Some(Form::JumpAlways { offset }),
        _ => None,
    }
}

/// Whether a register keeps all of what is written to it.
#[inline(always)]
pub fn is_general(r: u8) -> bool
    ensures { result ≡ is_general r }
{
    r >= 4 && r < 16
}

/// The form of an operation from a register or a constant onto any register.
fn special_form(op: Op2, src: Operand, dst: u8) -> Option<Form>
    ensures { IfSome result (λ form. IsForm form (Two op false src (Reg dst)) 1) }
{
    match src {
        Operand::Reg(src) => Some(Form::Single(Single::OntoSpecial { op, src, dst })),
        Operand::Const(value) => Some(Form::ConstantOntoSpecial { op, value, dst }),
        _ => None,
    }
}

/// The form of an operation from a constant onto a general register.
fn constant_form(op: Op2, value: u16, dst: u8) -> Form
    requires { is_general dst ≡ true }
    ensures { IsForm result (Two op false (Const value) (Reg dst)) 1 }
{
    match op {
        Op2::Add => Form::AddConstant { value, dst },
        Op2::Sub => Form::SubtractConstant { value, dst },
        Op2::Cmp => Form::CompareConstant { value, dst },
        _ => Form::Constant { op, value, dst },
    }
}

/// The form of an operation from a register or a constant onto a register.
fn general_form(op: Op2, src: Operand, dst: u8) -> Option<Form>
    ensures { IfSome result (λ form. IsForm form (Two op false src (Reg dst)) 1) }
{
    if !is_general(dst) {
        return special_form(op, src, dst);
    }
    match src {
        Operand::Reg(src) => Some(Form::Registers { op, src, dst }),
        Operand::Const(value) => Some(constant_form(op, value, dst)),
        _ => None,
    }
}

/// The form of an operation on words of one word: onto a register.
fn register_form(op: Op2, src: Operand, dst: u8) -> Option<Form>
    ensures { IfSome result (λ form. IsForm form (Two op false src (Reg dst)) 1) }
{
    match src {
        Operand::Increment(src) => Some(Form::Single(Single::FromIncrement { op, src, dst })),
        Operand::Indirect(src) => Some(Form::Single(Single::FromIndirect { op, src, dst })),
        _ => general_form(op, src, dst),
    }
}

/// The form of an operation on bytes of one word: onto a general register. Few are onto another
/// one, and these have no form.
fn byte_register_form(op: Op2, src: Operand, dst: u8) -> Option<Form>
    ensures { IfSome result (λ form. IsForm form (Two op true src (Reg dst)) 1) }
{
    if !is_general(dst) {
        return None;
    }
    match src {
        Operand::Reg(src) => Some(Form::ByteSingle(ByteSingle::Registers { op, src, dst })),
        Operand::Const(value) => Some(Form::ByteConstant { op, value, dst }),
        Operand::Increment(src) => {
            Some(Form::ByteSingle(ByteSingle::FromIncrement { op, src, dst }))
        }
        Operand::Indirect(src) => Some(Form::ByteSingle(ByteSingle::FromIndirect { op, src, dst })),
        _ => None,
    }
}

/// The form of an operation on bytes with one operand of one word: a register.
fn byte_operand_form(op: Op1, arg: Operand) -> Option<Form>
    ensures { IfSome result (λ form. IsForm form (One op true arg) 1) }
{
    match arg {
        Operand::Reg(arg) => Some(Form::ByteSingle(ByteSingle::OnRegister { op, arg })),
        _ => None,
    }
}

/// The form of an operation with one operand of one word.
fn operand_form(op: Op1, arg: Operand) -> Option<Form>
    ensures { IfSome result (λ form. IsForm form (One op false arg) 1) }
{
    match arg {
        Operand::Reg(arg) => Some(Form::Single(Single::OnRegister { op, arg })),
        Operand::Const(value) => Some(Form::Single(Single::OnConstant { op, value })),
        _ => None,
    }
}

/// The form of an operation on words from a constant onto memory.
fn memory_form(op: Op2, value: u16, dst: Operand) -> Option<Form>
    ensures { IfSome result (λ form. IsForm form (Two op false (Const value) dst) 2) }
{
    match dst {
        Operand::Indexed(base, 0) => Some(Form::OntoIndexed { op, value, base }),
        Operand::Symbolic(0) => Some(Form::OntoSymbolic { op, value }),
        Operand::Absolute(0) => Some(Form::OntoAbsolute { op, value }),
        _ => None,
    }
}

/// The same on bytes.
fn byte_memory_form(op: Op2, value: u16, dst: Operand) -> Option<Form>
    ensures { IfSome result (λ form. IsForm form (Two op true (Const value) dst) 2) }
{
    match dst {
        Operand::Indexed(base, 0) => Some(Form::ByteOntoIndexed { op, value, base }),
        Operand::Absolute(0) => Some(Form::ByteOntoAbsolute { op, value }),
        _ => None,
    }
}

/// The form of an operation on words of two words whose source has the extension word.
fn source_form(op: Op2, src: Operand, dst: u8) -> Option<Double>
    ensures { IfSome result (λ form. double_of form ≡ Two op false src (Reg dst)) }
{
    match src {
        Operand::Immediate(0) => Some(Double::FromImmediate { op, dst }),
        Operand::Absolute(0) => Some(Double::FromAbsolute { op, dst }),
        Operand::Indexed(base, 0) => Some(Double::FromIndexed { op, base, dst }),
        _ => None,
    }
}

/// The form of an ADD of two words onto a general register.
fn sum_form(src: Operand, dst: u8) -> Option<Form>
    requires { is_general dst ≡ true }
    ensures { IfSome result (λ form. IsForm form (Two Add false src (Reg dst)) 2) }
{
    match src {
        Operand::Absolute(0) => Some(Form::AddAbsolute { dst }),
        Operand::Indexed(base, 0) => Some(Form::AddIndexed { base, dst }),
        _ => {
            let double = source_form(Op2::Add, src, dst)?;
            Some(Form::Double(double))
        }
    }
}

/// The form of an operation on words from a register onto memory.
fn stored_form(op: Op2, src: u8, dst: Operand) -> Option<Double>
    ensures { IfSome result (λ form. double_of form ≡ Two op false (Reg src) dst) }
{
    match dst {
        Operand::Absolute(0) => Some(Double::RegisterOntoAbsolute { op, src }),
        Operand::Indexed(base, 0) => Some(Double::RegisterOntoIndexed { op, src, base }),
        _ => None,
    }
}

/// The form of an operation on words from memory at a register, which goes on, onto memory.
fn moved_form(op: Op2, src: u8, dst: Operand) -> Option<Double>
    ensures { IfSome result (λ form. double_of form ≡ Two op false (Increment src) dst) }
{
    match dst {
        Operand::Absolute(0) => Some(Double::IncrementOntoAbsolute { op, src }),
        Operand::Indexed(base, 0) => Some(Double::IncrementOntoIndexed { op, src, base }),
        _ => None,
    }
}

/// The form of an operation on words of two words, not from a constant.
fn double_form(op: Op2, src: Operand, dst: Operand) -> Option<Double>
    ensures { IfSome result (λ form. double_of form ≡ Two op false src dst) }
{
    match (src, dst) {
        (Operand::Reg(src), dst) => stored_form(op, src, dst),
        (Operand::Increment(src), dst) => moved_form(op, src, dst),
        (src, Operand::Reg(dst)) => source_form(op, src, dst),
        _ => None,
    }
}

/// The form of an operation on bytes of two words whose source has the extension word.
fn byte_source_form(op: Op2, src: Operand, dst: u8) -> Option<ByteDouble>
    ensures { IfSome result (λ form. IsByteDouble form (Two op true src (Reg dst))) }
{
    if !is_general(dst) {
        return None;
    }
    match src {
        Operand::Immediate(0) => Some(ByteDouble::FromImmediate { op, dst }),
        Operand::Absolute(0) => Some(ByteDouble::FromAbsolute { op, dst }),
        Operand::Indexed(base, 0) => Some(ByteDouble::FromIndexed { op, base, dst }),
        _ => None,
    }
}

/// The form of an operation on bytes from a register onto memory.
fn byte_stored_form(op: Op2, src: u8, dst: Operand) -> Option<ByteDouble>
    ensures { IfSome result (λ form. IsByteDouble form (Two op true (Reg src) dst)) }
{
    match dst {
        Operand::Absolute(0) => Some(ByteDouble::OntoAbsolute { op, src }),
        Operand::Indexed(base, 0) => Some(ByteDouble::OntoIndexed { op, src, base }),
        _ => None,
    }
}

/// The form of an operation on bytes of two words, not from a constant.
fn byte_double_form(op: Op2, src: Operand, dst: Operand) -> Option<ByteDouble>
    ensures { IfSome result (λ form. IsByteDouble form (Two op true src dst)) }
{
    match (src, dst) {
        (Operand::Reg(src), dst) => byte_stored_form(op, src, dst),
        (src, Operand::Reg(dst)) => byte_source_form(op, src, dst),
        _ => None,
    }
}

/// The form of an operation on bytes of two words.
fn byte_extended_form(op: Op2, src: Operand, dst: Operand) -> Option<Form>
    ensures { IfSome result (λ form. IsForm form (Two op true src dst) 2) }
{
    match (src, dst) {
        (Operand::Const(value), dst) => byte_memory_form(op, value, dst),
        (Operand::Increment(src), Operand::Indexed(base, 0)) => {
            Some(Form::Double(Double::BytesOntoIndexed { op, src, base }))
        }
        (src, dst) => {
            let double = byte_double_form(op, src, dst)?;
            Some(Form::ByteDouble(double))
        }
    }
}

/// The form of an operation with one operand of two words.
fn extended_form(op: Op1, arg: Operand) -> Option<Double>
    ensures { IfSome result (λ form. double_of form ≡ One op false arg) }
{
    match arg {
        Operand::Immediate(0) => Some(Double::OnImmediate { op }),
        Operand::Absolute(0) => Some(Double::OnAbsolute { op }),
        Operand::Indexed(base, 0) => Some(Double::OnIndexed { op, base }),
        _ => None,
    }
}

/// The form of an instruction of one word, if it has one.
fn form_of_one(instruction: Instr) -> Option<Form>
    ensures { IfSome result (λ form. IsForm form instruction 1) }
{
    match instruction {
        Instr::Jump { cond, offset } => jump_form(cond, offset),
        Instr::Two {
            op,
            byte: false,
            src,
            dst: Operand::Reg(dst),
        } => register_form(op, src, dst),
        Instr::Two {
            op,
            byte: true,
            src,
            dst: Operand::Reg(dst),
        } => byte_register_form(op, src, dst),
        Instr::One {
            op,
            byte: false,
            arg,
        } => operand_form(op, arg),
        Instr::One {
            op,
            byte: true,
            arg,
        } => byte_operand_form(op, arg),
        _ => None,
    }
}

/// The form of an instruction on words of two words that isn't from a constant, if it has one.
fn double_of(instruction: Instr) -> Option<Double>
    ensures { IfSome result (λ form. double_of form ≡ instruction) }
{
    match instruction {
        Instr::Two {
            op,
            byte: false,
            src,
            dst,
        } => double_form(op, src, dst),
        Instr::One {
            op,
            byte: false,
            arg,
        } => extended_form(op, arg),
        _ => None,
    }
}

/// The form of an instruction of two words, if it has one.
fn form_of_two(instruction: Instr) -> Option<Form>
    ensures { IfSome result (λ form. IsForm form instruction 2) }
{
    match instruction {
        Instr::Two {
            op,
            byte: false,
            src: Operand::Const(value),
            dst,
        } => memory_form(op, value, dst),
        Instr::Two {
            op: Op2::Add,
            byte: false,
            src,
            dst: Operand::Reg(dst),
        } if is_general(dst) => sum_form(src, dst),
        Instr::Two {
            op,
            byte: true,
            src,
            dst,
        } => byte_extended_form(op, src, dst),
        _ => {
            let double = double_of(instruction)?;
            Some(Form::Double(double))
        }
    }
}

/// The form of an operation on words from a value onto memory.
fn immediate_form(op: Op2, dst: Operand) -> Option<Triple>
    ensures { IfSome result (λ form. triple_of form ≡ Two op false (Immediate 0) dst) }
{
    match dst {
        Operand::Absolute(0) => Some(Triple::ImmediateOntoAbsolute { op }),
        Operand::Indexed(base, 0) => Some(Triple::ImmediateOntoIndexed { op, base }),
        _ => None,
    }
}

/// The form of an operation on words from memory at an address onto memory.
fn absolute_form(op: Op2, dst: Operand) -> Option<Triple>
    ensures { IfSome result (λ form. triple_of form ≡ Two op false (Absolute 0) dst) }
{
    match dst {
        Operand::Absolute(0) => Some(Triple::AbsoluteOntoAbsolute { op }),
        Operand::Indexed(base, 0) => Some(Triple::AbsoluteOntoIndexed { op, base }),
        _ => None,
    }
}

/// The form of an operation on words from memory at a register plus a word onto memory.
fn indexed_form(op: Op2, from: u8, dst: Operand) -> Option<Triple>
    ensures { IfSome result (λ form. triple_of form ≡ Two op false (Indexed from 0) dst) }
{
    match dst {
        Operand::Absolute(0) => Some(Triple::IndexedOntoAbsolute { op, base: from }),
        Operand::Indexed(base, 0) => Some(Triple::IndexedOntoIndexed { op, from, base }),
        _ => None,
    }
}

/// The form of an operation on words of three words.
fn triple_form(op: Op2, src: Operand, dst: Operand) -> Option<Triple>
    ensures { IfSome result (λ form. triple_of form ≡ Two op false src dst) }
{
    match src {
        Operand::Immediate(0) => immediate_form(op, dst),
        Operand::Absolute(0) => absolute_form(op, dst),
        Operand::Indexed(base, 0) => indexed_form(op, base, dst),
        _ => None,
    }
}

/// The form of an instruction of three words, if it has one.
fn form_of_three(instruction: Instr) -> Option<Form>
    ensures { IfSome result (λ form. IsForm form instruction 3) }
{
    let Instr::Two {
        op,
        byte: false,
        src,
        dst,
    } = instruction
    else {
        return None;
    };
    let triple = triple_form(op, src, dst)?;
    Some(Form::Triple(triple))
}

/// The form of an instruction of so many words, if it has one.
fn form_of(instruction: Instr, words: u8) -> Option<Form>
    ensures { IfSome result (λ form. IsForm form instruction words) }
{
    match words {
        1 => form_of_one(instruction),
        2 => form_of_two(instruction),
        3 => form_of_three(instruction),
        _ => None,
    }
}

impl Shortcut {
    /// The shortcut of a first word that was decoded as this instruction of so many words, if it
    /// has one.
    pub(crate) fn new(first: u16, instruction: Instr, words: u8) -> Option<Shortcut>
        requires { IsDecoded first instruction words }
    {
        if first >= FIRST_MODULE_WORD && first < FIRST_JUMP {
            return None;
        }
        let form = form_of(instruction, words)?;
        Some(Shortcut { first, form })
    }

    /// A jump to itself: what is where nothing was kept yet.
    pub(crate) fn idle() -> Shortcut {
        Shortcut {
            first: 0x3fff,
            form: Form::JumpAlways { offset: -1 },
        }
    }

    /// The first word is that of its form's instruction with any extension words. Those past its
    /// own don't matter.
    pub fn reads_on(&self)
        ensures { (second third : ℕ) → instruction_at self.now.first second third ≡ Some (record {
          0 = extended (instruction_of self.now.form) second third;
          1 = words_of self.now.form;
        }) }
    {}
}
