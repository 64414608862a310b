//! The listing of a program: its instructions, one a line.
ghost use Rattle.std.specs.Prelude.{◌≡◌, ◌≤◌, ◌+◌, ◌++◌, ◌∷◌, [], length, codes};
ghost use Rattle.cerco_base.specs.Outside.IoCalls.{PutsText};
ghost use Rattle.mcs51_isa.specs.Operands.{ind_number, reg_number};
ghost use Rattle.mcs51_isa.specs.Code.OperandLists.{operand_list};
ghost use Rattle.cerco_base.specs.HexDigits.{hex_digit, hex_byte, hex_word};
ghost use Rattle.mcs51_isa.specs.Listing.{line_of, operand_text, operands_text};

use crate::assembly::{Operand, OperandList, operands};
use crate::encoding::encode;
use crate::instr::Instr;
use crate::line::{CAPACITY, Line};
use crate::mnemonics::mnemonic;
use crate::operands::{Ind, Reg};
use crate::targets::relative_target;
use cerco_base::{IoFault, Sink, put_all};

/// Puts the line of an instruction at an address, with its end. A jump's or call's target is its
/// whole address. On a fault a prefix of the line was put.
pub fn list_line<O: Sink>(at: u16, i: Instr, out: &mut O) -> Result<(), IoFault>
    ensures { PutsText (O.state out.old) (O.state out.new) (line_of at i) result }
{
    put_all(out, line(at, i).as_slice())
}

fn line(at: u16, i: Instr) -> Line
    ensures { result ≡ line_of at i }
{
    let (bytes, size) = encode(i);
    let mut line = Line::new();
    line.push_hex_word(at);
    line.push_text(" ");
    line.push_hex_bytes(&bytes[..size as usize]);
    line.push_text(" ");
    line.push_text(mnemonic(i));
    push_operands(&mut line, at.wrapping_add(size as u16), operands(i));
    line.push_text("\n");
    line
}

// Before the operands a line has at most 17 bytes, and they take at most 24.
fn push_operands(line: &mut Line, next: u16, operands: OperandList)
    requires { length line.old ≤ 17 }
    ensures text { line.new ≡ line.old ++ operands_text next (operand_list operands) }
    ensures short { length line.new ≤ 41 }
{
    match operands {
        OperandList::Nothing => {}
        OperandList::One(first) => {
            line.push_text(" ");
            push_operand(line, next, first);
        }
        OperandList::Two(first, second) => {
            line.push_text(" ");
            push_operand(line, next, first);
            line.push_text(",");
            push_operand(line, next, second);
        }
        OperandList::Three(first, second, third) => {
            line.push_text(" ");
            push_operand(line, next, first);
            line.push_text(",");
            push_operand(line, next, second);
            line.push_text(",");
            push_operand(line, next, third);
        }
    }
}

fn push_operand(line: &mut Line, next: u16, operand: Operand)
    requires { length line.old + 7 ≤ CAPACITY }
    ensures text { line.new ≡ line.old ++ operand_text next operand }
    ensures short { length line.new ≤ length line.old + 7 }
{
    match operand {
        Operand::Acc => line.push_text("A"),
        Operand::Ab => line.push_text("AB"),
        Operand::Carry => line.push_text("C"),
        Operand::DataPointer => line.push_text("DPTR"),
        Operand::AtDptr => line.push_text("@DPTR"),
        Operand::AtAccDptr => line.push_text("@A+DPTR"),
        Operand::AtAccPc => line.push_text("@A+PC"),
        Operand::Direct(address) | Operand::Bit(address) => push_byte(line, "", address),
        Operand::NotBit(bit) => push_byte(line, "/", bit),
        Operand::Immediate(value) => push_byte(line, "#", value),
        Operand::ImmediateWord(value) => push_word(line, "#", value),
        Operand::Indirect(ind) => push_indirect(line, ind),
        Operand::Register(reg) => push_register(line, reg),
        Operand::Relative(offset) => push_word(line, "", relative_target(next, offset)),
        Operand::Paged(target) => push_word(line, "", target.target(next)),
        Operand::Absolute(target) => push_word(line, "", target),
    }
}

fn push_byte(line: &mut Line, before: &str, byte: u8)
    requires { length line.old + length before.now + 3 ≤ CAPACITY }
    ensures { line.new ≡ line.old ++ (before.now ++ hex_byte byte ++ codes "H") }
{
    line.push_text(before);
    line.push_hex_byte(byte);
    line.push_text("H");
}

fn push_word(line: &mut Line, before: &str, word: u16)
    requires { length line.old + length before.now + 5 ≤ CAPACITY }
    ensures { line.new ≡ line.old ++ (before.now ++ hex_word word ++ codes "H") }
{
    line.push_text(before);
    line.push_hex_word(word);
    line.push_text("H");
}

fn push_indirect(line: &mut Line, ind: Ind)
    requires { length line.old + 3 ≤ CAPACITY }
    ensures { line.new ≡ line.old ++ (codes "@R" ++ hex_digit (ind_number ind) ∷ []) }
{
    line.push_text("@R");
    line.push_hex_digit(ind.number());
}

fn push_register(line: &mut Line, reg: Reg)
    requires { length line.old + 2 ≤ CAPACITY }
    ensures { line.new ≡ line.old ++ (codes "R" ++ hex_digit (reg_number reg) ∷ []) }
{
    line.push_text("R");
    line.push_hex_digit(reg.number());
}
