//! Layouts of assembly programs: the forms at their bounds, whole rounds of growth, code and labels, and the limit of code memory.

use asm51::{Asm, AsmItem, Form, JumpLayout};
use cerco_base::{Fault, Label, NoMemory, Reason};
use jump_expand::{Object, emit, expand};
use mcs51_isa::{Instr, ReturnKind};
use std::alloc::Global;

// An item, or NOPs.
#[derive(Clone, Copy)]
enum Part {
    Item(AsmItem),
    Nops(u32),
}

const HERE: Part = Part::Item(AsmItem::Here(0, 1));

const OTHER: Part = Part::Item(AsmItem::Here(0, 2));

const JUMP: Part = Part::Item(AsmItem::Jump(0, 1));

const TEST: Part = Part::Item(AsmItem::Test(0, 1));

const JUMP_OTHER: Part = Part::Item(AsmItem::Jump(0, 2));

const ENTER: Part = Part::Item(AsmItem::Enter(0));

const RET: Part = Part::Item(AsmItem::Plain(Instr::Ret(ReturnKind::FromCall)));

// The program of these parts.
fn asm_of(alloc: Global, parts: &[Part]) -> Result<Asm, NoMemory> {
    let mut asm = Asm::new(alloc);
    for &part in parts {
        match part {
            Part::Item(item) => asm.push(item)?,
            Part::Nops(count) => {
                for _ in 0..count {
                    asm.push(AsmItem::Plain(Instr::Nop))?;
                }
            }
        }
    }
    Ok(asm)
}

// A letter for a form.
fn letter(form: Option<Form>) -> u8 {
    match form {
        Some(Form::Short) => b'S',
        Some(Form::Page) => b'P',
        Some(Form::Long) => b'L',
        None => b'-',
    }
}

// The layout of a program with its items.
fn laid_out(alloc: Global, asm: &Asm) -> Option<JumpLayout> {
    if asm.as_slice().len() >= 1 << 28 {
        return None;
    }
    expand(alloc, asm).ok()
}

// The form and the address of an item, the address of a place, and the length of the code.
fn layout_of(
    alloc: Global,
    parts: &[Part],
    item: usize,
    place: usize,
) -> Option<(u8, u32, u32, u32)> {
    let asm = asm_of(alloc, parts).ok()?;
    let layout = laid_out(alloc, &asm)?;
    let addresses = layout.addresses.as_slice();
    let form = *layout.forms.as_slice().get(item)?;
    let at = *addresses.get(item)?;
    let placed = *addresses.get(place)?;
    let end = *addresses.get(asm.as_slice().len())?;
    Some((letter(form), at, placed, end))
}

// The object of a program.
fn object_of(alloc: Global, parts: &[Part]) -> Option<Object> {
    let asm = asm_of(alloc, parts).ok()?;
    if asm.as_slice().len() >= 1 << 28 {
        return None;
    }
    let layout = expand(alloc, &asm).ok()?;
    emit(alloc, &asm, &layout).ok()
}

// Why so many NOPs have no layout.
fn refusal(alloc: Global, count: u32) -> Option<Fault> {
    let asm = asm_of(alloc, &[Part::Nops(count)]).ok()?;
    if asm.as_slice().len() >= 1 << 28 {
        return None;
    }
    expand(alloc, &asm).err()
}

// A jump or test over so many NOPs.
fn over(alloc: Global, jump: Part, count: u32) -> Option<(u8, u32, u32, u32)> {
    let parts = [ENTER, jump, Part::Nops(count), HERE, RET];
    layout_of(alloc, &parts, 1, count as usize + 2)
}

#[test]
fn forms_at_their_bounds(rt: HostRuntime) {
    assert!(rt; matches!(over(rt.alloc(), JUMP, 127), Some((b'S', 0, 129, 130))));
    assert!(rt; matches!(over(rt.alloc(), JUMP, 128), Some((b'P', 0, 130, 131))));
    assert!(rt; matches!(over(rt.alloc(), JUMP, 2045), Some((b'P', 0, 2047, 2048))));
    assert!(rt; matches!(over(rt.alloc(), JUMP, 2046), Some((b'L', 0, 2049, 2050))));
    assert!(rt; matches!(over(rt.alloc(), TEST, 127), Some((b'S', 0, 129, 130))));
    assert!(rt; matches!(over(rt.alloc(), TEST, 128), Some((b'L', 0, 135, 136))));
}

#[test]
fn rounds_are_whole(rt: HostRuntime) {
    let parts = [
        Part::Nops(2040),
        TEST,
        JUMP,
        Part::Nops(2040),
        HERE,
        Part::Nops(2040),
    ];
    assert!(rt;
        matches!(
            layout_of(rt.alloc(), &parts, 2041, 2041),
            Some((b'L', 2047, 2047, 6130))
        )
    );
    let parts = [
        Part::Nops(2044),
        TEST,
        Part::Nops(2044),
        JUMP_OTHER,
        Part::Nops(829),
        HERE,
        Part::Nops(21),
        OTHER,
    ];
    assert!(rt;
        matches!(
            layout_of(rt.alloc(), &parts, 4089, 4089),
            Some((b'L', 4095, 4095, 4948))
        )
    );
}

#[test]
fn code_and_labels(rt: HostRuntime) {
    let parts = [
        Part::Item(AsmItem::Enter(7)),
        Part::Item(AsmItem::Mark(Label(1))),
        Part::Nops(1),
        TEST,
        Part::Item(AsmItem::Mark(Label(0))),
        Part::Nops(1),
        Part::Item(AsmItem::Call(7)),
        HERE,
        JUMP,
        RET,
    ];
    let found = object_of(rt.alloc(), &parts);
    assert!(rt; found.is_some());
    if let Some(object) = found {
        assert!(rt;
            object.code.as_slice()
                == [0x00, 0x70, 0x04, 0x00, 0x12, 0x00, 0x00, 0x80, 0xFE, 0x22].as_slice()
        );
        assert!(rt; object.labels.as_slice() == [3, 0].as_slice());
    }
}

#[test]
fn code_memory_has_65536_bytes(rt: HostRuntime) {
    assert!(rt; refusal(rt.alloc(), 65536).is_none());
    let full = refusal(rt.alloc(), 65537);
    assert!(rt; matches!(full, Some(Fault::Refused(Reason::CodeFull { len: 65537 }))));
}

#[test]
fn a_page_jump_and_a_far_test_have_their_bytes(rt: HostRuntime) {
    let parts = [HERE, JUMP_OTHER, Part::Nops(256), OTHER, JUMP, TEST];
    let found = object_of(rt.alloc(), &parts);
    assert!(rt; found.is_some());
    if let Some(object) = found {
        let code = object.code.as_slice();
        assert!(rt; code.get(..2) == Some([0x21, 0x02].as_slice()));
        assert!(rt;
            code.get(258..)
                == Some([0x01, 0x00, 0x70, 0x02, 0x80, 0x03, 0x02, 0x00, 0x00].as_slice())
        );
    }
}
