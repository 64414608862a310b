//! The code of a layout and the addresses of its labels.
ghost use Rattle.std.specs.Prelude.{◌≡◌, ℕ, ◌+◌, ◌%◌, ◌<◌, ◌≤◌, ◌^◌, ◌++◌, [], ◌∷◌, IfOk, OnOk, replicate};
ghost use Rattle.mcs51_isa.specs.declared.instr.Instr.TheVariants as Instr;
ghost use Rattle.mcs51_isa.specs.declared.instr.LongJump.TheVariants as LongJump;
ghost use Rattle.mcs51_isa.specs.declared.instr.FlagTest.TheVariants as FlagTest;
ghost use Rattle.mcs51_isa.specs.Offsets.{offset_to as offset_to_of};
ghost use Rattle.sim51.specs.Placed.{code_of_instrs};
ghost use Rattle.asm51.specs.Items.{mark_count};
ghost use Rattle.asm51.specs.Instructions.{instructions};
ghost use Rattle.asm51.specs.Emission.{code_of, labels_of};
ghost use Rattle.asm51.specs.JumpLayouts.{IsLayoutOf};

use asm51::{Asm, AsmItem, Form, JumpLayout};
use cerco_base::{Code, LabelList, NoMemory};
use mcs51_isa::{Addr11, FlagTest, Instr, LongJump, encode};
use std::alloc::Global;

/// An object: code from address 0 on, and the address of each label.
#[derive(Drop)]
pub struct Object {
    /// The code.
    pub code: Code,
    /// The address of each label, by its number.
    pub labels: LabelList,
}

// The operand that leads from an item of two bytes to a target.
fn offset_to(at: u32, target: u16) -> u8
    requires { at < 2 ^ 31 }
    ensures { result ≡ offset_to_of (at + 2) target }
{
    ((target as u32 + 65536).saturating_sub(at + 2) % 256) as u8
}

// An address as the machine has it: past the end of code memory addresses begin at 0 again.
fn word(address: u32) -> u16
    ensures { result ≡ address % 65536 }
{
    (address % 65536) as u16
}

fn push_instr(code: &mut Code, instr: Instr) -> Result<(), NoMemory>
    ensures { OnOk result (code.new ≡ code.old ++ code_of_instrs (instr ∷ [])) }
{
    let (bytes, size) = encode(instr);
    code.push_all(&bytes[..size as usize])
}

fn push_jump(code: &mut Code, form: Option<Form>, at: u32, target: u16) -> Result<(), NoMemory>
    requires { at < 2 ^ 31 }
    ensures { (f n : ℕ) → OnOk result (code.new ≡ code.old ++ code_of_instrs (instructions at target (AsmItem.Jump f n) form)) }
{
    match form {
        Some(Form::Short) => push_instr(code, Instr::Sjmp(offset_to(at, target))),
        Some(Form::Page) => push_instr(code, Instr::Ajmp(Addr11::of(target))),
        Some(Form::Long) => push_instr(code, Instr::Long(LongJump::Ljmp, target)),
        None => push_instr(code, Instr::Long(LongJump::Ljmp, target)),
    }
}

// The JNZ leads to the LJMP, over an SJMP to what comes next.
fn push_far_test(code: &mut Code, target: u16) -> Result<(), NoMemory>
    ensures { OnOk result (code.new ≡ code.old ++ code_of_instrs (Instr.BranchFlag FlagTest.Jnz 2 ∷ Instr.Sjmp 3 ∷ Instr.Long LongJump.Ljmp target ∷ [])) }
{
    push_instr(code, Instr::BranchFlag(FlagTest::Jnz, 2))?;
    push_instr(code, Instr::Sjmp(3))?;
    push_instr(code, Instr::Long(LongJump::Ljmp, target))
}

fn push_test(code: &mut Code, form: Option<Form>, at: u32, target: u16) -> Result<(), NoMemory>
    requires { at < 2 ^ 31 }
    ensures { (f n : ℕ) → OnOk result (code.new ≡ code.old ++ code_of_instrs (instructions at target (AsmItem.Test f n) form)) }
{
    match form {
        Some(Form::Short) => push_instr(
            code,
            Instr::BranchFlag(FlagTest::Jnz, offset_to(at, target)),
        ),
        Some(Form::Page) => push_far_test(code, target),
        Some(Form::Long) => push_far_test(code, target),
        None => push_far_test(code, target),
    }
}

// The instructions of an item that stands at an address and leads to a target.
fn push_item(
    code: &mut Code,
    item: AsmItem,
    form: Option<Form>,
    at: u32,
    target: u16,
) -> Result<(), NoMemory>
    requires { at < 2 ^ 31 }
    ensures { OnOk result (code.new ≡ code.old ++ code_of_instrs (instructions at target item form)) }
{
    match item {
        AsmItem::Plain(instr) => push_instr(code, instr),
        AsmItem::Jump(_, _) => push_jump(code, form, at, target),
        AsmItem::Test(_, _) => push_test(code, form, at, target),
        AsmItem::Call(_) => push_instr(code, Instr::Long(LongJump::Lcall, target)),
        AsmItem::Mark(_) => Ok(()),
        AsmItem::Enter(_) => Ok(()),
        AsmItem::Here(_, _) => Ok(()),
    }
}

fn emit_code(alloc: Global, items: &[AsmItem], layout: &JumpLayout) -> Result<Code, NoMemory>
    requires { IsLayoutOf items.now layout.now }
    ensures { IfOk result (λ code. code ≡ code_of items.now layout.now.forms) }
{
    let forms = layout.forms.as_slice();
    let addresses = layout.addresses.as_slice();
    let targets = layout.targets.as_slice();
    let mut code = Code::new(alloc);
    for k in 0..items.len() {
        let target = word(addresses[targets[k] as usize]);
        push_item(&mut code, items[k], forms[k], addresses[k], target)?;
    }
    Ok(code)
}

// How many labels there are.
fn count_marks(items: &[AsmItem]) -> usize
    ensures { result ≡ mark_count items.now }
{
    let mut marks = 0;
    for &item in items {
        if let AsmItem::Mark(_) = item {
            marks += 1;
        }
    }
    marks
}

// So many labels at one address.
fn labels_at(alloc: Global, count: usize, at: u16) -> Result<Vec<u16>, NoMemory>
    ensures { IfOk result (λ v. v.items ≡ replicate count at) }
{
    let labels = vec![in alloc; at; count]?;
    Ok(labels)
}

// The address of each label.
fn label_addresses(
    alloc: Global,
    items: &[AsmItem],
    layout: &JumpLayout,
) -> Result<Vec<u16>, NoMemory>
    requires { IsLayoutOf items.now layout.now }
    ensures { IfOk result (λ v. v.items ≡ labels_of items.now layout.now.forms) }
{
    let addresses = layout.addresses.as_slice();
    let end = word(addresses[items.len()]);
    let mut labels = labels_at(alloc, count_marks(items), end)?;
    let mut k = items.len();
    while k > 0 {
        k -= 1;
        if let AsmItem::Mark(label) = items[k] {
            let number = label.0 as usize;
            if number < labels.len() {
                labels[number] = word(addresses[k]);
            }
        }
    }
    Ok(labels)
}

// These addresses as a list of labels.
fn label_list(alloc: Global, addresses: &[u16]) -> Result<LabelList, NoMemory>
    ensures { IfOk result (λ labels. labels ≡ addresses.now) }
{
    let mut labels = LabelList::new(alloc);
    for &at in addresses {
        labels.push(at)?;
    }
    Ok(labels)
}

/// The object of an assembly program in its relaxed layout. Addresses are words: past the end of code memory they begin at 0 again.
pub fn emit(alloc: Global, asm: &Asm, layout: &JumpLayout) -> Result<Object, NoMemory>
    requires { IsLayoutOf asm.now layout.now }
    ensures code { IfOk result (λ o. o.code ≡ code_of asm.now layout.now.forms) }
    ensures labels { IfOk result (λ o. o.labels ≡ labels_of asm.now layout.now.forms) }
{
    let items = asm.as_slice();
    let code = emit_code(alloc, items, layout)?;
    let addresses = label_addresses(alloc, items, layout)?;
    let labels = label_list(alloc, &addresses)?;
    Ok(Object { code, labels })
}
