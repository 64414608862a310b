//! What the rounds ask of an item.
ghost use Rattle.std.specs.Prelude.{◌≡◌, ◌≤◌};
ghost use Rattle.asm51.specs.Items.{is_jump as is_jump_of};
ghost use Rattle.asm51.specs.Instructions.{item_size};

use asm51::{AsmItem, Form};

fn jump_size(form: Option<Form>) -> u32
    ensures { result ≡ item_size (AsmItem.Jump 0 0) form }
{
    match form {
        Some(Form::Short) => 2,
        Some(Form::Page) => 2,
        Some(Form::Long) => 3,
        None => 3,
    }
}

fn test_size(form: Option<Form>) -> u32
    ensures { result ≡ item_size (AsmItem.Test 0 0) form }
{
    match form {
        Some(Form::Short) => 2,
        Some(Form::Page) => 7,
        Some(Form::Long) => 7,
        None => 7,
    }
}

/// How many bytes an item in a form has, 0 to 7.
pub(crate) fn size_of(item: AsmItem, form: Option<Form>) -> u32
    ensures size { result ≡ item_size item form }
    ensures small { result ≤ 7 }
{
    match item {
        AsmItem::Plain(instr) => mcs51_isa::length(instr) as u32,
        AsmItem::Jump(_, _) => jump_size(form),
        AsmItem::Test(_, _) => test_size(form),
        AsmItem::Call(_) => 3,
        AsmItem::Mark(_) => 0,
        AsmItem::Enter(_) => 0,
        AsmItem::Here(_, _) => 0,
    }
}

/// Whether an item has a form: it is a jump or a test.
pub(crate) fn is_jump(item: AsmItem) -> bool
    ensures { result ≡ is_jump_of item }
{
    match item {
        AsmItem::Jump(_, _) => true,
        AsmItem::Test(_, _) => true,
        AsmItem::Plain(_) => false,
        AsmItem::Mark(_) => false,
        AsmItem::Enter(_) => false,
        AsmItem::Here(_, _) => false,
        AsmItem::Call(_) => false,
    }
}
