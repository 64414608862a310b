//! The lists of a layout.
ghost use Rattle.std.specs.Prelude.{◌≡◌};

use crate::layouts::Form;
use std::marker::Model;

/// The form of each item, where it has one. Contracts see it as the list of the forms.
#[derive(Drop)]
pub struct FormList {
    forms: Vec<Option<Form>>,
}

impl Model for FormList {
    ghost use Rattle.std.specs.Prelude.{List, Option};
    ghost use Rattle.asm51.specs.declared.layouts.Form.{Form};

    ghost Value = { List (Option Form) };

    ghost view = { λ l. l.forms.items };
}

impl FormList {
    /// The list of these forms.
    pub fn of(forms: Vec<Option<Form>>) -> FormList
        ensures { result ≡ forms.items }
    {
        FormList { forms }
    }

    /// Its forms.
    pub fn as_slice(&self) -> &[Option<Form>]
        ensures { result.now ≡ self.now }
    {
        self.forms.as_slice()
    }
}

/// A number for each item: its address, or the number of another item. Contracts see it as the list of the numbers.
#[derive(Drop)]
pub struct NumberList {
    numbers: Vec<u32>,
}

impl Model for NumberList {
    ghost use Rattle.std.specs.Prelude.{List, ℕ};

    ghost Value = { List ℕ };

    ghost view = { λ l. l.numbers.items };
}

impl NumberList {
    /// The list of these numbers.
    pub fn of(numbers: Vec<u32>) -> NumberList
        ensures { result ≡ numbers.items }
    {
        NumberList { numbers }
    }

    /// Its numbers.
    pub fn as_slice(&self) -> &[u32]
        ensures { result.now ≡ self.now }
    {
        self.numbers.as_slice()
    }
}
