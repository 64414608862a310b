//! The forms of jumps, and the layout of an assembly program in code memory.
ghost use Rattle.std.specs.Prelude.{◌≡◌, ◌<◌, Some, length, slice_get};

use crate::lists::{FormList, NumberList};

/// The form of a jump or of a test.
#[derive(Clone, Copy)]
pub enum Form {
    /// SJMP, or JNZ for a test.
    Short,
    /// AJMP.
    Page,
    /// LJMP, or for a test a JNZ to an LJMP.
    Long,
}

/// The layout of an assembly program in code memory.
#[derive(Drop)]
pub struct JumpLayout {
    /// The form of each jump and test, and none for the other items.
    pub forms: FormList,
    /// The address of each item, and last that of their end.
    pub addresses: NumberList,
    /// The number of the item that each jump, test and call leads to; the number of the items where it leads to none.
    pub targets: NumberList,
}

impl JumpLayout {
    /// The form of an item, if it is a jump or a test.
    pub fn form(&self, item: usize) -> Option<Form>
        requires { item < length self.now.forms }
        ensures { slice_get self.now.forms item ≡ Some result }
    {
        self.forms.as_slice()[item]
    }

    /// The address of an item, or of their end.
    pub fn at(&self, item: usize) -> u32
        requires { item < length self.now.addresses }
        ensures { slice_get self.now.addresses item ≡ Some result }
    {
        self.addresses.as_slice()[item]
    }
}
