//! The names of a program, with what each does where it stands (ISO/IEC 9899:1999, 6.2.1).
ghost use Rattle.std.specs.Prelude.{◌≡◌, ◌++◌, ◌∷◌, [], OnOk, OnErr};
ghost use Rattle.clight_names.specs.Occurrences.{occurs, words_names};

use cerco_base::NoMemory;
use clight_source::tree::{Name, Specifiers};

/// What a name does where it stands. Items of the program are meant by their numbers, from 0.
#[derive(Clone, Copy)]
pub enum Role {
    /// It is the tag of a struct that is defined here.
    DefinesTag,
    /// It is the tag of a struct in a type. Said is whether a star stands behind it, and the tag of the struct among whose
    /// members it stands.
    NamesTag(bool, Option<u32>),
    /// It declares a member of the struct that is this item.
    DeclaresMember(usize),
    /// It declares a global variable.
    DeclaresGlobal,
    /// It declares a function without a body. Said is whether in the form `void f(void)`.
    DeclaresPrototype(bool),
    /// It defines a function. Said is whether in the form `void f(void)`.
    DefinesFunction(bool),
    /// It declares a parameter or local of the function that is this item.
    DeclaresLocal(usize),
    /// It means a variable or a function, in the function that is this item.
    Uses(usize),
    /// It stands behind `.` or `->`.
    Selects,
}

/// A name at a place of the text.
#[derive(Clone, Copy)]
pub struct Occurrence {
    pub name: Name,
    pub role: Role,
}

/// Adds a name.
pub fn add_name(names: &mut Vec<Occurrence>, name: Name, role: Role) -> Result<(), NoMemory>
    ensures { OnOk result (names.new.items ≡ names.old.items ++ occurs name role ∷ []) }
{
    names.push(Occurrence { name, role })?;
    Ok(())
}

/// Adds the tag that the words of a type name, if they name one.
pub fn add_words(
    names: &mut Vec<Occurrence>,
    starred: bool,
    around: Option<u32>,
    words: Specifiers,
) -> Result<(), NoMemory>
    ensures { OnOk result (names.new.items ≡ names.old.items ++ words_names starred around words) }
{
    if let Specifiers::Struct(_, tag) = words {
        add_name(names, tag, Role::NamesTag(starred, around))?;
    }
    Ok(())
}
