//! What is promised of the typing of programs. The functions do nothing: their contracts are the laws, which are proved.
ghost use Rattle.clight_typing.specs.Laws.{TypingIsSound, TypingIsComplete, RefusalsAreRight, TypingIsUnique};

/// What a program is given is well typed, and the program is its source.
pub fn typing_is_sound()
    ensures { TypingIsSound }
{}

/// Each well-typed program is, without its layout, what its source is given.
pub fn typing_is_complete()
    ensures { TypingIsComplete }
{}

/// A refused program is the source of no well-typed one.
pub fn refusals_are_right()
    ensures { RefusalsAreRight }
{}

/// Two well-typed programs of one source differ in nothing but their layout.
pub fn typing_is_unique()
    ensures { TypingIsUnique }
{}
