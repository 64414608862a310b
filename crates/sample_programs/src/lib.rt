//! Each text of the generator is sound, and its program has room. The function does nothing: its contract is the law, which is proved.
#![tactic(auto)]

ghost use Rattle.sample_programs.specs.Laws.{TextsHaveRoom};

/// The compiler refuses no text of the generator: each is sound, and by its own bounds its program has
/// room for its registers and for its code.
pub fn texts_have_room()
    ensures { TextsHaveRoom }
{}
