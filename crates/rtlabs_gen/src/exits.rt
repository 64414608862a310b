//! The ways out of a statement.

/// The nodes to which the jumps in a statement lead.
#[derive(Clone, Copy)]
pub(crate) struct Exits {
    /// Where the innermost loop is left: its exit label.
    pub on_break: u32,
    /// Where the innermost loop goes on after its body.
    pub on_continue: u32,
    /// The end of the function.
    pub on_return: u32,
}

impl Exits {
    ghost use Rattle.std.specs.Prelude.{◌≡◌};
    ghost use Rattle.rtlabs_gen.specs.Translation.{exits_at, in_loop as in_loop_of};

    /// Outside loops all lead to the end.
    pub(crate) fn at(end: u32) -> Exits
        ensures { result ≡ exits_at end }
    {
        Exits {
            on_break: end,
            on_continue: end,
            on_return: end,
        }
    }

    /// Those of the body of a loop.
    pub(crate) fn in_loop(self, on_break: u32, on_continue: u32) -> Exits
        ensures { result ≡ in_loop_of self on_break on_continue }
    {
        Exits {
            on_break,
            on_continue,
            on_return: self.on_return,
        }
    }
}
