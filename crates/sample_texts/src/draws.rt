//! The numbers that the generator draws.
ghost use Rattle.std.specs.Prelude.{◌≡◌};
ghost use Rattle.sample_texts.specs.Draws.{next, drawn, numbers_from, after_four};

/// The numbers of a function of the text.
#[derive(Clone, Copy)]
pub struct Numbers {
    /// How often its loop turns.
    pub turns: u32,
    /// What is added at each turn.
    pub added: u32,
    /// What is mixed in at each turn.
    pub mixed: u32,
    /// What is mixed in where the value is odd.
    pub mixed_odd: u32,
}

/// The state after a draw.
pub fn next_state(state: u32) -> u32
    ensures { result ≡ next state }
{
    ((1_664_525 * u64::from(state) + 1_013_904_223) % 4_294_967_296) as u32
}

/// The number that is drawn, by the state after the draw.
pub fn drawn_number(state: u32) -> u32
    ensures { result ≡ drawn state }
{
    state / 65_536
}

/// The numbers of a function by four draws from a state, and the state after them.
pub fn draw_numbers(state: u32) -> (Numbers, u32)
    ensures numbers { result.0 ≡ numbers_from state }
    ensures after { result.1 ≡ after_four state }
{
    let first = next_state(state);
    let second = next_state(first);
    let third = next_state(second);
    let fourth = next_state(third);
    let numbers = Numbers {
        turns: 1 + drawn_number(first) % 20,
        added: drawn_number(second),
        mixed: drawn_number(third),
        mixed_odd: drawn_number(fourth),
    };
    (numbers, fourth)
}
