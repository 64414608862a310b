//! The lines of a text, one after another.
ghost use Rattle.std.specs.Prelude.{◌≡◌, ◌≢◌, ℕ, ◌<◌, ◌≤◌, ◌∷◌, length, slice_index};
ghost use Rattle.object_hex.specs.Lines.{lines};

const LINE_FEED: u8 = b'\n';

const CARRIAGE_RETURN: u8 = b'\r';

// How many bytes stand before the first LF of a text: all of them where it has none.
fn before_feed(text: &[u8]) -> usize
    ensures within { result ≤ length text.now }
    ensures first { (place : ℕ) → place < result → slice_index text.now place ≢ 10 }
    ensures found { result < length text.now → slice_index text.now result ≡ 10 }
{
    for (place, byte) in text.iter().enumerate() {
        if *byte == LINE_FEED {
            return place;
        }
    }
    text.len()
}

/// The first line of a text without its end, and what follows it.
pub fn split_line(text: &[u8]) -> (&[u8], &[u8])
    requires { 0 < length text.now }
    ensures split { lines text.now ≡ result.0.now ∷ lines result.1.now }
    ensures shorter { length result.1.now < length text.now }
{
    let end = before_feed(text);
    if end == text.len() {
        return (text, &text[end..]);
    }
    if end > 0 && text[end - 1] == CARRIAGE_RETURN {
        return (&text[..end - 1], &text[end + 1..]);
    }
    (&text[..end], &text[end + 1..])
}
