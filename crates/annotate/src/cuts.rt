//! The parts of an annotated text: its plain text and its annotations, by turns.
ghost use Rattle.std.specs.Prelude.{◌≡◌, ◌<◌, ◌++◌, ◌∷◌, [], length, MatchOption, IfSome};
ghost use Rattle.annotate.specs.Erasure.{erased, parts};
ghost use Rattle.annotate.specs.Numbers.{numbers, numbers_in};

// What encloses an annotation.
const MARK: &[u8; 5] = b"/*@*/";

// The text up to its first mark, and the text after that.
fn split_at_mark(text: &[u8]) -> Option<(&[u8], &[u8])>
    ensures { MatchOption result (parts text.now ≡ text.now ∷ [])
        (λ halves. (parts text.now ≡ halves.0.now ∷ parts halves.1.now)
        × (length halves.1.now < length text.now)) }
{
    for at in 0..text.len() {
        if text[at..].starts_with(MARK) {
            return Some((&text[..at], &text[at + MARK.len()..]));
        }
    }
    None
}

/// A text cut at its first annotation.
#[derive(Clone, Copy)]
pub struct Cut<'a> {
    /// The text before it.
    pub plain: &'a [u8],
    /// What stands between its marks; all the rest of the text where it isn't closed.
    pub annotation: &'a [u8],
    /// The text after it.
    pub rest: &'a [u8],
}

/// The text cut at its first annotation; none where it has none.
pub fn first_annotation(text: &[u8]) -> Option<Cut<'_>>
    ensures text { MatchOption result (erased text.now ≡ text.now)
        (λ cut. erased text.now ≡ cut.plain.now ++ erased cut.rest.now) }
    ensures counts { MatchOption result (numbers text.now ≡ [])
        (λ cut. numbers text.now ≡ numbers_in cut.annotation.now ++ numbers cut.rest.now) }
    ensures shorter { IfSome result (λ cut. length cut.rest.now < length text.now) }
{
    let (plain, behind) = split_at_mark(text)?;
    let (annotation, rest) = split_at_mark(behind).unwrap_or((behind, &[]));
    Some(Cut {
        plain,
        annotation,
        rest,
    })
}
