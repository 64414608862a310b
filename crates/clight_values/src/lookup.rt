//! Items of lists by their numbers.
ghost use Rattle.std.specs.Prelude.{◌≡◌, drop, slice_get, option_copied};

/// The item with this number, counted from 0, if there is one.
pub fn item_at<T>(items: &[T], number: usize) -> Option<&T>
    ensures { option_copied result ≡ slice_get items.now number }
{
    items.get(number)
}

/// The items from this number on.
pub fn items_from<T>(items: &[T], first: usize) -> &[T]
    ensures { result.now ≡ drop first items.now }
{
    if first < items.len() {
        &items[first..]
    } else {
        &items[..0]
    }
}
