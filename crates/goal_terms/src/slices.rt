//! Parts of lists.
ghost use Rattle.std.specs.Prelude.{◌≡◌, drop, take};

/// The first elements of a list, so many, or all where it has fewer. It takes no memory.
pub fn first_of<T>(items: &[T], count: usize) -> &[T]
    ensures { result.now ≡ take count items.now }
{
    if count < items.len() {
        &items[..count]
    } else {
        items
    }
}

/// The elements behind so many, none where there are fewer. It takes no memory.
pub fn behind<T>(items: &[T], count: usize) -> &[T]
    ensures { result.now ≡ drop count items.now }
{
    if count < items.len() {
        &items[count..]
    } else {
        &[]
    }
}
