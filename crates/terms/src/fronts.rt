//! The front of a slice.
ghost use Rattle.std.specs.Prelude.{◌≡◌, ◌≤◌, length, take};

/// The first `count` items, or all of them where there are fewer.
pub fn front<T>(items: &[T], count: usize) -> &[T]
    ensures value { result.now ≡ take count items.now }
    ensures bound { length result.now ≤ length items.now }
{
    &items[..count.min(items.len())]
}
