// Parts of lent memory.

ghost use Rattle.std.specs.Prelude.{◌≡◌, take};

// The first `n` items, all of them where there are fewer; and the same to write in, as std has `first` and `first_mut`: no function is generic over the kind of a borrow.
pub fn first<T>(t: &[T], n: usize) -> &[T]
    ensures { result.now ≡ take n t.now }
{
    &t[..n.min(t.len())]
}

pub fn first_mut<T>(t: &mut [T], n: usize) -> &mut [T] {
    let n = n.min(t.len());
    &mut t[..n]
}
