// Places kept in the order of what they stand for.
ghost use Rattle.std.specs.Prelude.{◌≡◌, ℕ};
ghost use Rattle.layers.specs.Names.{Name};
ghost use Rattle.layers.specs.Order.{put_in, spot_from, Tells};
ghost use Rattle.layers.specs.Sorted.{Sorted};

use std::cmp::Ordering;

// Where a name belongs among places that stand in the order of their names, none where it stands there; `order` says how it stands to a place's.
// A loop and no `binary_search_by`: that goes on where the name is met, which a directory's second layer meets at most names.
pub fn spot_among<F: Fn(u16) -> Ordering>(p: &[u16], order: F) -> Option<usize>
    requires { F.IsAlwaysCallable order }
    ensures { (f : ℕ → Name) (x : Name) → Tells (F.post order) f x → Sorted f p.now → result ≡ spot_from f 0 x p.now }
{
    let mut lo = 0;
    let mut hi = p.len();
    while lo < hi {
        let mid = lo + (hi - lo) / 2;
        match order(p[mid]) {
            Ordering::Less => hi = mid,
            Ordering::Equal => return None,
            Ordering::Greater => lo = mid + 1,
        }
    }
    Some(lo)
}

// A slice with its count beside it, since the clause says what any length and count do.
// Moves the places from `i` to `n` down by one, and puts `q` at `i`; where 512 places have no room for that, nothing changes.
pub fn put_in(p: &mut [u16], n: usize, i: usize, q: u16)
    ensures { p.new ≡ put_in p.old n i q }
{
    if p.len() != 512 {
        return;
    }
    if 512 <= n {
        return;
    }
    if n < i {
        return;
    }
    for k in (i..n).rev() {
        p[k + 1] = p[k];
    }
    p[i] = q;
}
