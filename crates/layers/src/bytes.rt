// Bytes in lent memory: numbers little-endian, and one run laid over another.
ghost use Rattle.std.specs.Prelude.{◌≡◌, ℕ, ◌+◌, ◌^◌, ◌≤◌, ◌<◌, length, take};
ghost use Rattle.layers.specs.Bytes.{least, part, over, le_of, be_of, le_bytes, number_at, laid};
ghost use Rattle.layers.specs.Rules.{all_zero};

// `n`, or `m` where that is less.
pub fn at_most(m: u8, n: usize) -> u8
    ensures { result ≡ least m n }
{
    u8::try_from(n).map_or(m, |n| n.min(m))
}

// Whether all bytes are 0; every byte is looked at, which compiles to reads of many bytes at once.
pub(crate) fn all_zero(b: &[u8]) -> bool
    ensures { result ≡ all_zero b.now }
{
    b.iter().fold(0u8, |x, y| x | *y) == 0
}

// ---- a run laid over a slice; one that does not fit changes nothing

fn lay_inside(t: &mut [u8], a: usize, b: &[u8])
    requires { a + length b.now ≤ length t.old }
    ensures { t.new ≡ over t.old a b.now }
{
    let e = a + b.len();
    t[a..e].copy_from_slice(b);
}

pub fn lay(t: &mut [u8], a: usize, b: &[u8])
    ensures { t.new ≡ laid t.old a b.now }
{
    if t.len() < b.len() {
        return;
    }
    if t.len() - b.len() < a {
        return;
    }
    lay_inside(t, a, b);
}

// ---- numbers

// A number of as many bytes as its width says.
pub trait Number: Drop {
    ghost width: { ℕ };

    ghost value: { Self → ℕ };

    fn size() -> usize
        ensures { result ≡ width };

    fn zero() -> Self
        ensures { value result ≡ 0 };

    // The number that a slice starts with.
    fn first(b: &[u8]) -> Self
        requires { width ≤ length b.now }
        ensures { value result ≡ le_of (take width b.now) };

    // The same, the highest byte first, as names are ordered.
    fn first_be(b: &[u8]) -> Self
        requires { width ≤ length b.now }
        ensures { value result ≡ be_of (take width b.now) };

    fn put(self, t: &mut [u8], a: usize)
        ensures { (t.new ≡ laid t.old a (le_bytes width (value self))) × (value self < 256 ^ width) };
}

impl Number for u16 {
    ghost width = { 2 };

    ghost value = { λ x. x };

    fn size() -> usize {
        2
    }

    fn zero() -> u16 {
        0
    }

    fn first(b: &[u8]) -> u16 {
        u16::from_le_bytes([b[0], b[1]])
    }

    fn first_be(b: &[u8]) -> u16 {
        u16::first(b).swap_bytes()
    }

    fn put(self, t: &mut [u8], a: usize) {
        lay(t, a, &self.to_le_bytes());
    }
}

impl Number for u32 {
    ghost width = { 4 };

    ghost value = { λ x. x };

    fn size() -> usize {
        4
    }

    fn zero() -> u32 {
        0
    }

    fn first(b: &[u8]) -> u32 {
        u32::from_le_bytes([b[0], b[1], b[2], b[3]])
    }

    fn first_be(b: &[u8]) -> u32 {
        u32::first(b).swap_bytes()
    }

    fn put(self, t: &mut [u8], a: usize) {
        lay(t, a, &self.to_le_bytes());
    }
}

impl Number for u64 {
    ghost width = { 8 };

    ghost value = { λ x. x };

    fn size() -> usize {
        8
    }

    fn zero() -> u64 {
        0
    }

    fn first(b: &[u8]) -> u64 {
        u64::from_le_bytes([b[0], b[1], b[2], b[3], b[4], b[5], b[6], b[7]])
    }

    fn first_be(b: &[u8]) -> u64 {
        u64::first(b).swap_bytes()
    }

    fn put(self, t: &mut [u8], a: usize) {
        lay(t, a, &self.to_le_bytes());
    }
}

// ---- a number at a place of a slice that holds it, which is not tested: the caller has the bound

pub fn number_in<T: Number>(t: &[u8], a: usize) -> T
    requires { a + T.width ≤ length t.now }
    ensures { T.value result ≡ number_at T.width t.now a }
{
    T::first(&t[a..])
}

// The same, the highest byte first.
pub fn be_in<T: Number>(t: &[u8], a: usize) -> T
    requires { a + T.width ≤ length t.now }
    ensures { T.value result ≡ be_of (part t.now a T.width) }
{
    T::first_be(&t[a..])
}

// The number at any place of a slice; one that does not lie in it reads as 0.
pub fn number_at<T: Number>(t: &[u8], a: usize) -> T
    ensures { T.value result ≡ number_at T.width t.now a }
{
    if t.len() < T::size() {
        return T::zero();
    }
    if t.len() - T::size() < a {
        return T::zero();
    }
    number_in(t, a)
}

pub fn put_number<T: Number>(t: &mut [u8], a: usize, x: T)
    ensures { (t.new ≡ laid t.old a (le_bytes T.width (T.value x))) × (T.value x < 256 ^ T.width) }
{
    x.put(t, a);
}
