// Names, as runs of bytes: malformed, the same, in which order, and padded.
ghost use Rattle.std.specs.Prelude.{◌≡◌, ◌≤◌, length, drop, replicate};
ghost use Rattle.layers.specs.Bytes.{laid};
ghost use Rattle.layers.specs.Names.{same_name, malformed_name, order_of};

use crate::bytes;
use std::cmp::Ordering;

// By two numbers of 4 bytes, first the one that ends where the names end: names in one place often start alike.
fn same_halves(a: &[u8], b: &[u8]) -> bool
    requires { (length a.now ≡ length b.now) × (4 ≤ length a.now) × (length a.now ≤ 8) }
    ensures { result ≡ same_name a.now b.now }
{
    let e = a.len() - 4;
    if bytes::number_at::<u32>(a, e) != bytes::number_at::<u32>(b, e) {
        return false;
    }
    bytes::number_at::<u32>(a, 0) == bytes::number_at::<u32>(b, 0)
}

// By numbers of 8 bytes, first the one that ends where the names end: `==` takes four times as long.
fn same_words(a: &[u8], b: &[u8]) -> bool
    requires { (length a.now ≡ length b.now) × (8 ≤ length a.now) }
    ensures { result ≡ same_name a.now b.now }
{
    let e = a.len() - 8;
    if bytes::number_at::<u64>(a, e) != bytes::number_at::<u64>(b, e) {
        return false;
    }
    (0..e.div_ceil(8)).all(|i| bytes::number_at::<u64>(a, 8 * i)
        == bytes::number_at::<u64>(b, 8 * i))
}

pub fn same_name(a: &[u8], b: &[u8]) -> bool
    ensures { result ≡ same_name a.now b.now }
{
    if a.len() != b.len() {
        return false;
    }
    if a.len() < 4 {
        return a == b;
    }
    if a.len() < 8 {
        return same_halves(a, b);
    }
    same_words(a, b)
}

// "A malformed name is empty, holds 0 or "/", or is "." or ".."."
pub fn malformed(x: &[u8]) -> bool
    ensures { result ≡ malformed_name x.now }
{
    x.is_empty() || x.contains(&0) || x.contains(&b'/') || same_name(x, b".") || same_name(x, b"..")
}

// Byte by byte, a prefix first; `cmp` of std looks for runs of many bytes first, which short names do not have.
fn compare_bytes(a: &[u8], b: &[u8]) -> Ordering
    ensures { result ≡ order_of a.now b.now }
{
    for i in 0..a.len().min(b.len()) {
        if a[i] != b[i] {
            return a[i].cmp(&b[i]);
        }
    }
    a.len().cmp(&b.len())
}

// "in byte order, a prefix first": by numbers of 4 bytes, which takes a third of the time of `cmp`, and what is left by bytes.
pub fn compare(a: &[u8], b: &[u8]) -> Ordering
    ensures { result ≡ order_of a.now b.now }
{
    let n = a.len().min(b.len()) / 4;
    for i in 0..n {
        let x = bytes::be_in::<u32>(a, 4 * i);
        let y = bytes::be_in::<u32>(b, 4 * i);
        if x != y {
            return x.cmp(&y);
        }
    }
    compare_bytes(&a[4 * n..], &b[4 * n..])
}

// A name with zeros behind it.
pub fn padded(x: &[u8]) -> [u8; 28]
    ensures { result ≡ laid (replicate 28 0) 0 x.now }
{
    let mut a = [0u8; 28];
    bytes::lay(&mut a, 0, x);
    a
}
