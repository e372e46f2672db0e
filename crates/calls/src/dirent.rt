// An entry of a listing, written into the caller's buffer as the FUSE dirent; its type is the record's byte, which may be no kind's (`type_of` of specs/).
ghost use Rattle.std.specs.Prelude.{◌≡◌, ◌++◌, ◌+◌, ◌%◌, ◌≤◌, ◌<◌, length, replicate};
ghost use Rattle.layers.specs.Bytes.{least, over, le_bytes};
ghost use Rattle.calls.specs.Dirents.{dirent, padding, dirent_bytes, put_answer, put_dirent};

// The zeros behind a name of `n` bytes; `next_multiple_of(8) - n` would ask that `n` is bounded.
fn zeros_behind(n: usize) -> usize
    ensures { (result ≡ padding n) × (result < 8) }
{
    (8 - n % 8) % 8
}

fn lay_numbers(buf: &mut [u8], a: usize, inode: u64, index: u64)
    requires { a + 16 ≤ length buf.old }
    ensures { buf.new ≡ over buf.old a (le_bytes 8 inode ++ le_bytes 8 (index + 1)) }
{
    layers::bytes::put_number(buf, a, inode);
    layers::bytes::put_number(buf, a + 8, index.wrapping_add(1));
}

fn lay_sizes(buf: &mut [u8], a: usize, n: usize, kind: u8)
    requires { a + 8 ≤ length buf.old }
    ensures { buf.new ≡ over buf.old a (le_bytes 4 n ++ le_bytes 4 kind) }
{
    layers::bytes::put_number(buf, a, (n % 4294967296) as u32);
    layers::bytes::put_number(buf, a + 4, u32::from(kind));
}

fn lay_name(buf: &mut [u8], a: usize, x: &[u8], p: usize)
    requires { (a + length x.now + p ≤ length buf.old) × (p < 8) }
    ensures { buf.new ≡ over buf.old a (x.now ++ replicate p 0) }
{
    layers::bytes::lay(buf, a, x);
    // To lay no bytes is a call too, a seventh of an entry's instructions.
    if p != 0 {
        layers::bytes::lay(buf, a + x.len(), &[0u8; 8][..p]);
    }
}

fn lay_dirent(buf: &mut [u8], a: usize, inode: u64, index: u64, kind: u8, name: &[u8])
    requires { a + 24 + length name.now + padding (length name.now) ≤ length buf.old }
    ensures { buf.new ≡ over buf.old a (dirent_bytes index (dirent inode kind name.now)) }
{
    let p = zeros_behind(name.len());
    lay_numbers(buf, a, inode, index);
    lay_sizes(buf, a + 16, name.len(), kind);
    lay_name(buf, a + 24, name, p);
}

// Writes the entry of this index at `at`, where it fits in the first `limit` bytes of the buffer.
pub fn put_dirent(
    buf: &mut [u8],
    at: usize,
    limit: usize,
    inode: u64,
    index: u64,
    kind: u8,
    name: &[u8],
) -> Option<usize>
    ensures { (result ≡ put_answer limit buf.old at (dirent inode kind name.now)) × (buf.new ≡ put_dirent limit buf.old at index (dirent inode kind name.now)) }
{
    let n = name.len();
    let p = zeros_behind(n);
    let left = limit.min(buf.len()).checked_sub(at)?.checked_sub(n)?;
    if left < 24 + p {
        return None;
    }
    lay_dirent(buf, at, inode, index, kind, name);
    Some(at + 24 + n + p)
}
