// The writer of a page: it holds the caller's buffer, and every byte of a listing goes through it.
ghost use Rattle.std.specs.Prelude.{◌≡◌};
ghost use Rattle.calls.specs.Dirents.{dirent, put_answer, put_dirent};

use crate::dirent;

// The caller's buffer, and where the next entry goes.
#[derive(Drop)]
pub struct Writer<'a> {
    pub buf: &'a mut [u8],
    pub at: usize,
}

// Writes the entry of this index where the writer stands; the kind is the record's byte, which may be no kind's (`type_of` of specs/). The writer is taken apart, and the function on its buffer and its position is called.
pub fn append<'a, 'b>(
    w: Writer<'a>,
    limit: usize,
    inode: u64,
    index: u64,
    kind: u8,
    name: &'b [u8],
) -> Option<usize>
    ensures { (result ≡ put_answer limit w.entry.buf.now w.entry.at (dirent inode kind name.now)) × (w.exit.0.now ≡ put_dirent limit w.entry.buf.now w.entry.at index (dirent inode kind name.now)) }
{
    let at = w.at;
    dirent::put_dirent(&mut *w.buf, at, limit, inode, index, kind, name)
}

// The same by a writer that is made at `at`. Its contract says nothing of a writer, so a page's loop calls it as any function, and no writer lives across a turn.
pub fn append_dirent(
    buf: &mut [u8],
    at: usize,
    limit: usize,
    inode: u64,
    index: u64,
    kind: u8,
    name: &[u8],
) -> Option<usize>
    ensures { (result ≡ put_answer limit buf.old at (dirent inode kind name.now)) × (buf.new ≡ put_dirent limit buf.old at index (dirent inode kind name.now)) }
{
    append(Writer { buf, at }, limit, inode, index, kind, name)
}
