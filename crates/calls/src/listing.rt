// The listing call: a page of a directory's entries.
ghost use Rattle.std.specs.Prelude.{◌≡◌, ◌≤◌};
ghost use Rattle.calls.specs.Listing.{page_value, listed, list_loaded, list_spec};

use crate::page::{Page, Window};
use crate::refusal::Refusal;
use crate::{lengths, page, parent};
use merge::tables::Layers;

// "bytes written + 2147483648 where entries remain"
fn page_value(p: Page) -> usize
    requires { p.bytes ≤ 240518168632 }
    ensures { result ≡ page_value p }
{
    if p.remains {
        return p.bytes + 2147483648;
    }
    p.bytes
}

// A page of size above 0.
fn list_loaded(
    s: &mut [u8],
    ls: Layers<'_>,
    x: u64,
    offset: u64,
    size: u64,
    buf: &mut [u8],
) -> Result<usize, Refusal>
    ensures { listed result s.new buf.new ≡ list_loaded ls.entry.upper.now ls.entry.lower.now s.old x offset size buf.old }
{
    let k = parent::parent_place(s, ls, x)?;
    parent::load_at(s, ls, k)?;
    let limit = size as usize;
    let p = page::write_page(buf, Window { limit, offset }, s, ls, x);
    Ok(page_value(p))
}

pub fn listing(
    s: &mut [u8],
    ls: Layers<'_>,
    x: u64,
    offset: u64,
    size: u64,
    buf: &mut [u8],
) -> Result<usize, Refusal>
    ensures { listed result s.new buf.new ≡ list_spec ls.entry.upper.now ls.entry.lower.now s.old x offset size buf.old }
{
    if !lengths::lengths_fit(s, ls) {
        return Err(Refusal::Einval);
    }
    if size == 0 {
        return Ok(0);
    }
    list_loaded(s, ls, x, offset, size, buf)
}
