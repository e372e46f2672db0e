// A line's words, and numbers in words.
ghost use Rattle.std.specs.Prelude.{◌≤◌, length};

// Past the spaces from `a` on.
fn past_spaces(s: &[u8], a: usize) -> usize
    requires { a ≤ length s.now }
    ensures { (a ≤ result) × (result ≤ length s.now) }
{
    for i in a..s.len() {
        if s[i] != b' ' {
            return i;
        }
    }
    s.len()
}

// The end of the word that starts at `a`.
fn word_end(s: &[u8], a: usize) -> usize
    requires { a ≤ length s.now }
    ensures { (a ≤ result) × (result ≤ length s.now) }
{
    for i in a..s.len() {
        if s[i] == b' ' {
            return i;
        }
    }
    s.len()
}

// The word with number `k`, counted from 0; past the last it is empty. A `split` at each space would stop at every one of many in a row.
pub fn word(s: &[u8], k: usize) -> &[u8] {
    let mut a = past_spaces(s, 0);
    for _ in 0..k {
        a = past_spaces(s, word_end(s, a));
    }
    &s[a..word_end(s, a)]
}

// A line that says nothing: empty, or a comment.
pub fn is_silent(line: &[u8]) -> bool {
    matches!(word(line, 0), b"" | b"#")
}

// The number that a word stands for, modulo 2 to the 64th: octal where it starts with 0. A byte that is no digit adds nothing.
pub fn number(w: &[u8]) -> u64 {
    let base: u8 = if w.first() == Some(&b'0') { 8 } else { 10 };
    w.iter()
        .map(|c| c.wrapping_sub(b'0'))
        .filter(|d| *d < base)
        .fold(0u64, |n, d| {
            n.wrapping_mul(u64::from(base)).wrapping_add(u64::from(d))
        })
}

// A number below 256, and one below 65536; what does not fit is lost.
pub fn byte(w: &[u8]) -> u8 {
    (number(w) % 256) as u8
}

pub fn small(w: &[u8]) -> u16 {
    (number(w) % 65536) as u16
}

pub fn place(w: &[u8]) -> usize {
    number(w) as usize
}

// The number that the word `k` of a line writes.
pub fn number_at(s: &[u8], k: usize) -> u64 {
    number(word(s, k))
}
