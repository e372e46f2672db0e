// Names in words: a byte stands for itself, or a backslash and two hexadecimal digits for it.
ghost use Rattle.std.specs.Prelude.{◌≡◌, ◌<◌, ◌≤◌, [], ◌∷◌, length, take, IfSome, MatchOption};
ghost use Rattle.std.specs.Iterator.{YieldsFirst, at_most};
ghost use Rattle.text.specs.Names.{hex_value, unescaped};

use arrayvec::ArrayVec;

fn digit(c: u8) -> u8
    ensures value { result ≡ hex_value c }
    ensures bound { result ≤ 15 }
{
    match c {
        b'0'..=b'9' => c - b'0',
        b'a'.. => (c - b'a') % 6 + 10,
        _ => 0,
    }
}

// The first byte that a word writes, and the rest of the word.
fn split_byte(w: &[u8]) -> Option<(u8, &[u8])>
    ensures byte { MatchOption result (unescaped w.now ≡ []) (λ x. unescaped w.now ≡ x.0 ∷ unescaped x.1.now) }
    ensures shorter { IfSome result (λ x. length x.1.now < length w.now) }
{
    match w {
        [] => None,
        [b'\\', high, low, rest @ ..] => Some((digit(*high) * 16 + digit(*low), rest)),
        [b'\\', ..] => Some((0, b"")),
        [byte, rest @ ..] => Some((*byte, rest)),
    }
}

// The bytes of the name that a word writes, one after another.
#[derive(Clone, Copy)]
pub struct NameBytes<'a> {
    pub rest: &'a [u8],
}

pub fn name_bytes(w: &[u8]) -> NameBytes<'_>
    ensures { result.rest.now ≡ w.now }
{
    NameBytes { rest: w }
}

impl Iterator for NameBytes<'_> {
    type Item = u8;

    ghost next_gives = { YieldsFirst (λ s. unescaped s.rest.now) };

    ghost remaining = { λ s. at_most (length s.rest.now) };

    fn next(&mut self) -> Option<u8> {
        let (byte, rest) = split_byte(self.rest)?;
        self.rest = rest;
        Some(byte)
    }
}

// The first `N` bytes of the name that a word writes.
pub fn name<const N: usize>(w: &[u8]) -> ArrayVec<u8, N>
    ensures { result.items ≡ take N (unescaped w.now) }
{
    let mut name = ArrayVec::new();
    for byte in name_bytes(w) {
        if name.try_push(byte).is_err() {
            break;
        }
    }
    name
}
