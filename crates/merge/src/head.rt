// The head of a state, as a value: the next number to give, and how many nodes there are.
ghost use Rattle.std.specs.Prelude.{◌≡◌, ◌+◌, ◌*◌, ◌-◌, ◌≤◌, ◌<◌, length};
ghost use Rattle.merge.specs.Nodes.{capacity, count_of};
ghost use Rattle.merge.specs.Heads.{next_of, head_of, with_head, more, fewer, numbered, following, room_of, full, numbers_left};

#[derive(Clone, Copy)]
pub struct Head {
    pub next: u64,
    pub count: u32,
}

// How many nodes fit in the lent memory.
#[tactic(auto, unfolding(crate::specs::Nodes::capacity))]
pub fn capacity(s: &[u8]) -> usize
    ensures { (result ≡ capacity s.now) × (52 * result ≤ length s.now - 12) × (result ≤ 4294967295) }
{
    (s.len().saturating_sub(12) / 52).min(4294967295)
}

// How many nodes there are; a count above what fits is taken as what fits. By `as`, since usize has no From of u32.
#[tactic(auto, unfolding(crate::specs::Nodes::count_of))]
pub fn count(s: &[u8]) -> usize
    ensures { (result ≡ count_of s.now) × (52 * result ≤ length s.now - 12) × (result ≤ 4294967295) }
{
    (layers::bytes::number_at::<u32>(s, 8) as usize).min(capacity(s))
}

// The next number to give.
pub fn next_number(s: &[u8]) -> u64
    ensures { result ≡ next_of s.now }
{
    layers::bytes::number_at::<u64>(s, 0)
}

pub fn head_of(s: &[u8]) -> Head
    ensures { result ≡ head_of s.now }
{
    Head {
        next: next_number(s),
        count: count(s) as u32,
    }
}

// The head put back; memory too short for one stays as it is.
#[tactic(auto, using(crate::proofs::HeadLaws::head_short, crate::proofs::HeadLaws::head_laid))]
pub fn put_head(s: &mut [u8], h: Head)
    ensures { s.new ≡ with_head s.old h }
{
    if s.len() < 12 {
        return;
    }
    layers::bytes::put_number(s, 0, h.next);
    layers::bytes::put_number(s, 8, h.count);
}

// How many more nodes fit.
pub fn room(s: &[u8]) -> usize
    ensures { result ≡ room_of s.now }
{
    capacity(s).saturating_sub(count(s))
}

// How many numbers are left to give.
pub fn numbers_left(s: &[u8]) -> u64
    ensures { result ≡ numbers_left s.now }
{
    4294967296u64.saturating_sub(next_number(s))
}

#[tactic(auto, unfolding(crate::specs::Heads::full))]
pub fn is_full(s: &[u8]) -> bool
    ensures { result ≡ full s.now }
{
    capacity(s) <= count(s)
}

// Neither `saturating_add` nor `min`: a number past the end stays as it is, by `following` of specs/.
#[tactic(auto, unfolding(crate::specs::Heads::following))]
fn following_number(x: u64) -> u64
    ensures { result ≡ following x }
{
    if x < 4294967296 {
        return x + 1;
    }
    x
}

#[tactic(auto, unfolding(crate::specs::Methods::fallen, crate::specs::Methods::risen))]
impl Head {
    // One node more.
    pub fn more(self) -> Head
        ensures { result ≡ more self }
    {
        Head {
            count: self.count.saturating_add(1),
            ..self
        }
    }

    // One node less.
    pub fn fewer(self) -> Head
        ensures { result ≡ fewer self }
    {
        Head {
            count: self.count.saturating_sub(1),
            ..self
        }
    }

    // The next number given away.
    pub fn numbered(self) -> Head
        ensures { result ≡ numbered self }
    {
        Head {
            next: following_number(self.next),
            ..self
        }
    }
}
