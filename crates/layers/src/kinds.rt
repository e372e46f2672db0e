// The kinds of a record, and the number of each.
ghost use Rattle.std.specs.Prelude.{◌≡◌, ◌==◌};
ghost use Rattle.layers.specs.Kinds.{kind_number, Names};

#[derive(Clone, Copy, Debug, PartialEq, Eq)]
pub enum Kind {
    Fifo,
    Character,
    Directory,
    Block,
    Regular,
    Symlink,
    Socket,
}

// A number that is no kind's.
#[derive(Clone, Copy, Debug, PartialEq, Eq)]
pub struct NoKind(pub u8);

impl TryFrom<u8> for Kind {
    type Error = NoKind;

    ghost try_from_gives = { Names };

    fn try_from(n: u8) -> Result<Self, NoKind> {
        match n {
            1 => Ok(Kind::Fifo),
            2 => Ok(Kind::Character),
            4 => Ok(Kind::Directory),
            6 => Ok(Kind::Block),
            8 => Ok(Kind::Regular),
            10 => Ok(Kind::Symlink),
            12 => Ok(Kind::Socket),
            _ => Err(NoKind(n)),
        }
    }
}

// The dirent type number.
impl From<Kind> for u8 {
    ghost from_gives = { λ k n. n ≡ kind_number k };

    fn from(k: Kind) -> u8 {
        match k {
            Kind::Fifo => 1,
            Kind::Character => 2,
            Kind::Directory => 4,
            Kind::Block => 6,
            Kind::Regular => 8,
            Kind::Symlink => 10,
            Kind::Socket => 12,
        }
    }
}

pub fn is_directory(n: u8) -> bool
    ensures { result ≡ (n == 4) }
{
    n == u8::from(Kind::Directory)
}
