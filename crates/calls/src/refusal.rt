// The refusals with their numbers, and what a call answers.
ghost use Rattle.std.specs.Prelude.{◌≡◌, ◌≤◌, Some};
ghost use Rattle.calls.specs.Refusal.{refusal_number, refusal_words, errno_of, packed};
ghost use Rattle.calls.specs.declared.refusal.Refusal.TheVariants.{Enfile};

use merge::load::LoadError;
use std::error::Error;
use std::fmt;

#[derive(Clone, Copy, Debug, PartialEq, Eq)]
pub enum Refusal {
    Eperm,
    Enoent,
    Eexist,
    Enotdir,
    Einval,
    Enfile,
    Enospc,
    Erofs,
    Enametoolong,
}

// "23 ENFILE node places or numbers don't suffice."
impl From<LoadError> for Refusal {
    ghost from_gives = { λ _ r. r ≡ Enfile };

    fn from(e: LoadError) -> Refusal {
        match e {
            LoadError::NoRoom => Refusal::Enfile,
        }
    }
}

// The errno.
impl From<Refusal> for u32 {
    ghost from_gives = { λ r n. (n ≡ refusal_number r) × (n ≤ 36) };

    fn from(r: Refusal) -> u32 {
        match r {
            Refusal::Eperm => 1,
            Refusal::Enoent => 2,
            Refusal::Eexist => 17,
            Refusal::Enotdir => 20,
            Refusal::Einval => 22,
            Refusal::Enfile => 23,
            Refusal::Enospc => 28,
            Refusal::Erofs => 30,
            Refusal::Enametoolong => 36,
        }
    }
}

impl fmt::Display for Refusal {
    ghost output = { λ r. Some (refusal_words r) };

    fn fmt<W: fmt::Write>(&self, f: &mut fmt::Formatter<W>) -> fmt::Result {
        f.write_str(match self {
            Refusal::Eperm => "operation not permitted",
            Refusal::Enoent => "no such file or directory",
            Refusal::Eexist => "file exists",
            Refusal::Enotdir => "not a directory",
            Refusal::Einval => "invalid argument",
            Refusal::Enfile => "too many nodes",
            Refusal::Enospc => "no space left in the upper layer",
            Refusal::Erofs => "read-only file system",
            Refusal::Enametoolong => "file name too long",
        })
    }
}

impl Error for Refusal {}

// ---- the two numbers in which C gets an answer (ABI.md)

// An answer in 32 bits: an errno, 0 for success.
pub fn errno_of(a: Result<usize, Refusal>) -> u32
    ensures { result ≡ errno_of a }
{
    match a {
        Ok(_) => 0,
        Err(r) => u32::from(r),
    }
}

// An answer in 64 bits: the errno in the upper 32, the value in the lower 32.
pub fn packed(a: Result<usize, Refusal>) -> u64
    ensures { result ≡ packed a }
{
    match a {
        Ok(v) => v as u64,
        Err(r) => 4294967296 * u64::from(u32::from(r)),
    }
}
