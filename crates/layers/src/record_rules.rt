// The rules of one record, by value.
ghost use Rattle.std.specs.Prelude.{◌≡◌};
ghost use Rattle.layers.specs.Rules.{free_record_test, kind_test, opaque_test, device_test, settings_test, record_test};

use crate::items::{Record, no_record};
use crate::kinds;
use crate::kinds::Kind;

fn record_is_blank(r: Record) -> bool
    ensures { result ≡ free_record_test r }
{
    r == Record {
        number: r.number,
        ..no_record()
    }
}

// "the mark is set only on directories"
fn opaque_fits(o: u8, k: u8) -> bool
    ensures { result ≡ opaque_test o k }
{
    o == 0 || kinds::is_directory(k)
}

// "The device number is 0 except for devices"
fn device_fits(k: u8, d: u64) -> bool
    ensures { result ≡ device_test k d }
{
    k == u8::from(Kind::Character) || k == u8::from(Kind::Block) || d == 0
}

fn settings_are_good(r: Record) -> bool
    ensures { result ≡ settings_test r }
{
    r.mark == 0
        && r.links == 0
        && r.opaque <= 1
        && opaque_fits(r.opaque, r.kind)
        && device_fits(r.kind, r.device)
}

// Whether the fields of the record `r` at place `i` keep the rules.
pub fn record_is_good(i: usize, r: Record) -> bool
    ensures { result ≡ record_test i r }
{
    if r.number == 0 {
        return record_is_blank(r);
    }
    if usize::from(r.number) != i {
        return false;
    }
    if Kind::try_from(r.kind).is_err() {
        return false;
    }
    if 4095 < r.permissions {
        return false;
    }
    settings_are_good(r)
}
