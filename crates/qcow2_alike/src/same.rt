// Translations, compared. By hand, since the derived `==` of a refusal speaks of its cause, and `same_found` of its number.
ghost use Rattle.std.specs.Prelude.{◌≡◌};
ghost use Rattle.qcow2_spec.specs.Runs.{found_kind, found_number, same_found};

use qcow2_spec::Found;
use qcow2_spec::refusal::Refusal;

fn kind(f: &Result<Found, Refusal>) -> u8
    ensures { result ≡ found_kind f.now }
{
    match f {
        Ok(Found::Host(_)) => 0,
        Ok(Found::Zeros) => 1,
        Ok(Found::Absent) => 2,
        Err(_) => 3,
    }
}

fn number(f: &Result<Found, Refusal>) -> u64
    ensures { result ≡ found_number f.now }
{
    match f {
        Ok(Found::Host(h)) => *h,
        Ok(Found::Zeros) => 0,
        Ok(Found::Absent) => 0,
        Err(e) => u64::from(e.number()),
    }
}

// Whether two translations are the same.
pub fn same(e: &Result<Found, Refusal>, f: &Result<Found, Refusal>) -> bool
    ensures { result ≡ same_found e.now f.now }
{
    if kind(e) != kind(f) {
        return false;
    }
    number(e) == number(f)
}
