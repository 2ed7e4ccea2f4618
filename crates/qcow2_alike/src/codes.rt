// A translation as numbers.
ghost use Rattle.std.specs.Prelude.{◌≡◌};
ghost use Rattle.qcow2_spec.specs.Runs.{found_code, found_host};

use qcow2_spec::Found;
use qcow2_spec::refusal::Refusal;

pub fn found_code(f: &Result<Found, Refusal>) -> u32
    ensures { result ≡ found_code f.now }
{
    match f {
        Ok(Found::Host(_)) => 0,
        Ok(Found::Zeros) => 1002,
        Ok(Found::Absent) => 1003,
        Err(e) => u32::from(e.number()),
    }
}

pub fn found_host(f: &Result<Found, Refusal>) -> u64
    ensures { result ≡ found_host f.now }
{
    match f {
        Ok(Found::Host(h)) => *h,
        Ok(Found::Zeros) => 0,
        Ok(Found::Absent) => 0,
        Err(_) => 0,
    }
}
