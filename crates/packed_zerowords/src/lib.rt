// Whether one of many numbers of whole bytes is 0.
#![tactic(auto)]

ghost use Rattle.std.specs.Prelude.{◌≡◌, ◌+◌, ◌*◌, ◌^◌, ◌≤◌, length};
ghost use Rattle.packed.specs.Packed.{zero_at};
ghost use Rattle.packed_zerowords.specs.Found.{some};

// Whether number i of 2 to the power ORDER bits is 0: exactly where the turned number is, and of 64 bits where both halves are. The vectors that every
// x86-64 has compare no 64 bits at once.
fn zero<const ORDER: u32>(part: &[u8], i: usize) -> bool
    requires { ((4 ≤ ORDER) × (ORDER ≤ 6)) × (2 ^ ORDER * (i + 1) ≤ 8 * length part.now) }
    ensures { result ≡ zero_at ORDER part.now i }
{
    if ORDER == 4 {
        return packed::turned16(part, 2 * i) == 0;
    }
    if ORDER == 5 {
        return packed::turned32(part, 4 * i) == 0;
    }
    packed::turned32(part, 8 * i) | packed::turned32(part, 8 * i + 4) == 0
}

// Whether one of the first n numbers of 2 to the power ORDER bits is 0.
pub fn some_in_words<const ORDER: u32>(part: &[u8], n: usize) -> bool
    requires { ((4 ≤ ORDER) × (ORDER ≤ 6)) × (2 ^ ORDER * n ≤ 8 * length part.now) }
    ensures { result ≡ some (zero_at ORDER part.now) n }
{
    let mut found = false;
    for i in 0..n {
        found |= zero::<ORDER>(part, i);
    }
    found
}
