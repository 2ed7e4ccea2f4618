// Whether bytes are all 0.
#![tactic(auto)]

ghost use Rattle.std.specs.Prelude.{◌≡◌, eqb};
ghost use Rattle.choice.specs.Pick.{all};

// Whether every byte of a part is 0. The loop has one way out, so that it compiles to loads of 16 bytes.
pub fn all_zeros(part: &[u8]) -> bool
    ensures { result ≡ all (λ b. eqb b 0) part.now }
{
    let mut seen: u8 = 0;
    for b in part {
        seen |= *b;
    }
    seen == 0
}

// The same for a long part, by groups of 512 bytes: a length that is known compiles to straight code.
pub fn all_clear(part: &[u8]) -> bool
    ensures { result ≡ all (λ b. eqb b 0) part.now }
{
    let mut at = 0;
    // A `while`: it goes on by groups, and what is left after the last is looked at by itself.
    while 512 <= part.len() - at {
        if all_zeros(&part[at..at + 512]) {
            at += 512;
        } else {
            return false;
        }
    }
    all_zeros(&part[at..])
}
