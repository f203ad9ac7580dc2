// The parts of a line, and the numbers among them.
ghost use Rattle.std.specs.Prelude.{◌≡◌, ◌<◌, ◌≤◌, [], ◌∷◌, length, IfSome, MatchOption};
ghost use Rattle.plain.specs.Script.{parted, numeral};

const DIGITS: usize = 10;

// What stands before the first such byte, and what stands after it.
pub fn split_once<'a>(bytes: &'a [u8], byte: u8) -> Option<(&'a [u8], &'a [u8])>
    ensures parts { MatchOption result (parted byte bytes.now ≡ bytes.now ∷ []) (λ x. parted byte bytes.now ≡ x.0.now ∷ parted byte x.1.now) }
    ensures shorter { IfSome result (λ x. length x.1.now < length bytes.now) }
{
    let at = bytes.iter().position(|b| *b == byte)?;
    Some((&bytes[..at], &bytes[at + 1..]))
}

// A number of 1 to 10 digits, leading zeros among them, up to the limit.
pub fn read_number(field: &[u8], limit: u32) -> Option<u32>
    ensures value { result ≡ numeral limit field.now }
    ensures small { IfSome result (λ n. n ≤ limit) }
{
    if field.is_empty() || field.len() > DIGITS {
        return None;
    }
    let mut n: u64 = 0;
    // No `parse`: it takes a sign, and text, so that each byte would be tested before it all the same.
    for b in field {
        if !b.is_ascii_digit() {
            return None;
        }
        n = n * 10 + u64::from(*b - b'0');
    }
    let n = u32::try_from(n).ok()?;
    (n <= limit).then_some(n)
}

pub fn read_label(field: &[u8]) -> Option<u16>
    ensures { result ≡ numeral 65535 field.now }
{
    read_number(field, u32::from(u16::MAX)).and_then(|n| u16::try_from(n).ok())
}
