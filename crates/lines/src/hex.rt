// Bytes written as pairs of hexadecimal digits, which stay where they stand in the line.
ghost use Rattle.std.specs.Prelude.{◌≡◌, ◌<◌, List, ◌++◌, length, is_ok, if◌then◌else◌};
ghost use Rattle.std.specs.Option.{option_map};
ghost use Rattle.plain.specs.Script.{nibble, hexes};
ghost use Rattle.lines.specs.Bytes.{digit_value_of, bytes_of};

use std::alloc::AllocError;

// Only `Hex::read` makes one, of digits none of which is upper case.
#[derive(Clone, Copy)]
pub struct Hex<'a> {
    pairs: &'a [[u8; 2]],
}

fn read_digit(b: u8) -> Option<u8>
    ensures { result ≡ nibble b }
{
    match b {
        b'0'..=b'9' => Some(b - b'0'),
        b'a'..=b'f' => Some(b - b'a' + 10),
        _ => None,
    }
}

fn digit_value(b: u8) -> u8
    ensures value { result ≡ digit_value_of b }
    ensures small { result < 16 }
{
    read_digit(b).unwrap_or(0)
}

impl<'a> Hex<'a> {
    pub fn read(field: &'a [u8]) -> Option<Hex<'a>>
        ensures { option_map bytes_of result ≡ hexes field.now }
    {
        let (pairs, odd) = field.as_chunks::<2>();
        if !odd.is_empty() {
            return None;
        }
        let all_digits = field.iter().all(|b| read_digit(*b).is_some());
        all_digits.then_some(Hex { pairs })
    }

    // How many bytes it stands for.
    pub fn len(&self) -> usize
        ensures { result ≡ length (bytes_of self.now) }
    {
        self.pairs.len()
    }

    // Appends the bytes, or nothing where there is no memory.
    pub fn decode_into(&self, out: &mut Vec<u8>) -> Result<(), AllocError>
        ensures { out.new.items ≡ (if is_ok result then out.old.items ++ bytes_of self.now else out.old.items) }
    {
        out.reserve(self.len())?;
        for [high, low] in self.pairs {
            out.push_reserved(digit_value(*high) * 16 + digit_value(*low));
        }
        Ok(())
    }
}
