// The input, line by line.
ghost use Rattle.std.specs.Prelude.{◌+◌, ◌^◌, ◌<◌, length};

use lines::fields::split_once;

// A line without its line feed. Lines count from 1.
#[derive(Clone, Copy)]
pub struct Line<'a> {
    pub number: usize,
    pub bytes: &'a [u8],
}

// The lines that are left of an input, from the one of this number on.
#[derive(Clone, Copy)]
pub struct Lines<'a> {
    number: usize,
    rest: &'a [u8],
    ghost counts: { number + length rest.now < 2 ^ 64 },
}

impl<'a> Lines<'a> {
    ghost use Rattle.std.specs.Prelude.{◌≡◌};
    ghost use Rattle.plain.specs.Script.{lines_of};
    ghost use Rattle.script.specs.Input.{left, next_number};

    pub fn new(input: &'a [u8]) -> Lines<'a>
        ensures first { next_number result ≡ 1 }
        ensures all { left result ≡ lines_of input.now }
    {
        Lines {
            number: 1,
            rest: input,
        }
    }
}

impl<'a> Iterator for Lines<'a> {
    ghost use Rattle.std.specs.Iterator.{at_most};
    ghost use Rattle.script.specs.Input.{TakesLine};

    type Item = Line<'a>;

    ghost next_gives = { TakesLine };

    ghost remaining = { λ s. at_most (length s.rest.now) };

    fn next(&mut self) -> Option<Line<'a>> {
        if self.rest.is_empty() {
            return None;
        }
        let (bytes, rest) = split_once(self.rest, b'\n').unwrap_or((self.rest, &[]));
        let number = self.number;
        self.number += 1;
        self.rest = rest;
        Some(Line { number, bytes })
    }
}
