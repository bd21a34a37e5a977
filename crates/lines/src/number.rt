// The numbers of a file: how they are written, and what they say.
ghost use Rattle.std.specs.Prelude.{◌≡◌, MatchResult};
ghost use Rattle.lines.specs.Kinds.{Numeral, value as value_of};

use crate::line::Part;

// The most digits of a number.
const MAX_DIGITS: usize = 10;

// A part that is written as a number is.
#[derive(Clone, Copy, Debug, PartialEq)]
pub struct Number<'a> {
    pub part: Part<'a>,
    ghost written: { Numeral part.bytes.now },
}

// The part at this offset is not written as a number is.
#[derive(Clone, Copy, Debug, PartialEq)]
pub struct BadNumber {
    pub at: usize,
}

impl<'a> TryFrom<Part<'a>> for Number<'a> {
    type Error = BadNumber;

    ghost try_from_gives = { λ p r. MatchResult r (λ n. n.part ≡ p) (λ e. (e.at ≡ p.at) × (Numeral p.bytes.now → ⊥)) };

    fn try_from(part: Part<'a>) -> Result<Number<'a>, BadNumber> {
        let is_number = match part.bytes {
            [] | [b'0', _, ..] => false,
            digits => digits.len() <= MAX_DIGITS && digits.iter().all(|b| b.is_ascii_digit()),
        };
        if is_number {
            Ok(Number { part })
        } else {
            Err(BadNumber { at: part.at })
        }
    }
}

impl Number<'_> {
    // The number that the digits say.
    pub fn value(self) -> u64
        ensures { result ≡ value_of self.entry.part.bytes.now }
    {
        self.part
            .bytes
            .iter()
            .fold(0, |n, d| n * 10 + u64::from(*d - b'0'))
    }
}
