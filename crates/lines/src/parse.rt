// One line, taken apart by its first letter.
ghost use Rattle.std.specs.Prelude.{ℕ, ◌+◌, ◌^◌, ◌<◌, List, length, MatchResult};
ghost use Rattle.lines.specs.Kinds.{Kind, Spells, bid as bidding};
ghost use Rattle.lines.specs.Reader.{kind_of, Stands};

use crate::line::{Line, Malformed, Part};
use crate::number::Number;

// A bid's line; its text begins at the offset `at`.
fn bid(text: &[u8], at: usize) -> Result<Line<'_>, Malformed>
    requires { at + length text.now < 2 ^ 64 }
    ensures { MatchResult result (λ l. Spells text.now (kind_of l) × Stands at l) (λ e. (n p : List ℕ) → Spells text.now (bidding n p) → ⊥) }
{
    let [b'B', b' ', numbers @ ..] = text else {
        return Err(Malformed::Shape);
    };
    let Some(space) = numbers.iter().position(|b| *b == b' ') else {
        return Err(Malformed::Shape);
    };
    let buyer = Number::try_from(Part {
        at: at + 2,
        bytes: &numbers[..space],
    })?;
    let price = Number::try_from(Part {
        at: at + 3 + space,
        bytes: &numbers[space + 1..],
    })?;
    Ok(Line::Bid { buyer, price })
}

// The line that the text is; it begins at the offset `at`. By the rules the first line and the last are compared whole, and every
// other line is known by its first letter.
pub(crate) fn parse(text: &[u8], at: usize) -> Result<Line<'_>, Malformed>
    requires { at + length text.now < 2 ^ 64 }
    ensures { MatchResult result (λ l. Spells text.now (kind_of l) × Stands at l) (λ e. (k : Kind) → Spells text.now k → ⊥) }
{
    if text == b"SALE 94".as_slice() {
        return Ok(Line::Header);
    }
    if text == b"END".as_slice() {
        return Ok(Line::End);
    }
    let [first, rest @ ..] = text else {
        return Err(Malformed::Shape);
    };
    match *first as char {
        'G' if rest.is_empty() => Ok(Line::Open),
        'E' if rest.is_empty() => Ok(Line::Close),
        'L' if rest.is_empty() => Ok(Line::Lot),
        'B' => bid(text, at),
        '*' => Ok(Line::Remark(Part {
            at: at + 1,
            bytes: rest,
        })),
        _ => Err(Malformed::Shape),
    }
}
