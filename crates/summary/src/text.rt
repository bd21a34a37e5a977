// The text of a report.
ghost use Rattle.std.specs.Prelude.{◌≡◌, ℕ, List, map, IfOk, Some, string_bytes};
ghost use Rattle.std.specs.Fmt.{WritesOnOk};
ghost use Rattle.summary.specs.Text.{winner_line, payment_line, top_line, report_text, refusal_text, printed_text};
ghost use Rattle.summary.specs.Reports.{said};
ghost use Rattle.scales.specs.Places.{somes};
ghost use Rattle.books.specs.Worked.{ended};

use crate::contents::{Payment, Summary, Winner};
use crate::report::{FileReport, Refusal};
use std::alloc::{AllocError, Global};
use std::fmt;

impl fmt::Display for Winner {
    ghost output = { λ w. Some (winner_line w) };

    fn fmt<W: fmt::Write>(&self, f: &mut fmt::Formatter<W>) -> fmt::Result {
        let Winner {
            number,
            buyer,
            price,
        } = self;
        write!(f, "BID {number} BUYER {buyer} PRICE {price}")
    }
}

impl fmt::Display for Payment {
    ghost output = { λ p. Some (payment_line p) };

    fn fmt<W: fmt::Write>(&self, f: &mut fmt::Formatter<W>) -> fmt::Result {
        let Payment { buyer, amount } = self;
        write!(f, "BUYER {buyer} PAYS {amount}")
    }
}

// Each value on a line of its own.
fn write_lines<W: fmt::Write, D: fmt::Display>(
    f: &mut fmt::Formatter<W>,
    values: &[D],
) -> fmt::Result
    ensures { (line : D → List ℕ) → ((d : D) → D.Display.output d ≡ Some (line d)) → WritesOnOk W.Write.write_str_gives f.old result (ended (map line values.now)) f.new }
{
    for value in values {
        writeln!(f, "{value}")?;
    }
    Ok(())
}

// The line of the greatest amounts, without its end.
fn write_top<W: fmt::Write>(f: &mut fmt::Formatter<W>, top: &[Option<u64>]) -> fmt::Result
    ensures { WritesOnOk W.Write.write_str_gives f.old result (top_line (somes top.now)) f.new }
{
    f.write_str("TOP")?;
    for amount in top.iter().flatten() {
        write!(f, " {amount}")?;
    }
    Ok(())
}

impl fmt::Display for Summary {
    ghost output = { λ s. Some (report_text (said s)) };

    fn fmt<W: fmt::Write>(&self, f: &mut fmt::Formatter<W>) -> fmt::Result {
        let Summary {
            revenue,
            winners,
            payments,
            ways,
            top,
        } = self;
        writeln!(f, "REVENUE {revenue}")?;
        write_lines(f, winners.as_slice())?;
        write_lines(f, payments.as_slice())?;
        writeln!(f, "WAYS {ways}")?;
        write_top(f, top)?;
        f.write_str("\n")
    }
}

impl Summary {
    // The lines of the report. Only want of memory is an error.
    pub fn text(&self, heap: Global) -> Result<String, AllocError>
        ensures { IfOk result (λ t. string_bytes t ≡ report_text (said self.now)) }
    {
        format!(in heap; "{self}")
    }
}

impl fmt::Display for Refusal {
    ghost output = { λ r. Some (refusal_text r.number r.line) };

    fn fmt<W: fmt::Write>(&self, f: &mut fmt::Formatter<W>) -> fmt::Result {
        let Refusal { number, line } = self;
        writeln!(f, "REFUSED {number} LINE {line}")
    }
}

// The line of a refused file.
pub fn refusal_text(heap: Global, number: u8, line: usize) -> Result<String, AllocError>
    ensures { IfOk result (λ t. string_bytes t ≡ refusal_text number line) }
{
    let refusal = Refusal { number, line };
    format!(in heap; "{refusal}")
}

impl fmt::Display for FileReport {
    ghost output = { λ r. Some (printed_text r) };

    fn fmt<W: fmt::Write>(&self, f: &mut fmt::Formatter<W>) -> fmt::Result {
        match self {
            FileReport::Accepted(summary) => write!(f, "{summary}"),
            FileReport::Refused(refusal) => write!(f, "{refusal}"),
        }
    }
}
