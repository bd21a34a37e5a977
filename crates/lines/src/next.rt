// The next line of a file.
ghost use Rattle.std.specs.Prelude.{◌≡◌, ◌+◌, ◌-◌, ◌<◌, length, drop};
ghost use Rattle.lines.specs.Rows.{rows_of, content};
ghost use Rattle.lines.specs.Reader.{Next};

use crate::line::{Numbered, Unreadable};
use crate::parse::parse;
use crate::reader::LineReader;

// The line without one byte 13 at its end.
fn trimmed(line: &[u8]) -> &[u8]
    ensures { result.now ≡ content line.now }
{
    line.strip_suffix(b"\r").unwrap_or(line)
}

impl<'a> LineReader<'a> {
    // The next line, or nothing where the file is over.
    pub fn next(&mut self) -> Result<Option<Numbered<'a>>, Unreadable>
        ensures same { self.new.file.now ≡ self.old.file.now }
        ensures next { Next self.old.file.now (rows_of (drop self.old.at self.old.file.now)) self.old.number self.old.at result self.new.number self.new.at }
    {
        let file = self.file;
        let at = self.at;
        let rest = &file[at..];
        if rest.is_empty() {
            return Ok(None);
        }
        let number = self.number + 1;
        let unreadable = Unreadable { line: number };
        self.at = file.len();
        self.number = number;
        let length = rest.iter().position(|b| *b == b'\n').ok_or(unreadable)?;
        let line = parse(trimmed(&rest[..length]), at).map_err(|_| unreadable)?;
        self.at = at + length + 1;
        Ok(Some(Numbered { number, line }))
    }
}
