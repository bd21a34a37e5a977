// The line reader: what it holds, and where it starts.
ghost use Rattle.std.specs.Prelude.{◌≡◌, ◌≤◌, length};

// Goes over a file line by line, without copying it.
#[derive(Drop)]
pub struct LineReader<'a> {
    pub(crate) file: &'a [u8],
    // where the next line begins
    pub(crate) at: usize,
    // how many lines were read
    pub(crate) number: usize,
    ghost within: { at ≤ length file.now },
    ghost counted: { number ≤ at },
}

impl<'a> LineReader<'a> {
    // A reader at the start of the file.
    pub fn new(file: &'a [u8]) -> LineReader<'a>
        ensures { (result.file.now ≡ file.now) × (result.at ≡ 0) × (result.number ≡ 0) }
    {
        LineReader {
            file,
            at: 0,
            number: 0,
        }
    }

    // How many lines were read.
    pub fn lines_read(&self) -> usize
        ensures { result ≡ self.now.number }
    {
        self.number
    }
}
