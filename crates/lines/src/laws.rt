// What is shown of rows, lines and whole files.
ghost use Rattle.lines.specs.Decode.{Decodes};
ghost use Rattle.lines.specs.Split.{Splits};
ghost use Rattle.lines.specs.Whole.{ReadsWhole};

// A file's rows are the file, split at its line ends in the only way.
pub fn rows_are_the_file()
    ensures { Splits }
{}

// The decoding of a row finds the one line that it is.
pub fn rows_are_decoded()
    ensures { Decodes }
{}

// Calls made one after another from the start of a file answer its lines in their order, up to the first that cannot be read.
pub fn files_are_read_whole()
    ensures { ReadsWhole }
{}
