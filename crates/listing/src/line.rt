//! A line of the listing.
ghost use Rattle.std.specs.Prelude.{◌≡◌, ◌+◌, ◌-◌, ◌≤◌, [], ◌++◌, length, take, drop, replicate, decimal};
ghost use Rattle.listing.specs.declared.line.TheConstants.{CELLS};

use itoa::Buffer;

// The cells of a line, each for a byte.
const CELLS: usize = 64;

// A text of at most 64 bytes, with blanks after it.
#[derive(Clone, Copy)]
pub(crate) struct Line {
    cells: [u8; CELLS],
    filled: usize,
    ghost all: { length cells ≡ CELLS },
    ghost within: { filled ≤ CELLS },
    ghost blank: { drop filled cells ≡ replicate (CELLS - filled) 32 },
}

impl Line {
    ghost use Rattle.listing.specs.Lines.{line_text};

    // A line of blanks.
    pub(crate) fn blank() -> Line
        ensures { line_text result ≡ [] }
    {
        Line {
            cells: [b' '; CELLS],
            filled: 0,
        }
    }

    // Writes bytes after the text. They have to fit.
    pub(crate) fn word(&mut self, text: &[u8])
        requires { length (line_text self.old) + length text.now ≤ CELLS }
        ensures after { line_text self.new ≡ line_text self.old ++ text.now }
        ensures room { length (line_text self.new) ≡ length (line_text self.old) + length text.now }
    {
        let end = self.filled + text.len();
        self.cells[self.filled..end].copy_from_slice(text);
        self.filled = end;
    }

    // Writes a number after the text, in decimal digits without leading zeros. They have to fit.
    pub(crate) fn number(&mut self, n: usize)
        requires { length (line_text self.old) + length (decimal n) ≤ CELLS }
        ensures after { line_text self.new ≡ line_text self.old ++ decimal n }
        ensures room { length (line_text self.new) ≡ length (line_text self.old) + length (decimal n) }
    {
        self.word(Buffer::new().format(n).as_bytes());
    }

    // The text, without the blanks after it.
    pub(crate) fn text(&self) -> &[u8]
        ensures { result.now ≡ line_text self.now }
    {
        &self.cells[..self.filled]
    }
}
