ghost use Rattle.std.specs.Prelude.{◌≡◌, ◌≤◌, length};
ghost use Rattle.jesc_text.specs.Places.{line_at, column_at};

/// A place in a file: the file's number, and the line and the column in bytes, both counted from 1.
#[derive(Debug, Drop, Clone, Copy, PartialEq, Eq)]
pub struct Place {
    pub file: u32,
    pub line: u32,
    pub col: u32,
}

/// The bytes of a file from the offset `from` up to the offset `to`, which is not among them.
#[derive(Debug, Drop, Clone, Copy, PartialEq, Eq)]
pub struct Span {
    pub file: u32,
    pub from: u32,
    pub to: u32,
}

/// The place of an offset in a text of at most 1,048,576 bytes.
///
/// The line is one more than the line feeds before the offset, and the column one more than the bytes since
/// the last of them. The offset may be the text's length, for the place of its end. Takes no memory.
pub fn place_of(text: &[u8], file: u32, offset: u32) -> Place
    requires within { offset ≤ length text.now }
    requires short { length text.now ≤ 1048576 }
    ensures { result ≡ record { file = file; line = line_at text.now offset; col = column_at text.now offset } }
{
    let mut line = 1;
    let mut col = 1;
    for byte in &text[..offset as usize] {
        if *byte == b'\n' {
            line += 1;
            col = 1;
        } else {
            col += 1;
        }
    }
    Place { file, line, col }
}
