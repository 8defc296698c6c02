//! The files of one program, parsed.

ghost use Rattle.jesc_headings.specs.Counted.{AreCounted};
ghost use Rattle.jesc_classes.specs.Given.{AreGiven};

use jesc_ast::File;
use jesc_java_parser::parse_file;
use jesc_lexer::lex;
use jesc_text::{List, OutOfMemory};
use std::alloc::Global;

/// Why files are not parsed.
#[derive(Debug, Drop, Clone, Copy, PartialEq, Eq)]
pub enum ParseStop {
    /// A file can't be read.
    Unread,
    /// There are more than 64 files, one has more than 1,048,576 bytes, or all together have more than 8,388,608 tokens.
    TooLarge,
    /// A file is none of the grammar, or memory ran out.
    NoFile,
}

impl From<OutOfMemory> for ParseStop {
    fn from(_error: OutOfMemory) -> ParseStop {
        ParseStop::NoFile
    }
}

/// Parsed files, in the order in which they were added.
#[derive(Drop)]
pub struct Parsed {
    files: List<File>,
    /// How many tokens they have together.
    tokens: usize,
    ghost spelled: { ∥ AreCounted files tokens ∥₁ },
}

impl Parsed {
    /// No files yet.
    pub fn new(alloc: Global) -> Parsed {
        Parsed {
            files: List::new(alloc),
            tokens: 0,
        }
    }

    /// The files.
    pub fn files(&self) -> &[File]
        ensures { ∥ AreGiven result.now ∥₁ }
    {
        self.files.as_slice()
    }

    /// Adds the file with these bytes.
    pub fn add(&mut self, alloc: Global, bytes: &[u8]) -> Result<(), ParseStop> {
        let number = self.files.len();
        if bytes.len() > 1048576 || number >= 64 {
            return Err(ParseStop::TooLarge);
        }
        let Ok(tokens) = lex(alloc, number as u32, bytes) else {
            return Err(ParseStop::NoFile);
        };
        let together = self.tokens.saturating_add(tokens.list.len());
        if together > 8388608 {
            return Err(ParseStop::TooLarge);
        }
        let Ok(file) = parse_file(alloc, &tokens) else {
            return Err(ParseStop::NoFile);
        };
        self.files.push(file)?;
        self.tokens = together;
        Ok(())
    }
}
