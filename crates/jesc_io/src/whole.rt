ghost use Rattle.std.specs.Prelude.{◌≡◌};
ghost use Rattle.jesc_io.specs.Contents.{SameContents};
ghost use Rattle.jesc_io.specs.Whole.{IsWhole, StopsAt, ReadHasCause};

use crate::outside::{Files, IoError};
use jesc_text::List;
use std::alloc::Global;
use thiserror::Error;

/// Why a file wasn't read whole.
#[derive(Debug, Drop, Clone, Copy, PartialEq, Eq, Error)]
pub enum ReadError {
    /// The outside failed, and the files have counted it.
    #[error("the file can't be read")]
    Failed,
    /// The file has more than 1,048,576 bytes.
    #[error("the file is too large")]
    TooLarge,
    /// Memory ran out.
    #[error("out of memory")]
    OutOfMemory,
}

/// The content of a file of at most 1,048,576 bytes.
///
/// `TooLarge` comes exactly where more bytes came, and reading then stops at 1,048,577. Contents and the name open
/// for writing stay as they were.
pub fn read_whole<F: Files>(alloc: Global, files: &mut F, name: &str) -> Result<List<u8>, ReadError>
    ensures whole { IsWhole (F.told files.old) name.now result }
    ensures stop { StopsAt (F.told files.old) (F.told files.new) name.now result }
    ensures cause { ReadHasCause (F.read_faults files.old) (F.read_faults files.new) result }
    ensures others { F.write_faults files.new ≡ F.write_faults files.old }
    ensures same { SameContents (F.told files.old) (F.told files.new) }
{
    match files.open(name) {
        Ok(_) => {}
        Err(IoError::Failed) => return Err(ReadError::Failed),
        Err(IoError::OutOfMemory) => return Err(ReadError::OutOfMemory),
    }
    let mut all = List::new(alloc);
    let mut buffer = [0u8; 65536];
    while all.len() <= 1048576 {
        let room = (1048577 - all.len()).min(65536);
        match files.read(&mut buffer[..room]) {
            Ok(0) => return Ok(all),
            Ok(count) => match all.append(&buffer[..count]) {
                Ok(_) => {}
                Err(_) => return Err(ReadError::OutOfMemory),
            },
            Err(IoError::Failed) => return Err(ReadError::Failed),
            Err(IoError::OutOfMemory) => return Err(ReadError::OutOfMemory),
        }
    }
    Err(ReadError::TooLarge)
}
