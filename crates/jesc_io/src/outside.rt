ghost use Rattle.std.specs.Prelude.{◌≡◌, ◌≤◌, ℕ, List, Option, IfOk, length};
ghost use Rattle.jesc_io.specs.Faults.{HasCause};
ghost use Rattle.jesc_io.specs.Contents.{Store, Opens, Reads, Creates, Adds, Gains, CanRead, CanPut};

use thiserror::Error;

/// Why a call on the outside failed.
#[derive(Debug, Drop, Clone, Copy, PartialEq, Eq, Error)]
pub enum IoError {
    /// The outside failed, and the object has counted it.
    #[error("the outside failed")]
    Failed,
    /// Memory ran out.
    #[error("out of memory")]
    OutOfMemory,
}

/// An output.
///
/// It may tell the bytes that it has taken, and always tells the count of its faults.
pub trait Sink {
    ghost taken: { Self → Option (List ℕ) };

    ghost faults: { Self → ℕ };

    /// Takes the whole piece, or answers an error and has taken a prefix of it.
    fn put(&mut self, piece: &[u8]) -> Result<(), IoError>
        ensures change { Gains (taken self.old) (taken self.new) piece.now result }
        ensures cause { HasCause (faults self.old) (faults self.new) 0 0 result };
}

/// Files by name, of which one is open for reading and one for writing.
///
/// They may tell what each name holds and what is open, and always tell two counts of faults: one of `open` and
/// `read`, one of `create` and `put`. An error leaves open what was open.
pub trait Files {
    ghost told: { Self → Option Store };

    ghost read_faults: { Self → ℕ };

    ghost write_faults: { Self → ℕ };

    /// Opens a name for reading, at its first byte.
    fn open(&mut self, name: &str) -> Result<(), IoError>
        ensures change { Opens (told self.old) (told self.new) name.now result }
        ensures cause { HasCause (read_faults self.old) (read_faults self.new) (write_faults self.old) (write_faults self.new) result };

    /// Reads the next bytes of the file that is open for reading, at most as many as there is room for.
    ///
    /// Their number is 0 only at the end of the file, or where there is no room. Something must be open.
    fn read(&mut self, into: &mut [u8]) -> Result<usize, IoError>
        requires { CanRead (told self.old) }
        ensures within { IfOk result (λ count. count ≤ length into.new) }
        ensures change { Reads (told self.old) (told self.new) into.new result }
        ensures cause { HasCause (read_faults self.old) (read_faults self.new) (write_faults self.old) (write_faults self.new) result };

    /// Makes a file empty, whether it is there or not, and opens it for writing.
    ///
    /// At an error the file is empty or as it was.
    fn create(&mut self, name: &str) -> Result<(), IoError>
        ensures change { Creates (told self.old) (told self.new) name.now result }
        ensures cause { HasCause (write_faults self.old) (write_faults self.new) (read_faults self.old) (read_faults self.new) result };

    /// Adds the whole piece at the end of the file that is open for writing, or answers an error and has added a
    /// prefix of it. Something must have been created.
    fn put(&mut self, piece: &[u8]) -> Result<(), IoError>
        requires { CanPut (told self.old) }
        ensures change { Adds (told self.old) (told self.new) piece.now result }
        ensures cause { HasCause (write_faults self.old) (write_faults self.new) (read_faults self.old) (read_faults self.new) result };
}
