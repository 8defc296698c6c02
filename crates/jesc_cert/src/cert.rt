//! Certificates.

ghost use Rattle.std.specs.Prelude.{◌≡◌};
ghost use Rattle.jesc_cert.specs.declared.cert.CertError.TheVariants.{OutOfMemory as no_memory};

use jesc_text::{List, OutOfMemory, Text};

/// What a line of a certificate is, by its letter.
#[derive(Debug, Drop, Clone, Copy, PartialEq, Eq)]
pub enum CertKind {
    /// A further atom.
    T,
    /// A lemma of congruence.
    G,
    /// A lemma of linear arithmetic.
    R,
    /// A step of such a lemma.
    Q,
    /// A split.
    S,
    /// A leaf by a clause.
    C,
    /// A leaf by a lemma.
    M,
}

/// A line of a certificate: its kind, and the numbers behind the letter, in order.
#[derive(Debug, Drop)]
pub struct CertLine {
    pub kind: CertKind,
    pub numbers: List<i128>,
}

/// A certificate that clauses have no countermodel.
#[derive(Debug, Drop)]
pub struct Cert {
    pub lines: List<CertLine>,
}

/// The certificates of a file: the number of rounds, and of each certificate the name of the duty and the number of the
/// condition.
#[derive(Debug, Drop)]
pub struct Certs {
    pub rounds: u32,
    pub list: List<(Text, u32, Cert)>,
}

/// What `parse_cert` answers where it gives no certificates.
#[derive(Debug, Drop, Clone, Copy, PartialEq, Eq)]
pub enum CertError {
    /// This line, from 1, is the first that can't be continued. It may be the one behind the last line.
    Bad { line: u32 },
    OutOfMemory,
}

impl From<OutOfMemory> for CertError {
    ghost from_gives = { λ _ e. e ≡ no_memory };

    fn from(_error: OutOfMemory) -> CertError {
        CertError::OutOfMemory
    }
}
