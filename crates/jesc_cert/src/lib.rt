//! Certificates: what they are and their text.
//!
//! `cert` has the types. `print` appends a certificate's block to a text, and `parse` reads a file of certificates, line by
//! line, with `line_reader` for one line. A newcomer starts at `specs/Texts.antt`, which says what the text of certificates is
//! and which line of other bytes can't be continued.
#![tactic(auto)]

mod cert;
mod line_reader;
mod parse;
mod print;

pub use cert::{Cert, CertError, CertKind, CertLine, Certs};
pub use parse::parse_cert;
pub use print::print_cert;
