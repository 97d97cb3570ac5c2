//! Certificates of a model's answers: what they hold, and their texts, printed and read.
//!
//! Stands on `pami_model`, whose names a text tells in order, on `pami_lines`, which has the lines of certificates, and
//! on `pami_edge`, which says what lines of bytes are. The layers above may rely on `print_cert` writing exactly a
//! certificate's lines, on `read_cert` answering the certificate of a text or its first fault, exactly, and on a
//! printed text being read as the certificate that was printed. What a text is stands in `specs/CertText.antt`, what is
//! due in each of its lines in `specs/Due.antt`, and its first fault in `specs/FirstFault.antt`.
//!
//! A caller, which stands among the tests:
//!
//! ```
//! /// The text of the certificate alone, without what stands around it.
//! fn reprinted(alloc: Global, bytes: &[u8], model: &Model) -> Result<Vec<u8>, Fault<CertFault>> {
//!     let cert = read_cert(alloc, bytes, model)?;
//!     Ok(print_cert(alloc, model, &cert)?)
//! }
//! ```
#![tactic(auto)]

mod cert;
mod judge;
mod laws;
mod part;
mod print;
mod read;
#[cfg(test)]
mod tests;
mod text;
mod words;

pub use cert::{Cert, CertFault, CertKind};
pub use laws::{
    certificate_or_fault, not_certificate_and_fault, one_certificate, one_first_fault,
    printed_texts_are_certificates,
};
pub use print::print_cert;
pub use read::read_cert;
