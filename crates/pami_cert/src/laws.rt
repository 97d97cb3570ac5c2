//! What holds of all texts: each is a text of one certificate or has one first fault, and what is printed is a text.

ghost use Rattle.std.specs.Prelude.{◌≡◌, ◌⊎◌, ℕ, List};
ghost use Rattle.pami_model.specs.Contents.{Contents};
ghost use Rattle.pami_cert.specs.declared.cert.Cert.{Cert};
ghost use Rattle.pami_cert.specs.declared.cert.CertFault.{CertFault};
ghost use Rattle.pami_cert.specs.CertText.{IsCertText};
ghost use Rattle.pami_cert.specs.FirstFault.{FirstFault};
ghost use Rattle.pami_cert.specs.Plain.{IsPrinted};

/// One text has one certificate.
pub fn one_certificate()
    ensures { (c : Contents) (bytes : List ℕ) (a b : Cert) → IsCertText c bytes a → IsCertText c bytes b → a ≡ b }
{}

/// One text has one first fault.
pub fn one_first_fault()
    ensures { (c : Contents) (bytes : List ℕ) (f g : CertFault) → FirstFault c bytes f → FirstFault c bytes g → f ≡ g }
{}

/// A text has a certificate or a first fault.
pub fn certificate_or_fault()
    ensures { (c : Contents) (bytes : List ℕ)
        → ((cert : Cert) × IsCertText c bytes cert) ⊎ ((fault : CertFault) × FirstFault c bytes fault) }
{}

/// No text has both.
pub fn not_certificate_and_fault()
    ensures { (c : Contents) (bytes : List ℕ) (cert : Cert) (fault : CertFault)
        → IsCertText c bytes cert → FirstFault c bytes fault → ⊥ }
{}

/// What is printed of a certificate, with lines in front that begin none and anything behind it within the limit, is a
/// text of it, where its fractions fit and no name of the model has a blank or the end of a line in it.
pub fn printed_texts_are_certificates()
    ensures { (c : Contents) (bytes : List ℕ) (cert : Cert) → IsPrinted c bytes cert → IsCertText c bytes cert }
{}
