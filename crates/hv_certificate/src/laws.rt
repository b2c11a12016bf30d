//! A certificate and its text are one.

ghost use Rattle.std.specs.Prelude.{◌≡◌, ℕ, List};
ghost use Rattle.hv_certificate.specs.Texts.{cert_text};
ghost use Rattle.hv_certificate.specs.Views.{certificate_view};
ghost use Rattle.hv_certificate.specs.Forms.{IsCertText, IsCertFault, HasNumbers};
ghost use Rattle.hv_certificate.specs.declared.certificate.Certificate.{Certificate};
ghost use Rattle.hv_certificate.specs.declared.fault.CertFault.{CertFault};
ghost use Rattle.hv_certificate.specs.declared.fault.CertFault.TheVariants as faults;

/// Certificates that are equal, letter case of names aside, have equal bytes; and those that have
/// equal bytes are equal.
pub fn certificates_are_their_texts()
    ensures bytes { (c e : Certificate) → certificate_view c ≡ certificate_view e
        → cert_text c ≡ cert_text e }
    ensures one { (c e : Certificate) → HasNumbers c → HasNumbers e → cert_text c ≡ cert_text e
        → certificate_view c ≡ certificate_view e }
{}

/// No text is one certificate's and has a fault, and none has two faults, want of memory aside.
pub fn a_certificate_or_a_fault()
    ensures faultless { (text : List ℕ) (c : Certificate) (f : CertFault)
        → IsCertText text c → IsCertFault text f → f ≡ faults.Memory }
    ensures one_fault { (text : List ℕ) (f g : CertFault) → IsCertFault text f
        → IsCertFault text g → (f ≡ faults.Memory → ⊥) → (g ≡ faults.Memory → ⊥) → f ≡ g }
{}
