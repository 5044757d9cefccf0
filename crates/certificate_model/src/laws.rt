// Laws of the texts of certificates. Each function does nothing; its contract is the law.
ghost use Rattle.std.specs.Prelude.{◌≡◌, ◌⊎◌, ℕ, List, [], ◌∷◌, true, false, codes};
ghost use Rattle.certified_model.specs.Marks.{Text};
ghost use Rattle.certified_model.specs.Certificates.{CertStep};
ghost use Rattle.certificate_model.specs.CertificateTexts.{SaysCertificate, HasBadStep};

/// A text says one certificate, or has one first byte that continues none, never both.
pub fn has_one_certificate()
    ensures either { (text : Text) → ((xs : List CertStep) × SaysCertificate text xs) ⊎ ((at : ℕ) × HasBadStep text at) }
    ensures one { (text : Text) (xs ys : List CertStep) → SaysCertificate text xs → SaysCertificate text ys → xs ≡ ys }
    ensures refused { (text : Text) (xs : List CertStep) (at : ℕ) → SaysCertificate text xs → ¬ HasBadStep text at }
    ensures one_place { (text : Text) (a b : ℕ) → HasBadStep text a → HasBadStep text b → a ≡ b }
    ensures example { SaysCertificate (codes "+2@,-10@1.0.12") (record { law = 2; forward = true; path = [] } ∷ record { law = 10; forward = false; path = 1 ∷ 0 ∷ 12 ∷ [] } ∷ []) }
{}
