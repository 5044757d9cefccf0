// The steps of a certificate.
ghost use Rattle.std.specs.Prelude.{◌≡◌};
ghost use Rattle.certificates.specs.declared.certificate.CertificateFault.TheVariants as fault;

use rb_base::Memory;
use st_tree::Path;
use std::alloc::AllocError;

/// One use of a law of rewriting.
#[derive(Drop)]
pub struct Step {
    /// The number of the law, from 1 to 10.
    pub law: usize,
    /// Whether its left side becomes its right side; else the right side becomes the left one.
    pub forward: bool,
    /// Where the law is applied in the pattern; the empty path leads to all of it.
    pub path: Path,
}

/// The steps that are to lead from the pattern of a rule to its replacement.
#[derive(Drop)]
pub struct Certificate {
    pub steps: Vec<Step>,
}

/// Why a text is no certificate.
#[derive(Clone, Copy)]
pub enum CertificateFault {
    /// At this offset in bytes is the first byte that continues no certificate, or the end of the text where more is wanted.
    BadStep { at: usize },
    /// Want of memory.
    Memory,
}

impl From<Memory> for CertificateFault {
    ghost from_gives = { λ _ e. e ≡ fault.Memory };

    fn from(_error: Memory) -> CertificateFault {
        CertificateFault::Memory
    }
}

impl From<AllocError> for CertificateFault {
    ghost from_gives = { λ _ e. e ≡ fault.Memory };

    fn from(_error: AllocError) -> CertificateFault {
        CertificateFault::Memory
    }
}
