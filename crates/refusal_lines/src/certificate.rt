// The texts of certificates.
ghost use Rattle.std.specs.Prelude.{◌≡◌, ◌++◌, map, OnOk};
ghost use Rattle.certificate_model.specs.CertificateTexts.{path_text, step_text, certificate_text};
ghost use Rattle.certificates.specs.Shown.{step_shown};

use crate::words::push_number;
use certificates::{Certificate, Step};
use rb_base::{Memory, Text};

/// Appends the numbers of a path, with periods between.
fn push_path(path: &[usize], out: &mut Text) -> Result<(), Memory>
    ensures { OnOk result (out.new ≡ out.old ++ path_text path.now) }
{
    let Some((first, rest)) = path.split_first() else {
        return Ok(());
    };
    push_number(*first, out)?;
    for number in rest {
        out.push_slice(b".")?;
        push_number(*number, out)?;
    }
    Ok(())
}

/// Appends a step: its sign, its law and its path.
fn push_step(step: &Step, out: &mut Text) -> Result<(), Memory>
    ensures { OnOk result (out.new ≡ out.old ++ step_text (step_shown step.now)) }
{
    let sign: &[u8] = if step.forward { b"+" } else { b"-" };
    out.push_slice(sign)?;
    push_number(step.law, out)?;
    out.push_slice(b"@")?;
    push_path(step.path.as_slice(), out)
}

/// Appends the text of a certificate. On want of memory a part of it may be appended.
pub(crate) fn push_certificate(certificate: &Certificate, out: &mut Text) -> Result<(), Memory>
    ensures { OnOk result (out.new ≡ out.old ++ certificate_text (map step_shown certificate.now.steps.items)) }
{
    let Some((first, rest)) = certificate.steps.as_slice().split_first() else {
        return Ok(());
    };
    push_step(first, out)?;
    for step in rest {
        out.push_slice(b",")?;
        push_step(step, out)?;
    }
    Ok(())
}
