//! The moment of an event.

ghost use Rattle.std.specs.Prelude.{◌≡◌, length, IfOk};
ghost use Rattle.gu_log.specs.Moments.{date_text, moment_text, sent_len};

use std::alloc::{AllocError, Global};

/// How many bytes FIX's SendingTime (52) has, with milliseconds.
const SENT_LEN: usize = 21;

/// The date of a SendingTime, with hyphens.
fn date_of(alloc: Global, sent: &[u8]) -> Result<Vec<u8>, AllocError>
    requires { length sent.now ≡ sent_len }
    ensures { IfOk result (λ v. v.items ≡ date_text sent.now) }
{
    let mut text = Vec::from_slice(alloc, &sent[..4])?;
    text.extend_from_slice(b"-")?;
    text.extend_from_slice(&sent[4..6])?;
    text.extend_from_slice(b"-")?;
    text.extend_from_slice(&sent[6..8])?;
    Ok(text)
}

/// A moment as FIX's SendingTime has it, `20260302-09:00:00.123`, in the form that readers of logs
/// take: `2026-03-02T09:00:00.123Z`. A text of another length stays as it is.
pub(crate) fn moment_of(alloc: Global, sent: &[u8]) -> Result<Vec<u8>, AllocError>
    ensures { IfOk result (λ v. v.items ≡ moment_text sent.now) }
{
    if sent.len() != SENT_LEN {
        return Vec::from_slice(alloc, sent);
    }
    let mut text = date_of(alloc, sent)?;
    text.extend_from_slice(b"T")?;
    text.extend_from_slice(&sent[9..])?;
    text.extend_from_slice(b"Z")?;
    Ok(text)
}
