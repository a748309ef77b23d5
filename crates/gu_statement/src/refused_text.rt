//! The text of the line of a call that came to nothing.
use crate::heard::Cause;
use crate::lines::RefusedLine;
use crate::text::{begin, count, end, say, say_firm, say_time};
use gu_base::Memory;
use json::Writer;
use std::alloc::Global;

/// Why a call came to nothing.
fn say_cause(w: &mut Writer, cause: &Cause) -> Result<(), Memory> {
    match cause {
        Cause::Refused(refusal) => {
            count(w, "refusal", u64::from(refusal.number()))?;
            say(w, "text", refusal.text().as_str())
        }
        Cause::Rejected(reject) => {
            count(w, "reject", u64::from(reject.reason))?;
            count(w, "tag", u64::from(reject.tag))
        }
    }
}

/// Appends the line of a call that came to nothing.
pub(crate) fn push_refused(
    alloc: Global,
    out: &mut Vec<u8>,
    line: &RefusedLine,
) -> Result<(), Memory> {
    let mut w = begin(alloc, out);
    w.begin_object()?;
    say_firm(&mut w, "firm", &line.call.firm)?;
    if let Some(id) = &line.call.id {
        say(&mut w, "id", id.as_str())?;
    }
    say(&mut w, "kind", "refused")?;
    count(&mut w, "number", line.number)?;
    if line.shows_place {
        count(&mut w, "place", line.call.place)?;
    }
    say_cause(&mut w, &line.call.cause)?;
    say_time(&mut w, "time", line.call.time.as_bytes())?;
    w.end_object()?;
    end(out, w)
}
