//! The line of an event.

ghost use Rattle.std.specs.Prelude.{◌≡◌, ◌++◌, map, OnOk, IfOk};
ghost use Rattle.gu_log.specs.Lines.{field_pair, fields_text, front_text, line_of, pair_text};
ghost use Rattle.gu_log.specs.Lines.{shown};

use crate::event::{Event, Key};
use crate::moment::moment_of;
use crate::value::{Value, push_value};
use std::alloc::{AllocError, Global};

/// What is said of an event.
#[derive(Clone, Copy)]
pub struct Field<'a> {
    pub key: Key,
    pub value: Value<'a>,
}

/// Appends a pair, its value after its key.
fn push_pair(line: &mut Vec<u8>, key: &str, value: Value<'_>) -> Result<(), AllocError>
    ensures { OnOk result (line.new.items ≡ line.old.items
        ++ pair_text (key.now, shown value.entry)) }
{
    line.extend_from_slice(key.as_bytes())?;
    line.push(b'=')?;
    push_value(line, value)
}

/// A line that says when an event was, and what it is.
#[tactic(auto, unfolding(crate::specs::Lines::front_text))]
fn begun_line(alloc: Global, sent: &[u8], event: Event) -> Result<Vec<u8>, AllocError>
    ensures { IfOk result (λ v. v.items ≡ front_text sent.now event) }
{
    let moment = moment_of(alloc, sent)?;
    let mut line = Vec::new(alloc);
    push_pair(&mut line, "time", Value::Text(moment.as_slice()))?;
    line.push(b' ')?;
    push_pair(&mut line, "event", Value::Text(event.word().as_bytes()))?;
    Ok(line)
}

/// Appends fields, each behind a space.
fn push_fields(line: &mut Vec<u8>, fields: &[Field<'_>]) -> Result<(), AllocError>
    ensures { OnOk result (line.new.items ≡ line.old.items
        ++ fields_text (map field_pair fields.now)) }
{
    for field in fields {
        line.push(b' ')?;
        push_pair(line, field.key.word(), field.value)?;
    }
    Ok(())
}

/// The line of an event, which was at this moment, as FIX's SendingTime (52) has it: its time, its
/// word and its fields, as `key=value` with a space between two, and a line feed.
///
/// # Errors
///
/// `AllocError`, if a growth is refused.
pub fn line(
    alloc: Global,
    sent: &[u8],
    event: Event,
    fields: &[Field<'_>],
) -> Result<Vec<u8>, AllocError>
    ensures { IfOk result (λ v. v.items ≡ line_of sent.now event fields.now) }
{
    let mut line = begun_line(alloc, sent, event)?;
    push_fields(&mut line, fields)?;
    line.push(b'\n')?;
    Ok(line)
}
