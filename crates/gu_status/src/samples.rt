//! The lines of Prometheus' text.

ghost use Rattle.std.specs.Prelude.{◌≡◌, ◌++◌, ◌∷◌, [], OnOk};
ghost use Rattle.gu_status.specs.Samples.{comment, family, decimal_line, millionths, last_digit};
ghost use Rattle.gu_status.specs.Samples.{sample};
ghost use Rattle.gu_status.specs.Samples.{label_byte, label_text, labelled, single};

use gu_base::Memory;
use itoa::Buffer;

/// Appends a text.
pub(crate) fn push(text: &mut Vec<u8>, words: &str) -> Result<(), Memory>
    ensures { OnOk result (text.new.items ≡ text.old.items ++ words.now) }
{
    text.extend_from_slice(words.as_bytes())
}

/// Appends a line of a comment: what it is about, the name of a family, and what is said of that.
#[tactic(auto, unfolding(crate::specs::Samples::comment))]
fn push_comment(text: &mut Vec<u8>, about: &str, name: &str, words: &str) -> Result<(), Memory>
    ensures { OnOk result (text.new.items ≡ text.old.items
        ++ comment about.now name.now words.now) }
{
    push(text, about)?;
    push(text, name)?;
    push(text, " ")?;
    push(text, words)?;
    push(text, "\n")
}

/// Appends the two lines before the samples of a family.
#[tactic(auto, unfolding(crate::specs::Samples::family))]
pub(crate) fn push_family(
    text: &mut Vec<u8>,
    name: &str,
    kind: &str,
    help: &str,
) -> Result<(), Memory>
    ensures { OnOk result (text.new.items ≡ text.old.items ++ family name.now kind.now help.now) }
{
    push_comment(text, "# HELP ", name, help)?;
    push_comment(text, "# TYPE ", name, kind)
}

/// Appends a number behind a space, and ends the line.
#[tactic(auto, unfolding(crate::specs::Samples::decimal_line))]
pub(crate) fn push_number(text: &mut Vec<u8>, number: u64) -> Result<(), Memory>
    ensures { OnOk result (text.new.items ≡ text.old.items ++ decimal_line number) }
{
    let mut digits = Buffer::new();
    push(text, " ")?;
    push(text, digits.format(number))?;
    push(text, "\n")
}

/// Appends a number of millionths as one of wholes behind a space, and ends the line.
#[tactic(auto, unfolding(crate::specs::Samples::millionths))]
pub(crate) fn push_millionths(text: &mut Vec<u8>, number: u64) -> Result<(), Memory>
    ensures { OnOk result (text.new.items ≡ text.old.items ++ millionths number) }
{
    let mut digits = Buffer::new();
    let part = (number % 1_000_000) as u32;
    push(text, " ")?;
    push(text, digits.format(number / 1_000_000))?;
    text.extend_from_slice(&[
        b'.',
        digit(part / 100_000),
        digit(part / 10_000),
        digit(part / 1_000),
        digit(part / 100),
        digit(part / 10),
        digit(part),
        b'\n',
    ])
}

/// The last digit of a number.
fn digit(number: u32) -> u8
    ensures { result ≡ last_digit number }
{
    b'0' + (number % 10) as u8
}

/// Appends a sample of a family that has one.
#[tactic(auto, unfolding(crate::specs::Samples::sample))]
pub(crate) fn push_sample(text: &mut Vec<u8>, name: &str, number: u64) -> Result<(), Memory>
    ensures { OnOk result (text.new.items ≡ text.old.items ++ sample name.now number) }
{
    push(text, name)?;
    push_number(text, number)
}

/// Appends a byte of a label's value.
fn push_label_byte(text: &mut Vec<u8>, byte: u8) -> Result<(), Memory>
    ensures { OnOk result (text.new.items ≡ text.old.items ++ label_byte byte) }
{
    match byte {
        b'"' | b'\\' => text.extend_from_slice(&[b'\\', byte]),
        b'\n' => text.extend_from_slice(&[b'\\', b'n']),
        _ => text.extend_from_slice(&[byte]),
    }
}

/// Appends a label's value.
fn push_label(text: &mut Vec<u8>, value: &[u8]) -> Result<(), Memory>
    ensures { OnOk result (text.new.items ≡ text.old.items ++ label_text value.now) }
{
    for byte in value {
        push_label_byte(text, *byte)?;
    }
    Ok(())
}

/// Appends a sample with a label: what stands before the label's value, that, and the number.
#[tactic(auto, unfolding(crate::specs::Samples::labelled))]
pub(crate) fn push_labelled(
    text: &mut Vec<u8>,
    front: &str,
    value: &[u8],
    number: u64,
) -> Result<(), Memory>
    ensures { OnOk result (text.new.items ≡ text.old.items ++ labelled front.now value.now number) }
{
    push(text, front)?;
    push_label(text, value)?;
    push(text, "\"}")?;
    push_number(text, number)
}

/// Appends a family with one sample.
#[tactic(auto, unfolding(crate::specs::Samples::single))]
pub(crate) fn push_single(
    text: &mut Vec<u8>,
    name: &str,
    kind: &str,
    help: &str,
    number: u64,
) -> Result<(), Memory>
    ensures { OnOk result (text.new.items ≡ text.old.items
        ++ single name.now kind.now help.now number) }
{
    push_family(text, name, kind, help)?;
    push_sample(text, name, number)
}
