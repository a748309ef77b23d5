//! The frames of the messages of the session: the head, and the seal of a group.

ghost use Rattle.std.specs.Prelude.{◌≡◌, ◌≤◌, ◌+◌, ◌++◌, length, vec_len, vec_capacity};
ghost use Rattle.std.specs.Prelude.{OnOk, OnErr};
ghost use Rattle.gu_codec.specs.Writing.{IsText, fields_text, message_text};
ghost use Rattle.hex.specs.Hex.{encode_lower};
ghost use Rattle.gu_codec.specs.Messages.{Message};
ghost use Rattle.gu_journal.specs.Session.{own_header, head_of, head_fields, seal_with};

use crate::stamp::Stamp;
use crate::writing::{put_field, put_number_field};
use gu_base::Memory;
use gu_codec::{Header, append_field, tags, write_frame};
use gu_message::msg_types;
use hex::encode_to_slice;

/// DefaultCstmApplVerID, in which the head has the form of the journal.
pub(crate) const DEFAULT_CSTM_APPL_VER_ID: u32 = 1408;

/// The one form of a journal that is written and read.
pub(crate) const FORM: &[u8] = b"allocd-journal-3";

/// The most bytes of a head: 153 beside two names of 16, a number of 7 digits and a moment of 24.
pub(crate) const LONGEST_HEAD: usize = 216;

/// The most bytes of a file whose head is on its way: the head, a zero behind it, one that is laid
/// beside, and the 2^20 that are laid at once.
pub(crate) const LONGEST_BEGINNING: usize = LONGEST_HEAD + 2 + (1 << 20);

/// The most bytes of the fields behind a header.
const ROOM: usize = 256;

/// The digits of a house file's digest: 64 hex digits in lower case.
pub(crate) fn house_digits(digest: &[u8; 32]) -> [u8; 64]
    ensures { result ≡ encode_lower digest.now }
{
    let mut text = [0; 64];
    let _ = encode_to_slice(digest.as_slice(), &mut text);
    text
}

/// The digits of a seal's digest: 128 hex digits in lower case.
pub(crate) fn seal_digits(digest: &[u8; 64]) -> [u8; 128]
    ensures { result ≡ encode_lower digest.now }
{
    let mut text = [0; 128];
    let _ = encode_to_slice(digest.as_slice(), &mut text);
    text
}

/// Appends the frame of a message of the house to itself, with this type and this body.
fn write_own(
    out: &mut Vec<u8>,
    kind: &'static [u8],
    stamp: Stamp,
    moment: &[u8],
    body: &[u8],
) -> Result<(), Memory>
    requires kind { IsText kind.now }
    requires moment { IsText moment.now }
    requires body { length body.now ≤ 256 }
    ensures ok { (fs : Message) → body.now ≡ fields_text fs
        → OnOk result (out.new.items ≡ out.old.items ++ message_text
        (own_header kind.now stamp.house moment.now stamp.number ++ fs)) }
    ensures err { OnErr result (out.new.items ≡ out.old.items) }
{
    let header = Header {
        kind,
        sender: stamp.house,
        target: stamp.house,
        number: u64::from(stamp.number),
        sent: moment,
        resent: None,
    };
    write_frame(out, &header, body)
}

/// Appends the head's fields behind its header within the room that is there.
fn append_head(out: &mut Vec<u8>, pin: &[u8; 32])
    requires { vec_len out.old + 256 ≤ vec_capacity out.old }
    ensures items { out.new.items ≡ out.old.items ++ fields_text (head_fields pin.now) }
    ensures len { vec_len out.new ≤ vec_len out.old + 256 }
{
    let digits = house_digits(pin);
    append_field(out, tags::ENCRYPT_METHOD, b"0");
    append_field(out, tags::HEART_BT_INT, b"0");
    append_field(out, tags::DEFAULT_APPL_VER_ID, b"9");
    append_field(out, DEFAULT_CSTM_APPL_VER_ID, FORM);
    append_field(out, tags::TEXT, &digits);
}

/// Appends the frame of the head, with the digest of the house file. `body` is room, of which
/// nothing is read.
///
/// # Errors
///
/// `Memory` where room was refused; `out` is then as it was.
pub(crate) fn write_head(
    out: &mut Vec<u8>,
    body: &mut Vec<u8>,
    stamp: Stamp,
    moment: &[u8],
    pin: &[u8; 32],
) -> Result<(), Memory>
    requires moment { IsText moment.now }
    ensures ok { OnOk result (out.new.items ≡ out.old.items ++ message_text
        (head_of stamp.house moment.now stamp.number pin.now)) }
    ensures err { OnErr result (out.new.items ≡ out.old.items) }
{
    body.clear();
    body.reserve(ROOM)?;
    append_head(body, pin);
    write_own(out, msg_types::LOGON, stamp, moment, body)
}

/// Appends the frame of a seal, with this digest, of a group whose first entry has this number.
///
/// # Errors
///
/// `Memory` where room was refused; `out` is then as it was.
pub(crate) fn write_seal(
    out: &mut Vec<u8>,
    stamp: Stamp,
    moment: &[u8],
    digest: &[u8; 64],
    first: u32,
) -> Result<(), Memory>
    requires moment { IsText moment.now }
    ensures ok { OnOk result (out.new.items ≡ out.old.items ++ message_text
        (seal_with stamp.house moment.now stamp.number digest.now first)) }
    ensures err { OnErr result (out.new.items ≡ out.old.items) }
{
    let digits = seal_digits(digest);
    let mut body = [0; 256];
    let at = put_field(&mut body, 0, tags::TEST_REQ_ID, &digits);
    let end = put_number_field(&mut body, at, tags::TEXT, u64::from(first));
    write_own(out, msg_types::HEARTBEAT, stamp, moment, &body[..end])
}
