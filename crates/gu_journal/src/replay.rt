//! Taking the frames of a journal, one after the other.

ghost use Rattle.std.specs.Prelude.{◌≡◌, ◌≢◌, ◌≤◌, ◌<◌, ◌↔◌, ◌+◌, ◌^◌, ◌++◌, [], List, ℕ, length};
ghost use Rattle.std.specs.Prelude.{Some, Ok, IsTrue, IsSome, IsNone, IfSome, IfOk, IfErr, OnOk};
ghost use Rattle.gu_base.specs.House.{House};
ghost use Rattle.gu_base.specs.Runs.{IsRunFrom};
ghost use Rattle.gu_base.specs.declared.entry.Entry.{Entry};
ghost use Rattle.gu_message.specs.declared.inbound.Inbound.{Inbound as Means};
ghost use Rattle.gu_codec.specs.Answer.{pairs};
ghost use Rattle.gu_codec.specs.Tags as tag;
ghost use Rattle.gu_message.specs.Finding.{value_of};
ghost use Rattle.gu_message.specs.Meaning.{meaning_of};
ghost use Rattle.hex.specs.Hex.{IsBytes, encode_lower};
ghost use Rattle.sha2.specs.Hashers.{Holds512};
ghost use Rattle.gu_journal.specs.Damages.{IsRefused, IsUnpinned, Blames, lack_of};
ghost use Rattle.gu_journal.specs.Journal.{IsNumbered, IsOneFrame};
ghost use Rattle.gu_journal.specs.Session.{digest_text};
ghost use Rattle.gu_journal.specs.Places.{IsAt};
ghost use Rattle.gu_journal.specs.Recovered.{Replays};
ghost use Rattle.gu_journal.specs.Taking.{IsPinned, AddsCall, AddsNext, Takes};
ghost use Rattle.gu_journal.specs.declared.damage.Cause.TheVariants.{NoEntry};
ghost use Rattle.gu_journal.specs.declared.damage.RecoverError.TheVariants.{Damaged};
ghost use Rattle.gu_journal.specs.declared.replay.Stand.TheVariants.{Fresh, Sealed, Unsealed};

use crate::damage::{Cause, Damage, HouseDigest, RecoverError};
use crate::session::{DEFAULT_CSTM_APPL_VER_ID, FORM, house_digits, seal_digits};
use gu_base::{AllocId, Answer, Command, FirmId, Memory, Part};
use gu_book::Book;
use gu_codec::{Fields, tags};
use gu_message::{
    Inbound, Index, MeaningError, SLOTS, Slot, give_back_parts, meaning_into, msg_types, walk,
};
use hex::decode_to_slice;
use itoa::Buffer;
use sha2::{Digest, Sha512};
use std::alloc::{AllocError, Global};

/// What stands before the next frame.
#[derive(Clone, Copy, PartialEq, Eq)]
pub(crate) enum Stand {
    /// Nothing: the head has to come.
    Fresh,
    /// The head, or a seal.
    Sealed,
    /// An entry, whose group isn't sealed yet.
    Unsealed,
}

impl Stand {
    /// What a message lacks there that means nothing.
    #[cold]
    fn lack(self) -> Cause
        ensures { result ≡ lack_of self }
    {
        match self {
            Stand::Fresh => Cause::NoHead,
            Stand::Sealed => Cause::NoEntry,
            Stand::Unsealed => Cause::NoEntry,
        }
    }
}

/// What the frames that were taken lead to beside the book, and room that is kept between them.
#[derive(Drop)]
pub(crate) struct Replay {
    /// Has taken in the bytes of these frames.
    pub(crate) hasher: Sha512,
    pub(crate) stand: Stand,
    /// How many of them the head and the sealed groups have.
    pub(crate) sealed: usize,
    /// The number of the first entry behind these.
    pub(crate) first: u32,
    parts: Vec<Part>,
    meaning: Inbound,
}

/// Where a frame stands, and the number that its entry would have.
#[derive(Clone, Copy)]
pub(crate) struct FramePlace {
    pub(crate) at: usize,
    pub(crate) entry: u32,
}

impl FramePlace {
    /// The damage that is found there.
    #[cold]
    pub(crate) fn damaged(self, cause: Cause) -> RecoverError
        ensures { result ≡ Damaged (record { at = self.at; entry = self.entry; cause = cause }) }
    {
        RecoverError::Damaged(Damage {
            at: self.at,
            entry: self.entry,
            cause,
        })
    }
}

/// The number of the next entry.
pub(crate) fn next_number(book: &Book) -> u32
    ensures number { result ≡ length book.now.history + 1 }
    ensures few { result ≤ 1000001 }
    ensures run { IsRunFrom book.now.house [] book.now.history }
{
    book.history().len() as u32 + 1
}

/// Whether MsgSeqNum (34) of a message is this number.
fn is_numbered(message: &Index<'_, '_>, number: u32) -> bool
    ensures { IsTrue result ↔ IsNumbered number message.now }
{
    let mut digits = Buffer::new();
    message.has_value(tags::MSG_SEQ_NUM, digits.format(number).as_bytes())
}

/// Whether a head has this digest of a house file in Text (58).
fn has_pin(message: &Index<'_, '_>, pin: &HouseDigest) -> bool
    ensures { IsTrue result ↔ (value_of tag.text message.now ≡ Some (encode_lower pin.now.bytes)) }
{
    message.has_value(tags::TEXT, &house_digits(&pin.bytes))
}

/// Whether a seal has this digest in TestReqID (112).
fn has_digest(message: &Index<'_, '_>, digest: &[u8; 64]) -> bool
    ensures { IsTrue result
        ↔ (value_of tag.test_req_id message.now ≡ Some (encode_lower digest.now)) }
{
    message.has_value(tags::TEST_REQ_ID, &seal_digits(digest))
}

/// The 32 bytes that hex digits write.
fn digest_in(digits: &[u8]) -> Option<HouseDigest>
    ensures { (bytes : List ℕ) → IsBytes bytes → length bytes ≡ 32 → digits.now ≡ encode_lower bytes
        → IfSome result (λ digest. digest.bytes ≡ bytes) × IsSome result }
{
    let mut bytes = [0; 32];
    match decode_to_slice(digits, &mut bytes) {
        Ok(()) => Some(HouseDigest { bytes }),
        Err(_) => None,
    }
}

/// The digest of another house file that a head has in Text (58), if it is one.
fn other_digest(message: &Index<'_, '_>) -> Option<HouseDigest>
    ensures other { IfSome result (λ digest. value_of tag.text message.now
        ≡ Some (encode_lower digest.bytes)) }
    ensures none { IsNone result → (bytes : List ℕ) → IsBytes bytes → length bytes ≡ 32
        → value_of tag.text message.now ≢ Some (encode_lower bytes) }
{
    let digest = digest_in(message.first(tags::TEXT)?)?;
    if has_pin(message, &digest) {
        Some(digest)
    } else {
        None
    }
}

/// Whether a message begins a journal of this form and of this house file, as far as its fields
/// tell.
fn check_head(
    message: &Index<'_, '_>,
    pin: &HouseDigest,
    place: FramePlace,
) -> Result<(), RecoverError>
    ensures ok { OnOk result (IsPinned pin.now.bytes message.now) }
    ensures cause { IfErr result (λ e. IsUnpinned pin.now.bytes message.now e) }
    ensures place { IfErr result (λ e. IsAt place.at place.entry e) }
{
    if !message.has_value(DEFAULT_CSTM_APPL_VER_ID, FORM) {
        return match message.first(DEFAULT_CSTM_APPL_VER_ID) {
            Some(_) => Err(RecoverError::OtherForm),
            None => Err(place.damaged(Cause::NoHead)),
        };
    }
    if has_pin(message, pin) {
        return Ok(());
    }
    match other_digest(message) {
        Some(journal) => Err(RecoverError::OtherHouse {
            file: *pin,
            journal,
        }),
        None => Err(place.damaged(Cause::NoHead)),
    }
}

/// Has the book answer a call. Tells whether it has become the next entry.
fn add_call(
    alloc: Global,
    book: &mut Book,
    firm: &FirmId,
    id: &AllocId,
    command: &Command,
) -> Result<bool, Memory>
    ensures house { OnOk result (book.new.house ≡ book.old.house) }
    ensures adds { IfOk result (λ is_added. IsTrue is_added
        → AddsCall book.old.house book.old.history book.new.history
        (record { firm = firm.now; id = id.now; command = command.now })) }
    ensures refused { IfOk result (λ is_added. (new : List Entry)
        → AddsCall book.old.house book.old.history new
        (record { firm = firm.now; id = id.now; command = command.now }) → IsTrue is_added) }
{
    match &book.apply(alloc, firm, id, command) {
        Ok(Answer::Accepted { .. }) => Ok(true),
        Ok(_) => Ok(false),
        Err(_) => Err(AllocError),
    }
}

impl Replay {
    /// Nothing taken yet.
    pub(crate) fn new(alloc: Global) -> Replay
        ensures fresh { result.stand ≡ Fresh }
        ensures sealed { result.sealed ≡ 0 }
        ensures empty { Holds512 result.hasher [] }
    {
        Replay {
            hasher: Sha512::new(),
            stand: Stand::Fresh,
            sealed: 0,
            first: 0,
            parts: Vec::new(alloc),
            meaning: Inbound::Heartbeat,
        }
    }

    /// The hasher, without the rest.
    pub(crate) fn into_hasher(self) -> Sha512
        ensures { result ≡ self.hasher }
    {
        self.hasher
    }

    /// Whether a message has the digest of all that was taken in TestReqID (112).
    fn is_sealed_by(&self, message: &Index<'_, '_>) -> bool
        ensures { (taken : List ℕ) → Holds512 self.now.hasher taken
            → (IsTrue result ↔ (value_of tag.test_req_id message.now ≡ Some (digest_text taken))) }
    {
        match self.hasher.clone() {
            Ok(hasher) => has_digest(message, &hasher.finalize()),
            Err(_) => false,
        }
    }

    /// Notes where a seal ends that was taken, or the head, and the number of the next entry.
    fn note_seal(&mut self, end: usize, entry: u32)
        ensures hasher { self.new.hasher ≡ self.old.hasher }
        ensures stand { self.new.stand ≡ self.old.stand }
        ensures sealed { self.old.stand ≡ Sealed
            → (self.new.sealed ≡ end) × (self.new.first ≡ entry) }
        ensures unsealed { self.old.stand ≢ Sealed
            → (self.new.sealed ≡ self.old.sealed) × (self.new.first ≡ self.old.first) }
    {
        if self.stand == Stand::Sealed {
            self.sealed = end;
            self.first = entry;
        }
    }

    /// Puts what a message means into its place.
    fn read_meaning(
        &mut self,
        alloc: Global,
        house: &FirmId,
        message: &Index<'_, '_>,
        place: FramePlace,
    ) -> Result<(), RecoverError>
        ensures means { OnOk result (meaning_of house.now message.now ≡ Ok self.new.meaning) }
        ensures cause { IfErr result (λ e. Blames (lack_of self.old.stand) ((m : Means)
            → meaning_of house.now message.now ≡ Ok m → ⊥) e) }
        ensures place { IfErr result (λ e. IsAt place.at place.entry e) }
        ensures hasher { self.new.hasher ≡ self.old.hasher }
        ensures stand { self.new.stand ≡ self.old.stand }
        ensures sealed { (self.new.sealed ≡ self.old.sealed)
            × (self.new.first ≡ self.old.first) }
    {
        match meaning_into(alloc, message, house, &mut self.parts, &mut self.meaning) {
            Ok(()) => Ok(()),
            Err(MeaningError::Reject(_)) => Err(place.damaged(self.stand.lack())),
            Err(MeaningError::Memory) => Err(RecoverError::Memory),
        }
    }

    /// Takes the call that was read as the next entry of the book.
    fn take_call(
        &mut self,
        alloc: Global,
        book: &mut Book,
        place: FramePlace,
    ) -> Result<(), RecoverError>
        ensures house { OnOk result (book.new.house ≡ book.old.house) }
        ensures adds { OnOk result (AddsNext book.old.house book.old.history book.new.history
            self.old.meaning) }
        ensures cause { IfErr result (λ e. Blames NoEntry ((new : List Entry)
            → AddsNext book.old.house book.old.history new self.old.meaning → ⊥) e) }
        ensures place { IfErr result (λ e. IsAt place.at place.entry e) }
        ensures hasher { self.new.hasher ≡ self.old.hasher }
        ensures stand { OnOk result (self.new.stand ≡ Unsealed) }
        ensures sealed { (self.new.sealed ≡ self.old.sealed)
            × (self.new.first ≡ self.old.first) }
    {
        let Inbound::Call {
            firm,
            id,
            command,
            ..
        } = &self.meaning
        else {
            return Err(place.damaged(Cause::NoEntry));
        };
        let is_added = add_call(alloc, book, firm, id, command)?;
        give_back_parts(alloc, &mut self.meaning, &mut self.parts);
        if !is_added {
            return Err(place.damaged(Cause::NoEntry));
        }
        self.stand = Stand::Unsealed;
        Ok(())
    }

    /// Takes a message whose meaning was read.
    fn take_message(
        &mut self,
        alloc: Global,
        book: &mut Book,
        message: &Index<'_, '_>,
        place: FramePlace,
    ) -> Result<(), RecoverError>
        requires means { meaning_of book.old.house.house message.now ≡ Ok self.old.meaning }
        requires numbered { IsNumbered (length book.old.history + 1) message.now }
        ensures house { OnOk result (book.new.house ≡ book.old.house) }
        ensures hasher { self.new.hasher ≡ self.old.hasher }
        ensures sealed { (self.new.sealed ≡ self.old.sealed)
            × (self.new.first ≡ self.old.first) }
        ensures takes { (pin taken : List ℕ) → (self.old.stand ≡ Fresh
            → IsPinned pin message.now) → Holds512 self.old.hasher taken
            → OnOk result (Takes book.old.house pin taken self.old.stand book.old.history
            message.now self.new.stand book.new.history) }
        ensures cause { IfErr result (λ e. (pin taken : List ℕ) → (self.old.stand ≡ Fresh
            → IsPinned pin message.now) → Holds512 self.old.hasher taken
            → IsRefused book.old.house pin taken self.old.stand book.old.history message.now e) }
        ensures place { IfErr result (λ e. IsAt place.at place.entry e) }
    {
        match (self.stand, &self.meaning) {
            (
                Stand::Fresh,
                Inbound::Logon {
                    heartbeat: 0,
                    reset: false,
                },
            ) => {}
            (Stand::Fresh, _) => return Err(place.damaged(Cause::NoHead)),
            (_, Inbound::Heartbeat) => {
                if !self.is_sealed_by(message) {
                    return Err(place.damaged(Cause::OtherDigest));
                }
            }
            _ => return self.take_call(alloc, book, place),
        }
        self.stand = Stand::Sealed;
        Ok(())
    }

    /// Takes the frame at this byte of the file, which has these fields: the head, an entry or a
    /// seal.
    pub(crate) fn take(
        &mut self,
        alloc: Global,
        book: &mut Book,
        pin: &HouseDigest,
        fields: Fields<'_>,
        frame: &[u8],
        at: usize,
    ) -> Result<(), RecoverError>
        requires frame { IsOneFrame frame.now (pairs fields) }
        requires small { at + length frame.now < 2 ^ 64 }
        ensures takes { (t : House) (taken : List ℕ) → at ≡ length taken
            → Replays t pin.now.bytes taken self.old book.old
            → OnOk result (Replays t pin.now.bytes (taken ++ frame.now) self.new book.new) }
        ensures cause { IfErr result (λ e. (t : House) (taken : List ℕ)
            → Replays t pin.now.bytes taken self.old book.old
            → IsRefused t pin.now.bytes taken self.old.stand book.old.history
            (pairs fields.entry) e) }
        ensures place { IfErr result (λ e. IsAt at (length book.old.history + 1) e) }
    {
        let mut slots = [Slot::none(); SLOTS];
        let walked = walk(fields, &mut slots);
        let message = Index::new(fields, &slots, walked);
        let entry = next_number(book);
        let place = FramePlace { at, entry };
        if self.stand == Stand::Fresh {
            check_head(&message, pin, place)?;
        }
        if !is_numbered(&message, entry) {
            return Err(place.damaged(Cause::OtherNumber));
        }
        let house = book.house().house();
        self.read_meaning(alloc, &house, &message, place)?;
        self.take_message(alloc, book, &message, place)?;
        self.hasher.update(frame);
        self.note_seal(at + frame.len(), entry);
        Ok(())
    }
}
