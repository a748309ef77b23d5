//! Laws of the output of a stream, over the definitions alone.

ghost use Rattle.std.specs.Prelude.{◌≡◌, ◌<◌, ◌^◌, ℕ, List, ◌++◌, length};
ghost use Rattle.gu_base.specs.House.{House};
ghost use Rattle.gu_codec.specs.Messages.{Clean, Broken};
ghost use Rattle.gu_codec.specs.Readings.{messages_of, end_of};
ghost use Rattle.gu_batch.specs.Output.{HasFirmNames, answers_of, output_of};

/// A stream that is broken stays so, at the same byte and with the same output, whatever follows.
pub fn broken_stays()
    ensures { (house : House) (bytes later : List ℕ) (at : ℕ) → end_of bytes ≡ Broken at
        → (end_of (bytes ++ later) ≡ Broken at)
        × (output_of house (bytes ++ later) ≡ output_of house bytes) }
{}

/// What is written for a stream is read back: it ends cleanly, and its messages are the answers,
/// each the fields of its header and then those of its body.
pub fn output_is_read_back()
    ensures { (house : House) (bytes : List ℕ) → HasFirmNames house → length bytes < 2 ^ 64
        → (end_of (output_of house bytes) ≡ Clean)
        × (messages_of (output_of house bytes) ≡ answers_of house bytes) }
{}
