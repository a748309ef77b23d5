//! The written numbers of a house file.
ghost use Rattle.std.specs.Prelude.{◌≡◌, ◌≤◌, IsTrue, IfSome, length};
ghost use Rattle.std.specs.List.{list_all};
ghost use Rattle.gu_base.specs.Names.{is_digit};
ghost use Rattle.gu_parties.specs.Limits.{most_digits};
ghost use Rattle.gu_parties.specs.Numbers.{is_number_text, value_from, number_upto};

/// The most digits of a number: those of the highest limit.
const MAX_DIGITS: usize = 14;

/// Whether a byte is a decimal digit.
fn is_digit_byte(byte: u8) -> bool
    ensures { result ≡ is_digit byte }
{
    48 <= byte && byte <= 57
}

/// Whether each byte is a decimal digit.
fn all_digits(text: &[u8]) -> bool
    ensures { result ≡ list_all is_digit text.now }
{
    text.iter().all(|b| is_digit_byte(*b))
}

/// Whether a text is `0`, or 1 to 14 digits without a leading zero.
fn is_number(text: &[u8]) -> bool
    ensures { result ≡ is_number_text text.now }
{
    let digits = all_digits(text);
    let len = text.len();
    let zero = text == b"0".as_slice();
    if len == 0 {
        return false;
    }
    let leading = text[0] == b'0';
    zero || (len <= MAX_DIGITS && digits && !leading)
}

/// The value of at most 14 digits.
fn value_of(text: &[u8]) -> u64
    requires digits { IsTrue (list_all is_digit text.now) }
    requires short { length text.now ≤ most_digits }
    ensures { result ≡ value_from 0 text.now }
{
    let mut value = 0;
    for b in text {
        value = 10 * value + (*b - b'0') as u64;
    }
    value
}

/// The number of this text, if it is one of at most `most`.
#[tactic(auto, unfolding(crate::specs::Numbers::number_upto))]
pub(crate) fn number(text: &[u8], most: u64) -> Option<u64>
    ensures value { result ≡ number_upto most text.now }
    ensures within { IfSome result (λ n. n ≤ most) }
{
    if !is_number(text) {
        return None;
    }
    let value = value_of(text);
    if value <= most { Some(value) } else { None }
}
