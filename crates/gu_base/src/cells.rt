//! Texts of bounded length that lie in the value itself.
ghost use Rattle.std.specs.Prelude.{◌≡◌, ◌≤◌, ◌++◌, ◌∷◌, [], ◌-◌, List, ℕ, length, take, drop};
ghost use Rattle.std.specs.Prelude.{replicate, Some, None, if◌then◌else◌, refl, nat_eq};
ghost use Rattle.std.specs.Ordering.{nat_cmp};
ghost use Rattle.std.specs.Cmp.Lexicographic.{pointwise, slice_cmp, nat_list_eq_equiv};
ghost use Rattle.std.specs.Cmp.Lexicographic.{nat_list_cmp_total, texts_po, texts_ties};
ghost use Rattle.std.specs.Cmp.{on_equiv, on_total, on_po, on_per, partial_equiv_from_equiv};
ghost use Rattle.std.specs.Cmp.Rules.{hashing};
ghost use Rattle.std.proofs.Common.{rules};
ghost use Rattle.gu_base.specs.Cells.{is_text_from, most_cells};

use std::cmp::Ordering;
use std::hash::{Hash, Hasher};
use std::marker::Model;

/// The last byte that is printed.
const LAST_PRINTED: u8 = 126;

/// The bytes of a word.
const WORD_LEN: usize = 8;

/// At most `CAP` bytes in place, which are 255 at most: their count takes one byte more. The places
/// behind them hold 0, so that equal texts are equal values.
#[derive(Clone, Copy, Debug)]
pub(crate) struct Cells<const CAP: usize> {
    cells: [u8; CAP],
    len: u8,
}

impl<const CAP: usize> Model for Cells<CAP> {
    ghost use Rattle.std.specs.Prelude.{◌≡◌, ◌≤◌, ◌++◌, ◌-◌, List, ℕ, length, take, drop};
    ghost use Rattle.std.specs.Prelude.{replicate};
    ghost use Rattle.std.proofs.Common.{arith, length-take-le};
    ghost use Rattle.gu_base.specs.Cells.{cells_back};

    ghost Value = { List ℕ };

    ghost view = { λ s. take s.len s.cells };

    ghost invariant = { λ s.
        (s.len ≤ CAP) × (length s.cells ≡ CAP) × (drop s.len s.cells ≡ replicate (CAP - s.len) 0) };

    ghost inverse = { λ s. record { cells = s ++ replicate (CAP - length s) 0; len = length s } };

    ghost inverse_ok = { λ s h i. record {
      cells = cells_back CAP s.len s.cells h.0 h.1 h.2 i;
      len = length-take-le s.len s.cells (omega (arith, h.0, h.1)) i;
    } };
}

impl<const CAP: usize> Cells<CAP> {
    /// A copy of `text`, `None` where it has no byte or more than `CAP`, or one that isn't `lowest`
    /// to 0x7E. Each byte is looked at once, and copied there.
    #[inline(always)]
    pub(crate) fn of_text(text: &[u8], lowest: u8) -> Option<Self>
        requires { CAP ≤ most_cells }
        ensures { result ≡ (if is_text_from lowest CAP text.now then Some text.now else None) }
    {
        if text.is_empty() || text.len() > CAP {
            return None;
        }
        let mut cells = [0; CAP];
        for i in 0..text.len() {
            let b = text[i];
            if b < lowest || b > LAST_PRINTED {
                return None;
            }
            cells[i] = b;
        }
        Some(Cells {
            cells,
            len: text.len() as u8,
        })
    }

    /// The text.
    pub(crate) fn as_slice(&self) -> &[u8]
        ensures value { result.now ≡ self.now }
        ensures fits { length self.now ≤ CAP }
    {
        &self.cells[..self.len as usize]
    }
}

/// The order of two words, that of the numbers that they make, the first byte the highest.
#[inline(always)]
fn by_word(left: &[u8; WORD_LEN], right: &[u8; WORD_LEN]) -> Ordering
    ensures { result ≡ slice_cmp nat_cmp left.now right.now }
{
    u64::from_be_bytes(*left).cmp(&u64::from_be_bytes(*right))
}

/// The order of two slices of bytes, word by word, and at last by the bytes that fill no word.
#[inline(always)]
fn by_words(left: &[u8], right: &[u8]) -> Ordering
    ensures { result ≡ slice_cmp nat_cmp left.now right.now }
{
    let mut left_rest = left;
    let mut right_rest = right;
    'words: while let (Some((a, left_next)), Some((b, right_next))) = (
        left_rest.split_first_chunk::<WORD_LEN>(),
        right_rest.split_first_chunk::<WORD_LEN>(),
    ) {
        let order = by_word(a, b);
        if order.is_ne() {
            return order;
        }
        left_rest = left_next;
        right_rest = right_next;
    }
    // The call below isn't taken in line; where no bytes are left, as of a room of whole words, it
    // isn't made.
    if left_rest.is_empty() && right_rest.is_empty() {
        return Ordering::Equal;
    }
    left_rest.cmp(&right_rest)
}

impl<const CAP: usize> PartialEq for Cells<CAP> {
    ghost eq = { λ s t. pointwise nat_eq s t };

    ghost laws = { on_per (λ s. s) (partial_equiv_from_equiv nat_list_eq_equiv) };

    #[inline(always)]
    fn eq(&self, other: &Self) -> bool {
        self.cmp(other).is_eq()
    }
}

impl<const CAP: usize> Eq for Cells<CAP> {
    ghost laws = { on_equiv (λ s. s) nat_list_eq_equiv };
}

impl<const CAP: usize> PartialOrd for Cells<CAP> {
    ghost partial_cmp = { λ s t. Some (slice_cmp nat_cmp s t) };

    ghost laws = { on_po (λ s. s) texts_po };

    fn partial_cmp(&self, other: &Self) -> Option<Ordering> {
        Some(self.cmp(other))
    }
}

impl<const CAP: usize> Ord for Cells<CAP> {
    ghost cmp = { λ s t. slice_cmp nat_cmp s t };

    ghost total = { on_total (λ s. s) nat_list_cmp_total };

    ghost matches_partial_cmp = { λ s t. refl };

    ghost matches_eq = { λ s t. texts_ties s t };

    // The whole room is compared, by words of eight bytes, and then the lengths: that is the order
    // of the texts, byte after byte. The compiler knows the length of a room, and leaves two or
    // four comparisons of words and no loop. It returns where the rooms differ, since
    // `Ordering::then` would compare the lengths each time.
    #[inline(always)]
    fn cmp(&self, other: &Self) -> Ordering {
        let order = by_words(&self.cells, &other.cells);
        if order.is_ne() {
            return order;
        }
        self.len.cmp(&other.len)
    }
}

impl<const CAP: usize> Hash for Cells<CAP> {
    ghost hash_input = { λ s. (s ++ replicate (CAP - length s) 0) ∷ [] };

    ghost respects_eq = { Prim.search (hashing, rules) };

    // The whole room in one write takes one multiplication for sixteen bytes. The hash of a text as
    // a list takes one for its length and one for each byte, which was a seventh of the
    // instructions of a trade and its split.
    #[inline(always)]
    fn hash<H: Hasher>(&self, state: &mut H) {
        state.write(&self.cells);
    }
}
