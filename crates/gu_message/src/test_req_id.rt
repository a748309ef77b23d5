//! TestReqID (112), the text that a TestRequest asks to hear again.

ghost use Rattle.std.specs.Prelude.{◌≡◌, ◌≤◌, length};
ghost use Rattle.gu_message.specs.Limits.{longest_test_req_id};
ghost use Rattle.gu_message.specs.SessionMessages.{test_req_id_of};

use std::marker::Model;

/// A TestReqID (112) has at most so many bytes.
const BYTES: usize = 64;

/// A TestReqID (112): at most 64 bytes, which lie in the value itself. A clause sees the list of
/// its bytes.
#[derive(Clone, Copy)]
pub struct TestReqId {
    /// The places behind the text hold 0, so that equal texts are equal values.
    cells: [u8; BYTES],
    len: usize,
}

impl Model for TestReqId {
    ghost use Rattle.std.specs.Prelude.{◌≡◌, ◌≤◌, ◌++◌, ◌-◌, List, ℕ, length, take, drop};
    ghost use Rattle.std.specs.Prelude.{replicate};
    ghost use Rattle.std.proofs.Common.{arith, length-take-le};
    ghost use Rattle.gu_base.specs.Cells.{cells_back};
    ghost use Rattle.gu_message.specs.Limits.{longest_test_req_id};

    ghost Value = { List ℕ };

    ghost view = { λ s. take s.len s.cells };

    ghost invariant = { λ s. (s.len ≤ longest_test_req_id) × (length s.cells ≡ longest_test_req_id)
        × (drop s.len s.cells ≡ replicate (longest_test_req_id - s.len) 0) };

    ghost inverse = { λ s. record {
      cells = s ++ replicate (longest_test_req_id - length s) 0;
      len = length s;
    } };

    ghost inverse_ok = { λ s h i. record {
      cells = cells_back longest_test_req_id s.len s.cells h.0 h.1 h.2 i;
      len = length-take-le s.len s.cells (omega (arith, h.0, h.1)) i;
    } };
}

impl TestReqId {
    /// The TestReqID of this text, `None` where the text has more than 64 bytes.
    pub fn new(text: &[u8]) -> Option<TestReqId>
        ensures { result ≡ test_req_id_of text.now }
    {
        if text.len() > BYTES {
            return None;
        }
        let mut cells = [0; BYTES];
        cells[..text.len()].copy_from_slice(text);
        Some(TestReqId {
            cells,
            len: text.len(),
        })
    }

    /// Its bytes, at most 64.
    pub fn as_bytes(&self) -> &[u8]
        ensures value { result.now ≡ self.now }
        ensures short { length self.now ≤ longest_test_req_id }
    {
        &self.cells[..self.len]
    }
}
