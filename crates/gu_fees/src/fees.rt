//! The fees of a book.
ghost use Rattle.std.specs.Prelude.{◌≡◌, ◌+◌, ◌*◌, ◌&&◌, ◌++◌, ℕ, List, [], ◌∷◌, cond, bytes_eq};
ghost use Rattle.std.specs.Prelude.{OnOk, OnErr, IsTrue, ◌↔◌};
ghost use Rattle.gu_base.specs.declared.node.Charge.{Charge};
ghost use Rattle.gu_fees.specs.Rows.{paid_in, received_in, used_in, IsReady, HasRoom, CanCharge};
ghost use Rattle.gu_fees.specs.Rows.{CanUncharge};
ghost use Rattle.gu_fees.specs.Sums.{AreSumsOf};

use gu_base::{FirmId, Memory, Pair};
use gu_sums::Sums;
use std::alloc::Global;
use std::marker::Model;

/// What each firm has paid and received, in hundredths, and how many lots each giver and taker have
/// used.
#[derive(Drop)]
pub struct Fees {
    paid: Sums<FirmId>,
    received: Sums<FirmId>,
    used: Sums<Pair>,
}

impl Model for Fees {
    ghost use Rattle.gu_fees.specs.Rows.{FeeRows};

    ghost Value = { FeeRows };

    ghost view = { λ f. record { paid = f.paid; received = f.received; used = f.used } };
}

impl Fees {
    /// No fees, and no row. The rows will grow by this allocator.
    pub fn new(alloc: Global) -> Fees
        ensures { AreSumsOf result [] }
    {
        Fees {
            paid: Sums::new(alloc),
            received: Sums::new(alloc),
            used: Sums::new(alloc),
        }
    }

    /// Makes the rows that a charge of this giver and taker changes. No sum changes, not even where
    /// memory is refused.
    pub fn ready(&mut self, giver: &FirmId, taker: &FirmId) -> Result<(), Memory>
        ensures ready { OnOk result (IsReady self.new giver.now taker.now) }
        ensures paid { (firm : List ℕ) → paid_in self.new firm ≡ paid_in self.old firm }
        ensures received { (firm : List ℕ) → received_in self.new firm ≡ received_in self.old firm }
        ensures used { (g t : List ℕ) → used_in self.new g t ≡ used_in self.old g t }
        ensures stays_ready { (g t : List ℕ) → IsReady self.old g t → IsReady self.new g t }
    {
        let pair = Pair {
            giver: *giver,
            taker: *taker,
        };
        self.paid.ready(taker)?;
        self.received.ready(giver)?;
        self.used.ready(&pair)
    }

    /// Adds a claim: `lots x rate` hundredths that the taker pays to the giver, and the lots that
    /// the two have used.
    ///
    /// The rows have to be ready, and each sum has to stay below 2^64 (`can_charge`).
    pub fn charge(&mut self, giver: &FirmId, taker: &FirmId, lots: u64, rate: u64)
        requires { CanCharge self.old giver.now taker.now lots rate }
        ensures paid { (firm : List ℕ) → paid_in self.new firm ≡ paid_in self.old firm
            + cond (bytes_eq taker.now firm) (lots * rate) 0 }
        ensures received { (firm : List ℕ) → received_in self.new firm ≡ received_in self.old firm
            + cond (bytes_eq giver.now firm) (lots * rate) 0 }
        ensures used { (g t : List ℕ) → used_in self.new g t ≡ used_in self.old g t
            + cond (bytes_eq giver.now g && bytes_eq taker.now t) lots 0 }
        ensures stays_ready { (g t : List ℕ) → IsReady self.old g t → IsReady self.new g t }
        ensures sums { (before after : List Charge) → AreSumsOf self.old (before ++ after)
            → AreSumsOf self.new (before ++ record {
              giver = giver.now;
              taker = taker.now;
              lots = lots;
              rate = rate;
            } ∷ after) }
    {
        let pair = Pair {
            giver: *giver,
            taker: *taker,
        };
        let cost = lots * rate;
        self.paid.add(taker, cost);
        self.received.add(giver, cost);
        self.used.add(&pair, lots);
    }

    /// Adds a claim as `charge` does, and makes its rows where there are none. One look finds a row
    /// that is there.
    ///
    /// Each sum has to stay below 2^64.
    ///
    /// # Errors
    ///
    /// `Memory` where a row was wanted. No sum has changed then.
    pub fn put(
        &mut self,
        giver: &FirmId,
        taker: &FirmId,
        lots: u64,
        rate: u64,
    ) -> Result<(), Memory>
        requires { HasRoom self.old giver.now taker.now lots rate }
        ensures sums { OnOk result ((before after : List Charge)
            → AreSumsOf self.old (before ++ after)
            → AreSumsOf self.new (before ++ record {
              giver = giver.now;
              taker = taker.now;
              lots = lots;
              rate = rate;
            } ∷ after)) }
        ensures same_paid { OnErr result ((firm : List ℕ)
            → paid_in self.new firm ≡ paid_in self.old firm) }
        ensures same_received { OnErr result ((firm : List ℕ)
            → received_in self.new firm ≡ received_in self.old firm) }
        ensures same_used { OnErr result ((g t : List ℕ)
            → used_in self.new g t ≡ used_in self.old g t) }
        ensures stays_ready { (g t : List ℕ) → IsReady self.old g t → IsReady self.new g t }
    {
        let pair = Pair {
            giver: *giver,
            taker: *taker,
        };
        let fee = lots * rate;
        self.paid.put(taker, fee)?;
        if let Err(e) = self.received.put(giver, fee) {
            self.paid.take(taker, fee);
            return Err(e);
        }
        if let Err(e) = self.used.put(&pair, lots) {
            self.received.take(giver, fee);
            self.paid.take(taker, fee);
            return Err(e);
        }
        Ok(())
    }

    /// Takes a claim away again: what `charge` of the same added.
    ///
    /// No more may be taken than is there (`can_uncharge`).
    pub fn uncharge(&mut self, giver: &FirmId, taker: &FirmId, lots: u64, rate: u64)
        requires { CanUncharge self.old giver.now taker.now lots rate }
        ensures paid { (firm : List ℕ) → paid_in self.new firm
            + cond (bytes_eq taker.now firm) (lots * rate) 0 ≡ paid_in self.old firm }
        ensures received { (firm : List ℕ) → received_in self.new firm
            + cond (bytes_eq giver.now firm) (lots * rate) 0 ≡ received_in self.old firm }
        ensures used { (g t : List ℕ) → used_in self.new g t
            + cond (bytes_eq giver.now g && bytes_eq taker.now t) lots 0 ≡ used_in self.old g t }
        ensures stays_ready { (g t : List ℕ) → IsReady self.old g t → IsReady self.new g t }
        ensures sums { (before after : List Charge)
            → AreSumsOf self.old (before ++ record {
              giver = giver.now;
              taker = taker.now;
              lots = lots;
              rate = rate;
            } ∷ after) → AreSumsOf self.new (before ++ after) }
    {
        let pair = Pair {
            giver: *giver,
            taker: *taker,
        };
        let cost = lots * rate;
        self.paid.take(taker, cost);
        self.received.take(giver, cost);
        self.used.take(&pair, lots);
    }

    /// What a firm has paid as a taker, in hundredths.
    pub fn paid(&self, firm: &FirmId) -> u64
        ensures { result ≡ paid_in self.now firm.now }
    {
        self.paid.of(firm)
    }

    /// What a firm has received as a giver, in hundredths.
    pub fn received(&self, firm: &FirmId) -> u64
        ensures { result ≡ received_in self.now firm.now }
    {
        self.received.of(firm)
    }

    /// The lots that were claimed under the agreement of a giver and a taker.
    pub fn used(&self, giver: &FirmId, taker: &FirmId) -> u64
        ensures { result ≡ used_in self.now giver.now taker.now }
    {
        let pair = Pair {
            giver: *giver,
            taker: *taker,
        };
        self.used.of(&pair)
    }

    /// Whether `charge` may be called: the rows are ready, and each sum has room.
    pub fn can_charge(&self, giver: &FirmId, taker: &FirmId, lots: u64, rate: u64) -> bool
        ensures { IsTrue result ↔ CanCharge self.now giver.now taker.now lots rate }
    {
        let pair = Pair {
            giver: *giver,
            taker: *taker,
        };
        let Some(cost) = lots.checked_mul(rate) else {
            return false;
        };
        let pays = self.paid.can_add(taker, cost);
        let receives = self.received.can_add(giver, cost);
        let uses = self.used.can_add(&pair, lots);
        all_three(pays, receives, uses)
    }

    /// Whether `uncharge` may be called: each sum has so much.
    pub fn can_uncharge(&self, giver: &FirmId, taker: &FirmId, lots: u64, rate: u64) -> bool
        ensures { IsTrue result ↔ CanUncharge self.now giver.now taker.now lots rate }
    {
        let Some(cost) = lots.checked_mul(rate) else {
            return false;
        };
        cost <= self.paid(taker) && cost <= self.received(giver) && lots <= self.used(giver, taker)
    }
}

fn all_three(a: bool, b: bool, c: bool) -> bool
    ensures { IsTrue result ↔ (IsTrue a × IsTrue b × IsTrue c) }
{
    a && b && c
}
