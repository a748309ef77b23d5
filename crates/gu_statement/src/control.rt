//! The control line: counts and sums of the lines that follow.
ghost use Rattle.std.specs.Prelude.{◌≡◌, ◌+◌, ◌++◌, ℕ, IfOk, OnOk, Option, slice_get, sum_by};
ghost use Rattle.gu_base.specs.History.{live};
ghost use Rattle.serde_json.specs.Data.{no_members};
ghost use Rattle.gu_statement.specs.Control.{one_if, count_some, entry_counts, entries_in};
ghost use Rattle.gu_statement.specs.Control.{trade_counts, trades_in, hop_counts, hops_in};
ghost use Rattle.gu_statement.specs.Control.{lots_at, account_lots, lots_in, fees_seen, fees_in};
ghost use Rattle.gu_statement.specs.Control.{control_line};
ghost use Rattle.gu_statement.specs.LineTexts.{control_said};
ghost use Rattle.gu_statement.specs.Sheets.{IsSheet};
ghost use Rattle.gu_statement.specs.Text.{line_with};
ghost use Rattle.gu_statement.specs.Writing.{Comes};

use crate::lines::Control;
use crate::pieces::{go_on, made};
use crate::sheet::Sheet;
use crate::total_text::push_control;
use gu_base::{Account, Command, FirmId, Memory, Side};
use gu_batch::{RunError, Sink};
use std::alloc::AllocError;

/// A sum. In a book that fits.
fn add(total: u64, more: u64) -> Result<u64, Memory>
    ensures { IfOk result (λ sum. sum ≡ total + more) }
{
    match total.checked_add(more) {
        Some(sum) => Ok(sum),
        None => Err(AllocError),
    }
}

/// One, if so.
fn one_if(is: bool) -> u64
    ensures { result ≡ one_if is }
{
    if is { 1 } else { 0 }
}

impl<'a> Sheet<'a> {
    /// One, where the entry at this place is in the statement.
    fn entry_at(&self, place: usize) -> u64
        ensures { result ≡ count_some
            (entry_counts self.now.book.now.house self.now.book.now.history self.now.whose)
            (slice_get self.now.book.now.history place) }
    {
        match self.entries().get(place) {
            Some(entry) => one_if(self.shows(entry)),
            None => 0,
        }
    }

    /// How many entries are in the statement.
    fn entry_count(&self) -> Result<u64, Memory>
        ensures { IfOk result (λ n. n ≡ entries_in self.now.book.now.house
            self.now.book.now.history self.now.whose) }
    {
        let mut total = 0;
        for place in 0..self.entries().len() {
            total = add(total, self.entry_at(place))?;
        }
        Ok(total)
    }

    /// One, where the live change at this place is a Trade that may be seen.
    fn trade_at(&self, place: usize) -> u64
        requires { IsSheet self.now }
        ensures { result ≡ count_some (trade_counts self.now.whose)
            (slice_get (live self.now.book.now.history) place) }
    {
        match self.live_at(place) {
            Some((_, entry)) => match &entry.command {
                Command::Trade { firm, .. } => one_if(self.is_of(firm)),
                _ => 0,
            },
            None => 0,
        }
    }

    /// How many live trades are in the statement.
    fn trade_count(&self) -> Result<u64, Memory>
        requires { IsSheet self.now }
        ensures { IfOk result (λ n. n ≡ trades_in (live self.now.book.now.history)
            self.now.whose) }
    {
        let mut total = 0;
        for place in 0..self.live.len() {
            total = add(total, self.trade_at(place))?;
        }
        Ok(total)
    }

    /// One, where the live change at this place has a hop that may be seen.
    fn hop_counted(&self, place: usize) -> u64
        requires { IsSheet self.now }
        ensures { result ≡ count_some
            (hop_counts self.now.book.now.house (live self.now.book.now.history) self.now.whose)
            (slice_get (live self.now.book.now.history) place) }
    {
        one_if(self.hop_at(place).is_some())
    }

    /// How many hops are in the statement.
    fn hop_count(&self) -> Result<u64, Memory>
        requires { IsSheet self.now }
        ensures { IfOk result (λ n. n ≡ hops_in self.now.book.now.house
            (live self.now.book.now.history) self.now.whose) }
    {
        let mut total = 0;
        for place in 0..self.live.len() {
            total = add(total, self.hop_counted(place))?;
        }
        Ok(total)
    }

    /// The lots of a side that stand in an account in the instrument at this place.
    fn lots_at(&self, side: Side, account: &Account, place: usize) -> u64
        ensures { result ≡ count_some
            (lots_at (live self.now.book.now.history) side account.now)
            (slice_get self.now.book.now.house.instruments place) }
    {
        match self.book.house().instrument_at(place) {
            Some(instrument) => {
                let both = self
                    .book
                    .position(&account.firm, &account.name, &instrument);
                match side {
                    Side::Buy => both.0,
                    Side::Sell => both.1,
                }
            }
            None => 0,
        }
    }

    /// The lots of a side that stand in an account, in all instruments.
    fn instrument_lots(&self, side: Side, account: &Account) -> Result<u64, Memory>
        ensures { IfOk result (λ n. n ≡ sum_by
            (lots_at (live self.now.book.now.history) side account.now)
            self.now.book.now.house.instruments) }
    {
        let house = self.book.house();
        let mut total = 0;
        for place in 0..house.instrument_count() {
            total = add(total, self.lots_at(side, account, place))?;
        }
        Ok(total)
    }

    /// The same, if the account may be seen.
    fn account_lots(&self, side: Side, account: &Account) -> Result<u64, Memory>
        ensures { IfOk result (λ n. n ≡ account_lots self.now.book.now.house
            (live self.now.book.now.history) self.now.whose side account.now) }
    {
        if self.is_of(&account.firm) {
            self.instrument_lots(side, account)
        } else {
            Ok(0)
        }
    }

    /// The lots of a side that stand in the account at this place.
    fn lots_of(&self, side: Side, place: usize) -> Result<u64, Memory>
        ensures { IfOk result (λ n. n ≡ count_some (account_lots self.now.book.now.house
            (live self.now.book.now.history) self.now.whose side)
            (slice_get self.now.book.now.house.accounts place)) }
    {
        match self.book.house().account_at(place) {
            Some(account) => self.account_lots(side, &account),
            None => Ok(0),
        }
    }

    /// The lots of a side in all positions.
    fn lots(&self, side: Side) -> Result<u64, Memory>
        ensures { IfOk result (λ n. n ≡ lots_in self.now.book.now.house
            (live self.now.book.now.history) self.now.whose side) }
    {
        let house = self.book.house();
        let mut total = 0;
        for place in 0..house.account_count() {
            let more = self.lots_of(side, place)?;
            total = add(total, more)?;
        }
        Ok(total)
    }

    /// What a firm pays, or else receives, if it may be seen.
    fn fees_of(&self, pays: bool, firm: &FirmId) -> u64
        ensures { result ≡ fees_seen self.now.book.now.house (live self.now.book.now.history)
            self.now.whose pays firm.now }
    {
        if !self.is_of(firm) {
            return 0;
        }
        if pays {
            self.book.paid(firm)
        } else {
            self.book.received(firm)
        }
    }

    /// The same of the firm at this place.
    fn fees_at(&self, pays: bool, place: usize) -> u64
        ensures { result ≡ count_some (fees_seen self.now.book.now.house
            (live self.now.book.now.history) self.now.whose pays)
            (slice_get self.now.book.now.house.firms place) }
    {
        match self.book.house().firm_at(place) {
            Some(firm) => self.fees_of(pays, &firm),
            None => 0,
        }
    }

    /// The sum of what firms pay, or else receive, without the house.
    fn firm_fees(&self, pays: bool) -> Result<u64, Memory>
        ensures { IfOk result (λ n. n ≡ sum_by (fees_seen self.now.book.now.house
            (live self.now.book.now.history) self.now.whose pays)
            self.now.book.now.house.firms) }
    {
        let house = self.book.house();
        let mut total = 0;
        for place in 0..house.firm_count() {
            total = add(total, self.fees_at(pays, place))?;
        }
        Ok(total)
    }

    /// The same with the house.
    #[tactic(auto, using(crate::proofs::Counting::with_first))]
    fn fees(&self, pays: bool) -> Result<u64, Memory>
        ensures { IfOk result (λ n. n ≡ fees_in self.now.book.now.house
            (live self.now.book.now.history) self.now.whose pays) }
    {
        let firms = self.firm_fees(pays)?;
        let all = add(firms, self.fees_of(pays, &self.book.house().house()))?;
        Ok(all)
    }

    /// How many calls came to nothing, if that is known.
    fn refused_count(&self) -> Option<u64> {
        match self.refused {
            Some(refused) => Some(refused.count()),
            None => None,
        }
    }

    /// The control line.
    fn control_line(&self) -> Result<Control, Memory>
        requires { IsSheet self.now }
        ensures { IfOk result (λ x. (refused : Option ℕ) × (x
            ≡ control_line self.now.book.now.house self.now.book.now.history self.now.whose
            refused)) }
    {
        Ok(Control {
            entries: self.entry_count()?,
            trades: self.trade_count()?,
            long: self.lots(Side::Buy)?,
            short: self.lots(Side::Sell)?,
            hops: self.hop_count()?,
            paid: self.fees(true)?,
            received: self.fees(false)?,
            refused: self.refused_count(),
        })
    }

    /// Writes the control line.
    pub(crate) fn write_control<W: Sink>(
        &self,
        out: &mut Vec<u8>,
        writer: &mut W,
    ) -> Result<(), RunError>
        requires { IsSheet self.now }
        ensures { OnOk result ((refused : Option ℕ) × Comes (W.contents writer.old) out.old.items
            (W.contents writer.new) out.new.items (line_with
            (control_said self.now.book.now.house.house self.now.whose
            (control_line self.now.book.now.house self.now.book.now.history self.now.whose
            refused) no_members))) }
    {
        let Ok(line) = self.control_line() else {
            return Err(RunError::Memory);
        };
        let house = self.book.house().house();
        made(push_control(self.alloc, out, &house, &self.whose, &line))?;
        go_on(out, writer)
    }
}
