//! The lines of positions, balances, hops and agreements.
ghost use Rattle.std.specs.Prelude.{◌≡◌, OnOk, option_and_then, slice_get};
ghost use Rattle.gu_base.specs.History.{live};
ghost use Rattle.gu_base.specs.declared.entry.Record.{Record};
ghost use Rattle.gu_statement.specs.Lines.{agreement_line, balance_line, cost_of};
ghost use Rattle.gu_statement.specs.Kinds.{position_there, position_text, account_text};
ghost use Rattle.gu_statement.specs.Kinds.{positions_text, balance_text, balances_text};
ghost use Rattle.gu_statement.specs.Kinds.{agreement_text, fixed_text, made_text};
ghost use Rattle.gu_statement.specs.Kinds.{agreements_text, charge_seen, hop_by, hop_there};
ghost use Rattle.gu_statement.specs.Kinds.{hop_text, hops_text, of_some};
ghost use Rattle.gu_statement.specs.Sheets.{IsSheet};
ghost use Rattle.gu_statement.specs.Writing.{Comes};

use crate::lines::{AgreementLine, BalanceLine, HopLine, PositionLine};
use crate::pieces::{go_on, made};
use crate::sheet::Sheet;
use crate::sight::node_at;
use crate::total_text::{push_agreement, push_balance, push_hop, push_position};
use gu_base::{Account, Charge, Command, Entry, FirmId, InstrumentId, Kind, Node, Number};
use gu_batch::{RunError, Sink};

impl<'a> Sheet<'a> {
    /// The lots that stand in an account, if some do.
    fn position_line(&self, account: &Account, instrument: &InstrumentId) -> Option<PositionLine>
        ensures { result ≡ position_there (live self.now.book.now.history) account.now
            instrument.now }
    {
        let (long, short) = self.book.position(&account.firm, &account.name, instrument);
        if long == 0 && short == 0 {
            return None;
        }
        Some(PositionLine {
            at: *account,
            instrument: *instrument,
            long,
            short,
        })
    }

    /// Writes the line of a position, if lots stand there.
    fn write_position<W: Sink>(
        &self,
        account: &Account,
        instrument: &InstrumentId,
        out: &mut Vec<u8>,
        writer: &mut W,
    ) -> Result<(), RunError>
        ensures { OnOk result (Comes (W.contents writer.old) out.old.items (W.contents writer.new)
            out.new.items
            (position_text (live self.now.book.now.history) account.now instrument.now)) }
    {
        match self.position_line(account, instrument) {
            Some(line) => {
                made(push_position(self.alloc, out, &line))?;
                go_on(out, writer)
            }
            None => Ok(()),
        }
    }

    /// Writes the lines of the positions of an account, if it may be seen.
    fn write_account<W: Sink>(
        &self,
        account: &Account,
        out: &mut Vec<u8>,
        writer: &mut W,
    ) -> Result<(), RunError>
        ensures { OnOk result (Comes (W.contents writer.old) out.old.items (W.contents writer.new)
            out.new.items
            (account_text self.now.book.now.house (live self.now.book.now.history) self.now.whose
            account.now)) }
    {
        if !self.is_of(&account.firm) {
            return Ok(());
        }
        let house = self.book.house();
        for place in 0..house.instrument_count() {
            match house.instrument_at(place) {
                Some(instrument) => self.write_position(account, &instrument, out, writer)?,
                None => {}
            }
        }
        Ok(())
    }

    /// Writes the lines of the positions.
    pub(crate) fn write_positions<W: Sink>(
        &self,
        out: &mut Vec<u8>,
        writer: &mut W,
    ) -> Result<(), RunError>
        ensures { OnOk result (Comes (W.contents writer.old) out.old.items (W.contents writer.new)
            out.new.items
            (positions_text self.now.book.now.house (live self.now.book.now.history)
            self.now.whose)) }
    {
        let house = self.book.house();
        for place in 0..house.account_count() {
            match house.account_at(place) {
                Some(account) => self.write_account(&account, out, writer)?,
                None => {}
            }
        }
        Ok(())
    }

    /// The balance of a firm.
    fn balance_of(&self, firm: &FirmId) -> BalanceLine
        ensures { result ≡ balance_line self.now.book.now.house (live self.now.book.now.history)
            firm.now }
    {
        BalanceLine {
            firm: *firm,
            paid: self.book.paid(firm),
            received: self.book.received(firm),
        }
    }

    /// Writes the line of a firm's balance, if it may be seen.
    fn write_balance<W: Sink>(
        &self,
        firm: &FirmId,
        out: &mut Vec<u8>,
        writer: &mut W,
    ) -> Result<(), RunError>
        ensures { OnOk result (Comes (W.contents writer.old) out.old.items (W.contents writer.new)
            out.new.items
            (balance_text self.now.book.now.house (live self.now.book.now.history) self.now.whose
            firm.now)) }
    {
        if !self.is_of(firm) {
            return Ok(());
        }
        made(push_balance(self.alloc, out, &self.balance_of(firm)))?;
        go_on(out, writer)
    }

    /// Writes the lines of the balances, the house first.
    pub(crate) fn write_balances<W: Sink>(
        &self,
        out: &mut Vec<u8>,
        writer: &mut W,
    ) -> Result<(), RunError>
        ensures { OnOk result (Comes (W.contents writer.old) out.old.items (W.contents writer.new)
            out.new.items
            (balances_text self.now.book.now.house (live self.now.book.now.history)
            self.now.whose)) }
    {
        let house = self.book.house();
        self.write_balance(&house.house(), out, writer)?;
        for place in 0..house.firm_count() {
            match house.firm_at(place) {
                Some(firm) => self.write_balance(&firm, out, writer)?,
                None => {}
            }
        }
        Ok(())
    }

    /// What the claim of so many lots would cost.
    pub(crate) fn cost(&self, giver: &FirmId, taker: &FirmId, lots: u64) -> Option<Charge>
        ensures { result ≡ cost_of self.now.book.now.house (live self.now.book.now.history)
            giver.now taker.now lots }
    {
        match self.book.terms(giver, taker) {
            Some(terms) => Some(Charge {
                giver: *giver,
                taker: *taker,
                lots,
                rate: terms.rate,
            }),
            None => None,
        }
    }

    /// What the claim of this node costs, if it is a given one, its giver and taker have terms, and
    /// it may be seen.
    fn charge_seen(&self, node: &Node) -> Option<Charge>
        ensures { result ≡ charge_seen self.now.book.now.house (live self.now.book.now.history)
            self.now.whose node.now.lots node.now.kind }
    {
        match &node.kind {
            Kind::Given { giver, taker, .. } => {
                if self.is_between(giver, taker) {
                    self.cost(giver, taker, node.lots)
                } else {
                    None
                }
            }
            Kind::Root(_) | Kind::Own { .. } => None,
        }
    }

    /// The hop of an entry of this number, where it is a Claim that may be seen.
    #[tactic(auto, unfolding(crate::specs::Kinds::hop_by))]
    fn hop_of(&self, number: Number, entry: &Entry) -> Option<HopLine>
        ensures { result ≡ hop_by self.now.book.now.house self.now.book.now.history self.now.whose
            number entry.now.command }
    {
        let Command::Claim { node: name, .. } = &entry.command else {
            return None;
        };
        let Some(node) = node_at(self.entries(), name) else {
            return None;
        };
        match self.charge_seen(&node) {
            Some(charge) => Some(HopLine {
                entry: number,
                node: *name,
                charge,
            }),
            None => None,
        }
    }

    /// The hop of a change with its number, if there is one.
    fn hop_in(&self, change: &Option<(Number, &Entry)>) -> Option<HopLine>
        ensures { result ≡ option_and_then
            (λ p. hop_by self.now.book.now.house self.now.book.now.history self.now.whose p.0
            p.1.now.command) change.now }
    {
        match change {
            Some(pair) => self.hop_of(pair.0, pair.1),
            None => None,
        }
    }

    /// The hop of the live change at this place, where it is a Claim that may be seen.
    pub(crate) fn hop_at(&self, place: usize) -> Option<HopLine>
        requires { IsSheet self.now }
        ensures { result ≡ option_and_then
            (hop_there self.now.book.now.house (live self.now.book.now.history) self.now.whose)
            (slice_get (live self.now.book.now.history) place) }
    {
        self.hop_in(&self.live_at(place))
    }

    /// Writes the line of the hop of the live change at this place, if it is there.
    fn write_hop<W: Sink>(
        &self,
        place: usize,
        out: &mut Vec<u8>,
        writer: &mut W,
    ) -> Result<(), RunError>
        requires { IsSheet self.now }
        ensures { OnOk result (Comes (W.contents writer.old) out.old.items (W.contents writer.new)
            out.new.items (of_some
            (hop_text self.now.book.now.house (live self.now.book.now.history) self.now.whose)
            (slice_get (live self.now.book.now.history) place))) }
    {
        match self.hop_at(place) {
            Some(line) => {
                made(push_hop(self.alloc, out, &line))?;
                go_on(out, writer)
            }
            None => Ok(()),
        }
    }

    /// Writes the lines of the hops, in the order of their Claims.
    pub(crate) fn write_hops<W: Sink>(
        &self,
        out: &mut Vec<u8>,
        writer: &mut W,
    ) -> Result<(), RunError>
        requires { IsSheet self.now }
        ensures { OnOk result (Comes (W.contents writer.old) out.old.items (W.contents writer.new)
            out.new.items
            (hops_text self.now.book.now.house (live self.now.book.now.history) self.now.whose)) }
    {
        for place in 0..self.live.len() {
            self.write_hop(place, out, writer)?;
        }
        Ok(())
    }

    /// The terms of a giver and a taker, which this entry made, or 0 where they are fixed.
    fn agreement_line(&self, entry: u32, giver: &FirmId, taker: &FirmId) -> AgreementLine
        ensures { result ≡ agreement_line self.now.book.now.house
            (live self.now.book.now.history) entry giver.now taker.now }
    {
        let rate = match self.book.terms(giver, taker) {
            Some(terms) => terms.rate,
            None => 0,
        };
        AgreementLine {
            giver: *giver,
            taker: *taker,
            rate,
            limit: self.book.limit(giver, taker).unwrap_or(0),
            used: self.book.used(giver, taker),
            entry,
        }
    }

    /// Writes the line of the terms of a giver and a taker, if it may be seen.
    fn write_agreement<W: Sink>(
        &self,
        entry: u32,
        giver: &FirmId,
        taker: &FirmId,
        out: &mut Vec<u8>,
        writer: &mut W,
    ) -> Result<(), RunError>
        ensures { OnOk result (Comes (W.contents writer.old) out.old.items (W.contents writer.new)
            out.new.items
            (agreement_text self.now.book.now.house (live self.now.book.now.history)
            self.now.whose entry giver.now taker.now)) }
    {
        if !self.is_between(giver, taker) {
            return Ok(());
        }
        let line = self.agreement_line(entry, giver, taker);
        made(push_agreement(self.alloc, out, &line))?;
        go_on(out, writer)
    }

    /// Writes the lines of the agreements that are fixed.
    fn write_fixed<W: Sink>(&self, out: &mut Vec<u8>, writer: &mut W) -> Result<(), RunError>
        ensures { OnOk result (Comes (W.contents writer.old) out.old.items (W.contents writer.new)
            out.new.items
            (fixed_text self.now.book.now.house (live self.now.book.now.history)
            self.now.whose)) }
    {
        let house = self.book.house();
        for place in 0..house.agreement_count() {
            match house.agreement_at(place) {
                Some(line) => {
                    self.write_agreement(0, &line.0.giver, &line.0.taker, out, writer)?
                }
                None => {}
            }
        }
        Ok(())
    }

    /// Writes the line of the agreement that the live change at this place made, if it is there.
    fn write_made<W: Sink>(
        &self,
        place: usize,
        out: &mut Vec<u8>,
        writer: &mut W,
    ) -> Result<(), RunError>
        requires { IsSheet self.now }
        ensures { OnOk result (Comes (W.contents writer.old) out.old.items (W.contents writer.new)
            out.new.items (of_some
            (λ (r : Record). made_text self.now.book.now.house
            (live self.now.book.now.history) self.now.whose r.number r.command)
            (slice_get (live self.now.book.now.history) place))) }
    {
        match self.live_at(place) {
            Some((number, entry)) => match &entry.command {
                Command::Agree { giver, taker, .. } => {
                    self.write_agreement(number.get(), giver, taker, out, writer)
                }
                _ => Ok(()),
            },
            None => Ok(()),
        }
    }

    /// Writes the lines of the agreements: those that are fixed, and then those that entries made.
    pub(crate) fn write_agreements<W: Sink>(
        &self,
        out: &mut Vec<u8>,
        writer: &mut W,
    ) -> Result<(), RunError>
        requires { IsSheet self.now }
        ensures { OnOk result (Comes (W.contents writer.old) out.old.items (W.contents writer.new)
            out.new.items (agreements_text self.now.book.now.house
            (live self.now.book.now.history) self.now.whose)) }
    {
        self.write_fixed(out, writer)?;
        for place in 0..self.live.len() {
            self.write_made(place, out, writer)?;
        }
        Ok(())
    }
}
