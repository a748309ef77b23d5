//! What each line of a house file adds to the table.
ghost use Rattle.std.specs.Prelude.{◌≡◌, [], IsTrue, OnErr};
ghost use Rattle.gu_parties.specs.Terms.{is_in_range};
ghost use Rattle.gu_parties.specs.Steps.{add_firm, add_account, add_instrument, add_terms};
ghost use Rattle.gu_parties.specs.Steps.{add_agreement, Does};

use crate::fault::Cause;
use crate::house::House;
use crate::number::number;
use gu_base::{Account, AccountId, Agreement, FirmId, InstrumentId, Pair, Rate};

impl House {
    /// Adds the firm of this name.
    pub(crate) fn add_firm(&mut self, name: &[u8]) -> Result<(), Cause>
        ensures does { Does self.new result (add_firm self.old name.now) }
        ensures refused { OnErr result (self.new ≡ self.old) }
    {
        let Some(firm) = FirmId::new(name) else {
            return Err(Cause::BadName);
        };
        if self.firm(&firm) {
            return Err(Cause::NamedTwice);
        }
        match self.firms.insert(firm) {
            Ok(_) => {}
            Err(_) => return Err(Cause::Memory),
        }
        Ok(())
    }

    /// Adds an account to a firm.
    pub(crate) fn add_account(&mut self, firm: &[u8], name: &[u8]) -> Result<(), Cause>
        ensures does { Does self.new result (add_account self.old firm.now name.now) }
        ensures refused { OnErr result (self.new ≡ self.old) }
    {
        let Some(firm) = FirmId::new(firm) else {
            return Err(Cause::BadName);
        };
        let Some(name) = AccountId::new(name) else {
            return Err(Cause::BadName);
        };
        if !self.firm(&firm) {
            return Err(Cause::UnknownName);
        }
        if self.account(&firm, &name) {
            return Err(Cause::NamedTwice);
        }
        match self.accounts.insert(Account { firm, name }) {
            Ok(_) => Ok(()),
            Err(_) => Err(Cause::Memory),
        }
    }

    /// Adds an instrument.
    pub(crate) fn add_instrument(&mut self, name: &[u8]) -> Result<(), Cause>
        ensures does { Does self.new result (add_instrument self.old name.now) }
        ensures refused { OnErr result (self.new ≡ self.old) }
    {
        let Some(instrument) = InstrumentId::new(name) else {
            return Err(Cause::BadName);
        };
        if self.instrument(&instrument) {
            return Err(Cause::NamedTwice);
        }
        match self.instruments.insert(instrument) {
            Ok(_) => Ok(()),
            Err(_) => Err(Cause::Memory),
        }
    }

    /// Adds the terms between a giver and a taker.
    fn add_terms(&mut self, giver: FirmId, taker: FirmId, agreement: Agreement) -> Result<(), Cause>
        requires in_range { IsTrue (is_in_range agreement) }
        requires none_made { self.old.opening ≡ [] }
        ensures does { Does self.new result (add_terms self.old giver taker agreement) }
        ensures refused { OnErr result (self.new ≡ self.old) }
    {
        if giver == taker {
            return Err(Cause::OwnAgreement);
        }
        if !self.firm(&giver) {
            return Err(Cause::UnknownName);
        }
        if !self.firm(&taker) {
            return Err(Cause::UnknownName);
        }
        let pair = Pair { giver, taker };
        if self.agreements.contains_key(&pair) {
            return Err(Cause::NamedTwice);
        }
        match self.agreements.insert(pair, agreement) {
            Ok(_) => {}
            Err(_) => return Err(Cause::Memory),
        }
        Ok(())
    }

    /// Adds an agreement of this text.
    pub(crate) fn add_agreement(
        &mut self,
        giver: &[u8],
        taker: &[u8],
        rate: &[u8],
        limit: &[u8],
    ) -> Result<(), Cause>
        requires none_made { self.old.opening ≡ [] }
        ensures does { Does self.new result
            (add_agreement self.old giver.now taker.now rate.now limit.now) }
        ensures refused { OnErr result (self.new ≡ self.old) }
    {
        let Some(giver) = FirmId::new(giver) else {
            return Err(Cause::BadName);
        };
        let Some(taker) = FirmId::new(taker) else {
            return Err(Cause::BadName);
        };
        let Some(rate) = number(rate, Rate::MAX) else {
            return Err(Cause::BadNumber);
        };
        let Some(limit) = number(limit, Agreement::MAX_LIMIT) else {
            return Err(Cause::BadNumber);
        };
        self.add_terms(giver, taker, Agreement { rate, limit })
    }
}
