//! What an answer is read from.
use crate::found::Named;
use crate::undo::Undo;
use gu_base::{Number, Refusal};
use gu_consent::Consents;
use gu_fees::Terms;
use gu_ids::History;
use gu_parties::House;
use std::marker::Model;

/// The house table, the history, the node or the change that the command names, what stands on
/// that, and what is kept beside them.
#[derive(Drop)]
pub(crate) struct Basis<'a> {
    pub(crate) house: &'a House,
    pub(crate) entries: &'a History,
    pub(crate) named: &'a Option<Named>,
    pub(crate) undo: &'a Option<Result<Undo, Refusal>>,
    pub(crate) standing: Option<Number>,
    pub(crate) terms: &'a Terms,
    pub(crate) consents: &'a Consents,
}

impl<'a> Model for Basis<'a> {
    ghost use Rattle.gu_book.specs.Basis.{BasisView, IsBasis};

    ghost Value = { BasisView };

    ghost view = { λ b. record {
      house = b.house.now;
      history = b.entries.now.items;
      named = b.named.now;
      undo = b.undo.now;
      standing = b.standing;
    } };

    ghost invariant = { λ b.
        IsBasis b.house.now b.entries.now.items b.terms.now b.consents.now };
}
