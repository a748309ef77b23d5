//! The agreements that the clearing house makes by its first calls, where the house file is of
//! version 2.
ghost use Rattle.std.specs.Prelude.{◌≡◌, ◌++◌, codes, decimal, length, option_map, slice_get};
ghost use Rattle.gu_base.specs.House.{HasLawfulOpening};
ghost use Rattle.gu_base.specs.declared.command.Command.TheVariants.{Agree};
ghost use Rattle.gu_base.specs.Answers.{Call};
ghost use Rattle.gu_base.specs.Runs.{opening_calls};
ghost use Rattle.gu_parties.specs.Table.{opened_if};

use crate::house::House;
use arrayvec::ArrayString;
use gu_base::{Agreement, AllocId, Command, Pair};
use indexmap::IndexMap;
use itoa::Buffer;
use std::alloc::Global;
use std::mem;

/// The id of an opening call, by its number from 1: `OPEN-1`, `OPEN-2` and so on.
fn opening_id(number: u64) -> AllocId
    ensures { result ≡ codes "OPEN-" ++ decimal number }
{
    let mut text = ArrayString::<32>::new();
    let mut digits = Buffer::new();
    text.push_str("OPEN-");
    text.push_str(digits.format(number));
    match AllocId::new(text.as_bytes()) {
        Some(id) => id,
        None => unreachable!(),
    }
}

/// The id and the command of the opening call of this number, which makes an agreement.
fn opening_call(number: u64, pair: &Pair, agreement: &Agreement) -> (AllocId, Command)
    ensures id { result.0 ≡ codes "OPEN-" ++ decimal number }
    ensures command { result.1
        ≡ Agree pair.now.giver pair.now.taker agreement.now.rate agreement.now.limit }
{
    let id = opening_id(number);
    let command = Command::Agree {
        giver: pair.giver,
        taker: pair.taker,
        rate: agreement.rate,
        limit: agreement.limit,
    };
    (id, command)
}

impl House {
    /// Puts the agreements that were fixed into the opening, if so.
    pub(crate) fn open_if(&mut self, alloc: Global, opens: bool)
        ensures { self.new ≡ opened_if opens self.old }
    {
        if opens {
            self.opening = mem::replace(&mut self.agreements, IndexMap::new(alloc));
        }
    }

    /// How many opening calls there are: one for each line `AGREEMENT` of a file of version 2, and
    /// none where it is of version 1.
    pub fn opening_count(&self) -> usize
        ensures count { result ≡ length self.now.opening }
        ensures lawful { HasLawfulOpening self.now }
    {
        self.opening.len()
    }

    /// The id and the command of the opening call at this place, from 0; `None` behind the last.
    /// The clearing house makes these calls first, in this order: each is the `Agree` of a line
    /// `AGREEMENT` of a file of version 2, and its id is `OPEN-1`, `OPEN-2` and so on.
    pub fn opening_at(&self, place: usize) -> Option<(AllocId, Command)>
        ensures call { option_map (λ c. record { firm = self.now.house; id = c.0; command = c.1 })
            result ≡ slice_get (opening_calls self.now) place }
        ensures lawful { HasLawfulOpening self.now }
    {
        if place >= self.opening.len() {
            return None;
        }
        match self.opening.get_index(place) {
            Some((pair, agreement)) => Some(opening_call(place as u64 + 1, pair, agreement)),
            None => None,
        }
    }
}
