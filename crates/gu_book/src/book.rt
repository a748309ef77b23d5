//! The book: the house table, the history, and beside it what is kept of the live changes, the
//! consents and the look-ups.
ghost use Rattle.std.specs.Prelude.{true, ◌≡◌, ◌==◌, ◌≤◌, ◌<◌};
ghost use Rattle.std.specs.Prelude.{ℕ, List, [], ◌∷◌, ◌++◌, length, map, option_map, slice_get};
ghost use Rattle.std.specs.Prelude.{IsTrue, IfOk, IfErr, OnOk, OnErr, IsSomeAnd, if◌then◌else◌};
ghost use Rattle.gu_base.specs.Limits.{most_entries};
ghost use Rattle.gu_base.specs.Consents.{is_consenting};
ghost use Rattle.gu_base.specs.History.{is_change, live};
ghost use Rattle.gu_base.specs.Positions.{position_of};
ghost use Rattle.gu_base.specs.Fees.{paid_by, received_by};
ghost use Rattle.gu_base.specs.Terms.{limit_of, terms_of, used_of};
ghost use Rattle.gu_base.specs.Standing.{IsLegal, standing_on};
ghost use Rattle.gu_base.specs.Answers.{answer_to, after};
ghost use Rattle.gu_base.specs.declared.command.Side.TheVariants.{Buy, Sell};
ghost use Rattle.gu_base.specs.Runs.{IsRunFrom, opening_calls, opening_history};
ghost use Rattle.gu_base.specs.declared.command.Command.TheVariants.{Initiate, Decline, Reverse};
ghost use Rattle.gu_base.specs.declared.command.Command.TheVariants.{Split};
ghost use Rattle.gu_base.specs.declared.command.Part.{Part as PartData};
ghost use Rattle.gu_base.specs.Numbers.{EntryPart};
ghost use Rattle.gu_consent.specs.Given.{given};
ghost use Rattle.gu_ids.specs.Hashing.{IsHashOf};
ghost use Rattle.gu_ids.specs.History.{HasRoom};
ghost use Rattle.gu_tree.specs.Shown.{shown, named_node};
ghost use Rattle.gu_book.specs.Front.{may_lack};
ghost use Rattle.gu_book.specs.Ids.{NoIdTwice};
ghost use Rattle.gu_book.specs.Kept.{IsAccepted, IsAcceptedBy, with_entry};
ghost use Rattle.gu_book.specs.Found.{IsNamedIn, IsNothing, IsStandingIn};
ghost use Rattle.gu_book.specs.Found.{IsUndoneBy, IsUndoneIn, LiesThere};
ghost use Rattle.gu_book.specs.Live.{entry_of_change};
ghost use Rattle.gu_book.specs.Parts.{parts_kept};
ghost use Rattle.gu_book.specs.Seen.{stored};
ghost use Rattle.gu_book.specs.TreeRows.{is_live_trade, tree_rows};
ghost use Rattle.gu_book.specs.Undo.{IsUndoIn};
ghost use Rattle.gu_book.specs.Visits.{AreSeen, AreVisits, is_kept};

use crate::copies::{copy_of, parts_of};
use crate::found::{Sought, seek};
use crate::live::{Change, Live};
use crate::live_state::{Addition, LiveState, Removal};
use crate::lookups::Reversals;
use crate::rules::basis::Basis;
use crate::rules::{calls, terms};
use crate::{grove, visits};
use gu_base::{
    AccountId, Agreement, AllocId, Answer, Command, Entry, FirmId, InstrumentId, Memory, Number,
    Parts,
};
use gu_consent::Consents;
use gu_depend::first_standing;
use gu_ids::{HashKey, History, IdHash};
use gu_parties::House;
use gu_positions::Key;
use gu_tree::Row;
use std::alloc::Global;
use std::marker::Model;

/// The book of one clearing house.
#[derive(Drop)]
pub struct Book {
    house: House,
    entries: History,
    state: LiveState,
    consents: Consents,
    reversals: Reversals,
    visits: u64,
    parts: u64,
}

impl Model for Book {
    ghost use Rattle.gu_book.specs.Seen.{BookView};
    ghost use Rattle.gu_book.specs.Kept.{IsBook};
    ghost use Rattle.gu_book.specs.Parts.{ArePartsOf};

    ghost Value = { BookView };

    ghost view = { λ b. record { house = b.house; history = b.entries.items; visits = b.visits } };

    ghost invariant = { λ b. IsBook b.house b.entries.items b.consents b.reversals b.state
        × ArePartsOf b.entries.items b.parts };
}

impl Book {
    /// A book without entries.
    pub fn new(alloc: Global, house: House) -> Book
        ensures { result ≡ record { house = house; history = []; visits = 0 } }
    {
        Book {
            house,
            entries: History::new(alloc),
            state: LiveState::new(alloc),
            consents: Consents::new(alloc),
            reversals: Reversals::new(alloc),
            visits: 0,
            parts: 0,
        }
    }

    /// The book of a house behind its opening calls, by which the clearing house makes the
    /// agreements of a house file of version 2. A file of version 1 has none of these, and its book
    /// is `new`.
    ///
    /// # Errors
    ///
    /// The house, and `Memory`, where a growth was refused: never where there are no opening calls,
    /// since then there are no growths.
    pub fn open(alloc: Global, house: House) -> Result<Book, (House, Memory)>
        ensures opened { IfOk result (λ b. stored b ≡ record {
          house = house;
          history = opening_history house;
        }) }
        ensures memory { OnErr result (1 ≤ length house.opening) }
        ensures given_back { IfErr result (λ e. e.0 ≡ house) }
    {
        let count = house.opening_count();
        let mut book = Book::new(alloc, house);
        for place in 0..count {
            if let Err(e) = book.make_opening_call(alloc, place) {
                return Err((book.into_house(), e));
            }
        }
        Ok(book)
    }

    /// Finds ids under this key from now on. Nothing that a contract sees depends on it, but
    /// whoever doesn't know it can't choose ids that fall together. Takes time by the length of the
    /// history, and no memory. A new book has a key that everyone knows.
    pub fn rekey(&mut self, key: HashKey)
        ensures { self.new ≡ self.old }
    {
        self.entries.rekey(key);
    }

    /// The house table, without the book.
    fn into_house(self) -> House
        ensures { result ≡ self.house }
    {
        self.house
    }

    /// Makes the opening call at this place.
    #[tactic(auto, using(crate::proofs::Opening::call_there))]
    fn make_opening_call(&mut self, alloc: Global, place: usize) -> Result<(), Memory>
        requires { place < length self.old.house.opening }
        ensures made { OnOk result (IsSomeAnd (slice_get (opening_calls self.old.house) place)
            (λ c. stored self.new ≡ record {
              house = self.old.house;
              history = after self.old.house self.old.history c;
            })) }
        ensures unchanged { OnErr result (stored self.new ≡ stored self.old) }
    {
        let Some((id, command)) = self.house.opening_at(place) else {
            unreachable!()
        };
        let by = self.house.house();
        match self.apply(alloc, &by, &id, &command) {
            Ok(_) => Ok(()),
            Err(e) => Err(e),
        }
    }

    /// The house table.
    pub fn house(&self) -> &House
        ensures { result.now ≡ self.now.house }
    {
        &self.house
    }

    /// The accepted commands, in order.
    #[tactic(auto, using(crate::proofs::Cited::history_runs))]
    pub fn history(&self) -> &[Entry]
        ensures value { result.now ≡ self.now.history }
        ensures fits { length self.now.history ≤ most_entries }
        ensures run { IsRunFrom self.now.house [] self.now.history }
        ensures once { NoIdTwice self.now.history }
        ensures legal { IsLegal self.now.house (live self.now.history) }
    {
        self.entries.as_slice()
    }

    /// The numbers of the live changes, in order.
    ///
    /// # Errors
    ///
    /// `Memory` where a growth was refused.
    pub fn live(&self, alloc: Global) -> Result<Vec<Number>, Memory>
        ensures { IfOk result (λ v. v.items ≡ map (λ r. r.number) (live self.now.history)) }
    {
        Live::of(self.entries.as_slice(), &self.reversals).numbers(alloc)
    }

    /// Answers a call, and keeps it where it is accepted.
    ///
    /// # Errors
    ///
    /// `Memory` where a growth was refused, in the place of an accepted call alone.
    pub fn apply(
        &mut self,
        alloc: Global,
        by: &FirmId,
        id: &AllocId,
        command: &Command,
    ) -> Result<Answer, Memory>
        ensures answered { IfOk result (λ a. a
            ≡ answer_to self.old.house self.old.history (record {
              firm = by.now;
              id = id.now;
              command = command.now;
            })) }
        ensures kept { OnOk result (stored self.new ≡ record {
          house = self.old.house;
          history = after self.old.house self.old.history (record {
            firm = by.now;
            id = id.now;
            command = command.now;
          });
        }) }
        ensures memory { OnErr result (IsTrue
            (may_lack (answer_to self.old.house self.old.history (record {
              firm = by.now;
              id = id.now;
              command = command.now;
            })))) }
        ensures unchanged { OnErr result (stored self.new ≡ stored self.old) }
        ensures visits { AreVisits (live self.old.history) by.now command.now (is_kept result)
            self.new.visits }
    {
        let mut sought = Sought::nothing();
        self.seek(command, &mut sought);
        let hash = self.entries.hash_of(by, id);
        let answer = self.answer(by, id, hash, command, &sought);
        self.note(sought.nodes);
        match answer {
            Answer::Accepted { number, status } => {
                let made = Change {
                    number,
                    firm: by,
                    id,
                    status,
                    command,
                };
                self.carry_out(alloc, &made, hash, &sought)?;
                self.note(sought.nodes + visits::nodes_made(command));
                Ok(answer)
            }
            Answer::Repeated { .. } | Answer::Refused(_) => Ok(answer),
        }
    }

    /// How many nodes of the trees the last `apply` visited, each counted once: those on the ways
    /// to the nodes that it looked at, and the parts that it made, took away or asked after. Of a
    /// Reverse of a Claim, an Agree or a Raise it counts the entries of their giver and taker too:
    /// their Agree, Raises and Claims. A call that is refused, repeated or finds no memory changes
    /// this number too.
    pub fn visits(&self) -> u64
        ensures { result ≡ self.now.visits }
    {
        self.visits
    }

    /// How many parts the Splits of the history have, those of reversed ones too: each takes memory
    /// for as long as the book is there.
    pub fn parts(&self) -> u64
        ensures { result ≡ parts_kept self.now.history }
    {
        self.parts
    }

    /// Says how many nodes the call visited.
    fn note(&mut self, visits: u64)
        ensures { self.new ≡ record self.old { visits = visits } }
    {
        self.visits = visits;
    }

    /// Puts in what a command names, so that the processor fetches it before it is asked whether
    /// the id is known.
    #[tactic(auto, using(gu_base::proofs::LegalLaws::legal_from_replay))]
    fn seek(&self, command: &Command, sought: &mut Sought)
        requires { IsNothing sought.old }
        ensures named { IsNamedIn (live self.now.history) (named_node command.now)
            sought.new.named }
        ensures undo { IsUndoIn self.now.house self.now.history command.now sought.new.undo }
        ensures undone { IsUndoneIn (live self.now.history) command.now sought.new.undone
            sought.new.path.items }
        ensures there { LiesThere (live self.now.history) sought.new.named sought.new.path.items }
        ensures standing { IsStandingIn self.now.house (live self.now.history) command.now
            sought.new.standing }
        ensures seen { (by : List ℕ) → AreSeen (live self.now.history) by command.now
            sought.new.nodes }
    {
        let entries = self.entries.as_slice();
        seek(
            &self.house,
            entries,
            &self.reversals,
            &self.state,
            command,
            sought,
        );
    }

    /// What the book asks of what stands on a change, and what `first_standing` reads off its trees
    /// and terms.
    #[tactic(auto, using(gu_base::proofs::LegalLaws::legal_from_replay))]
    pub(crate) fn standings(&self, entry: Number) -> (Option<Number>, Option<Number>)
        ensures asked { result.0 ≡ standing_on self.now.house (live self.now.history) entry }
        ensures read { result.1 ≡ standing_on self.now.house (live self.now.history) entry }
    {
        let mut sought = Sought::nothing();
        self.seek(&Command::Reverse { entry }, &mut sought);
        let read = first_standing(&self.state.trees, &self.state.terms, entry);
        (sought.standing, read)
    }

    /// The answer to a call of whose command this is known. Keeps nothing and takes no memory.
    #[tactic(auto, using(crate::proofs::Leaves::live_rises))]
    fn answer(
        &self,
        by: &FirmId,
        id: &AllocId,
        hash: IdHash,
        command: &Command,
        sought: &Sought,
    ) -> Answer
        requires hashed { IsHashOf hash by.now id.now }
        requires named { IsNamedIn (live self.now.history) (named_node command.now)
            sought.now.named }
        requires undo { IsUndoIn self.now.house self.now.history command.now sought.now.undo }
        requires standing { IsStandingIn self.now.house (live self.now.history) command.now
            sought.now.standing }
        ensures { result ≡ answer_to self.now.house self.now.history (record {
          firm = by.now;
          id = id.now;
          command = command.now;
        }) }
    {
        let at = Basis {
            house: &self.house,
            entries: &self.entries,
            named: &sought.named,
            undo: &sought.undo,
            standing: sought.standing,
            terms: &self.state.terms,
            consents: &self.consents,
        };
        calls::answer(&at, by, id, hash, command)
    }

    /// Keeps an accepted call at the end of the history. All growths come before anything changes.
    fn carry_out(
        &mut self,
        alloc: Global,
        made: &Change<'_>,
        hash: IdHash,
        sought: &Sought,
    ) -> Result<(), Memory>
        requires hashed { IsHashOf hash made.now.firm.now made.now.id.now }
        requires accepted { IsAcceptedBy self.old made.now }
        requires named { IsNamedIn (live self.old.history) (named_node made.now.command.now)
            sought.now.named }
        requires undone { IsUndoneIn (live self.old.history) made.now.command.now sought.now.undone
            sought.now.path.items }
        requires there { LiesThere (live self.old.history) sought.now.named sought.now.path.items }
        ensures kept { OnOk result (self.new ≡ with_entry self.old made.now) }
        ensures unchanged { OnErr result (self.new ≡ self.old) }
    {
        match made.command {
            Command::Initiate { .. } | Command::Decline { .. } => {
                self.keep_consenting(alloc, made, hash)
            }
            Command::Reverse { entry } => self.keep_reversal(made, hash, *entry, sought),
            _ => self.keep_change(alloc, made, hash, sought),
        }
    }

    /// Keeps an accepted change, and adds it to what is kept of the live ones.
    fn keep_change<'c>(
        &mut self,
        alloc: Global,
        made: &'c Change<'c>,
        hash: IdHash,
        sought: &'c Sought,
    ) -> Result<(), Memory>
        requires change { is_change made.now.command.now ≡ true }
        requires hashed { IsHashOf hash made.now.firm.now made.now.id.now }
        requires accepted { IsAcceptedBy self.old made.now }
        requires named { IsNamedIn (live self.old.history) (named_node made.now.command.now)
            sought.now.named }
        requires there { LiesThere (live self.old.history) sought.now.named sought.now.path.items }
        ensures kept { OnOk result (self.new ≡ with_entry self.old made.now) }
        ensures unchanged { OnErr result (self.new ≡ self.old) }
    {
        let parts = parts_of(alloc, made.command)?;
        self.entries.ready()?;
        let addition = Addition {
            house: &self.house,
            changes: Live::of(self.entries.as_slice(), &self.reversals),
            made,
            sought,
        };
        self.state.add(alloc, &addition)?;
        push_change(&mut self.entries, made, hash, parts);
        self.parts += visits::parts_in(made.command);
        Ok(())
    }

    /// Keeps an accepted Initiate or Decline, and does to the consents what it says.
    #[inline(never)]
    #[tactic(auto, using(crate::proofs::Keeps::is_accepted_in))]
    fn keep_consenting(
        &mut self,
        alloc: Global,
        made: &Change<'_>,
        hash: IdHash,
    ) -> Result<(), Memory>
        requires consenting { is_consenting made.now.command.now ≡ true }
        requires hashed { IsHashOf hash made.now.firm.now made.now.id.now }
        requires accepted { IsAcceptedBy self.old made.now }
        ensures kept { OnOk result (self.new ≡ with_entry self.old made.now) }
        ensures unchanged { OnErr result (self.new ≡ self.old) }
    {
        self.entries.ready()?;
        let kept = match made.command {
            Command::Initiate { entry } => Command::Initiate { entry: *entry },
            Command::Decline { entry } => Command::Decline { entry: *entry },
            _ => unreachable!(),
        };
        consent(&mut self.consents, alloc, made)?;
        push(&mut self.entries, made, hash, kept);
        Ok(())
    }

    /// Keeps an accepted Reverse, and takes its change out of what is kept of the live ones.
    #[inline(never)]
    #[tactic(auto, using(crate::proofs::Keeps::is_accepted_in))]
    fn keep_reversal<'c>(
        &mut self,
        made: &'c Change<'c>,
        hash: IdHash,
        change: Number,
        sought: &'c Sought,
    ) -> Result<(), Memory>
        requires names { made.now.command.now ≡ Reverse change }
        requires undone { IsUndoneBy (live self.old.history) change sought.now.undone
            sought.now.path.items }
        requires hashed { IsHashOf hash made.now.firm.now made.now.id.now }
        requires accepted { IsAcceptedBy self.old made.now }
        ensures kept { OnOk result (self.new ≡ with_entry self.old made.now) }
        ensures unchanged { OnErr result (self.new ≡ self.old) }
    {
        self.entries.ready()?;
        self.reversals.ready(change)?;
        let entries = self.entries.as_slice();
        let removal = Removal {
            house: &self.house,
            changes: Live::of(entries, &self.reversals),
            number: change,
            entry: &entries[change.get() as usize - 1],
            sought,
        };
        self.state.remove(&removal)?;
        self.reversals.put(change, made.number);
        self.consents.clear(change);
        let kept = Command::Reverse { entry: change };
        push(&mut self.entries, made, hash, kept);
        Ok(())
    }

    /// The rows of a live trade's tree: a node, then its parts in order. `None` where the number is
    /// of no live Trade.
    ///
    /// # Errors
    ///
    /// `Memory` where a growth was refused, of a live trade alone.
    pub fn tree_rows(&self, alloc: Global, trade: Number) -> Result<Option<Vec<Row>>, Memory>
        ensures rows { IfOk result (λ o. option_map (λ v. map shown v.items) o
            ≡ tree_rows (live self.now.history) trade) }
        ensures memory { OnErr result (IsTrue (is_live_trade (live self.now.history) trade)) }
    {
        grove::rows(&self.state.trees, alloc, trade)
    }

    /// The lots that stand in an account in an instrument: those of buy trades, and those of sell
    /// trades. They are those of the leaves of the trees.
    pub fn position(
        &self,
        firm: &FirmId,
        account: &AccountId,
        instrument: &InstrumentId,
    ) -> (u64, u64)
        ensures long { result.0 ≡ position_of (live self.now.history) firm.now account.now
            instrument.now Buy }
        ensures short { result.1 ≡ position_of (live self.now.history) firm.now account.now
            instrument.now Sell }
    {
        self.state.positions.of(&Key {
            firm: *firm,
            account: *account,
            instrument: *instrument,
        })
    }

    /// What a firm pays for the live claims that it made, in hundredths.
    #[tactic(auto, using(crate::proofs::Charging::paid_told))]
    pub fn paid(&self, firm: &FirmId) -> u64
        ensures { result ≡ paid_by self.now.house (live self.now.history) firm.now }
    {
        self.state.fees.paid(firm)
    }

    /// What a firm receives for the live claims of what it gave up, in hundredths.
    #[tactic(auto, using(crate::proofs::Charging::received_told))]
    pub fn received(&self, firm: &FirmId) -> u64
        ensures { result ≡ received_by self.now.house (live self.now.history) firm.now }
    {
        self.state.fees.received(firm)
    }

    /// The lots of the live claims under the agreement of a giver and a taker.
    #[tactic(auto, using(crate::proofs::Dealing::uses_are))]
    pub fn used(&self, giver: &FirmId, taker: &FirmId) -> u64
        ensures { result ≡ used_of (live self.now.history) giver.now taker.now }
    {
        self.state.fees.used(giver, taker)
    }

    /// The lots of live claims that the giver allows the taker, `None` where they have no terms:
    /// the limit of their agreement, and their Raises.
    pub fn limit(&self, giver: &FirmId, taker: &FirmId) -> Option<u64>
        ensures { result ≡ limit_of self.now.house (live self.now.history) giver.now taker.now }
    {
        terms::limit_of(&self.house, &self.state.terms, giver, taker)
    }

    /// The terms of a giver and a taker, `None` where they have none: those of the house table, or
    /// else those of their live Agree. The limit is that of the agreement alone; `limit` adds the
    /// Raises.
    pub fn terms(&self, giver: &FirmId, taker: &FirmId) -> Option<Agreement>
        ensures { result ≡ terms_of self.now.house (live self.now.history) giver.now taker.now }
    {
        terms::terms_of(&self.house, &self.state.terms, giver, taker)
    }
}

/// Puts the entry of an accepted call at the end of the history; there has to be room for it.
#[inline(always)]
fn push(entries: &mut History, made: &Change<'_>, hash: IdHash, command: Command)
    requires ready { HasRoom entries.old }
    requires same { command ≡ made.now.command.now }
    requires hashed { IsHashOf hash made.now.firm.now made.now.id.now }
    requires accepted { IsAccepted entries.old.items (entry_of_change made.now) made.now.number }
    ensures { entries.new.items ≡ entries.old.items ++ entry_of_change made.now ∷ [] }
{
    entries.push(hash, made.firm, made.id, made.status, command);
}

/// The same of an accepted change. A Split gets these parts, which have to be equal to its own. A
/// Trade and a Split, of which most books are, have code of their own, which copies no more than
/// they have.
#[inline(always)]
fn push_change(entries: &mut History, made: &Change<'_>, hash: IdHash, parts: Parts)
    requires change { is_change made.now.command.now ≡ true }
    requires parts { (n : EntryPart) (its : List PartData) → made.now.command.now ≡ Split n its
        → parts ≡ its }
    requires ready { HasRoom entries.old }
    requires hashed { IsHashOf hash made.now.firm.now made.now.id.now }
    requires accepted { IsAccepted entries.old.items (entry_of_change made.now) made.now.number }
    ensures { entries.new.items ≡ entries.old.items ++ entry_of_change made.now ∷ [] }
{
    match made.command {
        Command::Trade { .. } => push(entries, made, hash, copy_of(made.command)),
        Command::Split { node, .. } => {
            let kept = Command::Split { node: *node, parts };
            push(entries, made, hash, kept);
        }
        _ => push(entries, made, hash, copy_of(made.command)),
    }
}

/// Adds the consent that an accepted Initiate gives, or clears those that a Decline takes back.
fn consent(consents: &mut Consents, alloc: Global, made: &Change<'_>) -> Result<(), Memory>
    requires consenting { is_consenting made.now.command.now ≡ true }
    ensures gives { OnOk result ((k m : ℕ) → made.now.command.now ≡ Initiate k
        → given consents.new m ≡ (if m == k then given consents.old m ++ made.now.firm.now
        ∷ [] else given consents.old m)) }
    ensures clears { OnOk result ((k m : ℕ) → made.now.command.now ≡ Decline k
        → given consents.new m ≡ (if m == k then [] else given consents.old m)) }
    ensures unchanged { OnErr result ((m : ℕ) → given consents.new m ≡ given consents.old m) }
{
    match made.command {
        Command::Initiate { entry } => consents.give(alloc, *entry, *made.firm),
        Command::Decline { entry } => {
            consents.clear(*entry);
            Ok(())
        }
        _ => unreachable!(),
    }
}
