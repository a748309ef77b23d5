//! The count of the records and of the durable ones, and what is known of them to whom.
//!
//! The count is two words of a table: the length of the history, and of the beginning of it that is
//! durable. Beside them, in the proofs alone, each pass has seen a beginning of the history and
//! knows of a beginning of what is durable: the book's pass has seen all of the history, the
//! journal's knows of all that is durable, a caller's has seen what stood there when its caller
//! last had an answer. The table's rule is what a caller later relies on: the passes of one table
//! have seen beginnings of one history, and of two beginnings of one history the shorter begins the
//! longer. So a number is a receipt: where so many records are durable as a pass has seen, all that
//! it has seen is. A pass takes no bytes, and each step costs one access of a word.
ghost use Rattle.std.specs.Prelude.{◌≡◌, ◌≤◌, [], length, IfOk};
ghost use Rattle.std.specs.Arc.{arc_value};
ghost use Rattle.gu_base.specs.Limits.{most_entries};
ghost use Rattle.gu_desk.specs.Begins.{BeginsWith};
ghost use Rattle.gu_desk.specs.Passes.{IsOf, of_book, of_journal, of_caller, beside, with_kept};
ghost use Rattle.gu_desk.specs.Shares.{Gains, GainsOne};

use atomic_table::{Join, Play, Split, Table, TableRule};
use gu_base::{Answer, Entry, Memory};
use gu_book::Book;
use std::alloc::Global;
use std::collections::LinkedList;
use std::sync::Arc;

/// What a pass knows: the history that it has seen, the one that a pass laid into it had seen, the
/// beginning of the history that it knows to be durable, and whether it is the book's or the
/// journal's. No code makes one.
pub struct PassView {
    pub seen: LinkedList<Entry>,
    pub laid_in: LinkedList<Entry>,
    pub kept: LinkedList<Entry>,
    pub is_books: bool,
    pub is_journals: bool,
}

/// The rule of the count. The first pass is the book's and the journal's, and has seen the history
/// that the book opens with.
pub struct CountRule;

impl TableRule<Entry, PassView, Book> for CountRule {
    ghost use Rattle.gu_desk.specs.Passes.{IsCounted, of_opening};

    ghost holds = { λ opening s. IsCounted s };

    ghost first = { λ opening. of_opening opening.history };
}

/// A look at the count by the book's pass: it finds how many records that pass has seen, and what
/// was laid into it begins the history.
pub struct Look;

impl Play<Entry, PassView> for Look {
    ghost use Rattle.gu_desk.specs.Passes.{Looks};

    ghost then = { Looks };
}

/// One added to the count, for a record at the end of the history.
pub struct Publication;

impl Play<Entry, PassView> for Publication {
    ghost use Rattle.gu_desk.specs.Passes.{Publishes};

    ghost then = { Publishes };
}

/// A look at how many records are durable, by any pass.
pub struct Settlement;

impl Play<Entry, PassView> for Settlement {
    ghost use Rattle.gu_desk.specs.Passes.{Settles};

    ghost then = { Settles };
}

/// All that the journal's pass has seen is durable.
pub struct Confirmation;

impl Play<Entry, PassView> for Confirmation {
    ghost use Rattle.gu_desk.specs.Passes.{Confirms};

    ghost then = { Confirms };
}

/// A caller's pass split off another.
pub struct GiveOut;

impl Split<PassView> for GiveOut {
    ghost use Rattle.gu_desk.specs.Passes.{beside};

    ghost left = { λ v. v };

    ghost right = { λ v. beside v };
}

/// The journal's pass split off the first, which is the book's alone from then on.
pub struct GiveJournal;

impl Split<PassView> for GiveJournal {
    ghost use Rattle.gu_desk.specs.Passes.{journal_of, without_journal};

    ghost left = { λ v. without_journal v };

    ghost right = { λ v. journal_of v };
}

/// A caller's pass laid into the book's or another caller's, and spent.
pub struct LayIn;

impl Join<PassView> for LayIn {
    ghost use Rattle.std.specs.Prelude.{[]};
    ghost use Rattle.gu_desk.specs.Passes.{of_caller, with_laid_in};

    ghost both = { with_laid_in };

    ghost spent = { of_caller [] };
}

/// A caller's pass laid into the journal's, which has then seen what the caller's had.
pub struct ShowJournal;

impl Join<PassView> for ShowJournal {
    ghost use Rattle.std.specs.Prelude.{[]};
    ghost use Rattle.gu_desk.specs.Passes.{of_caller, with_seen_of};

    ghost both = { with_seen_of };

    ghost spent = { of_caller [] };
}

/// A caller's pass laid into the journal's, to compare what they know to be durable, and spent.
pub struct LayKept;

impl Join<PassView> for LayKept {
    ghost use Rattle.std.specs.Prelude.{[]};
    ghost use Rattle.gu_desk.specs.Passes.{of_caller, with_kept_laid_in};

    ghost both = { with_kept_laid_in };

    ghost spent = { of_caller [] };
}

/// A look by the journal's pass: what was laid into it begins what it knows to be durable.
pub struct Comparison;

impl Play<Entry, PassView> for Comparison {
    ghost use Rattle.gu_desk.specs.Passes.{Compares};

    ghost then = { Compares };
}

/// A look by a caller's pass: what was laid into it begins what it has seen, where it is no longer.
pub struct Ordering;

impl Play<Entry, PassView> for Ordering {
    ghost use Rattle.gu_desk.specs.Passes.{Orders};

    ghost then = { Orders };
}

/// The word that counts the records.
const RECORDS: usize = 0;

/// The word that counts the durable ones.
const DURABLE: usize = 1;

/// The two words of a count.
pub type Words = Table<Entry, PassView, Book, CountRule, Global>;

/// A count of a book's records, and of the durable ones. The till and the desk beside it share it.
pub type Count = Arc<Words, Global>;

/// A pass of a count.
pub type Pass = atomic_table::Seat<Entry, PassView>;

/// A count of the book's records, of which none is durable yet, the book's pass and the journal's.
///
/// # Errors
///
/// `Memory` where a growth was refused.
pub(crate) fn open_count(alloc: Global, book: &Book) -> Result<(Count, Pass, Pass), Memory>
    ensures table { IfOk result (λ r. IsOf (arc_value r.0).shared.table_id r.1.table_id) }
    ensures journal_table { IfOk result (λ r. r.2.table_id ≡ (arc_value r.0).shared.table_id) }
    ensures books { IfOk result (λ r. r.1.me ≡ (of_book book.now.history, [])) }
    ensures journals { IfOk result (λ r. r.2.me ≡ (of_journal book.now.history [], [])) }
{
    let length = book.history().len() as u64;
    let (words, mut pass) = Words::of_words(alloc, &[length, 0], book)?;
    let journal = words.shared.split_seat::<GiveJournal>(&mut pass);
    Ok((Arc::new(alloc, words)?, pass, journal))
}

/// Lays a caller's pass into the book's, and looks: what the caller had seen is a beginning of the
/// history.
pub(crate) fn lay_in(count: &Count, pass: &mut Pass, caller: Pass)
    requires tables { IsOf (arc_value count.now).shared.table_id pass.old.table_id }
    requires callers_table { caller.table_id ≡ (arc_value count.now).shared.table_id }
    requires slots { caller.me.1 ≡ [] }
    requires books { pass.old.me ≡ (of_book pass.old.me.0.seen, []) }
    ensures table { pass.new.table_id ≡ pass.old.table_id }
    ensures same { pass.new.me ≡ pass.old.me }
    ensures begins { BeginsWith pass.old.me.0.seen caller.me.0.seen }
{
    count.shared.join_seat::<LayIn>(pass, caller);
    count.shared.load::<Look>(pass, RECORDS);
}

/// Puts the last record of the history behind what the book's pass has seen.
fn publish(count: &Count, pass: &mut Pass, history: &[Entry])
    requires tables { IsOf (arc_value count.now).shared.table_id pass.old.table_id }
    requires books { pass.old.me ≡ (of_book pass.old.me.0.seen, []) }
    requires one { GainsOne pass.old.me.0.seen history.now }
    requires fits { length history.now ≤ most_entries }
    ensures table { pass.new.table_id ≡ pass.old.table_id }
    ensures added { pass.new.me ≡ (of_book history.now, []) }
{
    let before = history.len() - 1;
    count.shared.compare_exchange_with::<Publication>(
        pass,
        RECORDS,
        before as u64,
        before as u64 + 1,
        &history[before],
    );
}

/// Puts the record of an accepted call behind what the book's pass has seen: it stands at the end
/// of the history.
pub(crate) fn publish_accepted(
    count: &Count,
    pass: &mut Pass,
    history: &[Entry],
    answer: &Result<Answer, Memory>,
)
    requires tables { IsOf (arc_value count.now).shared.table_id pass.old.table_id }
    requires books { pass.old.me ≡ (of_book pass.old.me.0.seen, []) }
    requires gains { Gains answer.now pass.old.me.0.seen history.now }
    requires fits { length history.now ≤ most_entries }
    ensures table { pass.new.table_id ≡ pass.old.table_id }
    ensures added { pass.new.me ≡ (of_book history.now, []) }
{
    if let Ok(Answer::Accepted { .. }) = answer {
        publish(count, pass, history);
    }
}

/// How many records the book's pass has seen, and a caller's pass that has seen the same.
pub(crate) fn give_out(count: &Count, pass: &mut Pass) -> (u32, Pass)
    requires tables { IsOf (arc_value count.now).shared.table_id pass.old.table_id }
    requires books { pass.old.me ≡ (of_book pass.old.me.0.seen, []) }
    requires fits { length pass.old.me.0.seen ≤ most_entries }
    ensures table { pass.new.table_id ≡ pass.old.table_id }
    ensures same { pass.new.me ≡ pass.old.me }
    ensures records { result.0 ≡ length pass.old.me.0.seen }
    ensures new { (result.1.table_id ≡ pass.old.table_id)
        × (result.1.me ≡ (of_caller pass.old.me.0.seen, [])) }
{
    let records = count.shared.load::<Look>(pass, RECORDS);
    (records as u32, count.shared.split_seat::<GiveOut>(pass))
}

/// A caller's pass beside this one, which has seen the same.
pub(crate) fn give_beside(count: &Count, pass: &mut Pass) -> Pass
    requires tables { IsOf (arc_value count.now).shared.table_id pass.old.table_id }
    ensures table { pass.new.table_id ≡ pass.old.table_id }
    ensures same { pass.new.me ≡ pass.old.me }
    ensures new_table { result.table_id ≡ pass.old.table_id }
    ensures new { result.me ≡ (beside pass.old.me.0, []) }
{
    count.shared.split_seat::<GiveOut>(pass)
}

/// Shows the journal's pass the history that the book's has seen, and says how long it is. What the
/// journal's had seen is a beginning of it.
pub(crate) fn show_journal(count: &Count, pass: &mut Pass, journal: &mut Pass) -> u32
    requires tables { IsOf (arc_value count.now).shared.table_id pass.old.table_id }
    requires journals_table { journal.old.table_id ≡ (arc_value count.now).shared.table_id }
    requires books { pass.old.me ≡ (of_book pass.old.me.0.seen, []) }
    requires fits { length pass.old.me.0.seen ≤ most_entries }
    requires journals { journal.old.me
        ≡ (of_journal journal.old.me.0.seen journal.old.me.0.kept, []) }
    ensures table { pass.new.table_id ≡ pass.old.table_id }
    ensures same { pass.new.me ≡ pass.old.me }
    ensures records { result ≡ length pass.old.me.0.seen }
    ensures shown_table { journal.new.table_id ≡ journal.old.table_id }
    ensures shown { journal.new.me ≡ (of_journal pass.old.me.0.seen journal.old.me.0.kept, []) }
    ensures begins { BeginsWith pass.old.me.0.seen journal.old.me.0.seen }
{
    let had = give_beside(count, journal);
    lay_in(count, pass, had);
    let (records, news) = give_out(count, pass);
    count.shared.join_seat::<ShowJournal>(journal, news);
    records
}

/// How many records are durable, by one load. Where they are as many as the pass has seen, all that
/// it has seen is durable.
pub(crate) fn settle(count: &Count, pass: &mut Pass) -> u32
    requires tables { IsOf (arc_value count.now).shared.table_id pass.old.table_id }
    ensures table { pass.new.table_id ≡ pass.old.table_id }
    ensures same { pass.new.me ≡ (with_kept pass.new.me.0.kept pass.old.me.0, pass.old.me.1) }
    ensures found { result ≡ length pass.new.me.0.kept }
    ensures later { BeginsWith pass.new.me.0.kept pass.old.me.0.kept }
    ensures receipt { length pass.old.me.0.seen ≤ result
        → BeginsWith pass.new.me.0.kept pass.old.me.0.seen }
{
    count.shared.load::<Settlement>(pass, DURABLE) as u32
}

/// Tells all passes that what the journal's has seen is durable: so many records.
pub(crate) fn confirm(count: &Count, pass: &mut Pass, records: u32)
    requires tables { IsOf (arc_value count.now).shared.table_id pass.old.table_id }
    requires journals { pass.old.me ≡ (of_journal pass.old.me.0.seen pass.old.me.0.kept, []) }
    requires begins { BeginsWith pass.old.me.0.seen pass.old.me.0.kept }
    requires all { records ≡ length pass.old.me.0.seen }
    ensures table { pass.new.table_id ≡ pass.old.table_id }
    ensures confirmed { pass.new.me ≡ (of_journal pass.old.me.0.seen pass.old.me.0.seen, []) }
{
    count
        .shared
        .store::<Confirmation>(pass, DURABLE, records as u64);
}

/// Lays a caller's pass into the journal's, and compares: what the caller's knew to be durable is a
/// beginning of what the journal's knows.
pub(crate) fn compare(count: &Count, pass: &mut Pass, caller: Pass)
    requires tables { IsOf (arc_value count.now).shared.table_id pass.old.table_id }
    requires callers_table { caller.table_id ≡ (arc_value count.now).shared.table_id }
    requires slots { caller.me.1 ≡ [] }
    requires journals { pass.old.me ≡ (of_journal pass.old.me.0.seen pass.old.me.0.kept, []) }
    ensures table { pass.new.table_id ≡ pass.old.table_id }
    ensures same { pass.new.me ≡ pass.old.me }
    ensures begins { BeginsWith pass.old.me.0.kept caller.me.0.kept }
{
    count.shared.join_seat::<LayKept>(pass, caller);
    count.shared.load::<Comparison>(pass, DURABLE);
}

/// Where a caller's pass has seen no more records than this one, what it has seen is a beginning of
/// what this one has.
pub(crate) fn order(count: &Count, pass: &mut Pass, caller: Pass)
    requires tables { IsOf (arc_value count.now).shared.table_id pass.old.table_id }
    requires callers_table { caller.table_id ≡ (arc_value count.now).shared.table_id }
    requires slots { caller.me.1 ≡ [] }
    requires fewer { length caller.me.0.seen ≤ length pass.old.me.0.seen }
    ensures table { pass.new.table_id ≡ pass.old.table_id }
    ensures same { pass.new.me ≡ pass.old.me }
    ensures begins { BeginsWith pass.old.me.0.seen caller.me.0.seen }
{
    let mut beside = give_beside(count, pass);
    count.shared.join_seat::<LayIn>(&mut beside, caller);
    count.shared.load::<Ordering>(&mut beside, RECORDS);
}
