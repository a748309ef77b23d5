//! Laws of histories and of lists of changes. Calling one gives its clauses as facts.
ghost use Rattle.std.specs.Prelude.{◌≡◌, ◌≤◌, ℕ, Bool, true, List, [], ◌++◌, length, filter, map};
ghost use Rattle.std.specs.Prelude.{option_map};
ghost use Rattle.gu_base.specs.House.{House, HasLawfulOpening};
ghost use Rattle.gu_base.specs.History.{live, RisesFrom};
ghost use Rattle.gu_base.specs.Limits.{most_entries};
ghost use Rattle.gu_base.specs.Refusals.{refusal_of};
ghost use Rattle.gu_base.specs.Runs.{after_all, call_of, IsRunFrom, opening_history};
ghost use Rattle.gu_base.specs.Standing.{IsLegal, standing_on};
ghost use Rattle.gu_base.specs.declared.command.Command.{Command};
ghost use Rattle.gu_base.specs.declared.entry.Entry.{Entry};
ghost use Rattle.gu_base.specs.declared.entry.Record.{Record};
ghost use Rattle.gu_tree.specs.Shown.{HasDistinctNumbers};
ghost use Rattle.gu_lives.specs.Extends.{Extends, extends, HasMore, TellsTheSame};
ghost use Rattle.gu_lives.specs.Kept.{IsClosed};
ghost use Rattle.gu_lives.specs.Renumbered.{mapped, mapped_command, mapped_refusal, renumbered};
ghost use Rattle.gu_lives.specs.Renumbered.{rolled, with_ids, HasOwnIds, IsInjective, IsSameMapped};
ghost use Rattle.gu_lives.specs.Renumbered.{IsWhole};
ghost use Rattle.gu_lives.specs.Roll.{CanRoll, IsRolled};
ghost use Rattle.gu_lives.specs.Trades.{in_trades, IsSplitInTwo, TellsOfTrades};

/// A history of a run from the opening history of its house is one under each table that extends
/// that house, and tells the same there; and the test of that reads the two tables line by line.
pub fn a_larger_house_keeps_the_history()
    ensures test { (t u : House) → extends t u ≡ true → Extends t u }
    ensures opening { (t u : House) → Extends t u → HasLawfulOpening t
        → length t.opening ≤ most_entries → opening_history u ≡ opening_history t }
    ensures run { (t u : House) (h : List Entry) → Extends t u → HasLawfulOpening t
        → length t.opening ≤ most_entries → IsRunFrom t (opening_history t) h
        → IsRunFrom u (opening_history u) h }
    ensures same { (t u : House) (h : List Entry) → Extends t u → IsRunFrom t (opening_history t) h
        → TellsTheSame t u (live h) }
{}

/// With other numbers, no two of which are one, each change is refused as before or accepted as
/// before, the same stands on each, and trees, positions, fees, uses and limits are the same but
/// for the numbers. So nothing in the rules depends on how large a number is.
pub fn other_numbers_change_nothing()
    ensures refused { (t : House) (f : ℕ → ℕ) (l : List Record) (by : List ℕ) (c : Command)
        → IsInjective f → refusal_of t (mapped f l) by (mapped_command f c)
        ≡ option_map (mapped_refusal f) (refusal_of t l by c) }
    ensures stands { (t : House) (f : ℕ → ℕ) (l : List Record) (k : ℕ) → IsInjective f
        → standing_on t (mapped f l) (f k) ≡ option_map f (standing_on t l k) }
    ensures same { (t : House) (f : ℕ → ℕ) (l : List Record) → IsInjective f
        → IsSameMapped t f l (mapped f l) }
{}

/// Ids decide nothing but whether a call was made before: with other ids, each firm's all
/// different, a whole list is whole.
pub fn other_ids_change_nothing()
    ensures refused { (t : House) (g : Record → List ℕ) (l : List Record) (by : List ℕ)
        (c : Command) → refusal_of t (with_ids g l) by c ≡ refusal_of t l by c }
    ensures whole { (t : House) (g : Record → List ℕ) (l : List Record) → IsWhole t l
        → HasOwnIds (with_ids g l) → IsWhole t (with_ids g l) }
{}

/// The live changes of a run are a list that can be a history of its own, and their numbers rise.
pub fn live_changes_are_whole()
    ensures rise { (h : List Entry) → RisesFrom 0 (live h) }
    ensures whole { (t : House) (h : List Entry) → HasLawfulOpening t
        → length t.opening ≤ most_entries → IsRunFrom t (opening_history t) h
        → length h ≤ most_entries → IsWhole t (live h) }
{}

/// Such a list with numbers from 1 on is a history of a run, each with the status that it had, and
/// its live changes are itself. Where it begins with the opening of its house, it is a run from
/// there; and a house that has more, whatever its opening, has it as a whole list too.
pub fn a_whole_list_is_a_history()
    ensures larger { (t u : House) (l : List Record) → HasMore t u → IsWhole t l → IsWhole u l }
    ensures from { (t : House) (l : List Record) (rest : List Entry) → IsWhole t l
        → rolled l ≡ opening_history t ++ rest → IsRunFrom t (opening_history t) (rolled l) }
    ensures run { (t : House) (l : List Record) → IsWhole t l → IsRunFrom t [] (rolled l) }
    ensures alive { (t : House) (l : List Record) → IsWhole t l → live (rolled l) ≡ renumbered l }
{}

/// The calls of a run's entries, made at its opening, make the run again: so a command that makes
/// them of a new book gets the history that the laws here speak of.
pub fn a_run_is_made_by_its_calls()
    ensures { (t : House) (o h rest : List Entry) → IsRunFrom t o h → h ≡ o ++ rest
        → after_all t o (map call_of rest) ≡ h }
{}

/// A legal list is legal without changes that set no terms and under which no other stands; the
/// changes of some trades are such.
pub fn a_closed_part_stays_legal()
    ensures legal { (t : House) (l : List Record) (keep : Record → Bool) → HasDistinctNumbers l
        → IsLegal t l → IsClosed l keep → IsLegal t (filter keep l) }
    ensures whole { (t : House) (l : List Record) (keep : Record → Bool) → IsWhole t l
        → IsClosed l keep → IsWhole t (filter keep l) }
    ensures trades { (t : House) (l : List Record) (p : ℕ → Bool) → HasDistinctNumbers l
        → IsLegal t l → IsClosed l (in_trades l p) }
{}

/// The changes of some trades alone give these trades the rows that they have, and leave all terms
/// and limits; positions, fees and lots used are the sums over these trades and over the others.
pub fn trades_stand_alone()
    ensures sums { (t : House) (l : List Record) (p : ℕ → Bool) → RisesFrom 0 l → IsLegal t l
        → IsSplitInTwo t l p }
    ensures tells { (t : House) (l : List Record) (p : ℕ → Bool) → RisesFrom 0 l → IsLegal t l
        → TellsOfTrades t l p }
{}

/// A book of which no agreement of the opening was reversed goes on in a new book under each house
/// that extends its own: with all its live changes (`whole`), with those of some trades and all
/// agreements and raises (`trades`), or with any closed part (`part`).
pub fn a_book_is_rolled()
    ensures whole { (t u : House) (h : List Entry) → Extends t u → CanRoll t h
        → IsRolled u h (λ _. true) }
    ensures trades { (t u : House) (h : List Entry) (p : ℕ → Bool) → Extends t u → CanRoll t h
        → IsRolled u h (in_trades (live h) p) }
    ensures part { (t u : House) (h : List Entry) (keep : Record → Bool) → Extends t u
        → CanRoll t h → IsClosed (live h) keep → IsRolled u h keep }
{}
