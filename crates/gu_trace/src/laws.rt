//! Laws of readings that go on where the last one has looked. Calling one gives its clauses as
//! facts.
ghost use Rattle.std.specs.Prelude.{◌≡◌, ◌++◌, ℕ, List, [], length};
ghost use Rattle.gu_base.specs.House.{House};
ghost use Rattle.gu_base.specs.Runs.{IsRunFrom};
ghost use Rattle.gu_base.specs.declared.entry.Entry.{Entry};
ghost use Rattle.gu_trace.specs.Between.{last_told, looked_to, HasLooked, Grow, told_above_sent};
ghost use Rattle.gu_trace.specs.Between.{told_above_looked};
ghost use Rattle.gu_trace.specs.Reports.{reports_for};

/// Between the last report that a connection was sent and the entry up to which it has looked no
/// entry concerns its firm, behind each of its readings and in each later history. So a reading
/// above that entry tells what one above the last report tells, and a connection all of whose
/// readings ask above the one is told the same as one whose readings ask above the other.
pub fn nothing_is_passed_over()
    ensures read { (t : House) (h : List Entry) (f : List ℕ) (sent looked : ℕ) → IsRunFrom t [] h
        → HasLooked t.house h f sent looked
        → HasLooked t.house h f (last_told sent (reports_for t.house h f looked))
        (looked_to looked (length h) (reports_for t.house h f looked)) }
    ensures later { (t : House) (h k : List Entry) (f : List ℕ) (sent looked : ℕ)
        → IsRunFrom t [] (h ++ k) → HasLooked t.house h f sent looked
        → HasLooked t.house (h ++ k) f sent looked }
    ensures same { (t : House) (h : List Entry) (f : List ℕ) (sent looked : ℕ)
        → HasLooked t.house h f sent looked
        → reports_for t.house h f looked ≡ reports_for t.house h f sent }
    ensures all { (t : House) (h : List Entry) (f : List ℕ) (hs : List (List Entry))
        → IsRunFrom t [] h → Grow t h hs
        → told_above_looked t.house f 0 hs ≡ told_above_sent t.house f 0 hs }
{}
