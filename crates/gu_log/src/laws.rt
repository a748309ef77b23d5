//! Laws of lines, whatever their fields hold.

ghost use Rattle.std.specs.Prelude.{◌≡◌, ℕ, List, ◌++◌, ◌∷◌, [], Some, true};
ghost use Rattle.std.specs.List.{AllByRecursion, list_all};
ghost use Rattle.gu_log.specs.Values.{Text, AreBytes, is_printable};
ghost use Rattle.gu_log.specs.Lines.{line_of, pairs_of, IsField};
ghost use Rattle.gu_log.specs.Reading.{read_line};
ghost use Rattle.gu_log.specs.declared.event.Event.{Event};
ghost use Rattle.gu_log.specs.declared.lines.Field.{Field};

/// A line is printable ASCII, and a line feed at its end.
pub fn is_one_line()
    ensures { (sent : Text) (event : Event) (fields : List Field) → AreBytes sent
        → AllByRecursion IsField fields
        → (text : Text) × (line_of sent event fields ≡ text ++ 10 ∷ [])
        × (list_all is_printable text ≡ true) }
{}

/// A reader of logfmt gets each key of a line back, and as much of each value as is shown.
pub fn is_read_back()
    ensures { (sent : Text) (event : Event) (fields : List Field) → AreBytes sent
        → AllByRecursion IsField fields
        → read_line (line_of sent event fields) ≡ Some (pairs_of sent event fields) }
{}
