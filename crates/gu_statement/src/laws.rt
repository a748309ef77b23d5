//! The law of what a firm is told. Calling it gives its clauses as facts.
ghost use Rattle.std.specs.Prelude.{◌≡◌, ℕ, List};
ghost use Rattle.gu_base.specs.House.{House};
ghost use Rattle.gu_base.specs.declared.entry.Entry.{Entry};
ghost use Rattle.gu_trace.specs.Reports.{reports_for};
ghost use Rattle.gu_statement.specs.Sight.{seen};
ghost use Rattle.gu_statement.specs.Lines.{LookAlike};

/// Two histories that agree in what a firm may see give it the same reports; and so do two that
/// agree in the entries of its statement.
pub fn nothing_else_is_told()
    ensures seen { (house f : List ℕ) (h g : List Entry) (after : ℕ)
        → seen house h f ≡ seen house g f
        → reports_for house h f after ≡ reports_for house g f after }
    ensures alike { (t : House) (f : List ℕ) (h g : List Entry) (after : ℕ) → LookAlike t f h g
        → reports_for t.house h f after ≡ reports_for t.house g f after }
{}
