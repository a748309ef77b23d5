//! What a history is kept by: the device that `Desk::confirm` names.

/// What keeps histories: a journal's file, or several in one.
pub trait Keeps {
    ghost use Rattle.std.specs.Prelude.{List};
    ghost use Rattle.gu_base.specs.declared.entry.Entry.{Entry};

    /// This history is durable: whatever ends the program, what comes back begins with it.
    ghost keeps: { Self → List Entry → Type 0 };
}
