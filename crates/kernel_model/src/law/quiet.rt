//! Entries that change nothing.

ghost use Rattle.kern_ids.specs.declared.calls.Call.{Call};
ghost use Rattle.kern_ids.specs.declared.entries.Entry.{Entry};
ghost use Rattle.kern_ids.specs.declared.replies.Refusal.{Refusal};
ghost use Rattle.kern_ids.specs.declared.replies.Reply.TheVariants.{Refused};
ghost use Rattle.kernel_model.specs.Answers.{refusal};
ghost use Rattle.kernel_model.specs.Histories.{fits};
ghost use Rattle.kernel_model.specs.Laws.Kinds.{is_quiet};
ghost use Rattle.kernel_model.specs.Laws.Unchanged.{Unchanged};
ghost use Rattle.kernel_model.specs.System.{System};
ghost use Rattle.std.specs.Prelude.{IsTrue, List, Some, true, ℕ, ◌≡◌};

/// A refused call, and a call that only asks and whose reply shows no change, leave every answer as it was.
pub fn quiet_more()
    ensures unchanged { (boot : System) (e : Entry) (before : List Entry) → is_quiet e ≡ true → Unchanged boot e before }
{}

/// A refused call that fits leaves every answer as it was, whatever it asked for.
pub fn refused_more()
    ensures unchanged { (boot : System) (past : List Entry) (who : ℕ) (call : Call) (why : Refusal) → IsTrue (fits boot who call) → refusal boot past who call ≡ Some why → Unchanged boot (record { who = who; call = call; reply = Refused why }) past }
{}
