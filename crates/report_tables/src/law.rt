//! What holds of the reasons of a legal history.

ghost use Rattle.kern_ids.specs.declared.entries.Entry.{Entry};
ghost use Rattle.kernel_model.specs.Histories.{IsLegal};
ghost use Rattle.kernel_model.specs.System.{System};
ghost use Rattle.report_tables.specs.Reasons.{has_reason, reason_of};
ghost use Rattle.std.specs.Prelude.{List, is_some, ◌∷◌, ◌≡◌};

/// In a legal history every purge, every kill and every SetState or GetState that answers EMPTY has a
/// reason, and no other answer has one.
pub fn explained()
    ensures { (boot : System) (e : Entry) (before : List Entry) → IsLegal boot (e ∷ before) → is_some (reason_of boot before e.call e.reply) ≡ has_reason e.call e.reply }
{}
