//! The histories of a scenario, and the fronts of a history.

ghost use Rattle.kern_ids.specs.declared.entries.Entry.{Entry};
ghost use Rattle.kernel_model.specs.Histories.{IsLegal, Legal};
ghost use Rattle.kernel_model.specs.Scenario.{IsValid, Plan, two};
ghost use Rattle.kernel_model.specs.System.{System};
ghost use Rattle.kernel_model.specs.Turns.{serial, turns};
ghost use Rattle.kernel_model.specs.Whole.{IsRunOf, IsWhole, turns_of};
ghost use Rattle.std.specs.Prelude.{List, Some, reverse, slice_get, take, ℕ, ◌↔◌, ◌∷◌, ◌≡◌};

/// A scenario and its second form have the same histories.
pub fn second_form()
    ensures { (s : Plan) (h : List Entry) → IsRunOf s h ↔ IsRunOf (two s) h }
{}

/// The serial history of a scenario is the one legal history whose threads and calls are the scenario's turns, in their
/// order. It is whole for the scenario.
pub fn serial_history()
    ensures turns { (s : Plan) → turns_of (serial s) ≡ turns s }
    ensures legal { (s : Plan) → IsValid s → Legal s.boot (serial s) }
    ensures only { (s : Plan) (h : List Entry) → Legal s.boot h → turns_of h ≡ turns s → h ≡ serial s }
    ensures whole { (s : Plan) → IsWhole s (serial s) }
{}

/// A front of a legal history is legal, and so is each entry after the entries before it: what holds of every legal
/// history holds at each place of it.
pub fn fronts()
    ensures legal { (boot : System) (h : List Entry) (n : ℕ) → Legal boot h → Legal boot (take n h) }
    ensures place { (boot : System) (h : List Entry) (n : ℕ) (e : Entry) → Legal boot h → slice_get h n ≡ Some e → IsLegal boot (e ∷ reverse (take n h)) }
{}
