//! What holds of every made scenario.

ghost use Rattle.kernel_model.specs.Scenario.{call_count};
ghost use Rattle.kernel_model.specs.Turns.{turns as turns_of};
ghost use Rattle.scenario_maker.specs.Made.{drawn_turns, made_plan};
ghost use Rattle.std.specs.Prelude.{length, ℕ, ◌≡◌};

/// In the order of its turns a made scenario has the calls as they were drawn, each by the thread that was
/// drawn for it. There are as many as turns, and none is left over.
pub fn turns_are_drawn()
    ensures turns { (seed n : ℕ) → turns_of (made_plan seed n) ≡ drawn_turns n seed }
    ensures calls { (seed n : ℕ) → call_count (made_plan seed n).scripts ≡ n }
    ensures order { (seed n : ℕ) → length (made_plan seed n).order ≡ n }
{}
