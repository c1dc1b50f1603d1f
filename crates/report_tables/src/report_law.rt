//! What holds of every report.

ghost use Rattle.std.specs.Prelude.{◌≡◌, ◌≤◌, ◌∷◌, ◌++◌, [], ℕ, List, length, Ok, Contains};
ghost use Rattle.std.specs.List.{AllByRecursion};
ghost use Rattle.kern_ids.specs.declared.entries.Entry.{Entry};
ghost use Rattle.kernel_model.specs.Scenario.{Plan};
ghost use Rattle.kernel_model.specs.Whole.{IsRunOf};
ghost use Rattle.scenario_text.specs.Text.{HasText, scenario_text};
ghost use Rattle.history_text.specs.EntryReading.{HasText as HasLine};
ghost use Rattle.history_text.specs.History.{history_text};
ghost use Rattle.replay_check.specs.declared.verdicts.Verdict.TheVariants.{Legal};
ghost use Rattle.report_tables.specs.Reports.{Told, report_of, verdict_text};
ghost use Rattle.report_tables.specs.declared.report.Judging.{Judging as AJudging};
ghost use Rattle.report_tables.specs.declared.report.Judging.TheVariants.{Check};

/// A report has the status 0, 6 or 8.
pub fn statuses()
    ensures { (j : AJudging) (x : List ℕ) (t : Told) → report_of j x ≡ Ok t → Contains (0 ∷ 6 ∷ 8 ∷ []) t.0 }
{}

/// `check` says `legal` of the text of a scenario with one of its histories, which is what `run` and `serial` write.
pub fn written_is_legal()
    ensures { (s : Plan) (h : List Entry) → HasText s → AllByRecursion HasLine h → length h ≤ 200000 → IsRunOf s h → report_of Check (scenario_text s ++ history_text h) ≡ Ok (0, verdict_text Legal) }
{}
