//! What the words of the verdict mean.

ghost use Rattle.std.specs.Prelude.{◌≡◌, ◌↔◌, true, List, ℕ};
ghost use Rattle.kern_ids.specs.declared.calls.Call.{Call};
ghost use Rattle.kern_ids.specs.declared.entries.Entry.{Entry};
ghost use Rattle.kern_ids.specs.declared.replies.Reply.{Reply};
ghost use Rattle.kernel_model.specs.Histories as histories;
ghost use Rattle.kernel_model.specs.Scenario.{IsValid, Plan};
ghost use Rattle.replay_check.specs.Same.{same_call, same_reply};
ghost use Rattle.replay_check.specs.Verdicts.{IsFaultAt, IsFirstUnspent, IsFirstWrong, verdict_of};
ghost use Rattle.kernel_model.specs.Whole.{IsWhole};
ghost use Rattle.replay_check.specs.declared.verdicts.Verdict.{Verdict};
ghost use Rattle.replay_check.specs.declared.verdicts.Verdict.TheVariants.{Legal, Missing};

/// The tests of equality say true exactly of equal calls, and of equal replies.
pub fn same_are_equal()
    ensures calls { (a b : Call) → (same_call a b ≡ true) ↔ (a ≡ b) }
    ensures replies { (a b : Reply) → (same_reply a b ≡ true) ↔ (a ≡ b) }
{}

/// The verdict is Legal exactly where the history is legal and whole.
pub fn legal_is_whole()
    ensures legal { (s : Plan) (h : List Entry) → IsValid s → verdict_of s h ≡ Legal → histories.Legal s.boot h }
    ensures whole { (s : Plan) (h : List Entry) → IsValid s → verdict_of s h ≡ Legal → IsWhole s h }
    ensures only { (s : Plan) (h : List Entry) → histories.Legal s.boot h → IsWhole s h → verdict_of s h ≡ Legal }
{}

/// Where the verdict names a place, it is the first wrong one, and what is before it is right.
pub fn place_is_first()
    ensures { (s : Plan) (h : List Entry) (n : ℕ) (v : Verdict) → IsValid s → IsFaultAt n v → verdict_of s h ≡ v → IsFirstWrong s h n v }
{}

/// Where the verdict names a thread, no place is wrong, and it is the first thread whose script isn't spent.
pub fn thread_is_first()
    ensures { (s : Plan) (h : List Entry) (n : ℕ) → IsValid s → verdict_of s h ≡ Missing n → IsFirstUnspent s h n }
{}
