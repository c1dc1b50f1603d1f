//! The bytes of objects over a history with one entry more, and what is seen of them.

ghost use Rattle.std.specs.Prelude.{◌≡◌, ◌≢◌, ◌∷◌, ◌++◌, ℕ, List, [], reverse, None};
ghost use Rattle.kern_ids.specs.declared.calls.Call.{Call};
ghost use Rattle.kern_ids.specs.declared.entries.Entry.{Entry};
ghost use Rattle.kern_ids.specs.declared.replies.Reply.{Reply};
ghost use Rattle.kernel_core.specs.Kernels.{SeesBytes};
ghost use Rattle.kernel_model.specs.Answers.{answer};
ghost use Rattle.kernel_model.specs.System.{System};
ghost use Rattle.kernel_core.specs.Bodies.{content, made};
ghost use Rattle.kernel_core.specs.Ranges.{IsSeenOf, IsWriteInRange};
ghost use Rattle.kernel_core.specs.Touches.{NeedsAtMost, bytes_left, named_number, needed_number};

/// An entry changes the bytes of the object that its call needs as its reply says, and those of no other object.
pub fn bytes_follow_replies()
    ensures first { (o : ℕ) → content [] o ≡ [] }
    ensures needed { (boot : System) (h : List Entry) (who o : ℕ) (call : Call) (reply : Reply) → reply ≡ answer boot (reverse h) who call → NeedsAtMost o (needed_number boot (reverse h) who call) → content (h ++ made who call reply ∷ []) o ≡ bytes_left call reply (content h o) }
    ensures other { (boot : System) (h : List Entry) (who o : ℕ) (call : Call) (reply : Reply) → reply ≡ answer boot (reverse h) who call → needed_number boot (reverse h) who call ≢ Some o → content (h ++ made who call reply ∷ []) o ≡ content h o }
{}

/// What a Read sees in the body of its object is what the history gives to it. A call that needs no object reads
/// nothing.
pub fn seen_is_of_the_history()
    ensures held { (boot : System) (h : List Entry) (call : Call) (o : ℕ) (body : List (ℕ × ℕ)) (seen : List ℕ) → NeedsAtMost o (named_number call) → body ≡ content h o → IsSeenOf boot call body seen → SeesBytes boot h call seen }
    ensures none { (boot : System) (h : List Entry) (who : ℕ) (call : Call) (seen : List ℕ) → needed_number boot (reverse h) who call ≡ None → SeesBytes boot h call seen }
{}

/// A Write that is accepted is in range.
pub fn accepted_writes_are_in_range()
    ensures { (boot : System) (past : List Entry) (who : ℕ) (call : Call) (reply : Reply) → reply ≡ answer boot past who call → IsWriteInRange boot call reply }
{}
