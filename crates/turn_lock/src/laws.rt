//! Laws on histories: on beginnings, on the longer of two beginnings of one history, and on the entries
//! of one number. Each function does nothing, and its contract is the law.
ghost use Rattle.std.specs.Prelude.{◌≡◌, ◌≢◌, ℕ, ◌≤◌, List, [], ◌∷◌, ◌++◌, length};
ghost use Rattle.turn_lock.specs.Histories.{StartsWith, longer, entries_of};

/// A history begins with itself, and with what begins one of its beginnings.
pub fn beginnings_of_beginnings<E>()
    ensures itself { (h : List E) → StartsWith h h }
    ensures further { (h a b : List E) → StartsWith h a → StartsWith a b → StartsWith h b }
{}

/// Of two beginnings of one history the shorter begins the longer. Two that begin each other are one.
#[tactic(auto, using(crate::proofs::Lists::starts_both))]
pub fn beginnings_of_one<E>()
    ensures shorter { (h a b : List E) → StartsWith h a → StartsWith h b → length a ≤ length b → StartsWith b a }
    ensures equal { (a b : List E) → StartsWith a b → StartsWith b a → a ≡ b }
{}

/// The longer of two beginnings of one history is one too, and both begin it.
pub fn longer_of_two<E>()
    ensures { (h a b : List E) → StartsWith h a → StartsWith h b → StartsWith h (longer a b) × StartsWith (longer a b) a × StartsWith (longer a b) b }
{}

/// An entry more is an entry more of its own number, and of no other.
pub fn entries_of_one_more<E>()
    ensures own { (who : E → ℕ) (h : List E) (e : E) → entries_of who (who e) (h ++ e ∷ []) ≡ entries_of who (who e) h ++ e ∷ [] }
    ensures other { (who : E → ℕ) (n : ℕ) (h : List E) (e : E) → who e ≢ n → entries_of who n (h ++ e ∷ []) ≡ entries_of who n h }
{}

/// The entries of a number in a beginning begin those in the history. Where these are the same, so are
/// those of all that lies between.
#[tactic(auto, using(crate::proofs::Lists::entries_start, crate::proofs::Lists::squeeze))]
pub fn entries_of_beginnings<E>()
    ensures beginning { (who : E → ℕ) (n : ℕ) (h a : List E) → StartsWith h a → StartsWith (entries_of who n h) (entries_of who n a) }
    ensures between { (who : E → ℕ) (n : ℕ) (h l a : List E) → StartsWith h l → StartsWith l a → entries_of who n h ≡ entries_of who n a → entries_of who n l ≡ entries_of who n a }
{}
