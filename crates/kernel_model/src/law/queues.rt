//! The lists of pages, of volatile objects and of tasks that a kernel keeps in order.

ghost use Rattle.kern_ids.specs.declared.calls.Queue.{Queue};
ghost use Rattle.kern_ids.specs.declared.entries.Entry.{Entry};
ghost use Rattle.kern_ids.specs.declared.ids.PageId.{PageId};
ghost use Rattle.kernel_model.specs.Bands.{band, bstamp};
ghost use Rattle.kernel_model.specs.Groups.{first, is_lifo, standing, stands_in};
ghost use Rattle.kernel_model.specs.Laws.Order.{Has, Rising};
ghost use Rattle.kernel_model.specs.Laws.Queues.{KeepsBand, KeepsGroup, KeepsPages, bstamp_lt};
ghost use Rattle.kernel_model.specs.Mapping.{live, tasks_of};
ghost use Rattle.kernel_model.specs.Pages.{is_active, is_inactive, is_out, pages_of, place, placed, same_page};
ghost use Rattle.kernel_model.specs.Scan.{first_active, first_inactive};
ghost use Rattle.kernel_model.specs.System.{System};
ghost use Rattle.kernel_model.specs.declared.place.Place.{Place};
ghost use Rattle.kernel_model.specs.declared.place.Place.TheVariants.{Absent};
ghost use Rattle.std.specs.Prelude.{Bool, List, [], false, filter, length, nat_eq, nat_lt, not, slice_get, suc, true, ℕ, ◌&&◌, ◌++◌, ◌<◌, ◌∷◌, ◌≡◌, ◌⊎◌};

/// A list of the pages in a place by rising stamp begins with the page of least stamp. Pages that an entry
/// brings to the place come after the others, and those that it takes away leave the order of the rest.
pub fn pages()
    ensures none { (boot : System) (k : Place → Bool) → k Absent ≡ false → KeepsPages boot [] k [] }
    ensures first_active { (boot : System) (past : List Entry) (ps : List PageId) → KeepsPages boot past is_active ps → first_active boot past ≡ slice_get ps 0 }
    ensures first_inactive { (boot : System) (past : List Entry) (ps : List PageId) → KeepsPages boot past is_inactive ps → first_inactive boot past ≡ slice_get ps 0 }
    ensures append { (boot : System) (e : Entry) (before : List Entry) (k : Place → Bool) (ps new : List PageId) → ((x : Place) → k x ≡ true → is_out x ≡ false) → ((p : PageId) → k (place boot before p) ≡ true → placed boot (e ∷ before) p ≡ placed boot before p) → ((p : PageId) → Has (pages_of boot) p → k (place boot (e ∷ before) p) ≡ true → (k (place boot before p) ≡ true) ⊎ Has new p) → ((p : PageId) → Has new p → Has (pages_of boot) p × (k (place boot (e ∷ before) p) ≡ true) × ((placed boot (e ∷ before) p).number ≡ length before)) → Rising (λ p q. nat_lt p.page q.page) new → KeepsPages boot before k ps → KeepsPages boot (e ∷ before) k (ps ++ new) }
    ensures filter { (boot : System) (e : Entry) (before : List Entry) (k : Place → Bool) (stays : PageId → Bool) (ps : List PageId) → ((p : PageId) → k (place boot (e ∷ before) p) ≡ (stays p && k (place boot before p))) → ((p : PageId) → k (place boot (e ∷ before) p) ≡ true → placed boot (e ∷ before) p ≡ placed boot before p) → KeepsPages boot before k ps → KeepsPages boot (e ∷ before) k (filter stays ps) }
    ensures drop { (boot : System) (e : Entry) (before : List Entry) (k : Place → Bool) (p : PageId) (ps : List PageId) → k (place boot (e ∷ before) p) ≡ false → ((q : PageId) → same_page p q ≡ false → placed boot (e ∷ before) q ≡ placed boot before q) → KeepsPages boot before k (p ∷ ps) → KeepsPages boot (e ∷ before) k ps }
{}

/// A list of the volatile objects of a group from its head on begins with the first of the group. An object
/// enters after the others, and in LIFO before them.
pub fn groups()
    ensures first { (boot : System) (past : List Entry) (q : Queue) (g : ℕ) (os : List ℕ) → KeepsGroup boot past q g os → first boot past q g ≡ slice_get os 0 }
    ensures enter { (boot : System) (e : Entry) (before : List Entry) (q : Queue) (g o : ℕ) (os : List ℕ) → is_lifo q ≡ false → ((x : ℕ) → nat_eq o x ≡ false → stands_in boot (e ∷ before) q g x ≡ stands_in boot before q g x) → ((x : ℕ) → nat_eq o x ≡ false → standing (e ∷ before) x ≡ standing before x) → o < length boot.objects → stands_in boot (e ∷ before) q g o ≡ true → (standing (e ∷ before) o).vstamp ≡ length before → KeepsGroup boot before q g os → KeepsGroup boot (e ∷ before) q g (filter (λ x. not (nat_eq o x)) os ++ o ∷ []) }
    ensures enter_lifo { (boot : System) (e : Entry) (before : List Entry) (q : Queue) (g o : ℕ) (os : List ℕ) → is_lifo q ≡ true → ((x : ℕ) → nat_eq o x ≡ false → stands_in boot (e ∷ before) q g x ≡ stands_in boot before q g x) → ((x : ℕ) → nat_eq o x ≡ false → standing (e ∷ before) x ≡ standing before x) → o < length boot.objects → stands_in boot (e ∷ before) q g o ≡ true → (standing (e ∷ before) o).vstamp ≡ length before → KeepsGroup boot before q g os → KeepsGroup boot (e ∷ before) q g (o ∷ filter (λ x. not (nat_eq o x)) os) }
    ensures filter { (boot : System) (e : Entry) (before : List Entry) (q : Queue) (g : ℕ) (stays : ℕ → Bool) (os : List ℕ) → ((x : ℕ) → stands_in boot (e ∷ before) q g x ≡ (stays x && stands_in boot before q g x)) → ((x : ℕ) → stands_in boot (e ∷ before) q g x ≡ true → standing (e ∷ before) x ≡ standing before x) → KeepsGroup boot before q g os → KeepsGroup boot (e ∷ before) q g (filter stays os) }
{}

/// A list of the live tasks of a band by rising stamp gets the tasks that an entry places there after the
/// others.
pub fn bands()
    ensures enter { (boot : System) (e : Entry) (before : List Entry) (b : ℕ) (moved : ℕ → Bool) (ts new : List ℕ) → ((t : ℕ) → moved t ≡ false → live boot (e ∷ before) t ≡ live boot before t) → ((t : ℕ) → moved t ≡ false → band boot (e ∷ before) t ≡ band boot before t) → ((t : ℕ) → moved t ≡ false → bstamp boot (e ∷ before) t ≡ bstamp boot before t) → ((t : ℕ) → Has (tasks_of boot) t → (live boot (e ∷ before) t && nat_eq (band boot (e ∷ before) t) b) ≡ true → moved t ≡ true → Has new t) → ((t : ℕ) → Has new t → Has (tasks_of boot) t × ((live boot (e ∷ before) t && nat_eq (band boot (e ∷ before) t) b) ≡ true)) → ((t : ℕ) → Has new t → (bstamp boot (e ∷ before) t).0 ≡ suc (length before)) → Rising (bstamp_lt boot (e ∷ before)) new → KeepsBand boot before b ts → KeepsBand boot (e ∷ before) b (filter (λ t. not (moved t)) ts ++ new) }
    ensures filter { (boot : System) (e : Entry) (before : List Entry) (b : ℕ) (stays : ℕ → Bool) (ts : List ℕ) → ((t : ℕ) → (live boot (e ∷ before) t && nat_eq (band boot (e ∷ before) t) b) ≡ (stays t && (live boot before t && nat_eq (band boot before t) b))) → ((t : ℕ) → (live boot (e ∷ before) t && nat_eq (band boot (e ∷ before) t) b) ≡ true → bstamp boot (e ∷ before) t ≡ bstamp boot before t) → KeepsBand boot before b ts → KeepsBand boot (e ∷ before) b (filter stays ts) }
{}
