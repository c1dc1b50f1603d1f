//! The bytes of an object.

ghost use Rattle.kern_ids.specs.StateWord.{decoded};
ghost use Rattle.kern_ids.specs.declared.calls.State.{State};
ghost use Rattle.kern_ids.specs.declared.calls.Wish.{Wish};
ghost use Rattle.kern_ids.specs.declared.entries.Entry.{Entry};
ghost use Rattle.kernel_model.specs.Contents.{byte, empties, is_ask_empty, next_byte};
ghost use Rattle.kernel_model.specs.Events.{asked, is_map, purged_by};
ghost use Rattle.kernel_model.specs.Laws.Kinds.{map_entry, set_entry, touches_bytes, write_entry};
ghost use Rattle.kernel_model.specs.State.{is_empty, state};
ghost use Rattle.std.specs.Option.{unwrap_or};
ghost use Rattle.std.specs.Prelude.{List, None, Some, [], false, if◌then◌else◌, nat_eq, nat_le, not, slice_get, true, ℕ, ◌&&◌, ◌-◌, ◌∷◌, ◌≡◌};

/// The bytes after one entry more: an emptying gives 0, a Write its bytes, and all else leaves them.
pub fn bytes_more()
    ensures none { (o b : ℕ) → byte [] o b ≡ 0 }
    ensures one_more { (e : Entry) (before : List Entry) (o b : ℕ) → byte (e ∷ before) o b ≡ next_byte (state before o) o b (byte before o b) e }
    ensures kept { (e : Entry) (before : List Entry) (o b : ℕ) → empties o before e ≡ false → Rattle.kernel_model.specs.Events.written_byte o b e ≡ None → byte (e ∷ before) o b ≡ byte before o b }
    ensures emptied { (e : Entry) (before : List Entry) (o b : ℕ) → empties o before e ≡ true → byte (e ∷ before) o b ≡ 0 }
    ensures write { (who x off : ℕ) (bytes : List ℕ) (before : List Entry) (o b : ℕ) → byte (write_entry who x off bytes ∷ before) o b ≡ (if nat_eq x o && nat_le off b then unwrap_or (slice_get bytes (b - off)) (byte before o b) else byte before o b) }
    ensures untouched { (e : Entry) (before : List Entry) (o b : ℕ) → touches_bytes o e ≡ false → byte (e ∷ before) o b ≡ byte before o b }
{}

/// Which entries empty an object.
pub fn empties_by_kind()
    ensures map { (who x : ℕ) (before : List Entry) (o : ℕ) → empties o before (map_entry who x) ≡ nat_eq x o }
    ensures set { (who x word : ℕ) (old : State) (wish : Wish) (before : List Entry) (o : ℕ) → decoded word ≡ Some wish → empties o before (set_entry who x word old) ≡ (nat_eq x o && is_ask_empty wish && not (is_empty (state before o))) }
    ensures purge { (e : Entry) (x : ℕ) (before : List Entry) (o : ℕ) → is_map o e ≡ false → purged_by e.reply ≡ Some x → asked o e ≡ None → empties o before e ≡ nat_eq o x }
{}
