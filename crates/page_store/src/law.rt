//! What holds of all maps of bytes.

ghost use Rattle.std.specs.Prelude.{◌≡◌, ◌<◌, ℕ};
ghost use Rattle.page_store.specs.Contents.{bytes_of, byte_at, AreAlike};

/// The map of some bytes has each of them, and two maps of the same bytes are one.
pub fn maps_of_bytes()
    ensures byte { (f : ℕ → ℕ) (place : ℕ) → place < 1048576 → byte_at (bytes_of f) place ≡ f place }
    ensures alike { (f g : ℕ → ℕ) → AreAlike f g → bytes_of f ≡ bytes_of g }
{}
