//! The sign between a call and its reply.

ghost use Rattle.std.specs.Prelude.{◌≡◌, Some, None, MatchOption};
ghost use Rattle.history_text.specs.EntryReading.{sign_cut};

/// The part of a line before the first sign and the part after it; None where there is no sign.
pub fn cut_at_sign(line: &[u8]) -> Option<(&[u8], &[u8])>
    ensures { MatchOption result (sign_cut line.now ≡ None) (λ parts. sign_cut line.now ≡ Some (parts.0.now, parts.1.now)) }
{
    for i in 0..line.len() {
        if line[i..].starts_with(b" = ") {
            return Some((&line[..i], &line[i + 3..]));
        }
    }
    None
}
