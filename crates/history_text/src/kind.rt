//! The first words of replies.

ghost use Rattle.std.specs.Prelude.{◌≡◌};
ghost use Rattle.history_text.specs.ReplyReading.{kind_text, kind_of, kinds};

/// What a reply begins with.
#[derive(Clone, Copy, PartialEq, Eq, Debug)]
pub enum Kind {
    Mapped,
    Unmapped,
    Wrote,
    Bytes,
    Old,
    State,
    Was,
    Pages,
    Exited,
    Purged,
    Nothing,
    Enough,
    Deactivated,
    Reactivated,
    Freed,
    Compressed,
    Requeued,
    Idle,
    Aged,
    Quiet,
    Killed,
    NoVictim,
    Banded,
    Limited,
    Frames,
    Tokens,
    Refused,
    Attached,
}

const ALL: [Kind; 28] = [
    Kind::Mapped,
    Kind::Unmapped,
    Kind::Wrote,
    Kind::Bytes,
    Kind::Old,
    Kind::State,
    Kind::Was,
    Kind::Pages,
    Kind::Exited,
    Kind::Purged,
    Kind::Nothing,
    Kind::Enough,
    Kind::Deactivated,
    Kind::Reactivated,
    Kind::Freed,
    Kind::Compressed,
    Kind::Requeued,
    Kind::Idle,
    Kind::Aged,
    Kind::Quiet,
    Kind::Killed,
    Kind::NoVictim,
    Kind::Banded,
    Kind::Limited,
    Kind::Frames,
    Kind::Tokens,
    Kind::Refused,
    Kind::Attached,
];

impl Kind {
    /// The word.
    pub fn text(self) -> &'static [u8]
        ensures { result.now ≡ kind_text self }
    {
        match self {
            Kind::Mapped => b"mapped",
            Kind::Unmapped => b"unmapped",
            Kind::Wrote => b"wrote",
            Kind::Bytes => b"bytes",
            Kind::Old => b"old",
            Kind::State => b"state",
            Kind::Was => b"was",
            Kind::Pages => b"pages",
            Kind::Exited => b"exited",
            Kind::Purged => b"purged",
            Kind::Nothing => b"nothing",
            Kind::Enough => b"enough",
            Kind::Deactivated => b"deactivated",
            Kind::Reactivated => b"reactivated",
            Kind::Freed => b"freed",
            Kind::Compressed => b"compressed",
            Kind::Requeued => b"requeued",
            Kind::Idle => b"idle",
            Kind::Aged => b"aged",
            Kind::Quiet => b"quiet",
            Kind::Killed => b"killed",
            Kind::NoVictim => b"novictim",
            Kind::Banded => b"banded",
            Kind::Limited => b"limited",
            Kind::Frames => b"frames",
            Kind::Tokens => b"tokens",
            Kind::Refused => b"refused",
            Kind::Attached => b"attached",
        }
    }

    /// The one that a word is, if it is one.
    pub fn of_word(word: &[u8]) -> Option<Kind>
        ensures { result ≡ kind_of word.now }
    {
        ALL.iter().copied().find(|kind| word == kind.text())
    }
}
