//! The Ticks.

ghost use Rattle.std.specs.Prelude.{◌≡◌, fold, length};
ghost use Rattle.priority_bands.specs.Banded.{placed};
ghost use Rattle.idle_ageing.specs.Ageing.{aged, ticked};

use crate::parts::TaskParts;
use kern_ids::ids::Band;
use kern_ids::lines::TaskLine;
use priority_bands::Bands;

/// The lowest band.
fn lowest() -> Band
    ensures { result ≡ 0 }
{
    Band::new(0).unwrap()
}

/// Each task of a line goes to the tail of a band, in the order of the line.
fn place_all(bands: &mut Bands, line: &TaskLine, band: Band)
    ensures { bands.new ≡ fold (λ at t. placed at t band) bands.old line.now }
{
    for i in 0..line.len() {
        if let Some(t) = line.get(i) {
            bands.place(t, band);
        }
    }
}

impl TaskParts {
    /// One Tick more. Answers the tasks that it ages; they go to band 0 in that order.
    pub(crate) fn tick(&mut self) -> TaskLine
        ensures aged { result ≡ aged self.old.ages self.old.bands }
        ensures ledgers { self.new.ledgers ≡ self.old.ledgers }
        ensures wishes { self.new.wishes.items ≡ self.old.wishes.items }
        ensures bands { self.new.bands ≡ fold (λ at t. placed at t 0) self.old.bands (aged self.old.ages self.old.bands) }
        ensures ages { self.new.ages ≡ ticked self.old.ages self.old.bands }
        ensures count { length self.old.bands ≡ 21 }
        ensures paired { length self.old.ages.counts ≡ length self.old.ages.delays }
    {
        self.bands.are_bands();
        self.ages.are_paired();
        let line = self.ages.tick(&self.bands);
        place_all(&mut self.bands, &line, lowest());
        line
    }
}
