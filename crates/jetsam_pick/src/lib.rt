//! Which task jetsam kills.
#![tactic(auto)]

ghost use Rattle.std.specs.Prelude.{◌≡◌, ◌<◌, length};
ghost use Rattle.jetsam_pick.specs.Victims.{HoldLive, KillsLive, verdict, least_task, over_fatal, over_soft, is_eligible};

pub mod verdict;

use kern_ids::ids::{Band, TaskId};
use kern_ids::replies::Cause;
use priority_bands::Bands;
use task_ledger::Ledgers;
use task_ledger::account::Over;
use verdict::JetsamVerdict;

/// What jetsam does, where the bands hold exactly the live tasks: the first of these that applies. The least of
/// some tasks is the one in the lowest band, and in it the one that comes first.
///
/// - Kill, for its limit, the least live task that is over a fatal limit, internal or not.
/// - Quiet where at least `critical` frames are free.
/// - Kill, for high water, the least task that isn't internal and is over a limit that isn't fatal.
/// - Kill, for pressure, the least task that isn't internal.
/// - NoVictim.
#[tactic(auto, using(crate::proofs::Live::least_is_live))]
pub fn victim(free: u32, critical: u32, b: &Bands, l: &Ledgers) -> JetsamVerdict
    requires { HoldLive b.now l.now }
    ensures verdict { result ≡ verdict free critical b.now l.now }
    ensures live { KillsLive l.now result }
{
    if let Some(t) = least_over_fatal(b, l) {
        return JetsamVerdict::Kill(t, Cause::Limit);
    }
    if critical <= free {
        return JetsamVerdict::Quiet;
    }
    if let Some(t) = least_over_soft(b, l) {
        return JetsamVerdict::Kill(t, Cause::HighWater);
    }
    match least_eligible(b, l) {
        Some(t) => JetsamVerdict::Kill(t, Cause::Pressure),
        None => JetsamVerdict::NoVictim,
    }
}

/// The lowest band.
fn lowest() -> Band
    ensures { result ≡ 0 }
{
    Band::new(0).unwrap()
}

/// The least task that is over a fatal limit.
#[tactic(auto, using(crate::proofs::Live::task_in_bands))]
fn least_over_fatal(b: &Bands, l: &Ledgers) -> Option<TaskId>
    requires { HoldLive b.now l.now }
    ensures { result ≡ least_task b.now (over_fatal l.now) }
{
    b.first_from(
        lowest(),
        |t|
            requires { t < length l.now }
        { l.over(t) == Over::Hard },
    )
}

/// The least task that isn't internal and is over a limit that isn't fatal.
#[tactic(auto, using(crate::proofs::Live::task_in_bands))]
fn least_over_soft(b: &Bands, l: &Ledgers) -> Option<TaskId>
    requires { HoldLive b.now l.now }
    ensures { result ≡ least_task b.now (over_soft l.now) }
{
    b.first_from(
        lowest(),
        |t|
            requires { t < length l.now }
        { !l.is_internal(t) && l.over(t) == Over::Soft },
    )
}

/// The least task that isn't internal.
#[tactic(auto, using(crate::proofs::Live::task_in_bands))]
fn least_eligible(b: &Bands, l: &Ledgers) -> Option<TaskId>
    requires { HoldLive b.now l.now }
    ensures { result ≡ least_task b.now (is_eligible l.now) }
{
    b.first_from(
        lowest(),
        |t|
            requires { t < length l.now }
        { !l.is_internal(t) },
    )
}
