//! Laws of a scenario's text and of its reading.

ghost use Rattle.std.specs.List.{AllByRecursion};
ghost use Rattle.std.specs.Prelude.{◌≡◌, ◌≢◌, ◌≤◌, ◌<◌, ◌++◌, ◌^◌, ℕ, List, length, All, IsTrue, Ok, Err};
ghost use Rattle.kern_ids.specs.declared.faults.Why.TheVariants.{NoEnd};
ghost use Rattle.kern_ids.specs.declared.faults.Why.{Why};
ghost use Rattle.kernel_model.specs.Histories.{names_fit};
ghost use Rattle.kernel_model.specs.Scenario.{Plan, two};
ghost use Rattle.line_text.specs.Calls.{HasLine};
ghost use Rattle.scenario_text.specs.Fronts.{Taken, front_taken};
ghost use Rattle.scenario_text.specs.Grammar.{scenario_of};
ghost use Rattle.scenario_text.specs.Text.{scenario_text, HasText};

use kern_ids::calls::Call;
use kernel_model::boot::{Boot, TaskBoot};
use kernel_model::scenario::Scenario;
use kernel_model::script_call::ScriptCall;

// Each task's band is one that a line can name.
fn bands_have_words(tasks: &[TaskBoot])
    ensures { All (λ t. t.band ≤ 20) tasks.now }
{
    for task in tasks {
        let _band = task.band.get();
    }
}

// What the type says of a number.
fn number_has_word(n: u32)
    ensures { n < 2 ^ 32 }
{}

// What the type says of bytes.
fn bytes_have_word(bytes: &[u8])
    ensures { AllByRecursion (λ b. b < 256) bytes.now }
{}

// A call that names what is declared has a line.
fn call_has_line(boot: &Boot, call: &Call)
    requires { IsTrue (names_fit boot.now call.now) }
    ensures { HasLine (length boot.now.tasks) (length boot.now.objects) call.now }
{
    match call {
        Call::Write { off, bytes, .. } => {
            number_has_word(*off);
            bytes_have_word(bytes.as_slice());
        }
        Call::Read { off, len, .. } => {
            number_has_word(*off);
            number_has_word(*len);
        }
        Call::SetState { word, .. } => number_has_word(*word),
        Call::SetBand { band, .. } => {
            let _band = band.get();
        }
        _ => (),
    }
}

// The calls of a thread have lines.
fn calls_have_lines(boot: &Boot, calls: &[ScriptCall])
    requires { All (λ call. IsTrue (names_fit boot.now call)) calls.now }
    ensures { All (HasLine (length boot.now.tasks) (length boot.now.objects)) calls.now }
{
    for call in calls {
        call_has_line(boot, &call.get());
    }
}

// All scripts have lines.
fn scripts_have_lines(scenario: &Scenario)
    ensures { All (λ script. All (HasLine (length scenario.now.boot.tasks) (length scenario.now.boot.objects)) script) scenario.now.scripts }
{
    scenario.valid();
    let boot = scenario.boot();
    for script in scenario.scripts() {
        calls_have_lines(boot, script.calls());
    }
}

/// Every scenario has a text, and is read from it again. Looks at each call once.
pub fn has_text(scenario: &Scenario)
    ensures text { HasText scenario.now }
    ensures again { scenario_of (scenario_text scenario.now) ≡ Ok scenario.now }
{
    scenario.valid();
    bands_have_words(scenario.boot().tasks());
    scripts_have_lines(scenario);
}

/// Reading and writing undo each other, and the second form of what has a text has one.
pub fn reading_undoes_writing()
    ensures written { (bytes : List ℕ) (s : Plan) → scenario_of bytes ≡ Ok s → bytes ≡ scenario_text s }
    ensures valid { (bytes : List ℕ) (s : Plan) → scenario_of bytes ≡ Ok s → HasText s }
    ensures again { (s : Plan) → HasText s → scenario_of (scenario_text s) ≡ Ok s }
    ensures second { (s : Plan) → HasText s → HasText (two s) }
{}

/// What is read at the front of some bytes is read there too where more bytes come after them, and a fault of
/// an ended line is their fault too.
pub fn front_stays()
    ensures read { (bytes more : List ℕ) (front : Taken) → front_taken bytes ≡ Ok front → front_taken (bytes ++ more) ≡ Ok front }
    ensures fault { (bytes more : List ℕ) (line : ℕ) (why : Why) → why ≢ NoEnd → front_taken bytes ≡ Err (line, why) → front_taken (bytes ++ more) ≡ Err (line, why) }
{}
