//! The kernel as the value under the turn.

use kern_ids::entries::{Entry, EntryList};
use kernel_core::kernel::Kernel;
use kernel_model::boot::Boot;
use page_store::Body;
use turn_lock::Ordered;

/// The kernel, which has the turn's history.
#[derive(Drop)]
pub struct Core {
    pub kernel: Kernel<EntryList>,
}

impl Ordered<Body> for Core {
    ghost use Rattle.std.specs.Prelude.{reverse};
    ghost use Rattle.kernel_model.specs.Pages.{free};
    ghost use Rattle.kernel_core.specs.Bodies.{content};
    ghost use Rattle.kernel_core.specs.Touches.{touched};
    ghost use Rattle.kernel_core.specs.Untouched.{content-untouched};

    type Base = Boot;

    type Entry = Entry;

    type Content = [(u32, u8); 0];

    ghost base = { λ v. v.kernel.boot };

    ghost entries = { λ v. v.kernel.history };

    ghost free_of = { λ boot h. free boot (reverse h) };

    ghost who = { λ e. e.who };

    ghost content = { content };

    ghost held = { λ body. body.bytes };

    ghost touches = { touched };

    ghost untouched = { content-untouched };

    fn free(&self) -> u64 {
        self.kernel.free()
    }
}
