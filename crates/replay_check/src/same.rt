//! Whether calls and replies are equal.

ghost use Rattle.std.specs.Prelude.{◌≡◌};
ghost use Rattle.replay_check.specs.Same.{same_call, same_reply};

use kern_ids::calls::Call;
use kern_ids::replies::Reply;

// Whether the calls are equal.
pub(crate) fn same_call(a: &Call, b: &Call) -> bool
    ensures { result ≡ same_call a.now b.now }
{
    *a == *b
}

// Whether the replies are equal.
pub(crate) fn same_reply(a: &Reply, b: &Reply) -> bool
    ensures { result ≡ same_reply a.now b.now }
{
    *a == *b
}
