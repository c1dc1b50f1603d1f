//! The dues are the deadlines less the pages that left, and each queue has as many tokens as objects.

ghost use Rattle.purge_pick.specs.Laws.{FollowAtStart, FollowOnEntry, FollowOnDeparture, FollowOnAddition};
ghost use Rattle.purge_pick.specs.Laws.{FollowWithoutFirst, FollowWithoutLast, FollowOnRipePurge, RipeAlike, RipeQueueAlike};
ghost use Rattle.purge_pick.specs.Laws.{TokensAtStart, TokensOnEntry, TokensOnDeparture, TokensOnAddition, TokensOnMove};
ghost use Rattle.purge_pick.specs.Laws.{TokensWithoutFirst, TokensWithoutLast, TokensOnRipePurge, HasOneToken, HeadHasQueue};

/// Tokens follow deadlines where each due is its deadline less the pages that left, or 0, and the pages ahead are
/// those that entered less those that left. From the start on they do so, whatever is done to both alike: each
/// change of the deadlines is matched by the call of its name, each departure by `departed`, and the ripe queue is
/// the same for both. So after any run the dues are those of the deadlines.
pub fn tokens_follow_deadlines()
    ensures start { FollowAtStart }
    ensures entered { FollowOnEntry }
    ensures departed { FollowOnDeparture }
    ensures added { FollowOnAddition }
    ensures first_gone { FollowWithoutFirst }
    ensures last_gone { FollowWithoutLast }
    ensures ripe { RipeAlike }
    ensures ripe_queue { RipeQueueAlike }
    ensures purged { FollowOnRipePurge }
{}

/// Each queue has as many tokens as objects, from the start on, whatever is done to both alike: where an object enters
/// a token is added to its queue, and where it is taken out the first or the last token of its queue goes, or that
/// of a ripe purge; an object that enters its own queue anew and pages that enter and leave change no number. So
/// `pick` may be asked at any time.
pub fn as_many_tokens_as_objects()
    ensures start { TokensAtStart }
    ensures entered { TokensOnEntry }
    ensures departed { TokensOnDeparture }
    ensures added { TokensOnAddition }
    ensures moved { TokensOnMove }
    ensures first_gone { TokensWithoutFirst }
    ensures last_gone { TokensWithoutLast }
    ensures purged { TokensOnRipePurge }
    ensures some { HasOneToken }
    ensures picked { HeadHasQueue }
{}
