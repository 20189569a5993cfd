//! What follows from the definitions, as contracts without a body.
ghost use Rattle.std.specs.Prelude.{◌≡◌, ◌<◌, ◌⊎◌, List, IsTrue};
ghost use Rattle.vector_stamp.specs.declared.clock.Clock.{Clock};
ghost use Rattle.vector_stamp.specs.declared.clock.Stamp.{Stamp};
ghost use Rattle.vector_stamp.specs.Order.{is_at_most};
ghost use Rattle.vector_stamp.specs.Precedence.{GivenPair};
ghost use Rattle.version_chain.specs.Chains.{ChainView, update_count};
ghost use Rattle.version_chain.specs.Collection.{collected_chain};
ghost use Rattle.version_chain.specs.Views.{view_of, ReachesBack};

use vector_stamp::laws::clocks_are_ordered;

/// A collection forgets no update, and changes no view of a program whose clock the bound is at most.
/// What is kept reaches back far enough for such a program if it did before, or if something was dropped.
pub fn collections_leave_views()
    ensures count { (bound : Clock) (chain : ChainView)
        → update_count (collected_chain bound chain) ≡ update_count chain }
    ensures views { (bound : Clock) (chain : ChainView) (pairs : List GivenPair) (program : Stamp)
        → IsTrue (is_at_most bound program.clock)
        → view_of pairs program (collected_chain bound chain) ≡ view_of pairs program chain }
    ensures base { (bound : Clock) (chain : ChainView) (program : Stamp)
        → IsTrue (is_at_most bound program.clock)
        → ReachesBack program chain ⊎ (chain.dropped < (collected_chain bound chain).dropped)
        → ReachesBack program (collected_chain bound chain) }
{
    clocks_are_ordered();
}
