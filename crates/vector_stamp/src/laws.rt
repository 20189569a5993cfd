//! What can be relied on about clocks, stamps and precedence, as contracts without a body.
ghost use Rattle.std.specs.Prelude.{◌≡◌, ◌≢◌, ◌↔◌, ◌⊎◌, ℕ, ◌+◌, ◌<◌, ◌≤◌, max, min, List, [], ◌∷◌, ◌++◌, length, slice_get, Some, None, Bool, IsTrue, Contains, if◌then◌else◌};
ghost use Rattle.std.specs.List.Sorted.{IsStrictlyIncreasing};
ghost use Rattle.weave_data.specs.Limits.{most_gates};
ghost use Rattle.vector_stamp.specs.declared.clock.Clock.{Clock};
ghost use Rattle.vector_stamp.specs.declared.clock.Stamp.{Stamp};
ghost use Rattle.vector_stamp.specs.Order.{count_of, HasEightCounts, HaveEightCounts, CountsNonePast, is_before, is_at_most, same_clock, stamp_before, unordered, same_stamp, id_of, same_id, are_apart};
ghost use Rattle.vector_stamp.specs.Clocks.{first_clock, clock_after_tick, clock_after_hearing, counts_no_more, meet_of, meet_with};
ghost use Rattle.vector_stamp.specs.ClockLaws.{ClockLaws};
ghost use Rattle.vector_stamp.specs.Coherence.{AreCoherent, all_coherent};
ghost use Rattle.vector_stamp.specs.Precedence.{GivenPair, AreAmong, IsAcyclic, IsClosed, JoinsEvents, Precedes, PrecedesAmong, precedes};
ghost use Rattle.vector_stamp.specs.Seeing.{is_seen, seen_of, last_seen};
ghost use Rattle.vector_stamp.specs.Settling.{refused_place, additions_from, places_of, pairs_of};

/// The order of stamps is a strict partial order, and events with equal clocks are unordered.
pub fn stamps_are_ordered()
    ensures irreflexive { (a : Stamp) → ¬ IsTrue (stamp_before a a) }
    ensures asymmetric { (a b : Stamp) → IsTrue (stamp_before a b) → ¬ IsTrue (stamp_before b a) }
    ensures transitive { (a b c : Stamp) → IsTrue (stamp_before a b) → IsTrue (stamp_before b c)
        → IsTrue (stamp_before a c) }
    ensures equal_clocks { (a b : Stamp) → a.clock ≡ b.clock → IsTrue (unordered a b) }
{}

/// `is_at_most` is a partial order on clocks, and `is_before` composes with it on either side.
pub fn clocks_are_ordered()
    ensures reflexive { (a : Clock) → IsTrue (is_at_most a a) }
    ensures antisymmetric { (a b : Clock) → IsTrue (is_at_most a b) → IsTrue (is_at_most b a) → a ≡ b }
    ensures transitive { (a b c : Clock) → IsTrue (is_at_most a b) → IsTrue (is_at_most b c)
        → IsTrue (is_at_most a c) }
    ensures before_at_most { (a b c : Clock) → IsTrue (is_before a b) → IsTrue (is_at_most b c)
        → IsTrue (is_before a c) }
    ensures at_most_before { (a b c : Clock) → IsTrue (is_at_most a b) → IsTrue (is_before b c)
        → IsTrue (is_before a c) }
{}

/// Within an epoch a clock is at most another exactly if each gatekeeper's count is.
pub fn order_gate_by_gate()
    ensures { (a b : Clock) → HasEightCounts a → HasEightCounts b → a.epoch ≡ b.epoch
        → IsTrue (is_at_most a b) ↔ ((gate : ℕ) → gate < most_gates → count_of gate a ≤ count_of gate b) }
{}

/// A tick gives a later clock: so the stamps of a gatekeeper rise.
pub fn ticks_rise()
    ensures { (home : ℕ) (clock : Clock) → home < most_gates → HasEightCounts clock
        → IsTrue (is_before clock (clock_after_tick home clock)) }
{}

/// A gatekeeper that hears a clock never goes back, and hears nothing of a lower epoch.
/// It is then at least that clock, and its next event is after it, if that clock counts no more of the gatekeeper's
/// events than it made:
/// within its epoch at most its own count, and none in a higher epoch.
pub fn hearing_brings_order()
    ensures of_lower { (home : ℕ) (clock heard : Clock) → heard.epoch < clock.epoch
        → clock_after_hearing home clock heard ≡ clock }
    ensures never_back { (home : ℕ) (clock heard : Clock) → home < most_gates → HasEightCounts clock
        → HasEightCounts heard
        → IsTrue (is_at_most clock (clock_after_hearing home clock heard)) }
    ensures not_behind { (home : ℕ) (clock heard : Clock) → home < most_gates → HasEightCounts clock
        → HasEightCounts heard
        → IsTrue (counts_no_more home clock heard)
        → IsTrue (is_at_most heard (clock_after_hearing home clock heard)) }
    ensures then_after { (home : ℕ) (clock heard : Clock) → home < most_gates → HasEightCounts clock
        → HasEightCounts heard
        → IsTrue (counts_no_more home clock heard)
        → IsTrue (is_before heard (clock_after_tick home (clock_after_hearing home clock heard))) }
    ensures then_rises { (home : ℕ) (clock heard : Clock) → home < most_gates → HasEightCounts clock
        → HasEightCounts heard
        → IsTrue (is_before clock (clock_after_tick home (clock_after_hearing home clock heard))) }
{}

/// The meet is the greatest clock that is at most both, so of two epochs the lower clock.
pub fn meet_is_greatest_below()
    ensures of_two_epochs { (a b : Clock) → a.epoch < b.epoch → (meet_of a b ≡ a) × (meet_of b a ≡ a) }
    ensures below_first { (a b : Clock) → HasEightCounts a → HasEightCounts b
        → IsTrue (is_at_most (meet_of a b) a) }
    ensures below_second { (a b : Clock) → HasEightCounts a → HasEightCounts b
        → IsTrue (is_at_most (meet_of a b) b) }
    ensures greatest { (a b c : Clock) → HasEightCounts a → HasEightCounts b
        → IsTrue (is_at_most c a) → IsTrue (is_at_most c b) → IsTrue (is_at_most c (meet_of a b)) }
{}

/// The order of meets plays no part.
pub fn meets_commute()
    ensures commutative { (a b : Clock) → meet_of a b ≡ meet_of b a }
    ensures associative { (a b c : Clock) → meet_of (meet_of a b) c ≡ meet_of a (meet_of b c) }
{}

/// The meet of a whole list is the greatest clock that is at most each of them, in whatever order they are met.
pub fn meet_of_a_list_is_greatest_below()
    ensures eight { (first : Clock) (rest : List Clock) → HaveEightCounts (first ∷ rest)
        → HasEightCounts (meet_with first rest) }
    ensures below_each { (first : Clock) (rest : List Clock) → HaveEightCounts (first ∷ rest)
        → (clock : Clock) → Contains (first ∷ rest) clock → IsTrue (is_at_most (meet_with first rest) clock) }
    ensures greatest { (first : Clock) (rest : List Clock) → HaveEightCounts (first ∷ rest)
        → (low : Clock) → ((clock : Clock) → Contains (first ∷ rest) clock → IsTrue (is_at_most low clock))
        → IsTrue (is_at_most low (meet_with first rest)) }
    ensures in_any_order { (first other : Clock) (rest others : List Clock) → HaveEightCounts (first ∷ rest)
        → ((clock : Clock) → Contains (first ∷ rest) clock ↔ Contains (other ∷ others) clock)
        → meet_with first rest ≡ meet_with other others }
{}

/// No change makes a clock count an event of a gatekeeper that isn't there.
pub fn counts_past_the_gatekeepers_stay_0()
    ensures first { (gates epoch : ℕ) → CountsNonePast gates (first_clock epoch) }
    ensures ticked { (gates home : ℕ) (clock : Clock) → home < gates
        → CountsNonePast gates clock → CountsNonePast gates (clock_after_tick home clock) }
    ensures heard { (gates home : ℕ) (clock heard : Clock)
        → CountsNonePast gates clock → CountsNonePast gates heard
        → CountsNonePast gates (clock_after_hearing home clock heard) }
    ensures met { (gates : ℕ) (a b : Clock)
        → CountsNonePast gates a → CountsNonePast gates b → CountsNonePast gates (meet_of a b) }
    ensures of_eight { (clock : Clock) → HasEightCounts clock → CountsNonePast most_gates clock }
{}

/// All clocks of an epoch are before all of a later one, so a clock that is raised starts later.
pub fn raising_starts_later()
    ensures epochs { (a b : Clock) → a.epoch < b.epoch → IsTrue (is_before a b) }
    ensures raised { (clock : Clock) (epoch : ℕ) → clock.epoch < epoch
        → IsTrue (is_before clock (first_clock epoch)) }
{}

/// What each change leaves at each gatekeeper, and that it leaves eight counts.
pub fn counts_one_by_one()
    ensures ticked { (home : ℕ) (clock : Clock) → home < most_gates → HasEightCounts clock
        → count_of home (clock_after_tick home clock) ≡ count_of home clock + 1 }
    ensures not_ticked { (home gate : ℕ) (clock : Clock) → gate ≢ home
        → count_of gate (clock_after_tick home clock) ≡ count_of gate clock }
    ensures own { (home : ℕ) (clock heard : Clock) → home < most_gates → HasEightCounts clock → HasEightCounts heard
        → heard.epoch ≡ clock.epoch → count_of home (clock_after_hearing home clock heard) ≡ count_of home clock }
    ensures others { (home gate : ℕ) (clock heard : Clock) → home < most_gates → HasEightCounts clock
        → HasEightCounts heard
        → heard.epoch ≡ clock.epoch → gate ≢ home
        → count_of gate (clock_after_hearing home clock heard) ≡ max (count_of gate clock) (count_of gate heard) }
    ensures own_of_higher { (home : ℕ) (clock heard : Clock) → home < most_gates → HasEightCounts clock
        → HasEightCounts heard
        → clock.epoch < heard.epoch → count_of home (clock_after_hearing home clock heard) ≡ 0 }
    ensures others_of_higher { (home gate : ℕ) (clock heard : Clock) → home < most_gates
        → HasEightCounts clock → HasEightCounts heard → clock.epoch < heard.epoch → gate ≢ home
        → count_of gate (clock_after_hearing home clock heard) ≡ count_of gate heard }
    ensures met { (gate : ℕ) (a b : Clock) → HasEightCounts a → HasEightCounts b
        → a.epoch ≡ b.epoch → count_of gate (meet_of a b) ≡ min (count_of gate a) (count_of gate b) }
    ensures raised { (gate epoch : ℕ) → count_of gate (first_clock epoch) ≡ 0 }
    ensures eight_ticked { (home : ℕ) (clock : Clock) → HasEightCounts clock
        → HasEightCounts (clock_after_tick home clock) }
    ensures eight_heard { (home : ℕ) (clock heard : Clock) → home < most_gates → HasEightCounts clock
        → HasEightCounts heard
        → HasEightCounts (clock_after_hearing home clock heard) }
    ensures eight_met { (a b : Clock) → HasEightCounts a → HasEightCounts b → HasEightCounts (meet_of a b) }
    ensures eight_raised { (epoch : ℕ) → HasEightCounts (first_clock epoch) }
{}

/// The laws of clocks as one fact, for proofs that take them as a premise.
pub fn clocks_keep_the_laws()
    ensures { ClockLaws }
{}

/// The tests of equality decide it.
pub fn equality_is_decided()
    ensures clocks { (a b : Clock) → IsTrue (same_clock a b) ↔ (a ≡ b) }
    ensures stamps { (a b : Stamp) → IsTrue (same_stamp a b) ↔ (a ≡ b) }
    ensures ids { (a b : Stamp) → IsTrue (same_id a b) ↔ (id_of a ≡ id_of b) }
{}

/// Whether stamps are coherent is decided by a test of each two of them. Two different ones have different ids, and
/// those of one home are ordered as their ids say.
pub fn coherence_is_decided()
    ensures tested { (stamps : List Stamp) → AreCoherent stamps ↔ IsTrue (all_coherent stamps) }
    ensures apart { (stamps : List Stamp) (a b : Stamp) → AreCoherent stamps → Contains stamps a → Contains stamps b
        → a ≢ b → IsTrue (are_apart a b) }
{}

/// A part of coherent stamps is coherent. So are two coherent lists together if their homes differ, and all stamps if
/// those of each home are.
pub fn parts_and_unions_are_coherent()
    ensures part { (stamps others : List Stamp) → AreCoherent others
        → ((stamp : Stamp) → Contains stamps stamp → Contains others stamp) → AreCoherent stamps }
    ensures two { (stamps others : List Stamp) → AreCoherent stamps → AreCoherent others
        → ((a b : Stamp) → Contains stamps a → Contains others b → a.home ≢ b.home)
        → AreCoherent (stamps ++ others) }
    ensures by_homes { (stamps : List Stamp) (of_home : ℕ → List Stamp)
        → ((home : ℕ) → AreCoherent (of_home home))
        → ((stamp : Stamp) → Contains stamps stamp → Contains (of_home stamp.home) stamp)
        → AreCoherent stamps }
{}

/// Two different ones of coherent stamps have different ids, and are unordered only if their homes differ.
pub fn coherent_stamps_have_ids()
    ensures ids { (stamps : List Stamp) (a b : Stamp) → AreCoherent stamps
        → Contains stamps a → Contains stamps b → a ≢ b → id_of a ≢ id_of b }
    ensures one_home { (stamps : List Stamp) (a b : Stamp) → AreCoherent stamps
        → Contains stamps a → Contains stamps b → a ≢ b → a.home ≡ b.home
        → IsTrue (stamp_before a b) ⊎ IsTrue (stamp_before b a) }
    ensures other_homes { (stamps : List Stamp) (a b : Stamp) → AreCoherent stamps
        → Contains stamps a → Contains stamps b → a ≢ b → IsTrue (unordered a b) → a.home ≢ b.home }
{}

/// Precedence is decided by its test, which is the least transitive one that has the order of stamps and the pairs.
pub fn precedence_is_decided()
    ensures tested { (pairs : List GivenPair) (a b : Stamp) → Precedes pairs a b ↔ IsTrue (precedes pairs a b) }
    ensures closed { (pairs : List GivenPair) → IsClosed pairs (precedes pairs) }
    ensures least { (pairs : List GivenPair) (leads : Stamp → Stamp → Bool) → IsClosed pairs leads
        → (a b : Stamp) → IsTrue (precedes pairs a b) → IsTrue (leads a b) }
{}

/// Between events that the pairs join, precedence is that over these events alone: no other stamp leads from one to
/// another.
pub fn other_stamps_change_nothing()
    ensures { (events : List Stamp) (pairs : List GivenPair) → JoinsEvents events pairs
        → (a b : Stamp) → Contains events a → Contains events b
        → Precedes pairs a b ↔ PrecedesAmong events pairs a b }
{}

/// Precedence grows with the pairs, whose order plays no part.
pub fn more_pairs_more_precedence()
    ensures grows { (pairs others : List GivenPair) → AreAmong pairs others
        → (a b : Stamp) → IsTrue (precedes pairs a b) → IsTrue (precedes others a b) }
    ensures at_the_end { (pairs : List GivenPair) (pair : GivenPair) (a b : Stamp)
        → precedes (pairs ++ pair ∷ []) a b ≡ precedes (pair ∷ pairs) a b }
{}

/// With one more pair a precedes b only if it did before, or through that pair.
pub fn one_pair_joins_its_ends()
    ensures { (pair : GivenPair) (pairs : List GivenPair) (a b : Stamp) → IsTrue (precedes (pair ∷ pairs) a b)
        → IsTrue (precedes pairs a b)
        ⊎ (((a ≡ pair.0) ⊎ IsTrue (precedes pairs a pair.0)) × ((pair.1 ≡ b) ⊎ IsTrue (precedes pairs pair.1 b))) }
{}

/// The last update up to which a program reads is one that it sees, and it sees none after that.
pub fn the_last_update_read_is_seen()
    ensures within { (pairs : List GivenPair) (program : Stamp) (updates : List Stamp)
        → seen_of pairs program updates ≤ length updates }
    ensures last { (pairs : List GivenPair) (program update : Stamp) (updates : List Stamp) (before : ℕ)
        → seen_of pairs program updates ≡ before + 1 → slice_get updates before ≡ Some update
        → IsTrue (is_seen pairs program update) }
    ensures skipped { (pairs : List GivenPair) (program update : Stamp) (updates : List Stamp) (place : ℕ)
        → seen_of pairs program updates ≤ place → slice_get updates place ≡ Some update
        → ¬ IsTrue (is_seen pairs program update) }
    ensures named { (updates : List Stamp) (update : Stamp) (before : ℕ)
        → slice_get updates before ≡ Some update → last_seen (before + 1) updates ≡ update ∷ [] }
{}

/// What a judge adds puts all the earlier events before the later one. It adds nothing for an event that already
/// precedes it, also by the pairs added for the places before. The later event then precedes none that it did not
/// precede.
pub fn settling_puts_all_before()
    ensures all_precede { (pairs : List GivenPair) (earlier : List Stamp) (later event : Stamp) → Contains earlier event
        → IsTrue (precedes (pairs ++ pairs_of (additions_from 0 pairs earlier later) later) event later) }
    ensures place_by_place { (pairs : List GivenPair) (earlier : List Stamp) (event later : Stamp)
        → additions_from 0 pairs (earlier ++ event ∷ []) later
        ≡ additions_from 0 pairs earlier later
        ++ (if precedes (pairs ++ pairs_of (additions_from 0 pairs earlier later) later) event later
        then [] else (length earlier, event) ∷ []) }
    ensures in_place { (pairs : List GivenPair) (earlier : List Stamp) (later : Stamp) (place : ℕ) (event : Stamp)
        → Contains (additions_from 0 pairs earlier later) (place, event) → slice_get earlier place ≡ Some event }
    ensures rising { (pairs : List GivenPair) (earlier : List Stamp) (later : Stamp)
        → IsStrictlyIncreasing (places_of (additions_from 0 pairs earlier later)) }
    ensures still_permitted { (pairs : List GivenPair) (earlier : List Stamp) (later event : Stamp)
        → ((other : Stamp) → Contains earlier other → other ≢ later) → refused_place pairs earlier later ≡ None
        → ¬ IsTrue (precedes pairs later event)
        → ¬ IsTrue (precedes (pairs ++ pairs_of (additions_from 0 pairs earlier later) later) later event) }
    ensures of_earlier { (pairs : List GivenPair) (earlier : List Stamp) (later a b : Stamp)
        → Contains (pairs_of (additions_from 0 pairs earlier later) later) (a, b) → Contains earlier a × (b ≡ later) }
    ensures left_open { (pairs : List GivenPair) (earlier : List Stamp) (later a b : Stamp)
        → refused_place pairs earlier later ≡ None
        → Contains (pairs_of (additions_from 0 pairs earlier later) later) (a, b) → IsTrue (unordered a b) }
{}

/// A judge's pairs never make a cycle: nothing precedes itself, since a pair is added only if its later event does not
/// precede its earlier one.
pub fn no_cycle_arises()
    ensures at_first { IsAcyclic [] }
    ensures one_pair { (pairs : List GivenPair) (a b : Stamp) → IsAcyclic pairs → a ≢ b → ¬ IsTrue (precedes pairs b a)
        → IsAcyclic (pairs ++ (a, b) ∷ []) }
    ensures settled { (pairs : List GivenPair) (earlier : List Stamp) (later : Stamp) → IsAcyclic pairs
        → ((event : Stamp) → Contains earlier event → event ≢ later) → refused_place pairs earlier later ≡ None
        → IsAcyclic (pairs ++ pairs_of (additions_from 0 pairs earlier later) later) }
{}
