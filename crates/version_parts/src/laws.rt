//! What follows from the definitions, as contracts without a body.
ghost use Rattle.std.specs.Prelude.{◌≡◌, ◌≤◌, ◌<◌, ◌+◌, ◌==◌, ℕ, Bool, nat_le, is_ok, IsTrue};
ghost use Rattle.graph_ops.specs.declared.op.Op.{Op};
ghost use Rattle.graph_ops.specs.Operations.{outcome_of_op};
ghost use Rattle.graph_ops.specs.VertexOps.{state_left};
ghost use Rattle.version_parts.specs.declared.lists.Lists.{Lists};
ghost use Rattle.version_parts.specs.declared.time.Time.{Time};
ghost use Rattle.version_parts.specs.Counts.{count_updates, count_in_lists, size_of};
ghost use Rattle.version_parts.specs.Ordered.{AreBefore, KeysRise};
ghost use Rattle.version_parts.specs.Placed.{AreUpTo};
ghost use Rattle.version_parts.specs.States.{state_at, with_op};

/// An operation that passes adds an item after all others. The lists then give the state that it leaves, and at earlier
/// updates the states from before.
pub fn items_make_states()
    ensures next { (time : Time) (op : Op) (lists : Lists) → AreBefore time lists → 1 ≤ time.update → KeysRise op lists
        → IsTrue (is_ok (outcome_of_op op (state_at time.update lists)))
        → state_at time.update (with_op time op lists)
        ≡ state_left (state_at time.update lists) (outcome_of_op op (state_at time.update lists)) }
    ensures earlier { (update : ℕ) (time : Time) (op : Op) (lists : Lists) → update < time.update → KeysRise op lists
        → state_at update (with_op time op lists) ≡ state_at update lists }
{}

/// After the newest update nothing changes, and there are no items. The items of updates add up. The state after an
/// update has no more parts than there are items of it and of those before it.
pub fn items_are_placed()
    ensures states { (newest update : ℕ) (lists : Lists) → newest ≤ update → AreUpTo newest lists
        → state_at update lists ≡ state_at newest lists }
    ensures counted { (newest : ℕ) (lists : Lists) → AreUpTo newest lists
        → count_updates (λ update. nat_le update newest) lists ≡ count_in_lists lists }
    ensures none_later { (newest update : ℕ) (lists : Lists) → newest < update → AreUpTo newest lists
        → count_updates (λ other. other == update) lists ≡ 0 }
    ensures one_more { (update : ℕ) (lists : Lists) → count_updates (λ other. nat_le other (update + 1)) lists
        ≡ count_updates (λ other. nat_le other update) lists + count_updates (λ other. other == update + 1) lists }
    ensures sizes { (update : ℕ) (test : ℕ → Bool) (lists : Lists)
        → ((other : ℕ) → other ≤ update → IsTrue (test other))
        → size_of (state_at update lists) ≤ count_updates test lists }
{}
