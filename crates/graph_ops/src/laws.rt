//! What can be relied on about transactions, vertex by vertex, as contracts without a body.
ghost use Rattle.std.specs.Prelude.{◌≡◌, ◌≢◌, ◌↔◌, List, [], flat_map, is_ok, Ok, IsTrue, AllPairs, Contains};
ghost use Rattle.weave_data.specs.declared.name.Name.{Name};
ghost use Rattle.graph_ops.specs.declared.op.Op.{Op};
ghost use Rattle.graph_ops.specs.Alike.{EndAlike};
ghost use Rattle.graph_ops.specs.Mentions.{named_by, named_by_op, is_among};
ghost use Rattle.graph_ops.specs.PlainGraph.{PlainGraph, PassedTx, transaction};
ghost use Rattle.graph_ops.specs.VertexOps.{ops_on, state_after_ops, none_refused, NeedsAreMet};

/// A transaction names the vertices that its operations name, each once, and no others.
pub fn each_vertex_is_named_once()
    ensures once { (ops : List Op) → AllPairs (λ a b. a ≢ b) (named_by ops) }
    ensures of_operations { (ops : List Op) (v : Name)
        → Contains (named_by ops) v ↔ Contains (flat_map named_by_op ops) v }
    ensures tested { (names : List Name) (v : Name) → IsTrue (is_among names v) ↔ Contains names v }
    ensures no_others { (ops : List Op) (v : Name) → ¬ IsTrue (is_among (named_by ops) v) → ops_on v ops ≡ [] }
{}

/// What a transaction that passes does to a vertex depends on that vertex's state and the operations on it alone.
/// It passes exactly if the operations on each vertex, by themselves, pass on that vertex's state, and each target that
/// has to be there is there at its turn.
pub fn vertices_are_independent()
    ensures leaves { (ops : List Op) (graph : PlainGraph) (passed : PassedTx) → transaction ops graph ≡ Ok passed
        → (v : Name) → passed.graph v ≡ state_after_ops (ops_on v ops) (graph v) }
    ensures passes { (ops : List Op) (graph : PlainGraph) → IsTrue (is_ok (transaction ops graph))
        ↔ ((v : Name) → IsTrue (none_refused (ops_on v ops) (graph v))) × NeedsAreMet ops graph }
{}

/// On two graphs with the same states at the vertices that it names a transaction ends alike: it passes with the same
/// answers, or is refused at the same operation for the same reason.
pub fn other_vertices_change_nothing()
    ensures { (ops : List Op) (first second : PlainGraph)
        → ((v : Name) → IsTrue (is_among (named_by ops) v) → first v ≡ second v)
        → EndAlike first second (transaction ops first) (transaction ops second) }
{}
