//! Laws of walks and visits.

ghost use Rattle.std.specs.Prelude.{ℕ, List, [], Option, Some, None, IsTrue, is_some, length, reverse, ◌↔◌, ◌≡◌, ◌++◌, ◌∷◌};
ghost use Rattle.weave_data.specs.declared.name.Name.{Name};
ghost use Rattle.graph_ops.specs.Graphs.{Vertices, plain_of};
ghost use Rattle.graph_ops.specs.Mentions.{is_among};
ghost use Rattle.graph_ops.specs.Operations.{State};
ghost use Rattle.graph_ops.specs.PlainGraph.{PlainGraph};
ghost use Rattle.program_defs.specs.declared.passing.Passing.{Passing};
ghost use Rattle.program_defs.specs.declared.program.Filter.{Filter};
ghost use Rattle.program_defs.specs.declared.program.Program.{Program};
ghost use Rattle.program_defs.specs.declared.program.Answer.{Answer};
ghost use Rattle.program_defs.specs.declared.program.Program.TheVariants.{Reach, Around, Price};
ghost use Rattle.program_defs.specs.declared.program.Answer.TheVariants.{Reached, Found, Priced};
ghost use Rattle.program_defs.specs.Searching.{SearchState, IsOnce, SameReached, HasSearched, next_of};
ghost use Rattle.program_defs.specs.Agreement.{AgreeOnVisits, AreSameReads};
ghost use Rattle.program_defs.specs.declared.program.Bound.{Bound};
ghost use Rattle.program_defs.specs.Certificate.{passes_tests};
ghost use Rattle.program_defs.specs.PlainAnswer.{IsPlainAnswer};
ghost use Rattle.program_defs.specs.PricedAnswer.{IsPricedAnswer};
ghost use Rattle.program_defs.specs.Rising.{is_rising};
ghost use Rattle.program_defs.specs.Visits.{as_set, through_level, visits_to, graph_read, next_visit, states_at, first_of, IsListOfVisits, AreFirstVisits};
ghost use Rattle.program_defs.specs.LeastWalks.{WalkState, SameWalked, HasWalked};
ghost use Rattle.program_defs.specs.Walks.{is_walk_within};

/// A vertex that is there is in the levels 0 to n exactly if a walk of at most n edges leads to it.
pub fn levels_are_distances()
    ensures { (n : ℕ) (graph : PlainGraph) (pass : Passing) (from v : Name) → IsTrue (is_some (graph v))
        → IsTrue (is_among (through_level n graph pass from) v)
        ↔ ((walk : List Name) × IsTrue (is_walk_within n graph pass from v walk)) }
{}

/// The list of visits of what was read is whole after one level for each read, so the next visit misses no vertex.
pub fn next_visit_misses_none()
    ensures { (reads : List (Name × State)) (program : Program)
        → IsListOfVisits (graph_read reads) program (visits_to (length reads) (graph_read reads) program) }
{}

/// A graph with finitely many vertices has a list of visits for each program.
pub fn finite_graphs_have_visits()
    ensures { (graph : Vertices) (program : Program)
        → (visits : List Name) × IsListOfVisits (plain_of graph) program visits }
{}

/// A program has one list of visits at most.
pub fn list_of_visits_is_one()
    ensures { (graph : PlainGraph) (program : Program) (a b : List Name)
        → IsListOfVisits graph program a → IsListOfVisits graph program b → a ≡ b }
{}

/// A graph that has the same states at the vertices visited has the same list of visits and the same plain answer.
pub fn only_visits_matter()
    ensures visits { (g h : PlainGraph) (program : Program) (visits : List Name)
        → AgreeOnVisits g h program → IsListOfVisits g program visits → IsListOfVisits h program visits }
    ensures answer { (g h : PlainGraph) (program : Program) → AgreeOnVisits g h program
        → (answer : Answer) → IsPlainAnswer g program answer → IsPlainAnswer h program answer }
{}

/// A program has one plain answer at most on a graph.
pub fn plain_answer_is_one()
    ensures { (graph : PlainGraph) (program : Program) (a b : Answer)
        → IsPlainAnswer graph program a → IsPlainAnswer graph program b → a ≡ b }
{}

/// The list of visits of a graph is found by asking for the next visit after what was read, again and again.
pub fn visits_are_asked_for()
    ensures { (graph : PlainGraph) (program : Program) (visits done rest : List Name)
        → IsListOfVisits graph program visits → visits ≡ done ++ rest
        → next_visit (states_at graph done) program ≡ first_of rest }
{}

/// The law of programs: one that is fed the states of one graph, with the newest read first, asks for that graph's list
/// of visits in order, and then its outcome is that graph's plain answer.
pub fn programs_visit_in_order()
    ensures next { (graph : PlainGraph) (program : Program) (visits done rest : List Name)
        → IsListOfVisits graph program visits → visits ≡ done ++ rest
        → next_visit (reverse (states_at graph done)) program ≡ first_of rest }
    ensures outcome { (graph : PlainGraph) (program : Program) (visits : List Name) (answer : Answer)
        → IsListOfVisits graph program visits
        → IsPlainAnswer (graph_read (reverse (states_at graph visits))) program answer
        → IsPlainAnswer graph program answer }
{}

/// A program that has read the first of its visits and then reads the next one has again read the first of its visits,
/// whatever that one's state is.
pub fn visits_go_on()
    ensures { (program : Program) (front back : List (Name × State)) (v : Name) (state : State)
        → AreFirstVisits (front ++ back) program → next_visit (front ++ back) program ≡ Some v
        → AreFirstVisits (front ++ (v, state) ∷ back) program }
{}

/// What a search says of its program: the next visit, and the answers of `reach` and `around` over the states read.
pub fn searches_are_right()
    ensures next { (program : Program) (search : SearchState) (reads : List (Name × State))
        → HasSearched program search reads → next_of search ≡ next_visit reads program }
    ensures reach { (from to : Name) (pass : Option Filter) (search : SearchState) (reads : List (Name × State))
        → HasSearched (Reach from to pass) search reads
        → IsPlainAnswer (graph_read reads) (Reach from to pass) (Reached (is_among search.present to)) }
    ensures around { (from : Name) (bound : ℕ) (pass : Option Filter) (search : SearchState)
        (reads : List (Name × State)) → HasSearched (Around from bound pass) search reads
        → IsPlainAnswer (graph_read reads) (Around from bound pass) (Found (as_set search.present)) }
    ensures same { (program : Program) (old new : SearchState) (reads : List (Name × State))
        → SameReached old new → HasSearched program old reads → HasSearched program new reads }
{}

/// The vertices that a search has read and that are there, in byte order.
pub fn searches_find_the_present()
    ensures rising { (search : SearchState) → IsTrue (is_rising (as_set search.present)) }
    ensures members { (program : Program) (search : SearchState) (reads : List (Name × State)) (v : Name)
        → HasSearched program search reads → is_among (as_set search.present) v ≡ is_some (graph_read reads v) }
    ensures once { (program : Program) (search : SearchState) (reads : List (Name × State))
        → HasSearched program search reads → IsOnce search.present }
{}

/// What a search for the least walk says of its program: the next visit.
pub fn path_searches_are_right()
    ensures next { (program : Program) (walk : WalkState) (reads : List (Name × State))
        → HasWalked program walk reads → next_of walk.search ≡ next_visit reads program }
    ensures same { (program : Program) (old new : WalkState) (reads : List (Name × State))
        → SameWalked old new → HasWalked program old reads → HasWalked program new reads }
{}

/// The next visit and the plain answer depend on which states were read, and not on the order of the reads.
pub fn order_of_reads_is_free()
    ensures next { (a b : List (Name × State)) (program : Program)
        → AreSameReads a b → next_visit a program ≡ next_visit b program }
    ensures answer { (a b : List (Name × State)) (program : Program) (answer : Answer) → AreSameReads a b
        → IsPlainAnswer (graph_read a) program answer → IsPlainAnswer (graph_read b) program answer }
{}

/// The tests of a certificate pass exactly if the answer is the priced answer.
pub fn certificates_are_exact()
    ensures { (graph : PlainGraph) (from to key : Name) (walk : Option (List Name)) (total : ℕ) (bounds : List Bound)
        → IsTrue (passes_tests graph key from bounds to walk total)
        ↔ IsPricedAnswer graph from to key walk total bounds }
{}

/// The priced answer from a start that is absent: no walk, and no bounds.
pub fn absent_starts_lead_nowhere()
    ensures { (graph : PlainGraph) (from to key : Name) → graph from ≡ None
        → IsPlainAnswer graph (Price from to key) (Priced None 0 []) }
{}
