//! What a node program promises to those who feed it.
ghost use Rattle.std.specs.Prelude.{◌≡◌, ◌≤◌, ◌∷◌, ℕ, List, Option, Some, IsSome, IfSome, IfOk, OnOk, length};
ghost use Rattle.weave_data.specs.declared.name.Name.{Name};
ghost use Rattle.weave_data.specs.Limits.{most_edges};
ghost use Rattle.graph_ops.specs.Operations.{State};
ghost use Rattle.program_defs.specs.declared.program.Program.{Program};
ghost use Rattle.program_defs.specs.PlainAnswer.{IsPlainAnswer};
ghost use Rattle.program_defs.specs.Visits.{graph_read, next_visit};

use graph_ops::Record;
use program_defs::Answer;
use std::alloc::{AllocError, Global};
use weave_data::Name;

/// A node program under way (Weaver, PVLDB 9(11) 2016): it asks for one vertex after the other.
///
/// A new one has read nothing. Each `see` adds one read; `next_vertex` and `outcome` depend on the reads alone.
pub trait NodeProgram {
    /// Which program it is.
    ghost program: { Self → Program };

    /// It has read these states, the newest first, and no others.
    ghost has_read: { Self → List (Name × State) → Type 0 };

    /// The vertex that it reads next.
    ghost next: { Self → Option Name };

    /// The number of reads for which there is room.
    ghost spare: { Self → ℕ };

    /// The vertex to be read next, or `None` if the list of visits is done.
    fn next_vertex(&self) -> Option<Name>
        ensures next { result ≡ next self.now }
        ensures visit { (reads : List (Name × State)) → has_read self.now reads
            → result ≡ next_visit reads (program self.now) };

    /// Takes the room for one read. Nothing else changes, whether it succeeds or is out of memory.
    fn ready(&mut self) -> Result<(), AllocError>
        ensures room { OnOk result (1 ≤ spare self.new) }
        ensures no_less { spare self.old ≤ spare self.new }
        ensures program { program self.new ≡ program self.old }
        ensures next { next self.new ≡ next self.old }
        ensures reads { (reads : List (Name × State)) → has_read self.old reads → has_read self.new reads };

    /// Reads the next vertex in this state; a record has at most 1,000 edges. It takes no memory.
    fn see(&mut self, state: Option<Record>)
        requires next { IsSome (next self.old) }
        requires room { 1 ≤ spare self.old }
        requires edges { IfSome state (λ found. length found.edges ≤ most_edges) }
        ensures program { program self.new ≡ program self.old }
        ensures reads { (v : Name) (reads : List (Name × State)) → next self.old ≡ Some v
            → has_read self.old reads → has_read self.new ((v, state) ∷ reads) };

    /// The plain answer over the states read. The one error is out of memory.
    fn outcome(&self, alloc: Global) -> Result<Answer, AllocError>
        ensures { IfOk result (λ answer. (reads : List (Name × State)) → has_read self.now reads
            → IsPlainAnswer (graph_read reads) (program self.now) answer) };
}
