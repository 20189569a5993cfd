//! The vertices that a program visits.
ghost use Rattle.std.specs.Prelude.{◌≡◌, ◌||◌, [], OnOk};
ghost use Rattle.weave_data.specs.Names.{same_name};
ghost use Rattle.weave_data.specs.declared.name.Name.{Name};
ghost use Rattle.program_defs.specs.Searching.{has_name};

use std::alloc::{AllocError, Global};
use std::collections::HashSet;
use std::marker::Model;
use weave_data::Name;

/// The vertices that a program visits on a graph, there or not. Contracts see their names in some order.
#[derive(Drop)]
pub struct Visits {
    names: HashSet<Name>,
}

impl Model for Visits {
    ghost use Rattle.std.specs.Prelude.{List};
    ghost use Rattle.weave_data.specs.declared.name.Name.{Name};

    ghost Value = { List Name };

    ghost view = { λ v. v.names.keys };
}

impl Visits {
    /// No vertices. It takes no memory.
    pub(crate) fn new(alloc: Global) -> Visits
        ensures { result ≡ [] }
    {
        Visits {
            names: HashSet::new(alloc),
        }
    }

    /// Whether the program visits the vertex. It takes about the same time however many there are.
    pub fn has(&self, v: Name) -> bool
        ensures { result ≡ has_name self.now v }
    {
        self.names.contains(&v)
    }

    /// Puts in a vertex.
    pub(crate) fn put(&mut self, v: Name) -> Result<(), AllocError>
        ensures { OnOk result ((w : Name) → has_name self.new w ≡ same_name v w || has_name self.old w) }
    {
        self.names.insert(v)?;
        Ok(())
    }
}
