//! What finds the names of a script, and counts them.
ghost use Rattle.std.specs.Prelude.{◌≡◌, ◌++◌, ◌∷◌, ◌<◌, ◌^◌, [], List, OnOk};
ghost use Rattle.weave_data.specs.declared.name.Name.{Name};
ghost use Rattle.graph_ops.specs.Mentions.{with_name};
ghost use Rattle.graph_ops.specs.declared.op.Op.{Op};
ghost use Rattle.program_defs.specs.declared.script.Request.{Request};
ghost use Rattle.program_defs.specs.declared.script.Work.TheVariants.{Change, Look};
ghost use Rattle.weave_script.specs.declared.read.partial_script.Opening.{Opening};
ghost use Rattle.weave_script.specs.Indexed.{IsSetOf, IsIndexOf, IsNewRequest};
ghost use Rattle.weave_script.specs.Limits.{with_names, vertices_of_op, vertices_of_program};
ghost use Rattle.weave_script.specs.Requests.{request_of};

use graph_ops::Op;
use program_defs::Program;
use std::alloc::AllocError;
use std::collections::HashMap;
use weave_data::Name;

/// The places of the requests, the names of vertices, and how many programs and `get` there are.
#[derive(Drop)]
pub(crate) struct Index {
    pub(crate) places: HashMap<Name, u32>,
    pub(crate) vertices: HashMap<Name, ()>,
    pub(crate) programs: usize,
    pub(crate) gets: usize,
}

impl Index {
    /// Adds a transaction without operations.
    pub(crate) fn add_transaction(&mut self, name: Name, place: u32) -> Result<(), AllocError>
        ensures { OnOk result ((requests : List Request) (opening : Opening) → IsIndexOf self.old requests
            → IsNewRequest name place requests → opening.name ≡ name
            → IsIndexOf self.new (requests ++ request_of opening (Change []) ∷ [])) }
    {
        self.places.insert(name, place)?;
        Ok(())
    }

    /// Adds a program.
    pub(crate) fn add_program(
        &mut self,
        name: Name,
        place: u32,
        program: &Program,
    ) -> Result<(), AllocError>
        requires { self.old.programs < 2 ^ 32 }
        ensures { OnOk result ((requests : List Request) (opening : Opening) → IsIndexOf self.old requests
            → IsNewRequest name place requests → opening.name ≡ name
            → IsIndexOf self.new (requests ++ request_of opening (Look program.now) ∷ [])) }
    {
        self.places.insert(name, place)?;
        add_vertices_of_program(&mut self.vertices, program)?;
        self.programs += 1;
        Ok(())
    }

    /// Adds an operation to the last transaction.
    pub(crate) fn add_op(&mut self, op: &Op) -> Result<(), AllocError>
        requires { self.old.gets < 2 ^ 32 }
        ensures { OnOk result ((requests : List Request) (opening : Opening) (ops : List Op)
            → IsIndexOf self.old (requests ++ request_of opening (Change ops) ∷ [])
            → IsIndexOf self.new (requests ++ request_of opening (Change (ops ++ op.now ∷ [])) ∷ [])) }
    {
        add_vertices_of_op(&mut self.vertices, op)?;
        if op.is_get() {
            self.gets += 1;
        }
        Ok(())
    }
}

/// Adds the names in an operation that are of vertices.
fn add_vertices_of_op(vertices: &mut HashMap<Name, ()>, op: &Op) -> Result<(), AllocError>
    ensures { OnOk result ((names : List Name) → IsSetOf vertices.old.entries names
        → IsSetOf vertices.new.entries (with_names names (vertices_of_op op.now))) }
{
    add_vertex(vertices, op.vertex())?;
    if let Some(target) = op.target() {
        add_vertex(vertices, target)?;
    }
    Ok(())
}

/// Adds the names in a program that are of vertices.
fn add_vertices_of_program(
    vertices: &mut HashMap<Name, ()>,
    program: &Program,
) -> Result<(), AllocError>
    ensures { OnOk result ((names : List Name) → IsSetOf vertices.old.entries names
        → IsSetOf vertices.new.entries (with_names names (vertices_of_program program.now))) }
{
    match *program {
        Program::Show { v } => add_vertex(vertices, v),
        Program::Around { from, .. } => add_vertex(vertices, from),
        Program::Reach { from, to, .. }
        | Program::Path { from, to, .. }
        | Program::Price { from, to, .. } => add_two(vertices, from, to),
    }
}

fn add_two(vertices: &mut HashMap<Name, ()>, from: Name, to: Name) -> Result<(), AllocError>
    ensures { OnOk result ((names : List Name) → IsSetOf vertices.old.entries names
        → IsSetOf vertices.new.entries (with_name to (with_name from names))) }
{
    add_vertex(vertices, from)?;
    add_vertex(vertices, to)
}

fn add_vertex(vertices: &mut HashMap<Name, ()>, name: Name) -> Result<(), AllocError>
    ensures { OnOk result ((names : List Name) → IsSetOf vertices.old.entries names
        → IsSetOf vertices.new.entries (with_name name names)) }
{
    if !vertices.contains_key(&name) {
        vertices.insert(name, ())?;
    }
    Ok(())
}
