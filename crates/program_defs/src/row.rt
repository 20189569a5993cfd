//! The passing edges of a numbered vertex.
use std::alloc::{AllocError, Global};
use std::marker::Model;

/// The passing edges of a numbered vertex: the number of the target, and the price.
#[derive(Drop)]
pub struct Row {
    edges: Vec<(usize, u32)>,
}

impl Model for Row {
    ghost use Rattle.std.specs.Prelude.{ℕ, List};

    ghost Value = { List (ℕ × ℕ) };

    ghost view = { λ s. s.edges.items };
}

impl Row {
    ghost use Rattle.std.specs.Prelude.{◌≡◌, ◌++◌, ◌∷◌, [], OnOk};

    /// No edges. It takes no memory.
    pub fn new(alloc: Global) -> Row
        ensures { result ≡ [] }
    {
        Row {
            edges: Vec::new(alloc),
        }
    }

    /// Adds an edge at the end.
    pub fn push(&mut self, target: usize, price: u32) -> Result<(), AllocError>
        ensures { OnOk result (self.new ≡ self.old ++ (target, price) ∷ []) }
    {
        self.edges.push((target, price))?;
        Ok(())
    }

    /// The edges.
    pub fn as_slice(&self) -> &[(usize, u32)]
        ensures { result.now ≡ self.now }
    {
        self.edges.as_slice()
    }
}
