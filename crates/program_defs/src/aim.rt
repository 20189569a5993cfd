//! What a program searches for.
ghost use Rattle.std.specs.Prelude.{◌≡◌, Some};
ghost use Rattle.weave_data.specs.declared.name.Name.{Name};
ghost use Rattle.program_defs.specs.declared.program.Program.TheVariants.{Reach, Around, Path, Price};
ghost use Rattle.program_defs.specs.Searching.{aim_of};

use crate::passing::Passing;
use crate::program::Filter;
use weave_data::Name;

/// What a program searches for: the vertices that walks from the start lead to.
#[derive(Clone, Copy)]
pub struct Aim {
    pub from: Name,
    /// The search ends once it has read this one.
    pub target: Option<Name>,
    /// The most edges of a walk.
    pub bound: Option<u32>,
    /// Which edges pass.
    pub pass: Passing,
}

impl Aim {
    /// The aim of `reach`.
    pub fn reach(from: Name, to: Name, pass: Option<Filter>) -> Aim
        ensures { aim_of (Reach from to pass) ≡ Some result }
    {
        Aim {
            from,
            target: Some(to),
            bound: None,
            pass: Passing::of(pass),
        }
    }

    /// The aim of `around`.
    pub fn around(from: Name, bound: u32, pass: Option<Filter>) -> Aim
        ensures { aim_of (Around from bound pass) ≡ Some result }
    {
        Aim {
            from,
            target: None,
            bound: Some(bound),
            pass: Passing::of(pass),
        }
    }

    /// The aim of `path`.
    pub fn path(from: Name, to: Name, bound: u32, pass: Option<Filter>) -> Aim
        ensures { aim_of (Path from to bound pass) ≡ Some result }
    {
        Aim {
            from,
            target: Some(to),
            bound: Some(bound),
            pass: Passing::of(pass),
        }
    }

    /// The aim of `price`: whatever its target is, the search ends only when it has read all that walks lead to.
    pub fn price(from: Name, key: Name) -> Aim
        ensures { (to : Name) → aim_of (Price from to key) ≡ Some result }
    {
        Aim {
            from,
            target: None,
            bound: None,
            pass: Passing::Priced(key),
        }
    }
}
