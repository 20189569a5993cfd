//! The requests of a script by their names.
ghost use Rattle.std.specs.Prelude.{◌≡◌, ◌<◌, ◌^◌, ℕ, List, length, option_copied, IfOk, OnOk};
ghost use Rattle.weave_data.specs.Pairs.{at_key};
ghost use Rattle.std.specs.List.{AllByRecursion};
ghost use Rattle.program_defs.specs.Works.{ops_of};
ghost use Rattle.weave_report.specs.ReadAnswers.{GivesExactly};
ghost use Rattle.weave_report.specs.ReadingReplies.{any_named, get_numbers, kind_named, ops_of_request, program_named, look_of_work, request_from, request_named};
ghost use Rattle.report_rules.specs.ReportOf.{numbers_of_gets};
ghost use Rattle.weave_report.specs.TextOf.{IsName, IsTypedScript, HasDistinctNames, request_names};
ghost use Rattle.report_rules.specs.Lookups.{is_program, request_at};

use crate::fault::{LineFault, ReportCause};
use graph_ops::{Name, Op};
use program_defs::{Program, Request, Script, Work};
use std::alloc::{AllocError, Global};
use std::collections::HashMap;
use std::marker::Model;
use weave_data::Items;

/// A script whose requests are found by their names, seen by contracts as the script.
#[derive(Drop)]
pub(crate) struct Named<'a> {
    script: &'a Script,
    places: HashMap<Name, u32>,
}

impl<'a> Model for Named<'a> {
    ghost use Rattle.program_defs.specs.declared.script.Script.{Script};

    ghost Value = { Script };

    ghost use Rattle.weave_report.specs.Named.{IsFound};

    ghost view = { λ named. named.script.now };

    ghost invariant = { IsFound };
}

impl<'a> Named<'a> {
    /// The script with its requests by name. It fails only if memory runs out.
    pub(crate) fn new(alloc: Global, script: &'a Script) -> Result<Named<'a>, AllocError>
        requires { HasDistinctNames script.now }
        ensures script { IfOk result (λ named. named ≡ script.now) }
        ensures typed { OnOk result (IsTypedScript script.now) }
    {
        let _gates = script.gates;
        let places = places(alloc, script.requests.as_slice())?;
        Ok(Named { script, places })
    }

    /// The number of gatekeepers.
    pub(crate) fn gates(&self) -> u32
        ensures { result ≡ self.now.gates }
    {
        self.script.gates
    }

    /// The number of the request of a name.
    pub(crate) fn place(&self, name: Name) -> Option<u32>
        ensures { result ≡ request_named self.now name }
    {
        self.places.get(&name).copied()
    }

    /// Whether a request is a program.
    pub(crate) fn is_program(&self, place: u32) -> bool
        ensures { result ≡ is_program self.now place }
    {
        match self.request(place) {
            Some(request) => matches!(request.work, Work::Look(_)),
            None => false,
        }
    }

    /// The operations of a transaction; a program and a request that isn't there have none.
    pub(crate) fn ops(&self, place: u32) -> &[Op]
        ensures ops { result.now ≡ ops_of_request self.now place }
        ensures few { length result.now < 2 ^ 32 }
    {
        let _ = &self.script;
        self.found_ops(place)
    }

    fn found_ops(&self, place: u32) -> &[Op]
        ensures { result.now ≡ ops_of_request self.now place }
    {
        match self.request(place) {
            Some(request) => ops_of(&request.work),
            None => &[],
        }
    }

    /// The program of a name, with its request's number.
    pub(crate) fn program(&self, name: Name) -> Option<(u32, Program)>
        ensures { result ≡ program_named self.now name }
    {
        let place = self.place(name)?;
        match self.request(place) {
            Some(request) => program_of(&request.work).map(|program| (place, program)),
            None => None,
        }
    }

    fn request(&self, place: u32) -> Option<&Request>
        ensures { option_copied result ≡ request_at self.now place }
    {
        self.script.requests.as_slice().get(place as usize)
    }
}

// For each name the number of the first request that has it.
fn places(alloc: Global, requests: &[Request]) -> Result<HashMap<Name, u32>, AllocError>
    requires { length requests.now < 2 ^ 32 }
    ensures places { IfOk result (λ places. (name : List ℕ)
        → at_key name places.entries ≡ request_from 0 name requests.now) }
    ensures names { OnOk result (AllByRecursion IsName (request_names requests.now)) }
{
    let mut places = HashMap::new(alloc);
    let mut place = requests.len();
    while place > 0 {
        place -= 1;
        let name = checked_name(&requests[place]);
        places.insert(name, place as u32)?;
    }
    Ok(places)
}

fn ops_of(work: &Work) -> &[Op]
    ensures { result.now ≡ ops_of work.now }
{
    match work {
        Work::Change(ops) => ops.as_slice(),
        Work::Look(_) => &[],
    }
}

fn program_of(work: &Work) -> Option<Program>
    ensures { result ≡ look_of_work work.now }
{
    match work {
        Work::Change(_) => None,
        Work::Look(program) => Some(*program),
    }
}

/// The request of a name.
pub(crate) fn any_named(script: &Named, name: Name) -> Result<u32, LineFault>
    ensures { GivesExactly result (any_named script.now name) }
{
    match script.place(name) {
        Some(place) => Ok(place),
        None => Err(LineFault::Refused(ReportCause::Request)),
    }
}

/// The program or transaction of a name, as is asked.
pub(crate) fn kind_named(program: bool, script: &Named, name: Name) -> Result<u32, LineFault>
    ensures { GivesExactly result (kind_named program script.now name) }
{
    match script.place(name) {
        Some(place) if script.is_program(place) == program => Ok(place),
        _ => Err(LineFault::Refused(ReportCause::Request)),
    }
}

/// The numbers of a transaction's `get`s.
pub(crate) fn gets_of(alloc: Global, script: &Named, place: u32) -> Result<Items<u32>, AllocError>
    ensures { IfOk result (λ gets. gets ≡ get_numbers script.now place) }
{
    numbers_of_gets(alloc, script.ops(place))
}

fn numbers_of_gets(alloc: Global, ops: &[Op]) -> Result<Items<u32>, AllocError>
    requires { length ops.now < 2 ^ 32 }
    ensures { IfOk result (λ gets. gets ≡ numbers_of_gets 1 ops.now) }
{
    let mut gets = Items::new(alloc);
    for (index, op) in ops.iter().enumerate() {
        if op.is_get() {
            gets.push(index as u32 + 1)?;
        }
    }
    Ok(gets)
}

// The name of a request.
fn checked_name(request: &Request) -> Name
    ensures name { result ≡ request.now.name }
    ensures is_name { IsName request.now.name }
{
    let name = request.name;
    let _bytes = name.bytes();
    name
}
