//! The text of a script.
ghost use Rattle.std.specs.Prelude.{◌≡◌, ◌++◌, IfOk, OnOk};
ghost use Rattle.std.specs.List.{list_any};
ghost use Rattle.weave_text.specs.Lines.{line_text};
ghost use Rattle.program_defs.specs.Works.{ops_of};
ghost use Rattle.weave_script.specs.ScriptLines.{has_joins, header_line, is_join, script_text, version_word};

mod items;
pub mod requests;
mod steps;
mod words;

use crate::print::items::print_items;
use crate::print::steps::print_steps;
use graph_ops::Op;
use program_defs::{Request, Script, Work};
use std::alloc::{AllocError, Global};
use weave_text::Text;

/// The printed text of a script, which is unique: of version 2 if it has a join. It fails only if memory runs out.
pub fn print_script(alloc: Global, script: &Script) -> Result<Vec<u8>, AllocError>
    ensures text { IfOk result (λ text. text.items ≡ script_text script.now) }
{
    let mut text = Text::new(alloc);
    let joins = has_joins(script.requests.as_slice());
    print_header(&mut text, joins, script.gates, script.shards)?;
    print_items(
        &mut text,
        script.requests.as_slice(),
        script.phases.as_slice(),
    )?;
    print_steps(&mut text, script.requests.as_slice(), &script.steps)?;
    Ok(text.into_bytes())
}

// Whether a transaction has a join.
fn has_joins(requests: &[Request]) -> bool
    ensures { result ≡ has_joins requests.now }
{
    requests.iter().any(|request| work_joins(&request.work))
}

fn work_joins(work: &Work) -> bool
    ensures { result ≡ list_any is_join (ops_of work.now) }
{
    match work {
        Work::Change(ops) => ops.as_slice().iter().any(|op| is_join(op)),
        Work::Look(_) => false,
    }
}

fn is_join(op: &Op) -> bool
    ensures { result ≡ is_join op.now }
{
    op.needs().is_some()
}

// The word of a version.
fn version_word(joins: bool) -> &'static [u8]
    ensures { result.now ≡ version_word joins }
{
    if joins { b"2" } else { b"1" }
}

fn print_header(text: &mut Text, joins: bool, gates: u32, shards: u32) -> Result<(), AllocError>
    ensures { OnOk result (text.new ≡ text.old ++ line_text (header_line joins gates shards)) }
{
    text.push(b"weaver")?;
    text.word(version_word(joins))?;
    text.number_word(u64::from(gates))?;
    text.number_word(u64::from(shards))?;
    text.end_line()?;
    Ok(())
}
