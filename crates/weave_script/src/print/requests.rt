//! The lines of a request.
ghost use Rattle.std.specs.Prelude.{◌≡◌, ◌++◌, ◌∷◌, [], map, OnOk};
ghost use Rattle.std.specs.Fmt.{decimal};
ghost use Rattle.std.specs.List.{AllByRecursion};
ghost use Rattle.weave_text.specs.Lines.{line_text, lines_text, spaced_words};
ghost use Rattle.weave_script.specs.ScriptLines.{filter_words, op_line, opening_line, program_line, program_words, request_lines};
ghost use Rattle.weave_script.specs.Scripts.{IsOperation};

use crate::print::words::print_names;
use graph_ops::Op;
use program_defs::{Filter, Program, Request, Work};
use std::alloc::AllocError;
use weave_text::Text;

/// A transaction's lines, or a program's one line.
pub fn print_request(text: &mut Text, request: &Request) -> Result<(), AllocError>
    ensures { OnOk result (text.new ≡ text.old ++ lines_text (request_lines request.now)) }
{
    match &request.work {
        Work::Change(ops) => {
            print_opening(text, request)?;
            print_ops(text, ops.as_slice())?;
            text.push(b"end\n")?;
            Ok(())
        }
        Work::Look(program) => {
            print_program_line(text, request, program)?;
            Ok(())
        }
    }
}

fn print_opening(text: &mut Text, request: &Request) -> Result<(), AllocError>
    ensures { OnOk result (text.new
        ≡ text.old ++ line_text (opening_line request.now.name request.now.session request.now.gate)) }
{
    text.push(b"tx")?;
    print_place(text, request)?;
    text.end_line()?;
    Ok(())
}

fn print_program_line(
    text: &mut Text,
    request: &Request,
    program: &Program,
) -> Result<(), AllocError>
    ensures { OnOk result (text.new
        ≡ text.old ++ line_text (program_line request.now.name request.now.session request.now.gate program.now)) }
{
    text.push(b"prog")?;
    print_place(text, request)?;
    print_program(text, program)?;
    text.end_line()?;
    Ok(())
}

// A request's name, session and gatekeeper, with a space before each.
fn print_place(text: &mut Text, request: &Request) -> Result<(), AllocError>
    ensures { OnOk result (text.new
        ≡ text.old ++ spaced_words (request.now.name ∷ decimal request.now.session ∷ decimal request.now.gate ∷ [])) }
{
    text.word(request.name.bytes())?;
    text.number_word(u64::from(request.session))?;
    text.number_word(u64::from(request.gate))?;
    Ok(())
}

/// The lines of operations, one for each. Only names have a text, as the types say.
pub fn print_ops(text: &mut Text, ops: &[Op]) -> Result<(), AllocError>
    ensures text { OnOk result (text.new ≡ text.old ++ lines_text (map op_line ops.now)) }
    ensures typed { OnOk result (AllByRecursion IsOperation ops.now) }
{
    for op in ops {
        print_op(text, op)?;
    }
    Ok(())
}

fn print_op(text: &mut Text, op: &Op) -> Result<(), AllocError>
    ensures text { OnOk result (text.new ≡ text.old ++ line_text (op_line op.now)) }
    ensures typed { OnOk result (IsOperation op.now) }
{
    let fields = op.fields();
    print_names(text, op.word(), fields.as_slice())?;
    Ok(())
}

// A program's words, with a space before each.
fn print_program(text: &mut Text, program: &Program) -> Result<(), AllocError>
    ensures { OnOk result (text.new ≡ text.old ++ spaced_words (program_words program.now)) }
{
    match program {
        Program::Show { v } => {
            text.word(b"show")?;
            text.word(v.bytes())?;
            Ok(())
        }
        Program::Reach { from, to, pass } => {
            text.word(b"reach")?;
            text.word(from.bytes())?;
            text.word(to.bytes())?;
            print_filter(text, pass)?;
            Ok(())
        }
        Program::Around { from, bound, pass } => {
            text.word(b"around")?;
            text.word(from.bytes())?;
            text.number_word(u64::from(*bound))?;
            print_filter(text, pass)?;
            Ok(())
        }
        Program::Path {
            from,
            to,
            bound,
            pass,
        } => {
            text.word(b"path")?;
            text.word(from.bytes())?;
            text.word(to.bytes())?;
            text.number_word(u64::from(*bound))?;
            print_filter(text, pass)?;
            Ok(())
        }
        Program::Price { from, to, key } => {
            text.word(b"price")?;
            text.word(from.bytes())?;
            text.word(to.bytes())?;
            text.word(key.bytes())?;
            Ok(())
        }
    }
}

// A filter's words, with a space before each.
fn print_filter(text: &mut Text, pass: &Option<Filter>) -> Result<(), AllocError>
    ensures { OnOk result (text.new ≡ text.old ++ spaced_words (filter_words pass.now)) }
{
    match pass {
        None => Ok(()),
        Some(filter) => {
            text.word(b"where")?;
            text.word(filter.key.bytes())?;
            text.word(filter.value.bytes())?;
            Ok(())
        }
    }
}
