//! What holds of every valid script.
ghost use Rattle.std.specs.Prelude.{◌≡◌, ◌≤◌, ◌<◌, Bool, IsTrue, length, Ok, Err};
ghost use Rattle.std.specs.List.{AllByRecursion};
ghost use Rattle.weave_data.specs.Limits.{most_ops, most_requests};
ghost use Rattle.graph_ops.specs.declared.op.Op.{Op};
ghost use Rattle.program_defs.specs.Limits.{IsWithinLimits};
ghost use Rattle.program_defs.specs.Works.{ops_of};
ghost use Rattle.program_defs.specs.declared.script.Script.{Script};
ghost use Rattle.weave_text.specs.Cutting.{is_clean_line, lines_of};
ghost use Rattle.weave_text.specs.Lines.{Bytes, Line, line_text};
ghost use Rattle.weave_script.specs.CheckText.{IsHead};
ghost use Rattle.weave_script.specs.Faults.{IsFirstScriptFault};
ghost use Rattle.weave_script.specs.Ops.{op_in_line};
ghost use Rattle.weave_script.specs.ReadText.{Fault, Head, head_of_text, read_text};
ghost use Rattle.weave_script.specs.Reading.{start};
ghost use Rattle.weave_script.specs.ScriptLines.{IsTextOf, op_line, script_text};
ghost use Rattle.weave_script.specs.Scripts.{IsOfVersion, IsOperation, IsScript};
ghost use Rattle.weave_script.specs.Limits.{IsLong, IsShort};

use crate::fault::Cause;
use weave_text::{clean_lines_come_back, numbers_come_back, words_are_clean};

/// What is read is a text of that script, and every text of a script that isn't too long is read as it.
/// What is refused and isn't too long is a text of no script.
pub fn texts_are_read()
    ensures read { (bytes : Bytes) (script : Script) → read_text bytes ≡ Ok script → IsTextOf bytes script }
    ensures short { (bytes : Bytes) (script : Script) → read_text bytes ≡ Ok script → IsShort bytes }
    ensures every_text { (bytes : Bytes) (script : Script) → IsShort bytes
        → IsTextOf bytes script → read_text bytes ≡ Ok script }
    ensures refused { (bytes : Bytes) (fault : Fault) (script : Script) → IsShort bytes
        → read_text bytes ≡ Err fault → ¬ IsTextOf bytes script }
{
    numbers_come_back();
}

/// The fault that is reported of a text that isn't too long is its first one: the lines before it are accepted, and
/// after them it is refused for that cause. It is reported whenever there is one. A text that is too long is refused
/// as a whole.
pub fn faults_are_first()
    ensures first { (bytes : Bytes) (fault : Fault) → IsShort bytes
        → read_text bytes ≡ Err fault → IsFirstScriptFault 1 start (lines_of bytes) fault }
    ensures reported { (bytes : Bytes) (fault : Fault) → IsShort bytes
        → IsFirstScriptFault 1 start (lines_of bytes) fault → read_text bytes ≡ Err fault }
    ensures too_long { (bytes : Bytes) → IsLong bytes
        → read_text bytes ≡ Err (record { line = 0; cause = Cause.TooLong }) }
{}

/// No text is of two scripts, and what has a text is a script whose numbers, names and counts are in their ranges.
pub fn texts_are_of_one_script()
    ensures one { (bytes : Bytes) (a b : Script) → IsTextOf bytes a → IsTextOf bytes b → a ≡ b }
    ensures script { (bytes : Bytes) (script : Script) → IsTextOf bytes script → IsScript script }
{
    numbers_come_back();
}

/// A script's printed text is one of its texts, and is read as it if it isn't too long.
pub fn printed_scripts_come_back()
    ensures text { (script : Script) → IsScript script → IsTextOf (script_text script) script }
    ensures read { (script : Script) → IsScript script
        → IsShort (script_text script) → read_text (script_text script) ≡ Ok script }
{
    clean_lines_come_back();
    words_are_clean();
    numbers_come_back();
}

/// The lines before a report that follows a script are those of the script.
pub fn heads_are_texts()
    ensures { (bytes : Bytes) (head : Head) → head_of_text bytes ≡ Ok head → IsHead bytes head.script head.left }
{
    numbers_come_back();
}

/// A script has few requests, and its transactions few operations: it is within the limits that laws on runs ask for.
pub fn scripts_are_small()
    ensures requests { (script : Script) → IsScript script → length script.requests ≤ most_requests }
    ensures operations { (script : Script) → IsScript script
        → AllByRecursion (λ request. length (ops_of request.work) ≤ most_ops) script.requests }
    ensures limits { (script : Script) → IsScript script → IsWithinLimits script }
{}

/// An operation is read in a version from its one line alone, and that line is read as it, in a version that has it.
/// The lines of operations have clean words.
pub fn operations_come_back()
    ensures read { (joins : Bool) (op : Op) → IsOperation op → IsOfVersion joins op
        → op_in_line joins (op_line op) ≡ Ok op }
    ensures names { (joins : Bool) (line : Line) (op : Op) → op_in_line joins line ≡ Ok op → IsOperation op }
    ensures version { (joins : Bool) (line : Line) (op : Op) → op_in_line joins line ≡ Ok op → IsOfVersion joins op }
    ensures line { (joins : Bool) (line : Line) (op : Op) → op_in_line joins line ≡ Ok op → line ≡ op_line op }
    ensures clean { (op : Op) → IsOperation op → IsTrue (is_clean_line (op_line op)) }
    ensures short { (op : Op) → IsOperation op → length (line_text (op_line op)) ≤ 139 }
{
    words_are_clean();
}
