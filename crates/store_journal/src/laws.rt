//! What holds of the bytes of a journal, as contracts without a body.
ghost use Rattle.std.specs.Prelude.{◌≡◌, [], List, Option, None, Some};
ghost use Rattle.weave_text.specs.Lines.{Bytes};
ghost use Rattle.store_journal.specs.Commits.{commit_of};
ghost use Rattle.store_journal.specs.Journal.{IsForeign};
ghost use Rattle.store_journal.specs.Payloads.{Has64Bits, Says, commit_said};
ghost use Rattle.store_journal.specs.Standing.{HasOrHasOneMore, IsJournal};
ghost use Rattle.store_journal.specs.declared.kept_commit.Commit.{Commit};

use weave_script::operations_come_back;
use weave_text::clean_lines_come_back;

/// A payload is read as the commit that it says, and it says no other. One that says none isn't read.
pub fn payloads_say_commits()
    ensures said { (payload : Bytes) (commit : Commit) → commit_said payload ≡ Some commit → Says payload commit }
    ensures read { (payload : Bytes) (commit : Commit) → Says payload commit → Has64Bits commit.stamp
        → commit_said payload ≡ Some commit }
{
    operations_come_back();
    clean_lines_come_back();
}

/// An image of a journal has its commits, or these and the pending one, and it is never foreign. The empty file is one.
pub fn images_have_the_commits()
    ensures commits { (commits : List Commit) (pending : Option Commit) (file : Bytes)
        → IsJournal commit_of commits pending file → HasOrHasOneMore commit_of commits pending file }
    ensures never_foreign { (commits : List Commit) (pending : Option Commit) (file : Bytes)
        → IsJournal commit_of commits pending file → ¬ IsForeign commit_of file }
    ensures empty { IsJournal commit_of [] None [] }
{}
