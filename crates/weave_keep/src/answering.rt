//! What `keep` has to write.
ghost use Rattle.std.specs.Prelude.{◌≡◌, ◌+◌, [], Some, Ok, IsSome};
ghost use Rattle.weave_data.specs.Limits.{most_bytes};
ghost use Rattle.weave_io.specs.Counts.{HasRisen};
ghost use Rattle.weave_io.specs.Told.{TakesAtMost};
ghost use Rattle.weave_script.specs.Limits.{IsShort};
ghost use Rattle.weave_script.specs.Scripts.{IsScript};
ghost use Rattle.std.specs.List.{list_all};
ghost use Rattle.program_defs.specs.Works.{is_change};
ghost use Rattle.program_defs.specs.declared.script.Request.{Request};
ghost use Rattle.store_journal.specs.Commits.{commit_of};
ghost use Rattle.store_journal.specs.Disk.{ComesFrom, LeavesOnly};
ghost use Rattle.store_journal.specs.Standing.{IsAtRest};
ghost use Rattle.weave_keep.specs.Keepable.{AreKeptRequests, IsFresh};
ghost use Rattle.weave_keep.specs.KeepEnds.{GoesOnByKeep, GoesOnWith, HasAdded, IsJournalUpTo, added_by, added_if_read};
ghost use Rattle.weave_keep.specs.KeptReports.{can_be_kept, commits_of_script, has_no_step};
ghost use Rattle.weave_keep.specs.Unanswered.{unkept, unrecovered};
ghost use Rattle.weave_keep.specs.Prepared.{AnswersRefusal, AnswersScriptToKeep, AnswersUnread, EndsReport, EndsWork, IsPreparedToKeep};

use crate::keeping::keep_requests;
use program_defs::{Request, Script, Work};
use std::alloc::Global;
use store_journal::{Disk, KeepFault, KeptStore, RecoverFault, images_have_the_commits};
use weave_io::{ReadFault, Source, read_all};
use weave_report::print_report;
use weave_script::{
    Cause, ScriptFault, read_script, scripts_are_small, texts_are_of_one_script, texts_are_read,
};
use weaver_top::{Status, refusal_text};

/// What is to be written, and the status once it is.
#[derive(Drop)]
pub(crate) struct Answer {
    pub(crate) status: Status,
    pub(crate) text: Vec<u8>,
}

/// Why nothing is to be written.
#[derive(Clone, Copy)]
pub(crate) enum Unanswered {
    Read,
    Memory,
    Disk,
    Foreign,
}

impl Unanswered {
    ghost use Rattle.weave_keep.specs.Unanswered.{unanswered_status};

    /// The status without an answer.
    pub(crate) fn status(self) -> Status
        ensures { result ≡ unanswered_status self }
    {
        match self {
            Unanswered::Read => Status::Read,
            Unanswered::Memory => Status::Memory,
            Unanswered::Disk => Status::Disk,
            Unanswered::Foreign => Status::Foreign,
        }
    }
}

/// Reads the input, keeps its transactions, and finds out what is to be written.
pub(crate) fn prepare_answer<S: Source, D: Disk>(
    alloc: Global,
    source: &mut S,
    disk: &mut D,
) -> Result<Answer, Unanswered>
    ensures prepared { IsPreparedToKeep (record {
      seen = D.seen disk.old;
      now = D.seen disk.new;
      images = D.images disk.new;
      Failed = HasRisen (D.faults disk.old) (D.faults disk.new);
      Same = disk.new ≡ disk.old;
    }) (S.left source.old) (S.left source.new)
        (HasRisen (S.faults source.old) (S.faults source.new)) result }
    ensures any_moment { IsSome (D.seen disk.old) → LeavesOnly D.moment D.images_since disk.old disk.new
        (ComesFrom (GoesOnByKeep (S.left source.old)) (D.images disk.old)) }
    ensures rest { TakesAtMost (S.left source.old) (S.left source.new) (most_bytes + 1) }
{
    images_have_the_commits();
    match read_all(alloc, source) {
        Ok(input) => answer_to(alloc, input.as_slice(), disk),
        Err(fault) => answer_unread(alloc, fault),
    }
}

// What is to be written if the input was not read.
fn answer_unread(alloc: Global, fault: ReadFault) -> Result<Answer, Unanswered>
    ensures { AnswersUnread fault result }
{
    match fault {
        ReadFault::TooLong => refused(alloc, 0, Cause::TooLong.text()),
        ReadFault::Read => Err(Unanswered::Read),
        ReadFault::Memory => Err(Unanswered::Memory),
    }
}

// What is to be written for an input.
fn answer_to<D: Disk>(alloc: Global, input: &[u8], disk: &mut D) -> Result<Answer, Unanswered>
    requires { IsShort input.now }
    ensures prepared { IsPreparedToKeep (record {
      seen = D.seen disk.old;
      now = D.seen disk.new;
      images = D.images disk.new;
      Failed = HasRisen (D.faults disk.old) (D.faults disk.new);
      Same = disk.new ≡ disk.old;
    }) (Some input.now) (Some []) ⊥ result }
    ensures any_moment { IsSome (D.seen disk.old) → LeavesOnly D.moment D.images_since disk.old disk.new
        (ComesFrom (GoesOnWith (HasAdded (added_by input.now))) (D.images disk.old)) }
{
    texts_are_read();
    texts_are_of_one_script();
    images_have_the_commits();
    match read_script(alloc, input) {
        Ok(script) => answer_for(alloc, &script, disk),
        Err(ScriptFault::Refused { line, cause }) => refused(alloc, line, cause.text()),
        Err(ScriptFault::Memory) => Err(Unanswered::Memory),
    }
}

// What is to be written for a script.
fn answer_for<D: Disk>(alloc: Global, script: &Script, disk: &mut D) -> Result<Answer, Unanswered>
    requires { IsScript script.now }
    ensures answered { AnswersScriptToKeep (record {
      seen = D.seen disk.old;
      now = D.seen disk.new;
      images = D.images disk.new;
      Failed = HasRisen (D.faults disk.old) (D.faults disk.new);
      Same = disk.new ≡ disk.old;
    }) script.now result }
    ensures any_moment { IsSome (D.seen disk.old) → LeavesOnly D.moment D.images_since disk.old disk.new
        (ComesFrom (GoesOnWith (HasAdded (λ recovered. added_if_read recovered (Ok script.now)))) (D.images disk.old)) }
{
    images_have_the_commits();
    scripts_are_small();
    if can_be_kept(script) {
        return report_kept(alloc, script, disk);
    }
    refused(alloc, 0, b"unkept")
}

// Recovers the store, keeps the script's transactions, and prints their report.
fn report_kept<D: Disk>(alloc: Global, script: &Script, disk: &mut D) -> Result<Answer, Unanswered>
    requires { AreKeptRequests script.now.requests }
    ensures ends { EndsWork (record {
      seen = D.seen disk.old;
      now = D.seen disk.new;
      images = D.images disk.new;
      Failed = HasRisen (D.faults disk.old) (D.faults disk.new);
      Same = disk.new ≡ disk.old;
    }) script.now result }
    ensures any_moment { IsSome (D.seen disk.old) → LeavesOnly D.moment D.images_since disk.old disk.new
        (ComesFrom (GoesOnWith (HasAdded (λ recovered. commits_of_script recovered script.now))) (D.images disk.old)) }
{
    images_have_the_commits();
    match KeptStore::recover(alloc, disk) {
        Ok(mut store) => report_from(alloc, script, &mut store, disk),
        Err(fault) => Err(unrecovered(fault)),
    }
}

// Keeps the script's transactions in a store that was recovered, and prints their report.
fn report_from<D: Disk>(
    alloc: Global,
    script: &Script,
    store: &mut KeptStore,
    disk: &mut D,
) -> Result<Answer, Unanswered>
    requires kept { AreKeptRequests script.now.requests }
    requires fresh { IsFresh store.old }
    requires at_rest { IsAtRest commit_of store.old.commits store.old.place (D.seen disk.old) (D.images disk.old) }
    ensures ends { EndsReport (record {
      seen = D.seen disk.old;
      now = D.seen disk.new;
      images = D.images disk.new;
      Failed = HasRisen (D.faults disk.old) (D.faults disk.new);
      Same = disk.new ≡ disk.old;
    }) script.now store.old.commits result }
    ensures any_moment { IsSome (D.seen disk.old) → LeavesOnly D.moment D.images_since disk.old disk.new
        (IsJournalUpTo store.old.commits (commits_of_script store.old.commits script.now)) }
{
    let report = match keep_requests(alloc, store, disk, script.requests.as_slice()) {
        Ok(report) => report,
        Err(fault) => return Err(unkept(fault)),
    };
    images_have_the_commits();
    match print_report(alloc, script, &report) {
        Ok(text) => Ok(Answer {
            status: Status::Done,
            text,
        }),
        Err(_) => Err(Unanswered::Memory),
    }
}

// Why there is no answer, if the journal was not recovered.
fn unrecovered(fault: RecoverFault) -> Unanswered
    ensures { result ≡ unrecovered fault }
{
    match fault {
        RecoverFault::Disk => Unanswered::Disk,
        RecoverFault::Foreign { .. } => Unanswered::Foreign,
        RecoverFault::Memory => Unanswered::Memory,
    }
}

// Or if a transaction was not kept. The store isn't halted before one is.
fn unkept(fault: KeepFault) -> Unanswered
    ensures { result ≡ unkept fault }
{
    match fault {
        KeepFault::Disk => Unanswered::Disk,
        KeepFault::Halted | KeepFault::Memory => Unanswered::Memory,
    }
}

// The line for an input that is refused.
fn refused(alloc: Global, line: u32, cause: &[u8]) -> Result<Answer, Unanswered>
    ensures { AnswersRefusal line cause.now result }
{
    match refusal_text(alloc, line, cause) {
        Ok(text) => Ok(Answer {
            status: Status::Refused,
            text,
        }),
        Err(_) => Err(Unanswered::Memory),
    }
}

// Whether the script has one gatekeeper, no program and no step.
fn can_be_kept(script: &Script) -> bool
    ensures { result ≡ can_be_kept script.now }
{
    let are_changes = are_changes(script.requests.as_slice());
    let has_no_step = has_no_step(script);
    script.gates == 1 && are_changes && has_no_step
}

fn has_no_step(script: &Script) -> bool
    ensures { result ≡ has_no_step script.now.steps }
{
    match &script.steps {
        Some(steps) => steps.as_slice().is_empty(),
        None => true,
    }
}

fn are_changes(requests: &[Request]) -> bool
    ensures { result ≡ list_all (λ (request : Request). is_change request.work) requests.now }
{
    requests.iter().all(|request| is_change(request))
}

fn is_change(request: &Request) -> bool
    ensures { result ≡ is_change request.now.work }
{
    matches!(request.work, Work::Change(_))
}
