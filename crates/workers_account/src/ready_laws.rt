//! The laws that the start of a phase relies on, in one.
ghost use Rattle.workers_account.specs.ReadyLaws.{ReadyLaws};

use seen_logs::laws::{accounts_refer_within, only_begun_programs_read};
use weave_account::laws::stamps_are_begun;
use weaver_hands::laws::own_reads_were_seen;

/// The laws that the start of a phase relies on, besides those of a whole phase.
pub(crate) fn phases_start_by_their_laws()
    ensures { ReadyLaws }
{
    accounts_refer_within();
    only_begun_programs_read();
    own_reads_were_seen();
    stamps_are_begun();
}
