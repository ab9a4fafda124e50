//! What is told of a batch that answers nothing, and its status.
ghost use Rattle.std.specs.Prelude.{◌≡◌, ◌≤◌};
ghost use Rattle.run_texts.specs.Told.{IsTold};
ghost use Rattle.batch_run.specs.Endings.{unanswered_status, unanswered_text};

use crate::batch::LONGEST_LIST;
use crate::ending::Unanswered;
use aiger_codec::{NetFault, NetKind};
use run_texts::{name_of, tell, tell_fault, tell_line_fault, tell_unread};
use sec_base::Sink;

/// The status of a batch that answers nothing: 7 for want of memory, 5 for a load that failed, and 4 for a list that is refused.
pub fn unanswered_status(unanswered: &Unanswered) -> u8
    ensures { result ≡ unanswered_status unanswered.now }
{
    match unanswered {
        Unanswered::Memory => 7,
        Unanswered::ListFailed | Unanswered::FileFailed(_, _) => 5,
        Unanswered::ListTooLong | Unanswered::ListRefused(_) => 4,
    }
}

/// Tells why a batch of a list with this name answers nothing.
pub fn tell_unanswered<E: Sink>(err: &mut E, list: &str, unanswered: &Unanswered)
    ensures told { IsTold (E.taken err.old) (E.faults err.old) (unanswered_text list.now unanswered.now) (E.taken err.new) (E.faults err.new) }
    ensures count { E.faults err.old ≤ E.faults err.new }
{
    match unanswered {
        Unanswered::Memory => tell(err, b"sec: out of memory\n"),
        Unanswered::ListFailed => tell_unread(err, list.as_bytes()),
        Unanswered::ListTooLong => {
            let fault = NetFault {
                kind: NetKind::Limit,
                at: LONGEST_LIST,
            };
            tell_fault(err, list.as_bytes(), fault)
        }
        Unanswered::ListRefused(fault) => {
            tell_line_fault(
                err,
                list.as_bytes(),
                fault.kind.name().as_bytes(),
                fault.line,
            )
        }
        Unanswered::FileFailed(names, side) => {
            tell_unread(err, name_of(names.left(), names.right(), *side).as_bytes())
        }
    }
}
