//! What is told of a run that answers nothing, and its status.
ghost use Rattle.std.specs.Prelude.{◌≡◌, ◌≤◌};
ghost use Rattle.run_texts.specs.Told.{IsTold};
ghost use Rattle.sec_cli.specs.Texts.{trace_fault_text, name_of_cert_kind, cert_fault_text};
ghost use Rattle.sec_cli.specs.Reports.{refusal_status, refusal_text};

use crate::ending::Refusal;
use crate::third::LONGEST_THIRD;
use aiger_codec::{NetFault, NetKind};
use batch_run::{tell_unanswered, unanswered_status};
use corr_certificate::{CertFault, CertKind};
use run_texts::{tell, tell_fault, tell_line_fault, tell_unpaired, tell_unread, unpaired_status};
use sec_base::Sink;
use trace_witness::TraceFault;

// Tells the first fault of a trace.
fn tell_trace_fault<E: Sink>(err: &mut E, name: &[u8], fault: TraceFault)
    ensures told { IsTold (E.taken err.old) (E.faults err.old) (trace_fault_text name.now fault) (E.taken err.new) (E.faults err.new) }
    ensures count { E.faults err.old ≤ E.faults err.new }
{
    tell_line_fault(err, name, fault.kind.name().as_bytes(), fault.line);
}

// The name of a kind of faults of certificates.
fn cert_kind_name(kind: CertKind) -> &'static str
    ensures { result.now ≡ name_of_cert_kind kind }
{
    match kind {
        CertKind::Line => "line",
        CertKind::Truncated => "truncated",
        CertKind::Limit => "limit",
        CertKind::Signals => "signals",
        CertKind::Class => "class",
        CertKind::Outputs => "outputs",
        CertKind::Order => "order",
        CertKind::Derivation => "derivation",
        CertKind::Tie => "tie",
    }
}

// Tells the first fault of a certificate.
fn tell_cert_fault<E: Sink>(err: &mut E, name: &[u8], fault: CertFault)
    ensures told { IsTold (E.taken err.old) (E.faults err.old) (cert_fault_text name.now fault) (E.taken err.new) (E.faults err.new) }
    ensures count { E.faults err.old ≤ E.faults err.new }
{
    let kind = cert_kind_name(fault.kind);
    tell_line_fault(err, name, kind.as_bytes(), fault.line);
}

/// Tells why a run answers nothing.
pub(crate) fn tell_refusal<E: Sink>(
    err: &mut E,
    left: &str,
    right: &str,
    third: &str,
    refusal: &Refusal,
)
    ensures told { IsTold (E.taken err.old) (E.faults err.old) (refusal_text left.now right.now third.now refusal.now) (E.taken err.new) (E.faults err.new) }
    ensures count { E.faults err.old ≤ E.faults err.new }
{
    match refusal {
        Refusal::Memory => tell(err, b"sec: out of memory\n"),
        Refusal::Unpaired(unpaired) => tell_unpaired(err, left, right, *unpaired),
        Refusal::ThirdFailed => tell_unread(err, third.as_bytes()),
        Refusal::ThirdTooLong => {
            let fault = NetFault {
                kind: NetKind::Limit,
                at: LONGEST_THIRD,
            };
            tell_fault(err, third.as_bytes(), fault)
        }
        Refusal::TraceRefused(fault) => tell_trace_fault(err, third.as_bytes(), *fault),
        Refusal::CertRefused(fault) => tell_cert_fault(err, third.as_bytes(), *fault),
        Refusal::Unanswered(unanswered) => tell_unanswered(err, third, unanswered),
    }
}

/// The status of a run that answers nothing.
pub(crate) fn refusal_status(refusal: &Refusal) -> u8
    ensures { result ≡ refusal_status refusal.now }
{
    match refusal {
        Refusal::Memory => 7,
        Refusal::Unpaired(unpaired) => unpaired_status(*unpaired),
        Refusal::Unanswered(unanswered) => unanswered_status(unanswered),
        Refusal::ThirdFailed => 5,
        Refusal::ThirdTooLong | Refusal::TraceRefused(_) | Refusal::CertRefused(_) => 4,
    }
}
