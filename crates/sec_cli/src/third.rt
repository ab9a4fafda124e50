//! The file that a command reads beside a pair: a trace or a certificate.
ghost use Rattle.std.specs.Prelude.{◌≡◌, ◌≤◌, Some, IsTrue, length, IfOk, IfErr, IsErrOf};
ghost use Rattle.sec_base.specs.Faults.{Rose, appended};
ghost use Rattle.sec_cli.specs.Endings.{IsUnloaded, failed_third, longest_third};
ghost use Rattle.sec_cli.specs.declared.ending.Refusal.TheVariants as refusals;

use crate::ending::Refusal;
use sec_base::{LoadFault, Shelf};
use std::alloc::Global;

/// As many bytes as the file of a trace or a certificate may have.
pub(crate) const LONGEST_THIRD: u64 = 1_099_511_627_776;

/// The bytes of such a file.
pub(crate) fn load_third<S: Shelf>(
    alloc: Global,
    shelf: &mut S,
    name: &str,
) -> Result<Vec<u8>, Refusal>
    ensures loaded { IsTrue S.tells → IfOk result (λ bytes. S.file shelf.old name.now ≡ Some bytes.items) }
    ensures within { IfOk result (λ bytes. length bytes.items ≤ longest_third) }
    ensures refused { IfErr result (IsUnloaded S.tells (S.file shelf.old name.now)) }
    ensures failed { IsErrOf result refusals.ThirdFailed → Rose (S.load_faults shelf.old) (S.load_faults shelf.new) }
    ensures files { S.file shelf.new ≡ S.file shelf.old }
    ensures names { S.failed shelf.new ≡ appended (S.failed shelf.old) (failed_third name.now result) }
    ensures load_count { S.load_faults shelf.old ≤ S.load_faults shelf.new }
    ensures store_count { S.store_faults shelf.new ≡ S.store_faults shelf.old }
{
    let mut bytes = Vec::new(alloc);
    match shelf.load(name, LONGEST_THIRD, &mut bytes) {
        Ok(()) => Ok(bytes),
        Err(LoadFault::TooLong) => Err(Refusal::ThirdTooLong),
        Err(LoadFault::Failed) => Err(Refusal::ThirdFailed),
        Err(LoadFault::Memory) => Err(Refusal::Memory),
    }
}
