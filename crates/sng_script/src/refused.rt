//! How a policy that is refused is told.
ghost use Rattle.std.specs.Prelude.{◌≡◌, ◌++◌, OnOk};
ghost use Rattle.sng_script.specs.Refused.{fault_text, refused_text};

use sng_book::print::push_decimal;
use sng_scope::PolicyFault;
use std::alloc::AllocError;

/// Appends the line of a refused policy.
pub fn push_refused(line: &mut Vec<u8>, fault: PolicyFault) -> Result<(), AllocError>
    ensures { OnOk result (line.new.items ≡ line.old.items ++ refused_text fault) }
{
    line.extend_from_slice(b"refused policy ")?;
    push_fault(line, fault)?;
    line.extend_from_slice(b"\n")
}

/// Appends the number of a fault and its name.
fn push_fault(line: &mut Vec<u8>, fault: PolicyFault) -> Result<(), AllocError>
    ensures { OnOk result (line.new.items ≡ line.old.items ++ fault_text fault) }
{
    push_decimal(line, u64::from(fault.number()))?;
    line.extend_from_slice(b" ")?;
    line.extend_from_slice(fault.name().as_bytes())
}
