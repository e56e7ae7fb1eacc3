//! Records that are entered, each once, in the order of first entry.
ghost use Rattle.std.specs.Prelude.{◌≡◌, ◌↔◌, IsTrue, OnOk, OnErr};
ghost use Rattle.std.specs.List.{Contains};
ghost use Rattle.goal_eval.specs.Entering.{Enters};

use goal_interner::term_nodes::OutOfMemory;
use goal_terms::answers::{DelayedFault, OpaqueAccess};

/// Enters an access behind others, where it isn't among them. Only memory is refused; then nothing changes.
pub fn enter_access(
    accesses: &mut Vec<OpaqueAccess>,
    access: OpaqueAccess,
) -> Result<(), OutOfMemory>
    ensures entered { OnOk result (Enters access accesses.old.items accesses.new.items) }
    ensures unchanged { OnErr result (accesses.new.items ≡ accesses.old.items) }
{
    if has_access(accesses.as_slice(), access) {
        return Ok(());
    }
    accesses.push(access)?;
    Ok(())
}

/// Enters a delayed fault behind others, where it isn't among them. Only memory is refused; then nothing
/// changes.
pub fn enter_fault(
    delayed_faults: &mut Vec<DelayedFault>,
    fault: DelayedFault,
) -> Result<(), OutOfMemory>
    ensures entered { OnOk result (Enters fault delayed_faults.old.items delayed_faults.new.items) }
    ensures unchanged { OnErr result (delayed_faults.new.items ≡ delayed_faults.old.items) }
{
    if has_fault(delayed_faults.as_slice(), fault) {
        return Ok(());
    }
    delayed_faults.push(fault)?;
    Ok(())
}

fn has_access(known: &[OpaqueAccess], access: OpaqueAccess) -> bool
    ensures { IsTrue result ↔ Contains known.now access }
{
    known.contains(&access)
}

fn has_fault(known: &[DelayedFault], fault: DelayedFault) -> bool
    ensures { IsTrue result ↔ Contains known.now fault }
{
    known.contains(&fault)
}
