//! Lists of numbers of terms.
ghost use Rattle.std.specs.Prelude.{◌≡◌, ◌++◌, IfOk};

use crate::eval::outcomes::Setting;
use goal_interner::term_nodes::{OutOfMemory, TermId};

/// Some numbers, and then others.
pub(crate) fn joined(
    setting: &Setting<'_>,
    first: &[TermId],
    second: &[TermId],
) -> Result<Vec<TermId>, OutOfMemory>
    ensures { IfOk result (λ made. made.items ≡ first.now ++ second.now) }
{
    let mut made = Vec::new(setting.allocator());
    for id in first {
        made.push(*id)?;
    }
    for id in second {
        made.push(*id)?;
    }
    Ok(made)
}
