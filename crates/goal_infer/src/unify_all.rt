//! Unification of lists of terms.
ghost use Rattle.std.specs.Prelude.{◌≡◌, ◌<◌, length, IfOk};
ghost use Rattle.goal_interner.specs.TableMeaning.{AreBelow};
ghost use Rattle.goal_infer.specs.Resolution.{IsSolved};
ghost use Rattle.goal_infer.specs.ListUnification.{MakesAllSame, AreDecidedWherePlain, AreIdentified, AreClashing, AreUntouched};
ghost use Rattle.goal_infer.specs.Unification.{sides, Advances, IsUnified};

use crate::state::InferState;
use crate::unify::{Unified, unify};
use goal_interner::term_nodes::{OutOfMemory, TermId};
use goal_interner::term_table::TermTable;

/// Makes two lists of terms of a table the same, in pairs, as `unify` does with two terms: each pair under
/// the bindings that came of those before it, up to the first that can't be made the same.
///
/// `Yes`: what the state now says is what it said before, and that the lists are the same. `Undecided`:
/// an alias, or a variable that wasn't made, stands in the way in some pair; what was bound is so
/// wherever the lists are the same. `No`: they never are, whatever stands for the unbound variables, as
/// lists that differ in length never are. Where such things stand in no pair, or only at places at which
/// its terms are identical, or below constructors that differ, it is not `Undecided`. Lists that are
/// identical after the bindings are `Yes`, and nothing is bound. Between lists without variables nothing
/// is ever bound, and `No` comes only of lists that differ in length, or of a pair for which `unify` says
/// it: of two constructors that differ at a place that both reach through the same constructors, or of
/// parts that differ in number.
///
/// `OutOfMemory` where the state could not grow; it may have got some of the bindings. After that, and
/// after each answer, the state goes back by a rollback to what it was before the call.
pub fn unify_all(
    table: &TermTable,
    state: &mut InferState,
    left: &[TermId],
    right: &[TermId],
) -> Result<Unified, OutOfMemory>
    requires first { AreBelow (length table.now) left.now }
    requires second { AreBelow (length table.now) right.now }
    requires solved { IsSolved table.now state.old }
    ensures advances { Advances table.now state.old state.new }
    ensures answer { IfOk result (λ u. IsUnified table.now state.old state.new (MakesAllSame table.now left.now right.now) u) }
    ensures plain { IfOk result (λ u. AreDecidedWherePlain table.now state.old left.now right.now u) }
    ensures identified { IfOk result (λ u. AreIdentified table.now state.old state.new (sides left.now right.now) u) }
    ensures clash { IfOk result (λ u. AreClashing table.now state.old left.now right.now u) }
    ensures closed { AreUntouched table.now state.old state.new left.now right.now }
{
    let count = left.len();
    if right.len() != count {
        return Ok(Unified::No);
    }
    let mut answer = Unified::Yes;
    for i in 0..count {
        match unify(table, state, left[i], right[i])? {
            Unified::Yes => {}
            Unified::Undecided => answer = Unified::Undecided,
            Unified::No => return Ok(Unified::No),
        }
    }
    Ok(answer)
}
