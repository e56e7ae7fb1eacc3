//! Terms with the bindings of their variables followed.
ghost use Rattle.std.specs.Prelude.{◌≡◌, ◌<◌, length, map, IfOk};
ghost use Rattle.std.specs.List.{AllZip};
ghost use Rattle.goal_interner.specs.TableMeaning.{AreBelow, Keeps};
ghost use Rattle.goal_infer.specs.Following.{sort_at, StaysUnbound};
ghost use Rattle.goal_infer.specs.Resolution.{term_at, resolved, IsSolved};

use crate::resolve::resolve;
use crate::state::InferState;
use goal_interner::term_nodes::{OutOfMemory, TermId};
use goal_interner::term_table::TermTable;

/// The number of a term with each variable replaced by what it is bound to, which the table gets if it
/// isn't there yet. It is the term's own number where nothing in it is bound. Want of memory or of
/// numbers is the only refusal; then the table may have got some of the parts.
pub fn follow(table: &mut TermTable, state: &InferState, id: TermId) -> Result<TermId, OutOfMemory>
    requires within { id.0 < length table.old }
    requires solved { IsSolved table.old state.now }
    ensures kept { Keeps table.old table.new }
    ensures within { IfOk result (λ r. r.0 < length table.new) }
    ensures tree { IfOk result (λ r. term_at table.new r ≡ resolved table.old state.now id) }
    ensures sort { IfOk result (λ r. sort_at table.new r ≡ sort_at table.old id) }
    ensures same { IfOk result (λ r. StaysUnbound table.old state.now table.new id r) }
{
    let top = resolve(table, state, id);
    let node = table.node(top);
    let count = table.parts(top).len();
    let mut numbers = Vec::with_capacity(table.allocator(), count)?;
    let mut unchanged = true;
    for place in 0..count {
        let part = table.part(top, place);
        let number = follow(table, state, part)?;
        unchanged = unchanged && table.same_term(number, part);
        numbers.push(number)?;
    }
    if unchanged {
        return Ok(top);
    }
    table.intern_node(node, numbers)
}

/// The numbers of some terms with their bindings followed, as `follow` gives them.
pub fn follow_all(
    table: &mut TermTable,
    state: &InferState,
    ids: &[TermId],
) -> Result<Vec<TermId>, OutOfMemory>
    requires within { AreBelow (length table.old) ids.now }
    requires solved { IsSolved table.old state.now }
    ensures kept { Keeps table.old table.new }
    ensures within { IfOk result (λ rs. AreBelow (length table.new) rs.items) }
    ensures trees { IfOk result (λ rs. map (term_at table.new) rs.items ≡ map (resolved table.old state.now) ids.now) }
    ensures sorts { IfOk result (λ rs. map (sort_at table.new) rs.items ≡ map (sort_at table.old) ids.now) }
    ensures same { IfOk result (λ rs. AllZip (StaysUnbound table.old state.now table.new) ids.now rs.items) }
{
    let mut numbers = Vec::with_capacity(table.allocator(), ids.len())?;
    for id in ids {
        let number = follow(table, state, *id)?;
        numbers.push(number)?;
    }
    Ok(numbers)
}
