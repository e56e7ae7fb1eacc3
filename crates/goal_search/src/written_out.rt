//! How many parts terms have that are given by their numbers, once they are written out as trees.
ghost use Rattle.std.specs.Prelude.{◌<◌, length};
ghost use Rattle.goal_lists.specs.Interned.{AreIn};

use goal_interner::term_nodes::TermId;
use goal_interner::term_table::TermTable;

/// The most parts that the arguments of a goal with inference variables may have, written out, for its candidates to
/// be asked. A list that doubles a type would else double the work with each unit of the depth.
const MOST_PARTS: u32 = 4_096;

/// Whether the arguments of a goal with inference variables have few enough parts to be written out. It takes no
/// memory.
pub fn may_be_written_out(terms: &TermTable, ids: &[TermId]) -> bool
    requires { AreIn terms.now ids.now }
{
    let mut left = MOST_PARTS;
    for id in ids {
        match left_after(terms, *id, left) {
            Some(rest) => left = rest,
            None => return false,
        }
    }
    true
}

/// The same of one term.
pub fn is_small(terms: &TermTable, id: TermId) -> bool
    requires { id.0 < length terms.now }
{
    left_after(terms, id, MOST_PARTS).is_some()
}

/// How many of so many parts are left after those of a term, written out. There is nothing left where it has more.
fn left_after(terms: &TermTable, id: TermId, parts: u32) -> Option<u32>
    requires { id.0 < length terms.now }
{
    let mut left = parts.checked_sub(1)?;
    for part in terms.parts(id) {
        left = left_after(terms, *part, left)?;
    }
    Some(left)
}
