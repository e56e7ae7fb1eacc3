//! Terms with fresh lifetimes in place of the erased ones.
ghost use Rattle.std.specs.Prelude.{◌≡◌, ◌<◌, false, length, Some, IfOk};
ghost use Rattle.goal_terms.specs.Erased.{compared_node};
ghost use Rattle.goal_interner.specs.TableMeaning.{tree_at, Keeps};
ghost use Rattle.goal_terms.specs.declared.compare.Regions.TheVariants.{Forgotten};
ghost use Rattle.goal_infer.specs.FreshLifetimes.{is_erased, names_erased, IsFreshened};

use goal_interner::term_nodes::{OutOfMemory, TermId};
use goal_interner::term_table::TermTable;
use goal_terms::heads::{Head, Node};
use goal_terms::terms::Region;

/// The lifetime; in place of the erased one the region variable of the next number.
fn fresh_region(next: &mut u32, region: Region) -> Result<Region, OutOfMemory>
    ensures { IfOk result (λ r. is_erased (Some r) ≡ false) }
{
    let Region::Erased = region else {
        return Ok(region);
    };
    let number = *next;
    let Some(after) = number.checked_add(1) else {
        return Err(OutOfMemory);
    };
    *next = after;
    Ok(Region::Var(number))
}

/// What stands at the top of a term, with a fresh lifetime if it names the erased one.
#[tactic(auto, unfolding(crate::specs::FreshLifetimes::names_erased, goal_terms::specs::Regions::region_of))]
fn fresh_node(next: &mut u32, node: Node) -> Result<Node, OutOfMemory>
    ensures same { IfOk result (λ n. compared_node Forgotten n ≡ compared_node Forgotten node) }
    ensures none { IfOk result (λ n. names_erased n ≡ false) }
{
    let Node::Head(head) = node else {
        return Ok(node);
    };
    Ok(Node::Head(match head {
        Head::Ref(region, mutability) => Head::Ref(fresh_region(next, region)?, mutability),
        Head::Dynamic(count, region) => Head::Dynamic(count, fresh_region(next, region)?),
        Head::Lifetime(region) => Head::Lifetime(fresh_region(next, region)?),
        other => other,
    }))
}

/// The number of a term that has a region variable of its own in place of each erased lifetime. They are
/// numbered from `next` on, which tells the first number behind them. The table gets the term if it
/// isn't there yet. Want of memory or of numbers is the only refusal; then the table may have got some of
/// the parts.
pub fn with_fresh_lifetimes(
    table: &mut TermTable,
    next: &mut u32,
    id: TermId,
) -> Result<TermId, OutOfMemory>
    requires within { id.0 < length table.old }
    ensures kept { Keeps table.old table.new }
    ensures within { IfOk result (λ r. r.0 < length table.new) }
    ensures fresh { IfOk result (λ r. IsFreshened (tree_at table.old id) (tree_at table.new r)) }
{
    let node = fresh_node(next, table.node(id))?;
    let count = table.parts(id).len();
    let mut made = Vec::with_capacity(table.allocator(), count)?;
    for place in 0..count {
        let part = table.part(id, place);
        let number = with_fresh_lifetimes(table, next, part)?;
        made.push(number)?;
    }
    table.intern_node(node, made)
}
