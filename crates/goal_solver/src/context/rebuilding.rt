//! Arguments from the numbers of their terms.
ghost use Rattle.std.specs.Prelude.{◌≡◌, map, IfOk};
ghost use Rattle.goal_interner.specs.TableMeaning.{tree_at};
ghost use Rattle.goal_terms.specs.TreeOf.{tree_of_arg, trees_of};
ghost use Rattle.goal_lists.specs.Interned.{IsIn, AreIn};

use goal_interner::term_nodes::{OutOfMemory, TermId};
use goal_interner::term_table::TermTable;
use goal_terms::heads::{Head, Node};
use goal_terms::terms::{GenericArg, Term};

/// The arguments of some numbers, lifetimes included. Want of memory is the only refusal.
pub(crate) fn rebuilt_args(
    terms: &TermTable,
    ids: &[TermId],
) -> Result<Vec<GenericArg>, OutOfMemory>
    requires { AreIn terms.now ids.now }
    ensures { IfOk result (λ args. trees_of args.items ≡ map (tree_at terms.now) ids.now) }
{
    let mut args = Vec::with_capacity(terms.allocator(), ids.len())?;
    for id in ids {
        let arg = rebuilt_arg(terms, *id)?;
        args.push(arg)?;
    }
    Ok(args)
}

#[tactic(auto, using(goal_interner::proofs::RebuildLemmas::rebuilding))]
/// The argument of a number.
fn rebuilt_arg(terms: &TermTable, id: TermId) -> Result<GenericArg, OutOfMemory>
    requires { IsIn terms.now id }
    ensures { IfOk result (λ arg. tree_of_arg arg ≡ tree_at terms.now id) }
{
    if let Node::Head(Head::Lifetime(region)) = terms.node(id) {
        return Ok(GenericArg::Lifetime(region));
    }
    match terms.to_term(id)? {
        Term::Ty(ty) => Ok(GenericArg::Ty(ty)),
        Term::Const(value) => Ok(GenericArg::Const(value)),
    }
}
