//! The numbers of a goal's terms.
ghost use Rattle.std.specs.Prelude.{◌≡◌, ◌<◌, map, length, IfOk};
ghost use Rattle.goal_terms.specs.Erased.{erased};
ghost use Rattle.goal_interner.specs.TableMeaning.{tree_at, Keeps};
ghost use Rattle.goal_terms.specs.Tree.{node, forest};
ghost use Rattle.goal_terms.specs.declared.heads.Head.{Head as heads};
ghost use Rattle.goal_terms.specs.TreeOf.{tree_of_alias, tree_of_arg, tree_of_term};
ghost use Rattle.goal_lists.specs.Interned.{IsIn, AreIn, erased_at, erased_all};
ghost use Rattle.goal_eval.specs.ErasedArgs.{erased_args};

use goal_interner::term_nodes::{OutOfMemory, TermId};
use goal_interner::term_table::TermTable;
use goal_lists::lists::parts::copied;
use goal_terms::heads::{Head, Node};
use goal_terms::ids::TraitId;
use goal_terms::terms::{AliasTerm, GenericArg, Term};
use goal_terms::view::TermRef;
use std::alloc::Global;

/// The numbers of arguments, which the table gets. Want of memory or of numbers is the only refusal.
pub fn intern_args(
    alloc: Global,
    terms: &mut TermTable,
    args: &[GenericArg],
) -> Result<Vec<TermId>, OutOfMemory>
    ensures kept { Keeps terms.old terms.new }
    ensures within { IfOk result (λ ids. AreIn terms.new ids.items) }
    ensures trees { IfOk result (λ ids. erased_all terms.new ids.items ≡ erased_args args.now) }
    ensures exact { IfOk result (λ ids. map (tree_at terms.new) ids.items ≡ map tree_of_arg args.now) }
{
    let mut ids = Vec::with_capacity(alloc, args.len())?;
    for arg in args {
        let id = terms.intern_part(arg.view())?;
        ids.push(id)?;
    }
    Ok(ids)
}

/// The numbers of an alias and of a term, which the table gets. Want of memory or of numbers is the only
/// refusal.
pub fn intern_equation(
    terms: &mut TermTable,
    alias: &AliasTerm,
    term: &Term,
) -> Result<(TermId, TermId), OutOfMemory>
    ensures kept { Keeps terms.old terms.new }
    ensures within { IfOk result (λ p. IsIn terms.new p.0 × IsIn terms.new p.1) }
    ensures trees { IfOk result (λ p. (erased_at terms.new p.0 ≡ erased (tree_of_alias alias.now)) × (erased_at terms.new p.1 ≡ erased (tree_of_term term.now))) }
{
    let first = terms.intern_part(TermRef::Alias(alias))?;
    let second = terms.intern(term)?;
    Ok((first, second))
}

/// The numbers of two terms, which the table gets. Want of memory or of numbers is the only refusal.
pub fn intern_pair(
    terms: &mut TermTable,
    left: &Term,
    right: &Term,
) -> Result<(TermId, TermId), OutOfMemory>
    ensures kept { Keeps terms.old terms.new }
    ensures within { IfOk result (λ p. IsIn terms.new p.0 × IsIn terms.new p.1) }
    ensures exact { IfOk result (λ p. (tree_at terms.new p.0 ≡ tree_of_term left.now) × (tree_at terms.new p.1 ≡ tree_of_term right.now)) }
{
    let first = terms.intern(left)?;
    let second = terms.intern(right)?;
    Ok((first, second))
}

/// The number of a trait with its arguments, the self type among them, which the table gets. Want of memory or
/// of numbers is the only refusal.
pub fn intern_trait_ref(
    alloc: Global,
    terms: &mut TermTable,
    trait_id: TraitId,
    args: &[TermId],
) -> Result<TermId, OutOfMemory>
    requires { AreIn terms.old args.now }
    ensures kept { Keeps terms.old terms.new }
    ensures within { IfOk result (λ id. id.0 < length terms.new) }
    ensures tree { IfOk result (λ id. erased_at terms.new id ≡ node (heads.DynTrait trait_id (length args.now)) (forest (erased_all terms.old args.now))) }
{
    let parts = copied(alloc, args)?;
    terms.intern_node(Node::Head(Head::DynTrait(trait_id, args.len())), parts)
}
