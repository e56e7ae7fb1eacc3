//! The arguments of projections.
ghost use Rattle.std.specs.Prelude.{◌≡◌, ◌∷◌, IfOk};
ghost use Rattle.goal_interner.specs.TableMeaning.{Keeps};
ghost use Rattle.goal_terms.specs.Tree.{alias, forest};
ghost use Rattle.goal_lists.specs.Interned.{IsIn, AreIn, erased_at, erased_all};
ghost use Rattle.goal_eval.specs.ProjectionParts.{rest_of};

use goal_interner::term_nodes::{OutOfMemory, TermId};
use goal_interner::term_table::TermTable;
use goal_lists::lists::parts::copied;
use goal_terms::heads::Node;
use goal_terms::slices::behind;
use goal_terms::terms::AliasTermKind;
use std::alloc::Global;

/// The arguments with another self type.
pub(crate) fn with_self(
    alloc: Global,
    self_ty: TermId,
    args: &[TermId],
) -> Result<Vec<TermId>, OutOfMemory>
    ensures { IfOk result (λ made. made.items ≡ self_ty ∷ rest_of args.now) }
{
    let mut made = Vec::new(alloc);
    made.push(self_ty)?;
    for id in behind(args, 1) {
        made.push(*id)?;
    }
    Ok(made)
}

/// The number of an alias with its arguments, which is added if it isn't there yet. Want of memory or of
/// numbers is the only refusal.
pub(crate) fn intern_alias(
    alloc: Global,
    terms: &mut TermTable,
    kind: AliasTermKind,
    args: &[TermId],
) -> Result<TermId, OutOfMemory>
    requires { AreIn terms.old args.now }
    ensures kept { Keeps terms.old terms.new }
    ensures within { IfOk result (IsIn terms.new) }
    ensures tree { IfOk result (λ id. erased_at terms.new id ≡ alias kind (forest (erased_all terms.old args.now))) }
{
    let parts = copied(alloc, args)?;
    terms.intern_node(Node::Alias(kind), parts)
}
