//! What can be rewritten: terms, predicates and clauses.
ghost use Rattle.std.specs.Prelude.{◌≡◌, map, IfOk};

use crate::fold::{
    TermFolder, fold_alias, fold_arg, fold_args, fold_clause, fold_const, fold_sig, fold_term,
    fold_ty, fold_tys,
};
use crate::predicates::{
    Clause, ClauseKind, HostEffectPredicate, ProjectionPredicate, TraitPredicate, TraitRef,
};
use crate::terms::{AliasTerm, Const, DynClause, FnSig, GenericArg, Term, Ty};
use std::alloc::{AllocError, Global};

/// What a folder rewrites.
pub trait TermFoldable {
    ghost use Rattle.std.specs.Prelude.{ℕ, IfOk};
    ghost use Rattle.goal_terms.specs.Folding.{Folding};

    /// Whether the second is what a rewriting makes of the first, below a number of binders.
    ghost is_folded: { Folding → ℕ → Self → Self → Type 0 };

    /// The value, rewritten below a number of binders. `AllocError` where a growth is refused.
    fn fold_with<F: TermFolder>(
        &self,
        folder: &F,
        alloc: Global,
        binders: u32,
    ) -> Result<Self, AllocError>
        ensures { IfOk result (λ new. is_folded (F.folding folder.now) binders self.now new) };
}

impl TermFoldable for Ty {
    ghost use Rattle.std.specs.Prelude.{◌≡◌};
    ghost use Rattle.goal_terms.specs.Folding.{folded};
    ghost use Rattle.goal_terms.specs.TreeOf.{tree_of_ty};

    ghost is_folded = { λ f d a b. tree_of_ty b ≡ folded f d (tree_of_ty a) };

    fn fold_with<F: TermFolder>(
        &self,
        folder: &F,
        alloc: Global,
        binders: u32,
    ) -> Result<Ty, AllocError> {
        fold_ty(folder, alloc, binders, self)
    }
}

impl TermFoldable for Const {
    ghost use Rattle.std.specs.Prelude.{◌≡◌};
    ghost use Rattle.goal_terms.specs.Folding.{folded};
    ghost use Rattle.goal_terms.specs.TreeOf.{tree_of_const};

    ghost is_folded = { λ f d a b. tree_of_const b ≡ folded f d (tree_of_const a) };

    fn fold_with<F: TermFolder>(
        &self,
        folder: &F,
        alloc: Global,
        binders: u32,
    ) -> Result<Const, AllocError> {
        fold_const(folder, alloc, binders, self)
    }
}

impl TermFoldable for GenericArg {
    ghost use Rattle.std.specs.Prelude.{◌≡◌};
    ghost use Rattle.goal_terms.specs.Folding.{folded};
    ghost use Rattle.goal_terms.specs.TreeOf.{tree_of_arg};

    ghost is_folded = { λ f d a b. tree_of_arg b ≡ folded f d (tree_of_arg a) };

    fn fold_with<F: TermFolder>(
        &self,
        folder: &F,
        alloc: Global,
        binders: u32,
    ) -> Result<GenericArg, AllocError> {
        fold_arg(folder, alloc, binders, self)
    }
}

impl TermFoldable for Term {
    ghost use Rattle.std.specs.Prelude.{◌≡◌};
    ghost use Rattle.goal_terms.specs.Folding.{folded};
    ghost use Rattle.goal_terms.specs.TreeOf.{tree_of_term};

    ghost is_folded = { λ f d a b. tree_of_term b ≡ folded f d (tree_of_term a) };

    fn fold_with<F: TermFolder>(
        &self,
        folder: &F,
        alloc: Global,
        binders: u32,
    ) -> Result<Term, AllocError> {
        fold_term(folder, alloc, binders, self)
    }
}

impl TermFoldable for FnSig {
    ghost use Rattle.std.specs.Prelude.{◌≡◌};
    ghost use Rattle.goal_terms.specs.Folding.{folded};
    ghost use Rattle.goal_terms.specs.TreeOf.{tree_of_sig};

    ghost is_folded = { λ f d a b. tree_of_sig b ≡ folded f d (tree_of_sig a) };

    fn fold_with<F: TermFolder>(
        &self,
        folder: &F,
        alloc: Global,
        binders: u32,
    ) -> Result<FnSig, AllocError> {
        fold_sig(folder, alloc, binders, self)
    }
}

impl TermFoldable for DynClause {
    ghost use Rattle.std.specs.Prelude.{◌≡◌};
    ghost use Rattle.goal_terms.specs.Folding.{folded};
    ghost use Rattle.goal_terms.specs.TreeOf.{tree_of_clause};

    ghost is_folded = { λ f d a b. tree_of_clause b ≡ folded f d (tree_of_clause a) };

    fn fold_with<F: TermFolder>(
        &self,
        folder: &F,
        alloc: Global,
        binders: u32,
    ) -> Result<DynClause, AllocError> {
        fold_clause(folder, alloc, binders, self)
    }
}

impl TermFoldable for AliasTerm {
    ghost use Rattle.std.specs.Prelude.{◌≡◌};
    ghost use Rattle.goal_terms.specs.Folding.{folded};
    ghost use Rattle.goal_terms.specs.TreeOf.{tree_of_alias};

    ghost is_folded = { λ f d a b. tree_of_alias b ≡ folded f d (tree_of_alias a) };

    fn fold_with<F: TermFolder>(
        &self,
        folder: &F,
        alloc: Global,
        binders: u32,
    ) -> Result<AliasTerm, AllocError> {
        fold_alias(folder, alloc, binders, self)
    }
}

impl TermFoldable for Vec<GenericArg> {
    ghost use Rattle.std.specs.Prelude.{◌≡◌, map};
    ghost use Rattle.goal_terms.specs.Folding.{folded};
    ghost use Rattle.goal_terms.specs.TreeOf.{tree_of_arg};

    ghost is_folded = { λ f d a b. map tree_of_arg b.items ≡ map (folded f d) (map tree_of_arg a.items) };

    fn fold_with<F: TermFolder>(
        &self,
        folder: &F,
        alloc: Global,
        binders: u32,
    ) -> Result<Vec<GenericArg>, AllocError> {
        fold_args(folder, alloc, binders, self)
    }
}

impl TermFoldable for Vec<Ty> {
    ghost use Rattle.std.specs.Prelude.{◌≡◌, map};
    ghost use Rattle.goal_terms.specs.Folding.{folded};
    ghost use Rattle.goal_terms.specs.TreeOf.{tree_of_ty};

    ghost is_folded = { λ f d a b. map tree_of_ty b.items ≡ map (folded f d) (map tree_of_ty a.items) };

    fn fold_with<F: TermFolder>(
        &self,
        folder: &F,
        alloc: Global,
        binders: u32,
    ) -> Result<Vec<Ty>, AllocError> {
        fold_tys(folder, alloc, binders, self)
    }
}

impl TermFoldable for TraitRef {
    ghost use Rattle.std.specs.Prelude.{◌≡◌};
    ghost use Rattle.goal_terms.specs.PredicateTrees.{tree_of_trait_ref, folded_predicate};

    ghost is_folded = { λ f d a b. tree_of_trait_ref b ≡ folded_predicate f d (tree_of_trait_ref a) };

    fn fold_with<F: TermFolder>(
        &self,
        folder: &F,
        alloc: Global,
        binders: u32,
    ) -> Result<TraitRef, AllocError> {
        Ok(TraitRef {
            def_id: self.def_id,
            args: self.args.fold_with(folder, alloc, binders)?,
        })
    }
}

impl TermFoldable for TraitPredicate {
    ghost use Rattle.std.specs.Prelude.{◌≡◌};
    ghost use Rattle.goal_terms.specs.PredicateTrees.{tree_of_trait_predicate, folded_predicate};

    ghost is_folded = { λ f d a b. tree_of_trait_predicate b ≡ folded_predicate f d (tree_of_trait_predicate a) };

    fn fold_with<F: TermFolder>(
        &self,
        folder: &F,
        alloc: Global,
        binders: u32,
    ) -> Result<TraitPredicate, AllocError> {
        Ok(TraitPredicate {
            trait_ref: self.trait_ref.fold_with(folder, alloc, binders)?,
        })
    }
}

impl TermFoldable for ProjectionPredicate {
    ghost use Rattle.std.specs.Prelude.{◌≡◌};
    ghost use Rattle.goal_terms.specs.PredicateTrees.{tree_of_projection, folded_predicate};

    ghost is_folded = { λ f d a b. tree_of_projection b ≡ folded_predicate f d (tree_of_projection a) };

    fn fold_with<F: TermFolder>(
        &self,
        folder: &F,
        alloc: Global,
        binders: u32,
    ) -> Result<ProjectionPredicate, AllocError> {
        Ok(ProjectionPredicate {
            projection_term: self.projection_term.fold_with(folder, alloc, binders)?,
            term: self.term.fold_with(folder, alloc, binders)?,
        })
    }
}

impl TermFoldable for HostEffectPredicate {
    ghost use Rattle.std.specs.Prelude.{◌≡◌};
    ghost use Rattle.goal_terms.specs.PredicateTrees.{tree_of_host_effect, folded_predicate};

    ghost is_folded = { λ f d a b. tree_of_host_effect b ≡ folded_predicate f d (tree_of_host_effect a) };

    fn fold_with<F: TermFolder>(
        &self,
        folder: &F,
        alloc: Global,
        binders: u32,
    ) -> Result<HostEffectPredicate, AllocError> {
        Ok(HostEffectPredicate {
            trait_ref: self.trait_ref.fold_with(folder, alloc, binders)?,
            constness: self.constness,
        })
    }
}

impl TermFoldable for ClauseKind {
    ghost use Rattle.std.specs.Prelude.{◌≡◌};
    ghost use Rattle.goal_terms.specs.PredicateTrees.{tree_of_kind, folded_predicate};

    ghost is_folded = { λ f d a b. tree_of_kind b ≡ folded_predicate f d (tree_of_kind a) };

    fn fold_with<F: TermFolder>(
        &self,
        folder: &F,
        alloc: Global,
        binders: u32,
    ) -> Result<ClauseKind, AllocError> {
        match self {
            ClauseKind::Trait(predicate) => {
                Ok(ClauseKind::Trait(predicate.fold_with(folder, alloc, binders)?))
            }
            ClauseKind::Projection(predicate) => {
                Ok(ClauseKind::Projection(predicate.fold_with(folder, alloc, binders)?))
            }
            ClauseKind::HostEffect(predicate) => {
                Ok(ClauseKind::HostEffect(predicate.fold_with(folder, alloc, binders)?))
            }
        }
    }
}

impl TermFoldable for Clause {
    ghost use Rattle.std.specs.Prelude.{◌≡◌};
    ghost use Rattle.goal_terms.specs.PredicateTrees.{tree_of_whole_clause, folded_clause};

    ghost is_folded = { λ f d a b. tree_of_whole_clause b ≡ folded_clause f d (tree_of_whole_clause a) };

    fn fold_with<F: TermFolder>(
        &self,
        folder: &F,
        alloc: Global,
        binders: u32,
    ) -> Result<Clause, AllocError> {
        let below = binders.saturating_add(1);
        Ok(Clause {
            bound_regions: self.bound_regions,
            kind: self.kind.fold_with(folder, alloc, below)?,
        })
    }
}
