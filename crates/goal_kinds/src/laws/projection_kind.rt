//! The laws of candidates for projections, each the contract of a function that does nothing.
ghost use Rattle.std.specs.Prelude.{ℕ};
ghost use Rattle.goal_terms.specs.Tree.{Tree};
ghost use Rattle.goal_terms.specs.declared.predicates.ClauseKind.{ClauseKind};
ghost use Rattle.goal_terms.specs.declared.terms.AliasTerm.{AliasTerm};
ghost use Rattle.goal_terms.specs.declared.terms.Term.{Term};
ghost use Rattle.goal_kinds.specs.CandidateRules.{IsAcceptedClause};
ghost use Rattle.goal_lists.specs.Candidates.{Candidate};
ghost use Rattle.goal_kinds.specs.LawWords.{HeightKeeps, IfAccepted, RejectedIsRefuted, RejectedImplIsRefuted};
ghost use Rattle.goal_kinds.specs.ProjectionKind.{ProjectionCandidateGives, ProjectionCandidateRefuted};
ghost use Rattle.goal_lists.specs.Settings.{Setting};
ghost use Rattle.goal_terms.specs.declared.ids.ImplId.{ImplId};
ghost use Rattle.goal_tables.specs.declared.rows.ImplRow.{ImplRow};
ghost use Rattle.goal_lists.specs.ImplTerms.{Projection};

/// What a candidate gives a projection at a height it gives at every greater one, and so is it refuted.
pub fn more_height_keeps_terms()
    ensures gives { (a : AliasTerm) (S : Setting) (n m : ℕ) (c : Candidate) (t : Tree) → HeightKeeps n m (λ k. ProjectionCandidateGives a S k c t) }
    ensures refuted { (a : AliasTerm) (S : Setting) (n m : ℕ) (c : Candidate) → HeightKeeps n m (λ k. ProjectionCandidateRefuted a S k c) }
{}

/// Over accepted tables an accepted clause that the fast rejection doesn't let pass gives an accepted
/// projection no term, and this is proved with no height.
pub fn rejected_clauses_give_no_term()
    ensures { (a : AliasTerm) (e : Term) (S : Setting) (k : ClauseKind) → IfAccepted a e S.tables (IsAcceptedClause S.tables k → RejectedIsRefuted a S k) }
{}

/// Over accepted tables an impl whose header the fast rejection doesn't let pass gives an accepted
/// projection of an item of its trait no term, and this is proved with no height.
pub fn rejected_impls_give_no_term()
    ensures { (a : AliasTerm) (e : Term) (S : Setting) (p : Projection) (i : ImplId) (r : ImplRow) → IfAccepted a e S.tables (RejectedImplIsRefuted a S p i r) }
{}
