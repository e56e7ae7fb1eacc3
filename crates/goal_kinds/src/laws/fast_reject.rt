//! The laws of fast rejection, each the contract of a function that does nothing: they speak of all
//! settings, heights and lists.
ghost use Rattle.std.specs.Prelude.{◌≡◌, false, ℕ, List, map};
ghost use Rattle.goal_terms.specs.Tree.{Tree};
ghost use Rattle.goal_terms.specs.Erased.{erased};
ghost use Rattle.goal_terms.specs.declared.answers.ParamKind.{ParamKind};
ghost use Rattle.goal_terms.specs.declared.heads.Head.{Head};
ghost use Rattle.goal_terms.specs.declared.heads.Variable.{Variable};
ghost use Rattle.goal_terms.specs.declared.ids.TraitId.{TraitId};
ghost use Rattle.goal_terms.specs.declared.predicates.BoundConstness.{BoundConstness};
ghost use Rattle.goal_terms.specs.declared.terms.GenericArg.{GenericArg};
ghost use Rattle.goal_tables.specs.Faults.{IsChecked};
ghost use Rattle.goal_tables.specs.declared.rows.ImplRow.{ImplRow};
ghost use Rattle.goal_tables.specs.declared.rows.Tables.{Tables};
ghost use Rattle.goal_lists.specs.FastReject.{heads_agree};
ghost use Rattle.goal_lists.specs.ImplTerms.{Projection};
ghost use Rattle.goal_kinds.specs.LawWords.{RejectionIsFinal, RejectionIsFinalUnder, OtherHeadsAreFinal, OtherHeadsAreFinalUnder, OtherHeadsClash, IfKindsStay, RefutesUnfit, UnfitConstRefuted, UnfitTermRefuted, HeadsDecide, IfKinded, ForAccepted, ForAllAccepted, RejectedHeaderClashes};
ghost use Rattle.goal_lists.specs.Levels.{level};
ghost use Rattle.goal_lists.specs.Settings.{Setting};
ghost use Rattle.goal_lists.specs.TraitGoals.{CandidateRefuted};
ghost use Rattle.goal_lists.specs.Words.{SomePair};
ghost use Rattle.goal_lists.specs.declared.fast_reject.Parameters.{Parameters};
ghost use Rattle.goal_lists.specs.declared.fast_reject.Parameters.TheVariants.{Rigid};

/// Lists that may not become the same are equal at no height, whatever terms of their kinds stand in
/// place of their inference variables, and whatever arguments in place of the right list's parameters
/// where these are inferred. It asks that no alias has a term of another kind.
pub fn rejection_is_final()
    ensures rigid { (S : Setting) (n : ℕ) (ρ : Variable → Tree) (ts us : List Tree) → IfKindsStay S ρ (RejectionIsFinal (level S n) ρ ts us) }
    ensures inferred { (S : Setting) (n : ℕ) (ρ : Variable → Tree) (args ts us : List Tree) → IfKindsStay S ρ (RejectionIsFinalUnder (level S n) ρ args ts us) }
{}

/// Where two heads differ, nothing is asked of kinds: the lists are equal at no height, whatever stands
/// in place of variables and inferred parameters, and this is proved at the lowest height, also of
/// a header, which has no lifetimes, on the right side.
pub fn other_heads_are_final()
    ensures rigid { (S : Setting) (n : ℕ) (ρ : Variable → Tree) (ts us : List Tree) → OtherHeadsAreFinal (level S n) ρ ts us }
    ensures inferred { (S : Setting) (n : ℕ) (ρ : Variable → Tree) (args ts us : List Tree) → OtherHeadsAreFinalUnder (level S n) ρ args ts us }
    ensures unequal { (S : Setting) (ts us : List Tree) → heads_agree Rigid ts us ≡ false → SomePair (level S 0).unequal (map erased ts) (map erased us) }
    ensures clashes { (S : Setting) (params : List ParamKind) (gs hs : List Tree) → OtherHeadsClash (level S 0) params gs hs }
{}

/// A candidate that may not fit given arguments is refuted at every height, for a trait of these, for it as
/// a const trait, and for a projection whose trait has these: so it need not be tried.
pub fn what_may_not_fit_is_refuted()
    ensures traits { (S : Setting) (n : ℕ) (i : TraitId) (args : List Tree) → RefutesUnfit args (CandidateRefuted S (level S n) i (map erased args)) }
    ensures consts { (S : Setting) (n : ℕ) (c : BoundConstness) (i : TraitId) (args : List Tree) → UnfitConstRefuted S (level S n) c i args }
    ensures terms { (S : Setting) (n : ℕ) (p : Projection) (args : List Tree) → UnfitTermRefuted S (level S n) p args }
{}

/// Where the constructors of all terms take parts of the same kinds, only heads can differ: what is
/// rejected then has other heads.
pub fn kinds_follow_heads()
    ensures { (kinds : Head → List ParamKind) (p : Parameters) (ts us : List Tree) → IfKinded kinds ts us (HeadsDecide p ts us) }
{}

/// Arguments of one trait that the checks accept, over accepted tables, take parts of the same kinds:
/// they are rejected only where two heads differ. So they are equal at no height, whatever stands in
/// place of variables and inferred parameters, and the header of an impl that is rejected clashes.
pub fn accepted_arguments_differ_in_heads()
    ensures heads { (t : Tables) (i : TraitId) (ps qs : List ParamKind) (p : Parameters) → ForAccepted t i ps qs (HeadsDecide p) }
    ensures rigid { (S : Setting) (n : ℕ) (ρ : Variable → Tree) → ForAllAccepted S.tables (RejectionIsFinal (level S n) ρ) }
    ensures inferred { (S : Setting) (n : ℕ) (ρ : Variable → Tree) (args : List Tree) → ForAllAccepted S.tables (RejectionIsFinalUnder (level S n) ρ args) }
    ensures headers { (S : Setting) (r : ImplRow) (ps : List ParamKind) (args : List GenericArg) → IsChecked S.tables → RejectedHeaderClashes S r ps args }
{}
