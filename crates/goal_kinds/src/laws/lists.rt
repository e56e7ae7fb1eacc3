//! The laws of lists of entries, each the contract of a function that does nothing: the list of a
//! candidate, or of an alias, says at each height just what that does by the derivation rules, in each
//! headline mode; and more height keeps what any list says.
ghost use Rattle.std.specs.Prelude.{◌≡◌, ◌≤◌, ℕ, List, Option};
ghost use Rattle.std.specs.List.{All};
ghost use Rattle.goal_terms.specs.Tree.{Tree};
ghost use Rattle.goal_terms.specs.declared.ids.TraitId.{TraitId};
ghost use Rattle.goal_terms.specs.declared.modes.TypingMode.{TypingMode};
ghost use Rattle.goal_terms.specs.declared.predicates.BoundConstness.{BoundConstness};
ghost use Rattle.goal_terms.specs.declared.terms.AliasTermKind.{AliasTermKind};
ghost use Rattle.goal_lists.specs.AliasLists.{alias_list};
ghost use Rattle.goal_lists.specs.Candidates.{Candidate};
ghost use Rattle.goal_lists.specs.Causes.{IsCaused};
ghost use Rattle.goal_lists.specs.EffectLists.{effect_list};
ghost use Rattle.goal_lists.specs.Entries.{Entry, ListHolds, ListGives, ListRefuted, ListAsksNoTerm};
ghost use Rattle.goal_lists.specs.ImplTerms.{Projection};
ghost use Rattle.goal_lists.specs.Levels.{level};
ghost use Rattle.goal_lists.specs.ListLaws.{TraitListHolds, TraitListRefuted, EffectListHolds, EffectListRefuted, ProjectionListGives, ProjectionListRefuted};
ghost use Rattle.goal_lists.specs.ListLaws.{AliasListGives, AliasListRefuted, EquationListHolds, EquationListRefuted, ListIsCaused};
ghost use Rattle.goal_lists.specs.ListLaws.{TraitListStands, EffectListStands, ProjectionListStands, AliasListStands, ProjectionListStandsIn, AliasListStandsIn};
ghost use Rattle.goal_lists.specs.ListModes.{accesses_in};
ghost use Rattle.goal_lists.specs.ProjectionLists.{projection_list};
ghost use Rattle.goal_lists.specs.Settings.{Setting};
ghost use Rattle.goal_lists.specs.TraitLists.{trait_list};

/// The list of a candidate for a trait goal holds, and is refuted, where the candidate is.
pub fn trait_lists_say_what_candidates_do()
    ensures holds { (S : Setting) (n : ℕ) (i : TraitId) (ts : List Tree) (c : Candidate) → TraitListHolds S (level S n) i ts c }
    ensures refuted { (S : Setting) (n : ℕ) (i : TraitId) (ts : List Tree) (c : Candidate) → TraitListRefuted S (level S n) i ts c }
{}

/// The list of a candidate for a host effect goal holds, and is refuted, where the candidate is.
pub fn effect_lists_say_what_candidates_do()
    ensures holds { (S : Setting) (n : ℕ) (b : BoundConstness) (i : TraitId) (ts : List Tree) → EffectListHolds S (level S n) b i ts }
    ensures refuted { (S : Setting) (n : ℕ) (b : BoundConstness) (i : TraitId) (ts : List Tree) → EffectListRefuted S (level S n) b i ts }
{}

/// The list of a candidate for the term of a projection gives the terms that the candidate gives, and is
/// refuted where it gives none.
pub fn projection_lists_say_what_candidates_do()
    ensures gives { (S : Setting) (n : ℕ) (p : Projection) (itself : Tree) (c : Candidate) → ProjectionListGives S (level S n) p itself c }
    ensures refuted { (S : Setting) (n : ℕ) (p : Projection) (itself : Tree) (c : Candidate) → ProjectionListRefuted S (level S n) p itself c }
{}

/// The list of a free, inherent or opaque alias, or of an unevaluated constant, gives the terms that the
/// alias has one height above, and is refuted where the alias is.
pub fn alias_lists_say_what_aliases_do()
    ensures gives { (S : Setting) (n : ℕ) (k : AliasTermKind) (ts : List Tree) (t : Tree) → AliasListGives S (level S n) k ts t }
    ensures refuted { (S : Setting) (n : ℕ) (k : AliasTermKind) (ts : List Tree) → AliasListRefuted S (level S n) k ts }
{}

/// The list of a projection goal holds, and is refuted, where the goal is one height above.
pub fn equation_lists_say_what_goals_do()
    ensures holds { (S : Setting) (n : ℕ) (a t : Tree) → EquationListHolds S n a t }
    ensures refuted { (S : Setting) (n : ℕ) (a t : Tree) → EquationListRefuted S n a t }
{}

/// A list of the erased mode that records no access is the list of each headline mode. Those of trait
/// goals and of host effect goals never record one. One that does is the same up to its first access.
pub fn erased_lists_stand_for_headline_modes()
    ensures traits { (S : Setting) (m : TypingMode) (i : TraitId) (ts : List Tree) (c : Candidate) → TraitListStands S m i ts c }
    ensures effects { (S : Setting) (m : TypingMode) (b : BoundConstness) (i : TraitId) (ts : List Tree) → EffectListStands S m b i ts }
    ensures projections { (S : Setting) (m : TypingMode) (p : Projection) (itself : Tree) (c : Candidate) → ProjectionListStands S m p itself c }
    ensures aliases { (S : Setting) (m : TypingMode) (k : AliasTermKind) (ts : List Tree) → AliasListStands S m k ts }
    ensures projections_before { (S : Setting) (m : TypingMode) (p : Projection) (itself : Tree) (c : Candidate) → ProjectionListStandsIn S m p itself c }
    ensures aliases_before { (S : Setting) (m : TypingMode) (k : AliasTermKind) (ts : List Tree) → AliasListStandsIn S m k ts }
{}

/// Each access that a list records has its cause in the tables: a local opaque type, a remote one, or a
/// source that is a default.
pub fn accesses_have_causes()
    ensures traits { (S : Setting) (i : TraitId) (ts : List Tree) (c : Candidate) → ListIsCaused S.tables (trait_list S i ts c) }
    ensures effects { (S : Setting) (b : BoundConstness) (i : TraitId) (ts : List Tree) (c : Candidate) → ListIsCaused S.tables (effect_list S b i ts c) }
    ensures projections { (S : Setting) (p : Projection) (itself : Tree) (c : Candidate) → ListIsCaused S.tables (projection_list S p itself c) }
    ensures aliases { (S : Setting) (k : AliasTermKind) (ts : List Tree) → All (IsCaused S.tables) (accesses_in (alias_list S k ts)) }
{}

/// The lists of trait goals and of host effect goals ask for no term.
pub fn lists_of_traits_ask_for_no_term()
    ensures traits { (S : Setting) (i : TraitId) (ts : List Tree) (c : Candidate) → ListAsksNoTerm (trait_list S i ts c) }
    ensures effects { (S : Setting) (b : BoundConstness) (i : TraitId) (ts : List Tree) (c : Candidate) → ListAsksNoTerm (effect_list S b i ts c) }
{}

/// A list that holds, gives a term or is refuted at a height does so at every greater one.
pub fn more_height_keeps_lists()
    ensures holds { (S : Setting) (n m : ℕ) → n ≤ m → (l : Option (List Entry)) → ListHolds (level S n) l → ListHolds (level S m) l }
    ensures gives { (S : Setting) (n m : ℕ) → n ≤ m → (l : Option (List Entry)) (t : Tree) → ListGives (level S n) l t → ListGives (level S m) l t }
    ensures refuted { (S : Setting) (n m : ℕ) → n ≤ m → (l : Option (List Entry)) → ListRefuted (level S n) l → ListRefuted (level S m) l }
{}

/// A list that holds or gives a term at some height is refuted at none, and it gives one term at most,
/// whatever the heights.
pub fn no_list_goes_both_ways()
    ensures holds { (S : Setting) (n m : ℕ) (l : Option (List Entry)) → ListHolds (level S n) l → ListRefuted (level S m) l → ⊥ }
    ensures gives { (S : Setting) (n m : ℕ) (l : Option (List Entry)) (t : Tree) → ListGives (level S n) l t → ListRefuted (level S m) l → ⊥ }
    ensures one_term { (S : Setting) (n m : ℕ) (l : Option (List Entry)) (t u : Tree) → ListGives (level S n) l t → ListGives (level S m) l u → t ≡ u }
{}
