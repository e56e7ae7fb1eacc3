//! The laws of the definitions, each the contract of a function that does nothing: they speak of all
//! settings, goals and heights.
ghost use Rattle.std.specs.Prelude.{◌≡◌, ◌≤◌, true, ℕ, List, map};
ghost use Rattle.std.specs.Prelude.{Vec};
ghost use Rattle.std.specs.Global.{Global};
ghost use Rattle.goal_terms.specs.Tree.{Tree};
ghost use Rattle.goal_terms.specs.Erased.{erased};
ghost use Rattle.goal_terms.specs.PredicateTrees.{PredicateTree};
ghost use Rattle.goal_terms.specs.declared.answers.ParamKind.{ParamKind};
ghost use Rattle.goal_terms.specs.declared.answers.TraitGoalProvenVia.{TraitGoalProvenVia};
ghost use Rattle.goal_terms.specs.declared.heads.Node.TheVariants as nodes;
ghost use Rattle.goal_terms.specs.declared.ids.TraitId.{TraitId};
ghost use Rattle.goal_terms.specs.declared.modes.TypingMode.{TypingMode};
ghost use Rattle.goal_terms.specs.declared.predicates.BoundConstness.{BoundConstness};
ghost use Rattle.goal_terms.specs.declared.predicates.BoundConstness.TheVariants.{Const, Maybe};
ghost use Rattle.goal_terms.specs.declared.predicates.Clause.{Clause};
ghost use Rattle.goal_tables.specs.declared.rows.ImplRow.{ImplRow};
ghost use Rattle.goal_tables.specs.declared.rows.Tables.{Tables};
ghost use Rattle.goal_lists.specs.Answers.{Question, Answer, IsAnswer, decides};
ghost use Rattle.goal_lists.specs.Headers.{Fits, Clashes};
ghost use Rattle.goal_kinds.specs.LawWords.{HeightKeeps, AnswersAgree, ClassesAgree, FitsUnderOne, NoFitClashes, ConstImpliesPlain, OrderSaysNothing, HeadlinesAgree, AliasesStayClosed, AliasesKeepSorts};
ghost use Rattle.goal_lists.specs.Levels.{level};
ghost use Rattle.goal_lists.specs.Settings.{Setting};

pub mod fast_reject;
pub mod list_examples;
pub mod lists;
pub mod projection_kind;
pub mod rules;
pub mod worked_examples;

/// What is proved at a height is proved at every greater one: each decided answer, the class of a
/// trait goal, equal and unequal terms, headers that fit or clash.
pub fn more_height_keeps_all()
    ensures answers { (S : Setting) (n m : ℕ) (q : Question) (a : Answer) → n ≤ m → decides a ≡ true → IsAnswer (level S n) q a → IsAnswer (level S m) q a }
    ensures classes { (S : Setting) (n m : ℕ) (c : TraitGoalProvenVia) (i : TraitId) (ts : List Tree) → HeightKeeps n m (λ k. (level S k).through c i ts) }
    ensures equal_terms { (S : Setting) (n m : ℕ) (t u : Tree) → HeightKeeps n m (λ k. (level S k).equal t u) }
    ensures unequal_terms { (S : Setting) (n m : ℕ) (t u : Tree) → HeightKeeps n m (λ k. (level S k).unequal t u) }
    ensures fits { (S : Setting) (n m : ℕ) (params : List ParamKind) (hs gs s : List Tree) → HeightKeeps n m (λ k. Fits (level S k) params hs gs s) }
    ensures clashes { (S : Setting) (n m : ℕ) (params : List ParamKind) (hs gs : List Tree) → HeightKeeps n m (λ k. Clashes (level S k) params hs gs) }
{}

/// No two proofs disagree, of any heights: a goal that holds is not refuted, an alias has one term, a
/// trait goal holds through one class, no terms are equal and unequal, and a header, which has no
/// lifetimes, fits under one substitution at most, and not if it clashes.
pub fn no_two_proofs_disagree()
    ensures answers { (S : Setting) (n m : ℕ) (q : Question) → AnswersAgree (level S n) (level S m) q }
    ensures classes { (S : Setting) (n m : ℕ) (c d : TraitGoalProvenVia) → ClassesAgree (level S n) (level S m) c d }
    ensures terms { (S : Setting) (n m : ℕ) (t u : Tree) → (level S n).equal t u → (level S m).unequal t u → ⊥ }
    ensures substitutions { (S : Setting) (n m : ℕ) (params : List ParamKind) (hs gs : List Tree) → FitsUnderOne (level S n) (level S m) params hs gs }
    ensures headers { (S : Setting) (n m : ℕ) (params : List ParamKind) (ts : List Tree) → NoFitClashes (level S n) (level S m) params (map erased ts) }
{}

/// What holds as `const` at some height is refuted as `[const]` at none.
pub fn const_is_stronger()
    ensures never_refuted { (S : Setting) (n m : ℕ) (i : TraitId) (ts : List Tree) → (level S n).const_holds Const i ts → (level S m).const_refuted Maybe i ts → ⊥ }
{}

/// Where a trait holds as a const trait, its plain goal holds.
pub fn const_implies_plain()
    ensures plain_goal_holds { (S : Setting) (n : ℕ) (c : BoundConstness) (i : TraitId) (ts : List Tree) → ConstImpliesPlain (level S n) c i ts }
{}

/// Accepted tables whose impls stand in another order give the same answers.
pub fn order_of_impls_says_nothing()
    ensures same_answers { (t : Tables) (v : Vec ImplRow Global) (m : TypingMode) (env : List PredicateTree) → OrderSaysNothing t v m env }
{}

/// Over tables without opaque types and default sources each headline mode gives the same answers.
pub fn headline_modes_agree()
    ensures same_answers { (t : Tables) (m k : TypingMode) (env : List PredicateTree) → HeadlinesAgree t m k env }
{}

/// Over accepted tables, what an alias without inference variables stands for holds none, if the environment holds none.
pub fn closed_aliases_have_closed_terms()
    ensures closed { (t : Tables) (m : TypingMode) (clauses : List Clause) → AliasesStayClosed t m clauses }
{}

/// Over accepted tables the term of an alias of a type is a type, and that of an alias of a constant a
/// constant, if no unknown item, wrong number of arguments or wrong kind lies in the alias and the environment.
pub fn aliases_keep_kinds()
    ensures kinds { (t : Tables) (m : TypingMode) (clauses : List Clause) → AliasesKeepSorts t m clauses }
{}
