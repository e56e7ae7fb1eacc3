//! The laws of rules as data, each the contract of a function that does nothing: they speak of all
//! settings, heights and lists of entries.
ghost use Rattle.std.specs.Prelude.{◌≡◌, ◌≤◌, ℕ};
ghost use Rattle.goal_terms.specs.Tree.{Tree};
ghost use Rattle.goal_lists.specs.Levels.{level};
ghost use Rattle.goal_kinds.specs.RuleLists.{RuleListHolds, RuleListGives, RuleListRefuted};
ghost use Rattle.goal_kinds.specs.Rules.{RuleHolds, RuleGives, RuleRefuted};
ghost use Rattle.goal_lists.specs.Settings.{Setting};
ghost use Rattle.goal_kinds.specs.declared.rules.Rule.{Rule};

/// A rule that holds, gives a term or is refuted at a height does so at every greater one.
pub fn more_height_keeps_rules()
    ensures holds { (S : Setting) (n m : ℕ) → n ≤ m → (r : Rule) → RuleHolds S (level S n) r → RuleHolds S (level S m) r }
    ensures gives { (S : Setting) (n m : ℕ) → n ≤ m → (r : Rule) (t : Tree) → RuleGives S (level S n) r t → RuleGives S (level S m) r t }
    ensures refuted { (S : Setting) (n m : ℕ) → n ≤ m → (r : Rule) → RuleRefuted S (level S n) r → RuleRefuted S (level S m) r }
{}

/// A rule that holds or gives a term at some height is refuted at none, and it gives one term at most,
/// whatever the heights.
pub fn no_rule_goes_both_ways()
    ensures holds { (S : Setting) (n m : ℕ) (r : Rule) → RuleHolds S (level S n) r → RuleRefuted S (level S m) r → ⊥ }
    ensures gives { (S : Setting) (n m : ℕ) (r : Rule) (t : Tree) → RuleGives S (level S n) r t → RuleRefuted S (level S m) r → ⊥ }
    ensures one_term { (S : Setting) (n m : ℕ) (r : Rule) (t u : Tree) → RuleGives S (level S n) r t → RuleGives S (level S m) r u → t ≡ u }
{}

/// A rule holds, gives a term and is refuted at each height just where its list of entries, with the rows
/// of the tables in place of their ids, does.
pub fn rules_say_what_their_lists_do()
    ensures holds { (S : Setting) (n : ℕ) (r : Rule) → RuleListHolds S (level S n) r }
    ensures gives { (S : Setting) (n : ℕ) (r : Rule) (t : Tree) → RuleListGives S (level S n) r t }
    ensures refuted { (S : Setting) (n : ℕ) (r : Rule) → RuleListRefuted S (level S n) r }
{}
