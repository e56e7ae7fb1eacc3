//! Rules run one after the other, and what those of them that aren't refused make of a goal together.
ghost use Rattle.std.specs.Prelude.{◌≡◌, ◌↔◌, ◌∷◌, ◌++◌, [], IsTrue, List, Option as option, Err, IfOk, map};
ghost use Rattle.goal_terms.specs.declared.answers.Response.{Response as reply};
ghost use Rattle.goal_solver.specs.Binding.{IsApplicable};
ghost use Rattle.goal_solver.specs.GoingBack.{GoesBack, restored};
ghost use Rattle.goal_solver.specs.MergedRules.{RunsTo, JoinsTo, IfAnswered, MergesRules, AreSame, MergesTo, value_tree, entry_tree};
ghost use Rattle.goal_solver.specs.Relating.{IsFaultFor};
ghost use Rattle.goal_solver.specs.State.{State as state};

use crate::context::EvalCtxt;
use crate::faults::Fault;
use goal_kinds::rules::Rule;
use goal_terms::answers::{OpaqueTypeKey, Response, VarKind};
use goal_terms::predicates::Clause;
use goal_terms::terms::{Region, Term, Ty};

/// What the rules of a class that were run so far make of a goal.
#[derive(Drop)]
pub enum Merged {
    /// Each of them is refused, or there is none.
    Refuted,
    /// Those that aren't refused have this one response.
    Answered(Response),
    /// Two of them have different responses.
    Split,
}

impl Merged {
    /// What is made of a goal with one more response.
    fn with(self, response: Response) -> Merged
        ensures merges { (rs : List reply) → MergesTo rs self → MergesTo (rs ++ response ∷ []) result }
        ensures applies { (s : state) → IfAnswered self (IsApplicable s) → IsApplicable s response → IfAnswered result (IsApplicable s) }
    {
        match self {
            Merged::Refuted => Merged::Answered(response),
            Merged::Answered(first) => {
                if is_same_response(&first, &response) {
                    Merged::Answered(first)
                } else {
                    Merged::Split
                }
            }
            Merged::Split => Merged::Split,
        }
    }
}

/// Whether two responses say the same, lifetimes too.
fn is_same_response(a: &Response, b: &Response) -> bool
    ensures { IsTrue result ↔ AreSame a.now b.now }
{
    if a.certainty != b.certainty || a.base != b.base {
        return false;
    }
    if !has_same_kinds(&a.vars, &b.vars) {
        return false;
    }
    if !has_same_equations(&a.region_equations, &b.region_equations) {
        return false;
    }
    if !has_same_values(&a.var_values, &b.var_values) {
        return false;
    }
    has_same_entries(&a.opaque_entries, &b.opaque_entries)
}

fn has_same_kinds(a: &Vec<VarKind>, b: &Vec<VarKind>) -> bool
    ensures { IsTrue result ↔ (a.now.items ≡ b.now.items) }
{
    a == b
}

fn has_same_equations(a: &Vec<(Region, Region)>, b: &Vec<(Region, Region)>) -> bool
    ensures { IsTrue result ↔ (a.now.items ≡ b.now.items) }
{
    a == b
}

fn has_same_values(a: &Vec<(u32, Term)>, b: &Vec<(u32, Term)>) -> bool
    ensures { IsTrue result ↔ (map value_tree a.now.items ≡ map value_tree b.now.items) }
{
    a == b
}

fn has_same_entries(a: &Vec<(OpaqueTypeKey, Ty)>, b: &Vec<(OpaqueTypeKey, Ty)>) -> bool
    ensures { IsTrue result ↔ (map entry_tree a.now.items ≡ map entry_tree b.now.items) }
{
    a == b
}

impl EvalCtxt<'_> {
    /// Runs rules under an environment, each at the remaining depth and beside the impls that are more special than its
    /// own, and merges their responses. Inference state, added goals and storage are as before.
    #[cycle(open)]
    pub(crate) fn merge_rules(
        &mut self,
        environment: &[Clause],
        rules: &[Rule],
    ) -> Result<Merged, Fault>
        ensures merges { IfOk result (λ m. MergesRules environment.now rules.now self.old m self.new) }
        ensures applies { IfOk result (λ m. IfAnswered m (IsApplicable self.new)) }
        ensures never { result ≡ Err Fault.NoSolution → ⊥ }
        ensures unchanged { self.new ≡ restored self.old self.new }
        ensures goes_back { GoesBack self.old self.new }
        ensures fault { IsFaultFor self.old self.new result }
    {
        let mut merged = Merged::Refuted;
        for rule in rules {
            merged = self.merge_next(environment, rule, merged)?;
        }
        Ok(merged)
    }

    /// Runs one more rule, and merges its response with those before it, if it has one beside more special impls.
    #[cycle(open)]
    fn merge_next(
        &mut self,
        environment: &[Clause],
        rule: &Rule,
        merged: Merged,
    ) -> Result<Merged, Fault>
        requires applies { IfAnswered merged (IsApplicable self.old) }
        ensures joins { IfOk result (λ m. (a : option reply) × RunsTo environment.now rule.now self.old a self.new × JoinsTo a merged m) }
        ensures applies { IfOk result (λ m. IfAnswered m (IsApplicable self.new)) }
        ensures never { result ≡ Err Fault.NoSolution → ⊥ }
        ensures unchanged { self.new ≡ restored self.old self.new }
        ensures goes_back { GoesBack self.old self.new }
        ensures fault { IsFaultFor self.old self.new result }
    {
        self.holds_together();
        match self.run_beside(environment, rule)? {
            None => Ok(merged),
            Some(response) => Ok(merged.with(response)),
        }
    }
}
