//! Which rules hold an inference variable, or define an opaque type.
ghost use Rattle.std.specs.Prelude.{◌≡◌, ◌||◌};
ghost use Rattle.std.specs.List.{list_any};
ghost use Rattle.goal_terms.specs.NodeTests.{is_any_infer, some_node};
ghost use Rattle.goal_terms.specs.TreeOf.{tree_of_term};
ghost use Rattle.goal_tables.specs.Predicates.{some_in_args, some_in_clause_kind, some_in_env as some_env};
ghost use Rattle.goal_solver.specs.RunRules.{some_in_arguments, some_in_term, some_in_entry};

use goal_checks::predicate_terms::{PredicateTerms, some_in_env};
use goal_kinds::rules::{RuleArguments, RuleEntry, RuleTerm};
use goal_terms::node_tests::NodeTest;
use goal_terms::predicates::{Clause, ClauseKind};
use goal_terms::terms::{GenericArg, Term};

/// Whether an inference variable stands in a rule's entries, expected terms aside, or in the environment, or
/// one of the entries is an opaque type's hidden type.
/// Region variables do not count.
pub(crate) fn has_variable(entries: &[RuleEntry], environment: &[Clause]) -> bool
    ensures { result ≡ (list_any (some_in_entry is_any_infer) entries.now || some_env is_any_infer environment.now) }
{
    entries_have_variable(entries) || some_in_env(NodeTest::IsAnyInfer, environment)
}

fn entries_have_variable(entries: &[RuleEntry]) -> bool
    ensures { result ≡ list_any (some_in_entry is_any_infer) entries.now }
{
    entries.iter().any(|entry| entry_has_variable(entry))
}

/// Whether an inference variable stands in an entry, its expected term aside. A hidden type counts as such.
fn entry_has_variable(entry: &RuleEntry) -> bool
    ensures { result ≡ some_in_entry is_any_infer entry.now }
{
    match entry {
        RuleEntry::Arguments(arguments) => arguments_have_variable(arguments),
        RuleEntry::Equation(left, right) => args_have_variable(left) || args_have_variable(right),
        RuleEntry::Clause(_, clause) => clause_has_variable(clause),
        RuleEntry::Term(_, term) => term_has_variable(term),
        RuleEntry::HiddenType(_, _, _) => true,
        RuleEntry::RowClauses(_, _)
        | RuleEntry::RowConditions(_, _, _)
        | RuleEntry::Access(_)
        | RuleEntry::DelayedFault(_)
        | RuleEntry::Evaluation
        | RuleEntry::Ambiguous
        | RuleEntry::Undecided
        | RuleEntry::Refused => false,
    }
}

fn arguments_have_variable(arguments: &RuleArguments) -> bool
    ensures { result ≡ some_in_arguments is_any_infer arguments.now }
{
    match arguments {
        RuleArguments::Given(args)
        | RuleArguments::Header(_, args)
        | RuleArguments::Followed(_, args) => args_have_variable(args),
        RuleArguments::OtherImpl(_, _, _) => false,
    }
}

fn args_have_variable(args: &[GenericArg]) -> bool
    ensures { result ≡ some_in_args is_any_infer args.now }
{
    args.iter()
        .any(|argument| NodeTest::IsAnyInfer.passes_in(argument.view()))
}

fn clause_has_variable(clause: &ClauseKind) -> bool
    ensures { result ≡ some_in_clause_kind is_any_infer clause.now }
{
    match clause {
        ClauseKind::Trait(predicate) => predicate.some_passes(NodeTest::IsAnyInfer),
        ClauseKind::Projection(predicate) => predicate.some_passes(NodeTest::IsAnyInfer),
        ClauseKind::HostEffect(predicate) => predicate.some_passes(NodeTest::IsAnyInfer),
    }
}

fn term_has_variable(term: &RuleTerm) -> bool
    ensures { result ≡ some_in_term is_any_infer term.now }
{
    match term {
        RuleTerm::AsItStands(term) | RuleTerm::Normalized(term) => has_variable_in(term),
        RuleTerm::Value(_, _) => false,
        RuleTerm::ChosenBy(clause, first, second) => {
            clause_has_variable(clause) || has_variable_in(first) || has_variable_in(second)
        }
    }
}

fn has_variable_in(term: &Term) -> bool
    ensures { result ≡ some_node is_any_infer (tree_of_term term.now) }
{
    NodeTest::IsAnyInfer.passes_in(term.view())
}
