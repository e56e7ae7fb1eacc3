//! The rules of a goal's candidates, class by class. Nothing is evaluated here.
ghost use Rattle.std.specs.Prelude.{◌≡◌, ◌≢◌, ◌<◌, ◌∷◌, ◌++◌, [], true, false, length, map, Some, Err, IfOk, IsOkUnless};
ghost use Rattle.std.specs.List.{All, list_any};
ghost use Rattle.goal_terms.specs.Erased.{erased};
ghost use Rattle.goal_terms.specs.Occurrences.{has_error};
ghost use Rattle.goal_terms.specs.PredicateTrees.{tree_of_kind};
ghost use Rattle.goal_terms.specs.TreeOf.{tree_of_arg, tree_of_clause, tree_of_ty, trees_of};
ghost use Rattle.goal_tables.specs.Rows.{item_of, opaque_of};
ghost use Rattle.goal_kinds.specs.CandidateRules.{HasNoKindFault, said_by, seen_trait};
ghost use Rattle.goal_lists.specs.Candidates.{assumption, built_in, error, object_bound, environment, rest};
ghost use Rattle.goal_lists.specs.Fitting.{first_constructor};
ghost use Rattle.goal_lists.specs.Premises.{predicate_under};
ghost use Rattle.goal_kinds.specs.KindWords.{words_for, AnswersWhere, HasList};
ghost use Rattle.goal_kinds.specs.Collecting.{is_later_named, is_any_named, args_and_itself, clauses_of_item, clauses_of_opaque, kind_of};
ghost use Rattle.goal_kinds.specs.Collecting.{AddsFor, AddsClause, AddsImpl, CollectsClauses, CollectsImpls, CollectsAt, CollectsOthers, CollectsObjects, CollectsDeclared, CollectsAlias, CollectsSelf, goal_in, CollectsFor, KeepTermsFor};
ghost use Rattle.goal_kinds.specs.Collecting.{has_kind_fault};

use crate::faults::Fault;
use crate::goal_kind::{GoalKind, TraitView};
use crate::rules::Rule;
use goal_checks::checked::CheckedTables;
use goal_interner::term_nodes::OutOfMemory;
use goal_tables::rows::ImplRow;
use goal_terms::answers::{BuiltinImplSource, CandidateSource, Certainty, TraitGoalProvenVia};
use goal_terms::heads::Node;
use goal_terms::ids::{ItemId, OpaqueId};
use goal_terms::instantiate::{instantiate, rebase_onto};
use goal_terms::modes::TypingMode;
use goal_terms::predicates::{
    Clause, ClauseKind, Goal, ProjectionPredicate, TraitPredicate, TraitRef,
};
use goal_terms::terms::{AliasTerm, AliasTermKind, DynClause, GenericArg, Ty};
use std::alloc::Global;

/// A place as a number of 32 bits. Want of numbers is the refusal.
fn numbered(place: usize) -> Result<u32, OutOfMemory>
    ensures { IfOk result (λ number. number ≡ place) }
{
    if place > u32::MAX as usize {
        return Err(OutOfMemory);
    }
    Ok(place as u32)
}

/// Adds a rule. Want of memory is the only refusal.
fn push_rule(found: &mut Vec<Rule>, rule: Rule) -> Result<(), OutOfMemory>
    ensures { IfOk result (λ _. found.new.items ≡ found.old.items ++ rule ∷ []) }
{
    found.push(rule)?;
    Ok(())
}

/// Adds the rule of a clause, unless the fast rejection doesn't let the clause pass. Want of memory is the
/// only refusal.
fn push_clause_rule<G: GoalKind>(
    tables: &CheckedTables,
    mode: &TypingMode,
    goal: &Goal<G>,
    source: CandidateSource,
    clause: &Clause,
    found: &mut Vec<Rule>,
) -> Result<(), Fault>
    ensures adds { IfOk result (λ _. AddsClause (words_for G.words tables.now goal.now mode.now) clause.now.kind found.old.items found.new.items) }
    ensures expected { IfOk result (λ _. KeepTermsFor (G.words.expected goal.now.predicate) found.old.items found.new.items) }
    ensures only_memory { IsOkUnless result Fault.OutOfMemory }
{
    match G::probe_and_match_goal_against_assumption(
        tables,
        mode,
        goal,
        source,
        clause,
        Certainty::Yes,
    ) {
        Ok(rule) => Ok(push_rule(found, rule)?),
        Err(Fault::NoSolution) => Ok(()),
        Err(fault) => Err(fault),
    }
}

/// Adds the rules of the clauses of a goal's environment, in order. Want of memory is the only refusal.
fn push_environment_rules<G: GoalKind>(
    tables: &CheckedTables,
    mode: &TypingMode,
    goal: &Goal<G>,
    found: &mut Vec<Rule>,
) -> Result<(), Fault>
    requires accepted { HasNoKindFault (λ f. G.has_fault goal.now.predicate tables.now f) }
    ensures collected { IfOk result (λ _. CollectsClauses (words_for G.words tables.now goal.now mode.now) goal.now.param_env.items found.old.items found.new.items) }
    ensures expected { IfOk result (λ _. KeepTermsFor (G.words.expected goal.now.predicate) found.old.items found.new.items) }
    ensures only_memory { IsOkUnless result Fault.OutOfMemory }
{
    G::rejected_clauses_are_refuted();
    tables.rows();
    let clauses = goal.param_env.as_slice();
    for k in 0..clauses.len() {
        let source = CandidateSource::ParamEnv(numbered(k)?);
        push_clause_rule(tables, mode, goal, source, &clauses[k], found)?;
    }
    Ok(())
}

/// Adds the rule of an impl of the goal's trait. No impl of that trait is refused for another reason than
/// that it is refuted, or want of memory.
fn push_impl_rule<G: GoalKind>(
    tables: &CheckedTables,
    mode: &TypingMode,
    goal: &Goal<G>,
    row: &ImplRow,
    found: &mut Vec<Rule>,
) -> Result<(), Fault>
    requires accepted { HasNoKindFault (λ f. G.has_fault goal.now.predicate tables.now f) }
    ensures adds { IfOk result (λ _. AddsImpl (words_for G.words tables.now goal.now mode.now) row.now found.old.items found.new.items) }
    ensures expected { IfOk result (λ _. KeepTermsFor (G.words.expected goal.now.predicate) found.old.items found.new.items) }
    ensures only_memory { IsOkUnless result Fault.OutOfMemory }
{
    match G::consider_impl_candidate(tables, mode, goal, row.id, Certainty::Yes) {
        Ok(rule) => Ok(push_rule(found, rule)?),
        Err(Fault::NoSolution) => Ok(()),
        Err(_) => Err(Fault::OutOfMemory),
    }
}

/// Adds the rules of the impls at some places, in order. Want of memory is the only refusal.
fn push_rules_at<G: GoalKind>(
    tables: &CheckedTables,
    mode: &TypingMode,
    goal: &Goal<G>,
    places: &[usize],
    found: &mut Vec<Rule>,
) -> Result<(), Fault>
    requires accepted { HasNoKindFault (λ f. G.has_fault goal.now.predicate tables.now f) }
    requires places { All (λ p. p < length tables.now.impls.items) places.now }
    ensures collected { IfOk result (λ _. CollectsAt (words_for G.words tables.now goal.now mode.now) places.now found.old.items found.new.items) }
    ensures expected { IfOk result (λ _. KeepTermsFor (G.words.expected goal.now.predicate) found.old.items found.new.items) }
    ensures only_memory { IsOkUnless result Fault.OutOfMemory }
{
    let rows = tables.rows();
    for i in 0..places.len() {
        let row = rows.impl_at(places[i]);
        push_impl_rule(tables, mode, goal, row, found)?;
    }
    Ok(())
}

/// The constructor at the top of the first argument; none where it is an alias or a variable.
fn first_constructor(args: &[GenericArg]) -> Option<Node>
    ensures { result ≡ first_constructor (trees_of args.now) }
{
    match args.first()?.view().node() {
        Node::Head(head) => Some(Node::Head(head)),
        Node::Alias(_) | Node::Variable(_) => None,
    }
}

/// Adds the rules of the impls of a goal's trait, in the order of their rows. Where the head of the self type is known,
/// impls of another head aren't looked at. Want of memory is the only refusal.
fn push_impl_rules<G: GoalKind>(
    tables: &CheckedTables,
    mode: &TypingMode,
    goal: &Goal<G>,
    asked: TraitView<'_>,
    found: &mut Vec<Rule>,
) -> Result<(), Fault>
    requires accepted { HasNoKindFault (λ f. G.has_fault goal.now.predicate tables.now f) }
    requires asked { G.words.asked goal.now.predicate tables.now ≡ Some (seen_trait asked) }
    ensures collected { IfOk result (λ _. CollectsImpls (words_for G.words tables.now goal.now mode.now) asked.entry.def_id found.old.items found.new.items) }
    ensures expected { IfOk result (λ _. KeepTermsFor (G.words.expected goal.now.predicate) found.old.items found.new.items) }
    ensures only_memory { IsOkUnless result Fault.OutOfMemory }
{
    G::other_heads_are_refuted();
    let rows = tables.rows();
    let Some(head) = first_constructor(asked.args) else {
        return push_rules_at(tables, mode, goal, rows.impls_of_trait(asked.def_id), found);
    };
    let Ok(places) = rows.impls_with_head(asked.def_id, head) else {
        return Err(Fault::OutOfMemory);
    };
    push_rules_at(tables, mode, goal, places.as_slice(), found)
}

/// Whether a function of a named rule is for the goal, by what it answered.
fn is_for_goal(answer: &Result<Rule, Fault>) -> bool
    ensures other { result ≡ false → answer.now ≡ Err Fault.NotForThisKind }
    ensures own { result ≡ true → answer.now ≢ Err Fault.NotForThisKind }
{
    match answer {
        Err(Fault::NotForThisKind) => false,
        _ => true,
    }
}

/// The first that is for the goal of the trait alias and the built-in rules, or else `NotForThisKind`.
fn named_rule<G: GoalKind>(
    tables: &CheckedTables,
    mode: &TypingMode,
    goal: &Goal<G>,
) -> Result<Rule, Fault>
    ensures answer { AnswersWhere (words_for G.words tables.now goal.now mode.now) (is_any_named (G.words.is_for goal.now.predicate tables.now)) result }
    ensures list { IfOk result (HasList (words_for G.words tables.now goal.now mode.now) Certainty.Yes built_in) }
{
    let alias = G::consider_trait_alias_candidate(tables, mode, goal);
    if is_for_goal(&alias) {
        return alias;
    }
    let sized = G::consider_builtin_sizedness_candidates(tables, mode, goal);
    if is_for_goal(&sized) {
        return sized;
    }
    let copied = G::consider_builtin_copy_clone_candidate(tables, mode, goal);
    if is_for_goal(&copied) {
        return copied;
    }
    let pointer = G::consider_builtin_fn_ptr_trait_candidate(tables, mode, goal);
    if is_for_goal(&pointer) {
        return pointer;
    }
    let called = G::consider_builtin_fn_trait_candidates(tables, mode, goal);
    if is_for_goal(&called) {
        return called;
    }
    later_named_rule(tables, mode, goal)
}

/// The first that is for the goal of the later half of these rules, or else `NotForThisKind`.
fn later_named_rule<G: GoalKind>(
    tables: &CheckedTables,
    mode: &TypingMode,
    goal: &Goal<G>,
) -> Result<Rule, Fault>
    ensures answer { AnswersWhere (words_for G.words tables.now goal.now mode.now) (is_later_named (G.words.is_for goal.now.predicate tables.now)) result }
    ensures list { IfOk result (HasList (words_for G.words tables.now goal.now mode.now) Certainty.Yes built_in) }
{
    let tuple = G::consider_builtin_tuple_candidate(tables, mode, goal);
    if is_for_goal(&tuple) {
        return tuple;
    }
    let pointee = G::consider_builtin_pointee_candidate(tables, mode, goal);
    if is_for_goal(&pointee) {
        return pointee;
    }
    let discriminant = G::consider_builtin_discriminant_kind_candidate(tables, mode, goal);
    if is_for_goal(&discriminant) {
        return discriminant;
    }
    let dropped = G::consider_builtin_destruct_candidate(tables, mode, goal);
    if is_for_goal(&dropped) {
        return dropped;
    }
    G::consider_builtin_field_candidate(tables, mode, goal)
}

/// Adds the rule of the trait alias, or the built-in rule, if one is for the goal. Want of memory is the only
/// refusal.
fn push_built_in_rule<G: GoalKind>(
    tables: &CheckedTables,
    mode: &TypingMode,
    goal: &Goal<G>,
    found: &mut Vec<Rule>,
) -> Result<(), Fault>
    ensures adds { IfOk result (λ _. AddsFor (words_for G.words tables.now goal.now mode.now) built_in found.old.items found.new.items) }
    ensures only_memory { IsOkUnless result Fault.OutOfMemory }
{
    match named_rule(tables, mode, goal) {
        Ok(rule) => Ok(push_rule(found, rule)?),
        Err(Fault::OutOfMemory) => Err(Fault::OutOfMemory),
        Err(_) => Ok(()),
    }
}

/// Whether an error stands in some arguments.
fn has_error_in(args: &[GenericArg]) -> bool
    ensures { result ≡ list_any (λ a. has_error (tree_of_arg a)) args.now }
{
    args.iter().any(|argument| argument.view().has_error())
}

/// Adds the rule of an error, if one stands in what a goal asks of its trait. Want of memory is the only
/// refusal.
fn push_error_rule<G: GoalKind>(
    tables: &CheckedTables,
    mode: &TypingMode,
    goal: &Goal<G>,
    found: &mut Vec<Rule>,
) -> Result<(), Fault>
    ensures adds { IfOk result (λ _. AddsFor (words_for G.words tables.now goal.now mode.now) error found.old.items found.new.items) }
    ensures only_memory { IsOkUnless result Fault.OutOfMemory }
{
    let Some(asked) = goal.predicate.trait_ref(tables) else {
        return Ok(());
    };
    if !has_error_in(asked.args) {
        return Ok(());
    }
    match G::consider_error_guaranteed_candidate(tables, mode, goal) {
        Ok(rule) => Ok(push_rule(found, rule)?),
        Err(Fault::NoSolution) => Ok(()),
        Err(fault) => Err(fault),
    }
}

/// A clause under arguments.
fn clause_under(alloc: Global, clause: &Clause, args: &[GenericArg]) -> Result<Clause, OutOfMemory>
    ensures { IfOk result (λ c. said_by c.kind ≡ assumption (predicate_under (map erased (trees_of args.now)) (tree_of_kind clause.now.kind))) }
{
    Ok(instantiate(alloc, clause, args)?)
}

/// Adds the rules of clauses that a row declares for an alias, under arguments. Want of memory is the only
/// refusal.
fn push_declared_rules<G: GoalKind>(
    tables: &CheckedTables,
    mode: &TypingMode,
    goal: &Goal<G>,
    clauses: &[Clause],
    args: &[GenericArg],
    found: &mut Vec<Rule>,
) -> Result<(), Fault>
    ensures collected { IfOk result (λ _. CollectsDeclared (words_for G.words tables.now goal.now mode.now) args.now clauses.now found.old.items found.new.items) }
    ensures only_memory { IsOkUnless result Fault.OutOfMemory }
{
    let alloc = *goal.param_env.allocator();
    for i in 0..clauses.len() {
        let clause = clause_under(alloc, &clauses[i], args)?;
        push_clause_rule(
            tables,
            mode,
            goal,
            CandidateSource::AliasBound,
            &clause,
            found,
        )?;
    }
    Ok(())
}

/// Adds rules. Want of memory is the only refusal.
pub fn push_rules(found: &mut Vec<Rule>, rules: Vec<Rule>) -> Result<(), OutOfMemory>
    ensures { IfOk result (λ _. found.new.items ≡ found.old.items ++ rules.items) }
{
    for rule in rules {
        found.push(rule)?;
    }
    Ok(())
}

/// The arguments of an alias that is a type, and then the alias itself.
fn args_and_itself(alias: &AliasTerm) -> Result<Vec<GenericArg>, OutOfMemory>
    ensures { IfOk result (λ args. map erased (trees_of args.items) ≡ args_and_itself alias.now) }
{
    let alloc = *alias.args.allocator();
    let rigid_alias = vec![in alloc; GenericArg::Ty(Ty::Alias(alias.clone()?))]?;
    Ok(rebase_onto(alloc, &rigid_alias, 0, &alias.args)?)
}

/// Adds the rules of clauses that a row declares for an alias, which is the self type, and then those that
/// the kind of goals adds for it. Want of memory is the only refusal.
fn push_alias_rules<G: GoalKind>(
    tables: &CheckedTables,
    mode: &TypingMode,
    goal: &Goal<G>,
    alias: &AliasTerm,
    clauses: &[Clause],
    found: &mut Vec<Rule>,
) -> Result<(), Fault>
    ensures collected { IfOk result (λ _. CollectsAlias (words_for G.words tables.now goal.now mode.now) alias.now clauses.now found.old.items found.new.items) }
    ensures only_memory { IsOkUnless result Fault.OutOfMemory }
{
    let args = args_and_itself(alias)?;
    push_declared_rules(tables, mode, goal, clauses, &args, found)?;
    let added = G::consider_additional_alias_assumptions(tables, mode, goal, alias)?;
    push_rules(found, added)?;
    Ok(())
}

/// The clauses that an item's row declares for its alias: none where it has no row.
fn clauses_of_item(tables: &CheckedTables, item: ItemId) -> &[Clause]
    ensures { result.now ≡ clauses_of_item (item_of tables.now item) }
{
    match tables.rows().item_row(item) {
        None => &[],
        Some(row) => row.bounds.as_slice(),
    }
}

/// The clauses that an opaque type's row declares for it: none where it has no row.
fn clauses_of_opaque(tables: &CheckedTables, opaque: OpaqueId) -> &[Clause]
    ensures { result.now ≡ clauses_of_opaque (opaque_of tables.now opaque) }
{
    match tables.rows().opaque_row(opaque) {
        None => &[],
        Some(row) => row.bounds.as_slice(),
    }
}

/// Adds the rules of the bounds of a self type that is a rigid projection or opaque type. Want of memory is
/// the only refusal.
fn push_bound_rules<G: GoalKind>(
    tables: &CheckedTables,
    mode: &TypingMode,
    goal: &Goal<G>,
    self_ty: &Ty,
    found: &mut Vec<Rule>,
) -> Result<(), Fault>
    ensures collected { IfOk result (λ _. CollectsSelf (words_for G.words tables.now goal.now mode.now) self_ty.now found.old.items found.new.items) }
    ensures only_memory { IsOkUnless result Fault.OutOfMemory }
{
    let Ty::Alias(alias) = self_ty else {
        return Ok(());
    };
    match alias.kind {
        AliasTermKind::ProjectionTy(item) => {
            let clauses = clauses_of_item(tables, item);
            push_alias_rules(tables, mode, goal, alias, clauses, found)?;
            Ok(())
        }
        AliasTermKind::OpaqueTy(opaque) => {
            let clauses = clauses_of_opaque(tables, opaque);
            push_alias_rules(tables, mode, goal, alias, clauses, found)?;
            Ok(())
        }
        _ => Ok(()),
    }
}

/// A self type and then arguments.
fn self_and_args(
    alloc: Global,
    self_ty: &Ty,
    args: &[GenericArg],
) -> Result<Vec<GenericArg>, OutOfMemory>
    ensures { IfOk result (λ all. map erased (trees_of all.items) ≡ erased (tree_of_ty self_ty.now) ∷ map erased (trees_of args.now)) }
{
    let first = vec![in alloc; GenericArg::Ty(self_ty.clone()?)]?;
    Ok(rebase_onto(alloc, args, 0, &first)?)
}

/// What a clause of a `dyn` type says of that type.
fn kind_of_object(
    alloc: Global,
    self_ty: &Ty,
    clause: &DynClause,
) -> Result<ClauseKind, OutOfMemory>
    ensures { IfOk result (λ kind. object_bound (erased (tree_of_ty self_ty.now)) (erased (tree_of_clause clause.now)) ≡ said_by kind ∷ []) }
{
    match clause {
        DynClause::Trait(def_id, args) => {
            let args = self_and_args(alloc, self_ty, args)?;
            let trait_ref = TraitRef {
                def_id: *def_id,
                args,
            };
            Ok(ClauseKind::Trait(TraitPredicate { trait_ref }))
        }
        DynClause::Projection(item, args, term) => {
            let args = self_and_args(alloc, self_ty, args)?;
            let kind = AliasTermKind::ProjectionTy(*item);
            let projection_term = AliasTerm { kind, args };
            let term = term.clone()?;
            Ok(ClauseKind::Projection(ProjectionPredicate {
                projection_term,
                term,
            }))
        }
    }
}

/// Adds the rule of what a clause of a `dyn` self type says, unless the fast rejection doesn't let it pass.
/// The type's clause doesn't say how many lifetimes it binds, and no rule asks. Want of memory is the only
/// refusal.
fn push_object_rule<G: GoalKind>(
    tables: &CheckedTables,
    mode: &TypingMode,
    goal: &Goal<G>,
    source: CandidateSource,
    kind: ClauseKind,
    found: &mut Vec<Rule>,
) -> Result<(), Fault>
    ensures adds { IfOk result (λ _. AddsClause (words_for G.words tables.now goal.now mode.now) kind found.old.items found.new.items) }
    ensures only_memory { IsOkUnless result Fault.OutOfMemory }
{
    let clause = Clause {
        bound_regions: 0,
        kind,
    };
    match G::probe_and_consider_object_bound_candidate(tables, mode, goal, source, &clause) {
        Ok(rule) => Ok(push_rule(found, rule)?),
        Err(Fault::NoSolution) => Ok(()),
        Err(fault) => Err(fault),
    }
}

/// Adds the rules of what the clauses of a `dyn` self type say, in order. Want of memory is the only
/// refusal.
fn push_object_rules<G: GoalKind>(
    tables: &CheckedTables,
    mode: &TypingMode,
    goal: &Goal<G>,
    self_ty: &Ty,
    found: &mut Vec<Rule>,
) -> Result<(), Fault>
    ensures collected { IfOk result (λ _. CollectsObjects (words_for G.words tables.now goal.now mode.now) self_ty.now found.old.items found.new.items) }
    ensures only_memory { IsOkUnless result Fault.OutOfMemory }
{
    let Ty::Dynamic(clauses, _) = self_ty else {
        return Ok(());
    };
    let alloc = *goal.param_env.allocator();
    let clauses = clauses.as_slice();
    for k in 0..clauses.len() {
        let place = BuiltinImplSource::Object(numbered(k)?);
        let kind = kind_of_object(alloc, self_ty, &clauses[k])?;
        let source = CandidateSource::BuiltinImpl(place);
        push_object_rule(tables, mode, goal, source, kind, found)?;
    }
    Ok(())
}

/// Adds the rules of the rest: the impls of the goal's trait, the trait alias or built-in rule, what the
/// clauses of a `dyn` self type say, and an error. Want of memory is the only refusal.
fn push_rest_rules<G: GoalKind>(
    tables: &CheckedTables,
    mode: &TypingMode,
    goal: &Goal<G>,
    asked: TraitView<'_>,
    self_ty: &Ty,
    found: &mut Vec<Rule>,
) -> Result<(), Fault>
    requires accepted { HasNoKindFault (λ f. G.has_fault goal.now.predicate tables.now f) }
    requires asked { G.words.asked goal.now.predicate tables.now ≡ Some (seen_trait asked) }
    ensures collected { IfOk result (λ _. CollectsOthers (words_for G.words tables.now goal.now mode.now) asked.entry.def_id self_ty.now found.old.items found.new.items) }
    ensures only_memory { IsOkUnless result Fault.OutOfMemory }
{
    push_impl_rules(tables, mode, goal, asked, found)?;
    push_built_in_rule(tables, mode, goal, found)?;
    push_object_rules(tables, mode, goal, self_ty, found)?;
    push_error_rule(tables, mode, goal, found)?;
    Ok(())
}

/// The rules of the candidates of a class for a goal, in the order of the candidates. The goal is read as it
/// is given, and its self type as a head form. A goal without a trait or a self type has no rules of the
/// latter two classes. Want of memory is the only refusal.
pub fn class_rules<G: GoalKind>(
    tables: &CheckedTables,
    mode: &TypingMode,
    goal: &Goal<G>,
    class: TraitGoalProvenVia,
) -> Result<Vec<Rule>, Fault>
    requires accepted { has_kind_fault G.has_fault tables.now goal.now ≡ false }
    ensures collected { IfOk result (λ rs. CollectsFor (kind_of G.words G.has_fault) (goal_in tables.now goal.now mode.now) class rs.items) }
    ensures only_memory { IsOkUnless result Fault.OutOfMemory }
{
    let mut found = Vec::new(*goal.param_env.allocator());
    if let TraitGoalProvenVia::ParamEnv = class {
        push_environment_rules(tables, mode, goal, &mut found)?;
        return Ok(found);
    }
    let Some(asked) = goal.predicate.trait_ref(tables) else {
        return Ok(found);
    };
    let Some(self_ty) = goal.predicate.self_ty() else {
        return Ok(found);
    };
    if let TraitGoalProvenVia::AliasBound = class {
        push_bound_rules(tables, mode, goal, self_ty, &mut found)?;
    } else {
        push_rest_rules(tables, mode, goal, asked, self_ty, &mut found)?;
    }
    Ok(found)
}
