//! The candidates for a goal of a trait, whose self type is a head form.
ghost use Rattle.std.specs.Prelude.{◌≡◌, ◌∷◌, ◌<◌, [], List, length, IfOk};
ghost use Rattle.std.specs.List.{All};
ghost use Rattle.goal_interner.specs.TableMeaning.{Keeps};
ghost use Rattle.goal_terms.specs.Tree.{Tree};
ghost use Rattle.goal_terms.specs.declared.modes.TypingMode.{TypingMode};
ghost use Rattle.goal_lists.specs.Answers.{setting_of};
ghost use Rattle.goal_lists.specs.CandidateWords.{AddsCandidates, AddsImpls, GivesCandidates, fitting_for, class_for, ForImplsAt, ForEachSetting};
ghost use Rattle.goal_lists.specs.Candidates.{by_impl, impls_for, rest, second_group};
ghost use Rattle.goal_lists.specs.Fitting.{trees_at, first_constructor, fitting};
ghost use Rattle.goal_lists.specs.Interned.{IsIn, AreIn, CandidateIn};

use crate::candidates::bounds::push_alias_bounds;
use crate::candidates::environment::push_environment;
use crate::candidates::fitting::may_fit;
use crate::candidates::interned::InternedCandidate;
use crate::candidates::objects::push_object_bounds;
use goal_interner::term_nodes::{OutOfMemory, TermId};
use goal_interner::term_table::TermTable;
use goal_tables::lookup::IndexedTables;
use goal_tables::rows::ImplRow;
use goal_terms::answers::TraitGoalProvenVia;
use goal_terms::heads::Node;
use goal_terms::ids::{ItemId, TraitId};
use goal_terms::predicates::Clause;

/// A trait that is asked of arguments, with the head form of their self type, or the item of it whose term is asked
/// for, and then the arguments are the item's.
#[derive(Clone, Copy)]
pub struct Sought<'a> {
    pub trait_id: TraitId,
    pub item: Option<ItemId>,
    pub self_ty: TermId,
    pub args: &'a [TermId],
}

/// Adds an impl, if it may fit given arguments. Want of memory is the only refusal.
fn push_impl<'t>(
    terms: &TermTable,
    found: &mut Vec<InternedCandidate<'t>>,
    args: &[TermId],
    row: &'t ImplRow,
) -> Result<(), OutOfMemory>
    requires known { AreIn terms.now args.now }
    ensures within { (T : List Tree) → All (CandidateIn T) found.old.items → IfOk result (λ _. All (CandidateIn T) found.new.items) }
    ensures pushed { (T : List Tree) → IfOk result (λ _. AddsCandidates T T found.old found.new (fitting (trees_at terms.now args.now) (by_impl row.now ∷ []))) }
{
    if may_fit(terms, args, row) {
        found.push(InternedCandidate::Impl(row))?;
    }
    Ok(())
}

/// The constructor at the top of the first of some arguments. There is none where that is an alias or an
/// inference variable.
fn first_constructor(terms: &TermTable, args: &[TermId]) -> Option<Node>
    requires { AreIn terms.now args.now }
    ensures { result ≡ first_constructor (trees_at terms.now args.now) }
{
    if args.is_empty() {
        return None;
    }
    let node = terms.node(args[0]);
    match node {
        Node::Head(_) => Some(node),
        Node::Alias(_) | Node::Variable(_) => None,
    }
}

/// Adds the impls at some places that may fit given arguments, in their order. Want of memory is the only
/// refusal.
fn push_places<'t>(
    rows: &'t IndexedTables,
    terms: &TermTable,
    found: &mut Vec<InternedCandidate<'t>>,
    places: &[usize],
    args: &[TermId],
) -> Result<(), OutOfMemory>
    requires known { AreIn terms.now args.now }
    requires places { All (λ p. p < length rows.now.impls.items) places.now }
    ensures within { (T : List Tree) → All (CandidateIn T) found.old.items → IfOk result (λ _. All (CandidateIn T) found.new.items) }
    ensures pushed { (T : List Tree) → ForImplsAt rows.now places.now (λ impls. IfOk result (λ _. AddsImpls T found.old found.new (trees_at terms.now args.now) impls)) }
{
    for i in 0..places.len() {
        push_impl(terms, found, args, rows.impl_at(places[i]))?;
    }
    Ok(())
}

/// Adds the impls of a trait that may fit given arguments, in the order of their rows. Want of memory is
/// the only refusal.
fn push_impls<'t>(
    rows: &'t IndexedTables,
    terms: &TermTable,
    found: &mut Vec<InternedCandidate<'t>>,
    trait_id: TraitId,
    args: &[TermId],
) -> Result<(), OutOfMemory>
    requires known { AreIn terms.now args.now }
    ensures within { (T : List Tree) → All (CandidateIn T) found.old.items → IfOk result (λ _. All (CandidateIn T) found.new.items) }
    ensures pushed { (T : List Tree) → IfOk result (λ _. AddsImpls T found.old found.new (trees_at terms.now args.now) (impls_for rows.now trait_id)) }
{
    let Some(head) = first_constructor(terms, args) else {
        return push_places(rows, terms, found, rows.impls_of_trait(trait_id), args);
    };
    let places = rows.impls_with_head(trait_id, head)?;
    push_places(rows, terms, found, places.as_slice(), args)
}

/// Adds the impls of a trait that may fit, its meaning or built-in rule, what a `dyn` self type's clauses
/// say, and an error. The table gets their terms. Want of memory or of numbers is the only refusal.
fn push_rest<'t>(
    rows: &'t IndexedTables,
    terms: &mut TermTable,
    found: &mut Vec<InternedCandidate<'t>>,
    sought: &Sought<'_>,
) -> Result<(), OutOfMemory>
    requires self_ty { IsIn terms.old sought.now.self_ty }
    requires args { AreIn terms.old sought.now.args.now }
    requires within { All (CandidateIn terms.old) found.old.items }
    ensures kept { Keeps terms.old terms.new }
    ensures within { IfOk result (λ _. All (CandidateIn terms.new) found.new.items) }
    ensures pushed { ForEachSetting rows.now (λ S. IfOk result (λ _. AddsCandidates terms.old terms.new found.old found.new (fitting_for terms.old sought.now (rest S)))) }
{
    push_impls(rows, terms, found, sought.trait_id, sought.args)?;
    found.push(InternedCandidate::BuiltIn)?;
    push_object_bounds(terms, found, sought.self_ty)?;
    found.push(InternedCandidate::Error)?;
    Ok(())
}

/// The candidates of a class that may fit, in order: the environment's clauses that may be about what is sought, the bounds
/// of a self type that is a rigid projection or opaque type, or the rest. The table gets their terms. Want of memory or of
/// numbers is the only refusal.
pub fn candidates_of_class<'t>(
    rows: &'t IndexedTables,
    environment: &[Clause],
    terms: &mut TermTable,
    sought: &Sought<'_>,
    class: TraitGoalProvenVia,
) -> Result<Vec<InternedCandidate<'t>>, OutOfMemory>
    requires self_ty { IsIn terms.old sought.now.self_ty }
    requires args { AreIn terms.old sought.now.args.now }
    ensures kept { Keeps terms.old terms.new }
    ensures within { IfOk result (λ cs. All (CandidateIn terms.new) cs.items) }
    ensures candidates { (m : TypingMode) → GivesCandidates terms.new result (class_for terms.old sought.now (setting_of rows.now m environment.now) class) }
{
    let mut found = Vec::new(terms.allocator());
    match class {
        TraitGoalProvenVia::ParamEnv => {
            push_environment(terms, &mut found, environment, sought)?
        }
        TraitGoalProvenVia::AliasBound => {
            push_alias_bounds(rows, terms, &mut found, sought.self_ty)?
        }
        TraitGoalProvenVia::Misc => push_rest(rows, terms, &mut found, sought)?,
    }
    Ok(found)
}

/// What is looked at after the environment for a projection or a const trait, by how the trait goal holds,
/// as far as it may fit. The table gets the terms. Want of memory or of numbers is the only refusal.
pub fn second_group<'t>(
    rows: &'t IndexedTables,
    terms: &mut TermTable,
    sought: &Sought<'_>,
    proven_via: TraitGoalProvenVia,
) -> Result<Vec<InternedCandidate<'t>>, OutOfMemory>
    requires self_ty { IsIn terms.old sought.now.self_ty }
    requires args { AreIn terms.old sought.now.args.now }
    ensures kept { Keeps terms.old terms.new }
    ensures within { IfOk result (λ cs. All (CandidateIn terms.new) cs.items) }
    ensures candidates { ForEachSetting rows.now (λ S. GivesCandidates terms.new result (fitting_for terms.old sought.now (λ i t. second_group S i t proven_via))) }
{
    let mut found = Vec::new(terms.allocator());
    push_alias_bounds(rows, terms, &mut found, sought.self_ty)?;
    if let TraitGoalProvenVia::Misc = proven_via {
        push_rest(rows, terms, &mut found, sought)?;
    }
    Ok(found)
}
