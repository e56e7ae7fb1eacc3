//! The terms of projections.
ghost use Rattle.std.specs.Prelude.{◌≡◌, IfErr, IfOk, map};
ghost use Rattle.std.specs.List.{All};
ghost use Rattle.goal_interner.specs.TableMeaning.{Keeps};
ghost use Rattle.goal_lists.specs.Candidates.{environment};
ghost use Rattle.goal_lists.specs.Interned.{IsIn, AreIn, CandidateIn, erased_all, candidate_at};
ghost use Rattle.goal_eval.specs.Outcomes.{Says, FoundIn, ProjectionIn, ForEachMode};
ghost use Rattle.goal_eval.specs.ProjectionParts.{HaveHeadForms, SomeUnformed};
ghost use Rattle.goal_eval.specs.SpecialImpls.{IsOfRows, if_decided};
ghost use Rattle.goal_eval.specs.ProjectionTerms.{SaysBothGroups, SaysGroup, SaysItem, SaysLaterGroup, SaysOwnFormed, SaysProjection, SaysProven, SaysReplaced, given_at, second_at};
ghost use Rattle.goal_eval.specs.Effects.{AreSound, IsStop};

use crate::assembly::merging::merge_terms;
use crate::eval::effects::Effects;
use crate::eval::head_forms::head_form;
use crate::eval::outcomes::{Found, Projection, Setting, Stop};
use crate::normalizes_to::projection_args::{intern_alias, with_self};
use crate::normalizes_to::projection_candidates::consider_term;
use crate::trait_goals::evaluation::evaluate_trait_goal;
use goal_interner::term_nodes::TermId;
use goal_interner::term_table::TermTable;
use goal_lists::candidates::interned::InternedCandidate;
use goal_lists::candidates::lists::{Sought, candidates_of_class, second_group};
use goal_lists::outcomes::{Outcome, TraitOutcome};
use goal_tables::rows::{ItemRow, TraitRow};
use goal_terms::answers::TraitGoalProvenVia;
use goal_terms::ids::ItemId;
use goal_terms::slices::{behind, first_of};
use goal_terms::terms::AliasTermKind;

/// A projection as it was given, whose trait goal holds through a class: the alias and its arguments, its
/// item, and how many of its arguments are the trait's.
#[derive(Clone, Copy)]
pub struct Given<'e> {
    pub kind: AliasTermKind,
    pub item: &'e ItemRow,
    pub trait_params: usize,
    pub class: TraitGoalProvenVia,
    pub args: &'e [TermId],
}

/// An alias with its arguments.
#[derive(Clone, Copy)]
pub struct AliasWithArgs<'e> {
    pub kind: AliasTermKind,
    pub args: &'e [TermId],
}

/// The rows of an item and of its trait.
#[derive(Clone, Copy)]
pub struct ItemRows<'e> {
    pub item: &'e ItemRow,
    pub trait_row: &'e TraitRow,
}

/// A projection whose trait goal holds through a class: the head form of its self type, the projection with
/// this, and the alias as it was given.
#[derive(Clone, Copy)]
pub struct ProvenProjection<'e> {
    pub projection: Projection<'e>,
    pub self_ty: TermId,
    pub given: TermId,
    pub class: TraitGoalProvenVia,
}

/// The term that a projection of an item has, one above a depth.
#[cycle(closed)]
pub(crate) fn projection_term(
    setting: &Setting<'_>,
    terms: &mut TermTable,
    effects: &mut Effects,
    alias: &AliasWithArgs<'_>,
    item: ItemId,
    depth: u32,
) -> Result<Found, Stop>
    requires effects { AreSound setting.now terms.old effects.old }
    requires args { AreIn terms.old alias.now.args.now }
    ensures effects { AreSound setting.now terms.new effects.new }
    ensures kept { Keeps terms.old terms.new }
    ensures within { IfOk result (FoundIn terms.new) }
    ensures stops { IfErr result (IsStop setting.now) }
    ensures says { ForEachMode setting.now depth (λ S L. IfOk result (SaysProjection S L terms.old alias.now item terms.new)) }
{
    let Some(row) = setting.rows.item_row(item) else {
        return Ok(Found::Undecided);
    };
    let Some(trait_row) = setting.rows.trait_row(row.trait_id) else {
        return Ok(Found::Undecided);
    };
    let rows = ItemRows {
        item: row,
        trait_row,
    };
    item_term(setting, terms, effects, alias, &rows, depth)
}

/// The term that a projection has by its item's row and its trait's.
#[tactic(auto, using(crate::proofs::CacheLemmas::caching))]
#[cycle(closed)]
fn item_term(
    setting: &Setting<'_>,
    terms: &mut TermTable,
    effects: &mut Effects,
    alias: &AliasWithArgs<'_>,
    rows: &ItemRows<'_>,
    depth: u32,
) -> Result<Found, Stop>
    requires effects { AreSound setting.now terms.old effects.old }
    requires args { AreIn terms.old alias.now.args.now }
    ensures effects { AreSound setting.now terms.new effects.new }
    ensures kept { Keeps terms.old terms.new }
    ensures within { IfOk result (FoundIn terms.new) }
    ensures stops { IfErr result (IsStop setting.now) }
    ensures says { ForEachMode setting.now depth (λ S L. IfOk result (SaysItem S L terms.old alias.now rows.now terms.new)) }
{
    let AliasWithArgs { kind, args } = *alias;
    if args.is_empty() {
        return Ok(Found::Undecided);
    }
    let item = rows.item;
    let trait_params = rows.trait_row.params.len();
    let trait_args = first_of(args, trait_params);
    let lists = effects.leave_out_regions();
    let plain = evaluate_trait_goal(setting, terms, effects, item.trait_id, trait_args, depth)?;
    effects.list_regions_again(lists);
    match plain {
        TraitOutcome::Undecided => Ok(Found::Undecided),
        TraitOutcome::Refuted => Ok(Found::Refuted),
        TraitOutcome::Holds(class) => {
            let given = Given {
                kind,
                item,
                trait_params,
                class,
                args,
            };
            term_proven_via(setting, terms, effects, &given, depth)
        }
    }
}

/// The term of a projection whose trait goal holds.
#[cycle(closed)]
pub fn term_proven_via(
    setting: &Setting<'_>,
    terms: &mut TermTable,
    effects: &mut Effects,
    given: &Given<'_>,
    depth: u32,
) -> Result<Found, Stop>
    requires effects { AreSound setting.now terms.old effects.old }
    requires args { AreIn terms.old given.now.args.now }
    ensures effects { AreSound setting.now terms.new effects.new }
    ensures kept { Keeps terms.old terms.new }
    ensures within { IfOk result (FoundIn terms.new) }
    ensures stops { IfErr result (IsStop setting.now) }
    ensures says { ForEachMode setting.now depth (λ S L. IfOk result (SaysProven S L (given_at terms.old given.now) terms.new)) }
{
    let args = given.args;
    if args.is_empty() {
        return Ok(Found::Undecided);
    }
    match head_form(setting, terms, effects, args[0], depth)? {
        Found::Undecided => Ok(Found::Undecided),
        Found::Refuted => Ok(Found::Undecided),
        Found::Is(self_ty) => replaced_term(setting, terms, effects, given, self_ty, depth),
    }
}

/// The term of a projection whose trait goal holds, for the head form of its self type.
#[tactic(auto, using(crate::proofs::CacheLemmas::caching))]
#[cycle(closed)]
fn replaced_term(
    setting: &Setting<'_>,
    terms: &mut TermTable,
    effects: &mut Effects,
    given: &Given<'_>,
    self_ty: TermId,
    depth: u32,
) -> Result<Found, Stop>
    requires effects { AreSound setting.now terms.old effects.old }
    requires args { AreIn terms.old given.now.args.now }
    requires self_ty { IsIn terms.old self_ty }
    ensures effects { AreSound setting.now terms.new effects.new }
    ensures kept { Keeps terms.old terms.new }
    ensures within { IfOk result (FoundIn terms.new) }
    ensures stops { IfErr result (IsStop setting.now) }
    ensures says { ForEachMode setting.now depth (λ S L. IfOk result (SaysReplaced S L terms.old given.now self_ty terms.new)) }
{
    let alias = intern_alias(setting.allocator(), terms, given.kind, given.args)?;
    let args = with_self(setting.allocator(), self_ty, given.args)?;
    let rigid_alias = intern_alias(setting.allocator(), terms, given.kind, args.as_slice())?;
    let projection = Projection {
        item: given.item,
        trait_params: given.trait_params,
        args: args.as_slice(),
        rigid_alias,
    };
    let proven = ProvenProjection {
        projection,
        self_ty,
        given: alias,
        class: given.class,
    };
    groups_term(setting, terms, effects, &proven, depth)
}

/// The term of a projection by the groups of candidates.
#[cycle(closed)]
fn groups_term(
    setting: &Setting<'_>,
    terms: &mut TermTable,
    effects: &mut Effects,
    proven: &ProvenProjection<'_>,
    depth: u32,
) -> Result<Found, Stop>
    requires effects { AreSound setting.now terms.old effects.old }
    requires projection { ProjectionIn terms.old proven.now.projection }
    requires self_ty { IsIn terms.old proven.now.self_ty }
    requires given { IsIn terms.old proven.now.given }
    ensures effects { AreSound setting.now terms.new effects.new }
    ensures kept { Keeps terms.old terms.new }
    ensures within { IfOk result (FoundIn terms.new) }
    ensures stops { IfErr result (IsStop setting.now) }
    ensures says { ForEachMode setting.now depth (λ S L. IfOk result (SaysBothGroups S L terms.old proven.now terms.new)) }
{
    let projection = &proven.projection;
    match environment_term(setting, terms, effects, projection, proven.self_ty, depth)? {
        Found::Undecided => Ok(Found::Undecided),
        Found::Is(term) => own_args_normalized(setting, terms, effects, projection, term, depth),
        Found::Refuted => later_term(setting, terms, effects, proven, depth),
    }
}

/// The term of a projection by the candidates after the environment.
#[cycle(closed)]
fn later_term(
    setting: &Setting<'_>,
    terms: &mut TermTable,
    effects: &mut Effects,
    proven: &ProvenProjection<'_>,
    depth: u32,
) -> Result<Found, Stop>
    requires effects { AreSound setting.now terms.old effects.old }
    requires projection { ProjectionIn terms.old proven.now.projection }
    requires self_ty { IsIn terms.old proven.now.self_ty }
    requires given { IsIn terms.old proven.now.given }
    ensures effects { AreSound setting.now terms.new effects.new }
    ensures kept { Keeps terms.old terms.new }
    ensures within { IfOk result (FoundIn terms.new) }
    ensures stops { IfErr result (IsStop setting.now) }
    ensures says { ForEachMode setting.now depth (λ S L. IfOk result (SaysLaterGroup S L terms.old proven.now terms.new)) }
{
    let class = proven.class;
    match second_term(setting, terms, effects, proven, depth)? {
        Found::Undecided => Ok(Found::Undecided),
        Found::Refuted => match class {
            TraitGoalProvenVia::Misc => Ok(Found::Refuted),
            _ => Ok(Found::Is(proven.given)),
        },
        Found::Is(term) => match class {
            TraitGoalProvenVia::Misc => Ok(Found::Is(term)),
            _ => own_args_normalized(setting, terms, effects, &proven.projection, term, depth),
        },
    }
}

/// The term that the environment gives a projection.
#[tactic(auto, using(crate::proofs::CacheLemmas::caching))]
#[cycle(closed)]
fn environment_term(
    setting: &Setting<'_>,
    terms: &mut TermTable,
    effects: &mut Effects,
    projection: &Projection<'_>,
    self_ty: TermId,
    depth: u32,
) -> Result<Found, Stop>
    requires effects { AreSound setting.now terms.old effects.old }
    requires projection { ProjectionIn terms.old projection.now }
    requires self_ty { IsIn terms.old self_ty }
    ensures effects { AreSound setting.now terms.new effects.new }
    ensures kept { Keeps terms.old terms.new }
    ensures within { IfOk result (FoundIn terms.new) }
    ensures stops { IfErr result (IsStop setting.now) }
    ensures says { ForEachMode setting.now depth (λ S L. IfOk result (SaysGroup S L terms.old projection.now (environment S) terms.new)) }
{
    let sought = Sought {
        trait_id: projection.item.trait_id,
        item: Some(projection.item.id),
        self_ty,
        args: projection.args,
    };
    let class = TraitGoalProvenVia::ParamEnv;
    let rows = setting.rows;
    let candidates = candidates_of_class(rows, setting.environment, terms, &sought, class)?;
    group_term(
        setting,
        terms,
        effects,
        projection,
        candidates.as_slice(),
        depth,
    )
}

/// The term that the candidates after the environment give a projection.
#[tactic(auto, using(crate::proofs::CacheLemmas::caching))]
#[cycle(closed)]
fn second_term(
    setting: &Setting<'_>,
    terms: &mut TermTable,
    effects: &mut Effects,
    proven: &ProvenProjection<'_>,
    depth: u32,
) -> Result<Found, Stop>
    requires effects { AreSound setting.now terms.old effects.old }
    requires projection { ProjectionIn terms.old proven.now.projection }
    requires self_ty { IsIn terms.old proven.now.self_ty }
    ensures effects { AreSound setting.now terms.new effects.new }
    ensures kept { Keeps terms.old terms.new }
    ensures within { IfOk result (FoundIn terms.new) }
    ensures stops { IfErr result (IsStop setting.now) }
    ensures says { ForEachMode setting.now depth (λ S L. IfOk result (SaysGroup S L terms.old proven.now.projection (second_at S terms.old proven.now) terms.new)) }
{
    let projection = &proven.projection;
    let sought = Sought {
        trait_id: projection.item.trait_id,
        item: None,
        self_ty: proven.self_ty,
        args: first_of(projection.args, projection.trait_params),
    };
    let candidates = second_group(setting.rows, terms, &sought, proven.class)?;
    group_term(
        setting,
        terms,
        effects,
        projection,
        candidates.as_slice(),
        depth,
    )
}

/// A term, where a projection's own arguments have head forms.
#[cycle(closed)]
fn own_args_normalized(
    setting: &Setting<'_>,
    terms: &mut TermTable,
    effects: &mut Effects,
    projection: &Projection<'_>,
    term: TermId,
    depth: u32,
) -> Result<Found, Stop>
    requires effects { AreSound setting.now terms.old effects.old }
    requires projection { ProjectionIn terms.old projection.now }
    requires term { IsIn terms.old term }
    ensures effects { AreSound setting.now terms.new effects.new }
    ensures kept { Keeps terms.old terms.new }
    ensures within { IfOk result (FoundIn terms.new) }
    ensures stops { IfErr result (IsStop setting.now) }
    ensures says { ForEachMode setting.now depth (λ _ L. IfOk result (SaysOwnFormed L terms.old projection.now term terms.new)) }
{
    let own = behind(projection.args, projection.trait_params);
    match head_forms_outcome(setting, terms, effects, own, depth)? {
        Outcome::Undecided => Ok(Found::Undecided),
        Outcome::Refuted => Ok(Found::Refuted),
        Outcome::Holds => Ok(Found::Is(term)),
    }
}

/// Whether terms have head forms. One without a head form refutes it.
#[cycle(closed)]
pub(crate) fn head_forms_outcome(
    setting: &Setting<'_>,
    terms: &mut TermTable,
    effects: &mut Effects,
    ids: &[TermId],
    depth: u32,
) -> Result<Outcome, Stop>
    requires effects { AreSound setting.now terms.old effects.old }
    requires ids { AreIn terms.old ids.now }
    ensures effects { AreSound setting.now terms.new effects.new }
    ensures kept { Keeps terms.old terms.new }
    ensures stops { IfErr result (IsStop setting.now) }
    ensures says { ForEachMode setting.now depth (λ _ L. IfOk result (Says (HaveHeadForms L (erased_all terms.old ids.now)) (SomeUnformed L (erased_all terms.old ids.now)))) }
{
    let mut outcome = Outcome::Holds;
    for id in ids {
        match head_form(setting, terms, effects, *id, depth)? {
            Found::Refuted => return Ok(Outcome::Refuted),
            Found::Undecided => outcome = Outcome::Undecided,
            Found::Is(_) => {}
        }
    }
    Ok(outcome)
}

/// The term that a group of candidates gives a projection: one that gives it decides, and all others that aren't ruled
/// out give the same. Only the first that decides leaves equations of lifetimes.
#[tactic(auto, using(crate::proofs::CacheLemmas::caching))]
#[cycle(closed)]
fn group_term(
    setting: &Setting<'_>,
    terms: &mut TermTable,
    effects: &mut Effects,
    projection: &Projection<'_>,
    candidates: &[InternedCandidate<'_>],
    depth: u32,
) -> Result<Found, Stop>
    requires effects { AreSound setting.now terms.old effects.old }
    requires projection { ProjectionIn terms.old projection.now }
    requires candidates { All (CandidateIn terms.old) candidates.now }
    requires rows { All (IsOfRows setting.now.rows.now) candidates.now }
    ensures effects { AreSound setting.now terms.new effects.new }
    ensures kept { Keeps terms.old terms.new }
    ensures within { IfOk result (FoundIn terms.new) }
    ensures stops { IfErr result (IsStop setting.now) }
    ensures says { ForEachMode setting.now depth (λ S L. IfOk result (SaysGroup S L terms.old projection.now (map (candidate_at terms.old) candidates.now) terms.new)) }
{
    let mut found = Found::Refuted;
    let mut decided = false;
    for candidate in candidates {
        let before = effects.regions.mark();
        let next = consider_term(setting, terms, effects, projection, candidate, depth)?;
        effects.end_candidate(before, decided);
        found = merge_terms(terms, found, next.found);
        decided = decided | next.decides;
        if let Found::Undecided = found {
            return Ok(Found::Undecided);
        }
    }
    Ok(if_decided(found, decided))
}

/// What a group gives, by what its candidates give together, and whether one of them that gives it decides.
fn if_decided(found: Found, decided: bool) -> Found
    ensures { result ≡ if_decided found decided }
{
    match found {
        Found::Is(term) => {
            if decided {
                Found::Is(term)
            } else {
                Found::Undecided
            }
        }
        other => other,
    }
}
