//! Clauses with what they say through supertraits.
ghost use Rattle.vurloske_names.specs.Growth.{BeginsWith};

use crate::definitions::Definitions;
use crate::faults::{ItemFault, wrong};
use goal_terms::heads::Variable;
use goal_terms::instantiate::{enter_binder, instantiate, rebase_onto};
use goal_terms::predicates::{BoundConstness, Clause, ClauseKind, HostEffectPredicate, TraitRef};
use goal_terms::terms::{AliasTermKind, DynClause, GenericArg, InferTy, Region, Term};
use goal_terms::view::TermRef;
use std::alloc::Global;
use std::mem;
use vurloske_ast::ast::Position;
use vurloske_ast::phrase::Phrase;

/// The variable that stands for the self type in the bounds of a `dyn` type. No goal has it.
pub const DYN_SELF: InferTy = InferTy::TyVar(u32::MAX);

/// Adds what the clauses of a list say through supertraits, once each, behind the clauses. A mistake
/// at the place where more generations follow than there are traits: some trait is its own supertrait
/// with ever larger arguments.
#[tactic(auto, using(crate::proofs::GrowthLemmas::growing))]
pub fn elaborate(
    alloc: Global,
    definitions: &Definitions,
    clauses: &mut Vec<Clause>,
    at: Position,
) -> Result<(), ItemFault>
    ensures { BeginsWith clauses.new.items clauses.old.items }
{
    let mut done = 0;
    for _generation in 0..definitions.places.traits.len().saturating_add(1) {
        let known = clauses.len();
        if done == known {
            return Ok(());
        }
        add_implied(alloc, definitions, clauses, done, known)?;
        done = known;
    }
    Err(wrong(at, Phrase::SUPERTRAITS_THAT_END, Phrase::TOO_MANY))
}

/// Adds what the clauses at some places say through supertraits.
#[tactic(auto, using(crate::proofs::GrowthLemmas::growing))]
fn add_implied(
    alloc: Global,
    definitions: &Definitions,
    clauses: &mut Vec<Clause>,
    start: usize,
    end: usize,
) -> Result<(), ItemFault>
    ensures { BeginsWith clauses.new.items clauses.old.items }
{
    for place in start..end {
        if let Some(implied) = implied_by(alloc, definitions, clauses.as_slice(), place)? {
            push_new(clauses, implied)?;
        }
    }
    Ok(())
}

/// Adds the clauses that are not there yet.
fn push_new(clauses: &mut Vec<Clause>, new: Vec<Clause>) -> Result<(), ItemFault>
    ensures { BeginsWith clauses.new.items clauses.old.items }
{
    for clause in new {
        if !clauses.contains(&clause) {
            clauses.push(clause)?;
        }
    }
    Ok(())
}

/// What the clause at a place says through the supertraits of its trait. `None` past the end.
fn implied_by(
    alloc: Global,
    definitions: &Definitions,
    clauses: &[Clause],
    place: usize,
) -> Result<Option<Vec<Clause>>, ItemFault> {
    let Some(clause) = clauses.get(place) else {
        return Ok(None);
    };
    let implied = match &clause.kind {
        ClauseKind::Trait(predicate) => {
            let trait_ref = &predicate.trait_ref;
            let above = definitions.supertraits(trait_ref.def_id);
            plain_supertraits(alloc, above, trait_ref, clause.bound_regions)?
        }
        ClauseKind::HostEffect(predicate) => {
            let above = definitions.supertraits(predicate.trait_ref.def_id);
            const_supertraits(alloc, above, predicate, clause.bound_regions)?
        }
        ClauseKind::Projection(_) => Vec::new(alloc),
    };
    Ok(Some(implied))
}

/// What a trait reference says through supertraits, but for `[const]` bounds.
fn plain_supertraits(
    alloc: Global,
    above: &[Clause],
    trait_ref: &TraitRef,
    bound_regions: u32,
) -> Result<Vec<Clause>, ItemFault> {
    let mut implied = Vec::new(alloc);
    for clause in above {
        if !is_maybe_const(&clause.kind) {
            implied.push(instance(alloc, clause, &trait_ref.args, bound_regions)?)?;
        }
    }
    Ok(implied)
}

/// What a host effect says through `[const]` supertraits, with its own constness.
fn const_supertraits(
    alloc: Global,
    above: &[Clause],
    predicate: &HostEffectPredicate,
    bound_regions: u32,
) -> Result<Vec<Clause>, ItemFault> {
    let args = &predicate.trait_ref.args;
    let mut implied = Vec::new(alloc);
    for clause in above {
        if is_maybe_const(&clause.kind) {
            let clause = instance(alloc, clause, args, bound_regions)?;
            implied.push(with_constness(clause, predicate.constness))?;
        }
    }
    Ok(implied)
}

fn is_maybe_const(kind: &ClauseKind) -> bool {
    match kind {
        ClauseKind::HostEffect(predicate) => predicate.constness == BoundConstness::Maybe,
        _ => false,
    }
}

/// The clause, with another constness if it is a host effect.
fn with_constness(clause: Clause, constness: BoundConstness) -> Clause {
    let Clause {
        bound_regions,
        kind,
    } = clause;
    let kind = match kind {
        ClauseKind::HostEffect(predicate) => {
            let HostEffectPredicate {
                trait_ref,
                constness: _,
            } = predicate;
            ClauseKind::HostEffect(HostEffectPredicate {
                trait_ref,
                constness,
            })
        }
        other => other,
    };
    Clause {
        bound_regions,
        kind,
    }
}

/// A trait's clause with arguments in place of its parameters, which stand below a binder already:
/// the clause's own lifetimes are numbered on behind those of that binder.
fn instance(
    alloc: Global,
    clause: &Clause,
    args: &Vec<GenericArg>,
    bound_regions: u32,
) -> Result<Clause, ItemFault> {
    let kind = if clause.bound_regions == 0 || bound_regions == 0 {
        instantiate(alloc, &clause.kind, args.as_slice())?
    } else {
        let renumbered = renumbered(alloc, clause, bound_regions)?;
        instantiate(alloc, &renumbered, args.as_slice())?
    };
    Ok(Clause {
        bound_regions: clause.bound_regions.saturating_add(bound_regions),
        kind,
    })
}

/// What a clause says, its own lifetimes numbered on behind so many others.
fn renumbered(alloc: Global, clause: &Clause, before: u32) -> Result<ClauseKind, ItemFault> {
    let regions = numbered_on(alloc, clause.bound_regions, before)?;
    Ok(enter_binder(alloc, &clause.kind, regions.as_slice())?)
}

fn numbered_on(alloc: Global, count: u32, before: u32) -> Result<Vec<(u32, Region)>, ItemFault> {
    let mut regions = Vec::new(alloc);
    for number in 0..count {
        regions.push((number, Region::Bound(0, number.saturating_add(before))))?;
    }
    Ok(regions)
}

/// Adds what const bounds say through `[const]` supertraits, once each, behind the bounds. A mistake
/// at the place where they don't end.
pub fn elaborate_const(
    alloc: Global,
    definitions: &Definitions,
    bounds: &mut Vec<TraitRef>,
    at: Position,
) -> Result<(), ItemFault> {
    let mut clauses = Vec::new(alloc);
    for trait_ref in mem::replace(bounds, Vec::new(alloc)) {
        clauses.push(maybe_const(trait_ref))?;
    }
    elaborate(alloc, definitions, &mut clauses, at)?;
    *bounds = host_effects(alloc, clauses)?;
    Ok(())
}

/// That a trait holds `[const]`.
fn maybe_const(trait_ref: TraitRef) -> Clause {
    Clause {
        bound_regions: 0,
        kind: ClauseKind::HostEffect(HostEffectPredicate {
            trait_ref,
            constness: BoundConstness::Maybe,
        }),
    }
}

/// The trait references of host effects that bind no lifetimes.
fn host_effects(alloc: Global, clauses: Vec<Clause>) -> Result<Vec<TraitRef>, ItemFault> {
    let mut all = Vec::new(alloc);
    for clause in clauses {
        if let Some(trait_ref) = host_effect(clause) {
            all.push(trait_ref)?;
        }
    }
    Ok(all)
}

fn host_effect(clause: Clause) -> Option<TraitRef> {
    let Clause {
        bound_regions,
        kind,
    } = clause;
    match kind {
        ClauseKind::HostEffect(predicate) if bound_regions == 0 => {
            let HostEffectPredicate {
                trait_ref,
                constness: _,
            } = predicate;
            Some(trait_ref)
        }
        _ => None,
    }
}

/// The clauses of a `dyn` type, with what they say through supertraits. A mistake where a supertrait
/// names the self type.
pub fn dyn_clauses(
    alloc: Global,
    definitions: &Definitions,
    written: Vec<Clause>,
    at: Position,
) -> Result<Vec<DynClause>, ItemFault> {
    let mut clauses = written;
    elaborate(alloc, definitions, &mut clauses, at)?;
    without_self(alloc, clauses.as_slice(), at)
}

/// Clauses with the self type left out. A mistake where one names it further.
fn without_self(
    alloc: Global,
    clauses: &[Clause],
    at: Position,
) -> Result<Vec<DynClause>, ItemFault> {
    let mut all = Vec::new(alloc);
    for clause in clauses {
        if let Some(new) = dyn_clause(alloc, clause)? {
            if names_self(&new) {
                return Err(wrong(at, Phrase::BOUNDS_WITHOUT_SELF, Phrase::ONE_THAT_DOES));
            }
            all.push(new)?;
        }
    }
    Ok(all)
}

/// A clause with the self type left out. `None` for a host effect.
fn dyn_clause(alloc: Global, clause: &Clause) -> Result<Option<DynClause>, ItemFault> {
    match &clause.kind {
        ClauseKind::Trait(predicate) => {
            let trait_ref = &predicate.trait_ref;
            let args = rebase_onto(alloc, trait_ref.args.as_slice(), 1, &[])?;
            Ok(Some(DynClause::Trait(trait_ref.def_id, args)))
        }
        ClauseKind::Projection(equation) => {
            let alias = &equation.projection_term;
            let args = rebase_onto(alloc, alias.args.as_slice(), 1, &[])?;
            Ok(dyn_equation(alias.kind, args, equation.term.clone()?))
        }
        ClauseKind::HostEffect(_) => Ok(None),
    }
}

/// That a projection, its self type left out, is a term.
fn dyn_equation(kind: AliasTermKind, args: Vec<GenericArg>, term: Term) -> Option<DynClause> {
    match kind {
        AliasTermKind::ProjectionTy(id) | AliasTermKind::ProjectionConst(id) => {
            Some(DynClause::Projection(id, args, term))
        }
        _ => None,
    }
}

/// Whether the self type stands in a clause of a `dyn` type.
fn names_self(clause: &DynClause) -> bool {
    TermRef::Clause(clause).occurs(Variable::Ty(DYN_SELF))
}
