//! Lists of entries and responses as constant data.
use crate::tests::sketches::{TypeSketch, V1, args_of, ref_of, ty_of};
use goal_kinds::rules::{Rule, RuleArguments, RuleEntry, RuleHeader, RuleTerm};
use goal_terms::answers::{
    BuiltinImplSource, CandidateSource, Certainty, DelayedFault, GoalSource, Response, VarKind,
};
use goal_terms::ids::{ImplId, TraitId};
use goal_terms::predicates::{ClauseKind, TraitPredicate};
use goal_terms::terms::Term;
use std::alloc::{AllocError, Global};

/// An entry of a list.
pub enum Entry {
    /// Two types are equal.
    Equal(TypeSketch, TypeSketch),
    /// A trait holds.
    Holds(TraitId, &'static [TypeSketch]),
    /// The header of an impl fits arguments.
    Fits(ImplId, &'static [TypeSketch]),
    /// The variable 1 stands for the head form of a type.
    Value(TypeSketch),
    /// The variable 1 stands for a type as it stands.
    Same(TypeSketch),
    Fault(DelayedFault),
    Evaluation,
    Undecided,
    Refused,
}

/// A response that holds and is proven through no class: its base, the kinds of its variables, and the values.
pub struct ResponseSketch {
    pub base: u32,
    pub vars: &'static [VarKind],
    pub values: &'static [(u32, TypeSketch)],
}

/// The entry of a sketch.
fn entry_of(alloc: Global, entry: &Entry) -> Result<RuleEntry, AllocError> {
    Ok(match entry {
        Entry::Equal(left, right) => {
            let left = args_of(alloc, &[*left])?;
            RuleEntry::Equation(left, args_of(alloc, &[*right])?)
        }
        Entry::Holds(id, parts) => {
            let trait_ref = ref_of(alloc, *id, parts)?;
            RuleEntry::Clause(
                GoalSource::Misc,
                ClauseKind::Trait(TraitPredicate { trait_ref }),
            )
        }
        Entry::Fits(id, parts) => {
            let args = args_of(alloc, parts)?;
            RuleEntry::Arguments(RuleArguments::Header(RuleHeader::Impl(*id), args))
        }
        Entry::Value(ty) => {
            let value = RuleTerm::Normalized(Term::Ty(ty_of(alloc, ty)?));
            RuleEntry::Term(Term::Ty(ty_of(alloc, &V1)?), value)
        }
        Entry::Same(ty) => {
            let value = RuleTerm::AsItStands(Term::Ty(ty_of(alloc, ty)?));
            RuleEntry::Term(Term::Ty(ty_of(alloc, &V1)?), value)
        }
        Entry::Fault(fault) => RuleEntry::DelayedFault(*fault),
        Entry::Evaluation => RuleEntry::Evaluation,
        Entry::Undecided => RuleEntry::Undecided,
        Entry::Refused => RuleEntry::Refused,
    })
}

/// The rule of a list of entries.
pub fn rule_of(alloc: Global, entries: &[Entry]) -> Result<Rule, AllocError> {
    let mut made = Vec::new(alloc);
    for entry in entries {
        made.push(entry_of(alloc, entry)?)?;
    }
    Ok(Rule {
        source: CandidateSource::BuiltinImpl(BuiltinImplSource::Misc),
        entries: made,
    })
}

/// The response of a sketch.
pub fn response_of(alloc: Global, sketch: &ResponseSketch) -> Result<Response, AllocError> {
    let mut var_values = Vec::new(alloc);
    for (number, ty) in sketch.values {
        var_values.push((*number, Term::Ty(ty_of(alloc, ty)?)))?;
    }
    Ok(Response {
        certainty: Certainty::Yes,
        proven_via: None,
        base: sketch.base,
        vars: sketch.vars.to_vec(alloc)?,
        var_values,
        region_equations: Vec::new(alloc),
        opaque_entries: Vec::new(alloc),
    })
}
