use crate::ids::{DefId, ImplId, OpaqueId, TraitId};
use crate::terms::{GenericArg, Region, Term, Ty};

/// Whether something is decided to hold, or undecided.
#[derive(Clone, Copy, Debug, PartialEq, Eq)]
pub enum Certainty {
    Yes,
    Maybe,
}

/// What a nested goal is asked for. No answer depends on it.
#[derive(Clone, Copy)]
pub enum GoalSource {
    Misc,
    TypeRelating,
    ImplWhereBound,
    AliasBoundConstCondition,
    AliasWellFormed,
}

/// Which built-in rule a candidate comes from. `Object(k)` is clause `k` of a `dyn` type.
#[derive(Clone, Copy)]
pub enum BuiltinImplSource {
    Misc,
    Object(u32),
}

/// Where a candidate comes from. `ParamEnv(k)` is clause `k` of the environment, from 0.
#[derive(Clone, Copy)]
pub enum CandidateSource {
    ParamEnv(u32),
    AliasBound,
    Impl(ImplId),
    BuiltinImpl(BuiltinImplSource),
}

/// The class of candidates through which a trait goal holds.
#[derive(Clone, Copy, PartialEq, Eq)]
pub enum TraitGoalProvenVia {
    ParamEnv,
    AliasBound,
    Misc,
}

/// What an inference variable stands for.
#[derive(Clone, Copy, PartialEq, Eq, Hash)]
pub enum VarKind {
    Ty,
    Int,
    Float,
    Const,
    Region,
}

/// What a parameter stands for.
#[derive(Clone, Copy, PartialEq, Eq)]
pub enum ParamKind {
    Ty,
    Const,
    Lifetime,
}

/// An opaque type with its arguments.
#[derive(Clone, PartialEq, Eq, Hash, Drop)]
pub struct OpaqueTypeKey {
    pub def_id: OpaqueId,
    pub args: Vec<GenericArg>,
}

/// An answer, with what it would change. Of all variables, one below `base` stood before the call,
/// and `base + k` is the k-th of `vars`.
#[derive(PartialEq, Eq, Drop)]
pub struct Response {
    pub certainty: Certainty,
    /// The class of a trait goal that is answered `Yes`.
    pub proven_via: Option<TraitGoalProvenVia>,
    pub base: u32,
    pub vars: Vec<VarKind>,
    pub var_values: Vec<(u32, Term)>,
    pub region_equations: Vec<(Region, Region)>,
    pub opaque_entries: Vec<(OpaqueTypeKey, Ty)>,
}

/// What an answer in the erased mode would have read of the typing mode.
#[derive(Clone, Copy, PartialEq, Eq)]
pub enum OpaqueAccess {
    IfDefining(OpaqueId),
    IfPostAnalysis,
    Always,
}

/// A fault of the program that was checked, which is reported later.
#[derive(Clone, Copy, PartialEq, Eq)]
pub enum DelayedFault {
    MissingItem(DefId),
    AutoTrait(TraitId),
}
