//! Rules as data: what a candidate or an alias asks for, as a list of entries that a solver runs in order.
pub mod aliases;
pub(crate) mod assoc_items;
pub(crate) mod effect_goal_kind;
pub mod effects;
pub(crate) mod lists;
pub(crate) mod named;
pub(crate) mod parts;
pub(crate) mod projection_goal_kind;
pub mod projections;
pub mod rebuilt;
pub(crate) mod trait_goal_kind;
pub mod traits;

pub use goal_lists::lists::{FirstUse, RowClauses, RowValue, RuleHeader};
use goal_terms::answers::{
    CandidateSource, DelayedFault, GoalSource, OpaqueAccess, OpaqueTypeKey, Response,
};
use goal_terms::ids::ImplId;
use goal_terms::predicates::{BoundConstness, ClauseKind};
use goal_terms::terms::{GenericArg, Term};

/// A candidate that was considered: where it comes from, and what its rule is answered.
#[derive(Drop)]
pub struct Candidate {
    pub source: CandidateSource,
    pub result: Response,
}

/// The rule of a candidate: where it comes from, and what it asks for, in order. It holds where all of
/// its entries do, and is refuted where one is, all arguments that were named before it being known.
pub struct Rule {
    pub source: CandidateSource,
    pub entries: Vec<RuleEntry>,
}

impl Drop for Rule {
    fn drop(self) {
        let Rule {
            source: _,
            entries: _,
        } = self;
    }
}

/// Which of a list's arguments are meant: the entries that name arguments are counted from 0.
pub type ArgsIndex = u32;

/// One thing that a rule asks for. A later entry says by an `ArgsIndex` whose arguments it takes.
pub enum RuleEntry {
    /// Arguments are named.
    Arguments(RuleArguments),
    /// Two lists of arguments are equal, in pairs.
    Equation(Vec<GenericArg>, Vec<GenericArg>),
    /// A clause holds, as it stands.
    Clause(GoalSource, ClauseKind),
    /// The clauses of a row hold, under the arguments of that number.
    RowClauses(RowClauses, ArgsIndex),
    /// The const conditions of an impl hold with a constness, under the arguments of that number.
    RowConditions(BoundConstness, ImplId, ArgsIndex),
    /// The goal's expected term, the first, stands for the second.
    Term(Term, RuleTerm),
    /// The goal's expected term is the hidden type of an opaque type that is being defined, by its
    /// arguments as they are given.
    HiddenType(Term, OpaqueTypeKey, FirstUse),
    /// An access to an opaque type is recorded.
    Access(OpaqueAccess),
    /// A delayed fault is recorded.
    DelayedFault(DelayedFault),
    /// What was asked for so far is evaluated before the rest is.
    Evaluation,
    /// The goal that is always ambiguous.
    Ambiguous,
    /// Nothing decides the rule here.
    Undecided,
    /// The rule doesn't stand.
    Refused,
}

impl Drop for RuleEntry {
    fn drop(self) {
        match self {
            RuleEntry::Arguments(_) => {}
            RuleEntry::Equation(_, _) => {}
            RuleEntry::Clause(_, _) => {}
            RuleEntry::RowClauses(_, _) => {}
            RuleEntry::RowConditions(_, _, _) => {}
            RuleEntry::Term(_, _) => {}
            RuleEntry::HiddenType(_, _, _) => {}
            RuleEntry::Access(_) => {}
            RuleEntry::DelayedFault(_) => {}
            RuleEntry::Evaluation => {}
            RuleEntry::Ambiguous => {}
            RuleEntry::Undecided => {}
            RuleEntry::Refused => {}
        }
    }
}

/// Arguments that later entries take.
pub enum RuleArguments {
    /// These, as they stand.
    Given(Vec<GenericArg>),
    /// Those of a header that is matched with given ones.
    Header(RuleHeader, Vec<GenericArg>),
    /// Those of an impl whose header is matched with that of the second impl, under the arguments of a number.
    OtherImpl(ImplId, ImplId, ArgsIndex),
    /// Those of a number, and these behind them.
    Followed(ArgsIndex, Vec<GenericArg>),
}

impl Drop for RuleArguments {
    fn drop(self) {
        match self {
            RuleArguments::Given(_) => {}
            RuleArguments::Header(_, _) => {}
            RuleArguments::OtherImpl(_, _, _) => {}
            RuleArguments::Followed(_, _) => {}
        }
    }
}

/// What the expected variable stands for.
pub enum RuleTerm {
    /// This term, as it stands.
    AsItStands(Term),
    /// The head form of this term.
    Normalized(Term),
    /// The head form of a row's value, under the arguments of a number.
    Value(RowValue, ArgsIndex),
    /// The first of two terms where a clause holds, the second where it is refuted.
    ChosenBy(ClauseKind, Term, Term),
}

impl Drop for RuleTerm {
    fn drop(self) {
        match self {
            RuleTerm::AsItStands(_) => {}
            RuleTerm::Normalized(_) => {}
            RuleTerm::Value(_, _) => {}
            RuleTerm::ChosenBy(_, _, _) => {}
        }
    }
}
