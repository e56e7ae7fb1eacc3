//! Entries of lists whose terms are given by their numbers in a table. What is a row's is borrowed from
//! the tables, beside the row's id, and read under arguments when the list is run.
pub mod aliases;
pub mod effects;
pub mod opaque_uses;
pub mod parts;
pub mod projected;
pub mod projections;
pub mod traits;

use crate::candidates::interned::InternedPredicate;
use goal_interner::term_nodes::TermId;
use goal_tables::lookup::IndexedTables;
use goal_tables::rows::{ItemRow, OpaqueRow};
use goal_terms::answers::{DelayedFault, GoalSource, OpaqueAccess, ParamKind};
use goal_terms::ids::{DefId, FreeId, ImplId, InherentId, InherentImplId, ItemId, OpaqueId};
use goal_terms::modes::TypingMode;
use goal_terms::predicates::{BoundConstness, Clause, TraitRef};
use goal_terms::terms::{GenericArg, Term, Ty};

/// A row whose header is matched.
#[derive(Clone, Copy)]
pub enum RuleHeader {
    Impl(ImplId),
    InherentImpl(InherentImplId),
}

/// A row whose clauses are asked for.
#[derive(Clone, Copy)]
pub enum RowClauses {
    Impl(ImplId),
    /// The item's own where clauses.
    Item(ItemId),
    Free(FreeId),
    Inherent(InherentId),
}

/// What the first use of an opaque type that is being defined takes as its hidden type.
#[derive(Clone, Copy)]
pub enum FirstUse {
    /// The expected term, whatever that comes to be.
    Expected,
    /// The type that type checking found.
    TypeChecked,
}

/// A row whose value is taken.
#[derive(Clone, Copy)]
pub enum RowValue {
    Definition(DefId),
    Free(FreeId),
    Inherent(InherentId),
    /// The hidden type of an opaque type.
    Opaque(OpaqueId),
}

/// What lists are made for: the tables, and a typing mode. An environment says nothing of them.
#[derive(Clone, Copy)]
pub struct ListSetting<'t, 'm> {
    pub rows: &'t IndexedTables,
    pub mode: &'m TypingMode,
}

/// A projection as it is asked: its item, how many arguments are the trait's, all arguments, the self type
/// being a head form, and the alias itself, which has these arguments.
#[derive(Clone, Copy)]
pub struct AskedProjection<'t, 'a> {
    pub item: &'t ItemRow,
    pub trait_params: usize,
    pub args: &'a [TermId],
    pub rigid_alias: TermId,
}

/// The terms of a row's header: the arguments of a trait, or a self type alone.
#[derive(Clone, Copy)]
pub enum HeaderTerms<'t> {
    Arguments(&'t [GenericArg]),
    SelfType(&'t Ty),
}

/// A row's header, with the kinds of its parameters.
#[derive(Clone, Copy)]
pub struct RowHeader<'t> {
    pub params: &'t [ParamKind],
    pub terms: HeaderTerms<'t>,
}

/// A row's value.
#[derive(Clone, Copy)]
pub enum RowValueTerm<'t> {
    Term(&'t Term),
    Ty(&'t Ty),
}

/// Arguments that later entries take. Those that are named are counted from 0.
pub enum InternedArguments<'t> {
    /// These, as they stand.
    Given(Vec<TermId>),
    /// Those of a row's header, which is matched with given arguments.
    OfHeader(RuleHeader, RowHeader<'t>, Vec<TermId>),
    /// Those of an impl's header, which is matched with the terms of the second impl's header under the
    /// arguments of a number.
    OfOtherHeader(ImplId, ImplId, RowHeader<'t>, &'t [GenericArg], usize),
    /// Those of a number, and own ones behind them.
    FollowedBy(usize, Vec<TermId>),
}

impl Drop for InternedArguments<'_> {
    fn drop(self) {
        match self {
            InternedArguments::Given(_) => {}
            InternedArguments::OfHeader(_, _, _) => {}
            InternedArguments::OfOtherHeader(_, _, _, _, _) => {}
            InternedArguments::FollowedBy(_, _) => {}
        }
    }
}

/// What the expected term is.
pub enum InternedTerm<'t> {
    /// This term, as it stands.
    AsItStands(TermId),
    /// The head form of this term.
    HeadFormOf(TermId),
    /// The head form of a row's value, under the arguments of a number.
    ValueUnder(RowValue, RowValueTerm<'t>, usize),
    /// The first of two terms where a clause holds, the second where it is refuted.
    ChosenBy(InternedPredicate, TermId, TermId),
    /// The hidden type of an opaque type that is being defined, by its arguments as they are given, and by its
    /// row.
    HiddenType(OpaqueId, Vec<TermId>, FirstUse, &'t OpaqueRow),
}

impl Drop for InternedTerm<'_> {
    fn drop(self) {
        match self {
            InternedTerm::AsItStands(_) => {}
            InternedTerm::HeadFormOf(_) => {}
            InternedTerm::ValueUnder(_, _, _) => {}
            InternedTerm::ChosenBy(_, _, _) => {}
            InternedTerm::HiddenType(_, _, _, _) => {}
        }
    }
}

/// One thing that a rule asks for, or leaves behind.
pub enum InternedEntry<'t> {
    /// Arguments are named.
    Arguments(InternedArguments<'t>),
    /// Two lists of terms are equal, in pairs.
    EqualTerms(Vec<TermId>, Vec<TermId>),
    /// A clause holds.
    Clause(GoalSource, InternedPredicate),
    /// The clauses of a row hold, under the arguments of a number.
    RowClauses(RowClauses, &'t [Clause], usize),
    /// The const conditions of an impl hold with a constness, under the arguments of a number.
    RowConditions(BoundConstness, ImplId, &'t [TraitRef], usize),
    /// The goal's expected term.
    Expected(InternedTerm<'t>),
    /// An access to an opaque type is recorded.
    Access(OpaqueAccess),
    /// A delayed fault is recorded.
    DelayedFault(DelayedFault),
    /// What was asked for so far is evaluated before the rest is.
    Evaluation,
    /// The goal that is always ambiguous.
    Ambiguous,
    /// Nothing decides the rule here.
    Undecided,
    /// The rule doesn't stand.
    Refused,
}

impl Drop for InternedEntry<'_> {
    fn drop(self) {
        match self {
            InternedEntry::Arguments(_) => {}
            InternedEntry::EqualTerms(_, _) => {}
            InternedEntry::Clause(_, _) => {}
            InternedEntry::RowClauses(_, _, _) => {}
            InternedEntry::RowConditions(_, _, _, _) => {}
            InternedEntry::Expected(_) => {}
            InternedEntry::Access(_) => {}
            InternedEntry::DelayedFault(_) => {}
            InternedEntry::Evaluation => {}
            InternedEntry::Ambiguous => {}
            InternedEntry::Undecided => {}
            InternedEntry::Refused => {}
        }
    }
}
