//! What a row says of the parts of a term.
ghost use Rattle.std.specs.Prelude.{◌≡◌};
ghost use Rattle.goal_terms.specs.View.{tree_of_ref};
ghost use Rattle.std.specs.Option.{option_map};
ghost use Rattle.goal_checks.specs.Params.{params_seen};
ghost use Rattle.goal_tables.specs.Rows.{item_of, inherent_of, free_of};
ghost use Rattle.goal_tables.specs.Sites.{alias_is_unknown, is_unknown, kind_of_value, is_of_other_kind, kind_of_row, is_misplaced, region_is_out_of_range, is_out_of_range, region_is_inferred, is_inferred, lies_here, lies_in};

use crate::checker::Checker;
use crate::kinds::kind_of_value;
use crate::params::{Params, asks_other_kinds, differs_in_count};
use goal_tables::faults::TermFault;
use goal_terms::answers::ParamKind;
use goal_terms::heads::{Head, Node};
use goal_terms::ids::{FreeId, InherentId, ItemId};
use goal_terms::kinds::{kind_of_alias, same_kind};
use goal_terms::regions::region_of;
use goal_terms::terms::{AliasTermKind, Region};
use goal_terms::view::TermRef;

#[tactic(auto, unfolding(goal_tables::specs::Sites::region_is_out_of_range))]
fn region_is_out_of_range(params: Params<'_>, region: Option<Region>) -> bool
    ensures { result ≡ region_is_out_of_range (params_seen params.entry) region }
{
    match region {
        Some(Region::Param(number)) => !params.has(number, ParamKind::Lifetime),
        _ => false,
    }
}

/// Whether a node is a parameter that a row doesn't have.
#[tactic(auto, unfolding(goal_tables::specs::Sites::is_out_of_range))]
fn is_out_of_range(params: Params<'_>, node: Node) -> bool
    ensures { result ≡ is_out_of_range (params_seen params.entry) node }
{
    match node {
        Node::Head(Head::TyParam(number)) => !params.has(number, ParamKind::Ty),
        Node::Head(Head::ConstParam(number)) => !params.has(number, ParamKind::Const),
        _ => region_is_out_of_range(params, region_of(node)),
    }
}

#[tactic(auto, unfolding(goal_tables::specs::Sites::region_is_inferred))]
fn region_is_inferred(region: Option<Region>) -> bool
    ensures { result ≡ region_is_inferred region }
{
    match region {
        Some(Region::Var(_)) | Some(Region::Placeholder(_)) => true,
        _ => false,
    }
}

/// Whether a node is an inference variable or a placeholder, or names one as its lifetime.
#[tactic(auto, unfolding(goal_tables::specs::Sites::is_inferred))]
fn is_inferred(node: Node) -> bool
    ensures { result ≡ is_inferred node }
{
    match node {
        Node::Variable(_) => true,
        Node::Head(Head::TyPlaceholder(_)) | Node::Head(Head::ConstPlaceholder(_)) => true,
        _ => region_is_inferred(region_of(node)),
    }
}

/// Whether a row that may be there is of another kind.
pub fn is_of_other_kind(kind: Option<ParamKind>, other: ParamKind) -> bool
    ensures { result ≡ is_of_other_kind kind other }
{
    match kind {
        None => false,
        Some(kind) => !same_kind(kind, other),
    }
}

impl Checker<'_> {
    /// Whether an alias names what no row has.
    #[tactic(auto, unfolding(goal_tables::specs::Sites::alias_is_unknown))]
    fn alias_is_unknown(&self, kind: AliasTermKind) -> bool
        ensures { result ≡ alias_is_unknown self.now kind }
    {
        match kind {
            AliasTermKind::ProjectionTy(id) | AliasTermKind::ProjectionConst(id) => {
                self.rows.item_row(id).is_none()
            }
            AliasTermKind::InherentTy(id) | AliasTermKind::InherentConst(id) => {
                self.rows.inherent_row(id).is_none()
            }
            AliasTermKind::OpaqueTy(id) => self.rows.opaque_row(id).is_none(),
            AliasTermKind::FreeTy(id) | AliasTermKind::FreeConst(id) => self
                .rows
                .free_row(id)
                .is_none(),
            AliasTermKind::UnevaluatedConst(_) => false,
        }
    }

    /// Whether a node names what no row has.
    #[tactic(auto, unfolding(goal_tables::specs::Sites::is_unknown))]
    pub(crate) fn is_unknown(&self, node: Node) -> bool
        ensures { result ≡ is_unknown self.now node }
    {
        match node {
            Node::Head(Head::Adt(id, _)) => self.rows.adt_row(id).is_none(),
            Node::Head(Head::FnDef(id, _)) => self.rows.function_row(id).is_none(),
            Node::Head(Head::Closure(id, _)) => self.rows.closure_row(id).is_none(),
            Node::Head(Head::DynTrait(id, _)) => self.rows.trait_row(id).is_none(),
            Node::Head(Head::DynProjection(item, _)) => self.rows.item_row(item).is_none(),
            Node::Head(Head::Misplaced(kind)) => self.alias_is_unknown(kind),
            Node::Alias(kind) => self.alias_is_unknown(kind),
            _ => false,
        }
    }

    /// The kind that the row of a projection says.
    fn kind_of_projection(&self, id: ItemId) -> Option<ParamKind>
        ensures { result ≡ option_map (λ r. kind_of_value r.is_const) (item_of self.now id) }
    {
        let row = self.rows.item_row(id)?;
        Some(kind_of_value(row.is_const))
    }

    /// The kind that the row of an inherent item says.
    fn kind_of_inherent(&self, id: InherentId) -> Option<ParamKind>
        ensures { result ≡ option_map (λ r. kind_of_value r.is_const) (inherent_of self.now id) }
    {
        let row = self.rows.inherent_row(id)?;
        Some(kind_of_value(row.is_const))
    }

    /// The kind that the row of a free alias says.
    fn kind_of_free(&self, id: FreeId) -> Option<ParamKind>
        ensures { result ≡ option_map (λ r. kind_of_value r.is_const) (free_of self.now id) }
    {
        let row = self.rows.free_row(id)?;
        Some(kind_of_value(row.is_const))
    }

    /// The kind that the row of an alias says.
    #[tactic(auto, unfolding(goal_tables::specs::Sites::kind_of_row))]
    fn kind_of_row(&self, kind: AliasTermKind) -> Option<ParamKind>
        ensures { result ≡ kind_of_row self.now kind }
    {
        match kind {
            AliasTermKind::ProjectionTy(id) | AliasTermKind::ProjectionConst(id) => {
                self.kind_of_projection(id)
            }
            AliasTermKind::InherentTy(id) | AliasTermKind::InherentConst(id) => {
                self.kind_of_inherent(id)
            }
            AliasTermKind::FreeTy(id) | AliasTermKind::FreeConst(id) => self.kind_of_free(id),
            AliasTermKind::OpaqueTy(_) | AliasTermKind::UnevaluatedConst(_) => None,
        }
    }

    /// Whether an alias stands at a wrong place, or is of another kind than its item.
    #[tactic(auto, unfolding(goal_tables::specs::Sites::is_misplaced))]
    pub(crate) fn is_misplaced(&self, node: Node) -> bool
        ensures { result ≡ is_misplaced self.now node }
    {
        match node {
            Node::Head(Head::Misplaced(_)) => true,
            Node::Alias(kind) => is_of_other_kind(self.kind_of_row(kind), kind_of_alias(kind)),
            _ => false,
        }
    }

    /// Whether a fault lies at the top of a term, in a row with these parameters.
    #[tactic(auto, unfolding(goal_tables::specs::Sites::lies_here))]
    fn lies_here(&self, params: Params<'_>, fault: TermFault, term: TermRef<'_>) -> bool
        ensures { result ≡ lies_here self.now (params_seen params.entry) fault (tree_of_ref term.entry) }
    {
        let node = term.node();
        match fault {
            TermFault::UnknownItem => self.is_unknown(node),
            TermFault::WrongArgumentCount => {
                differs_in_count(self.params_of(node), term.parts().len())
            }
            TermFault::WrongArgumentKind => {
                asks_other_kinds(self.params_of(node), term.parts()) || self.is_misplaced(node)
            }
            TermFault::ParameterOutOfRange => is_out_of_range(params, node),
            TermFault::InferInTable => is_inferred(node),
            TermFault::NeverConst => false,
        }
    }

    /// Whether a fault lies anywhere in a term, in a row with these parameters.
    #[tactic(auto, using(crate::proofs::SiteLemmas::lying))]
    pub fn lies_in(&self, params: Params<'_>, fault: TermFault, term: TermRef<'_>) -> bool
        ensures { result ≡ lies_in self.now (params_seen params.entry) fault (tree_of_ref term.entry) }
    {
        if self.lies_here(params, fault, term) {
            return true;
        }
        let parts = term.parts();
        for i in 0..parts.len() {
            if self.lies_in(params, fault, parts.at(i)) {
                return true;
            }
        }
        false
    }
}
