//! What rows say of the parts of a term.
ghost use Rattle.std.specs.Prelude.{◌≡◌, ◌++◌, ◌∷◌, [], None, Some, length, drop, not, ◌==◌, slice_get, map};
ghost use Rattle.std.specs.Option.{option_map, ForSome};
ghost use Rattle.goal_terms.specs.Tree.{node_of};
ghost use Rattle.goal_terms.specs.View.{trees_seen};
ghost use Rattle.goal_tables.specs.Options.{option_holds};
ghost use Rattle.goal_checks.specs.Params.{params_seen};
ghost use Rattle.goal_terms.specs.Kinds.{same_kind, kind_of};
ghost use Rattle.goal_tables.specs.ParamKinds.{differs_in_kind, differs_in_count, asks_other_kinds, has_param};
ghost use Rattle.goal_tables.specs.Sites.{trait_params, projection_params, clause_params, trait_clause_params, adt_params, function_params, closure_params, free_params, opaque_params, inherent_params, params_of_alias, params_of};

use crate::checker::Checker;
use crate::kinds::kind_of_value;
use goal_terms::answers::ParamKind;
use goal_terms::heads::{Head, Node};
use goal_terms::ids::{AdtId, ClosureId, FnId, FreeId, InherentId, ItemId, OpaqueId, TraitId};
use goal_terms::kinds::{kind_of, same_kind};
use goal_terms::terms::AliasTermKind;
use goal_terms::view::Parts;

/// The kinds of the parameters that a row asks for, where they stand.
#[derive(Clone, Copy)]
pub struct Params<'a> {
    pub first: &'a [ParamKind],
    pub own: &'a [ParamKind],
    pub last: Option<ParamKind>,
}

/// All but the first.
fn rest(params: &[ParamKind]) -> &[ParamKind]
    ensures { result.now ≡ drop 1 params.now }
{
    if params.is_empty() {
        params
    } else {
        &params[1..]
    }
}

#[tactic(auto)]
impl<'a> Params<'a> {
    /// Whether there are so many.
    pub fn has_len(self, count: usize) -> bool
        ensures { result ≡ (length (params_seen self.entry) == count) }
    {
        if count < self.first.len() {
            return false;
        }
        let count = count - self.first.len();
        if count < self.own.len() {
            return false;
        }
        let count = count - self.own.len();
        match self.last {
            None => count == 0,
            Some(_) => count == 1,
        }
    }

    /// The kind at a place, counted from 0.
    pub fn at(self, place: usize) -> Option<ParamKind>
        ensures { result ≡ slice_get (params_seen self.entry) place }
    {
        if place < self.first.len() {
            return Some(self.first[place]);
        }
        let place = place - self.first.len();
        if place < self.own.len() {
            return Some(self.own[place]);
        }
        if place == self.own.len() {
            self.last
        } else {
            None
        }
    }

    /// Whether there is another kind at a place.
    pub fn differs_at(self, place: usize, kind: ParamKind) -> bool
        ensures { result ≡ option_holds (λ p. not (same_kind p kind)) (slice_get (params_seen self.entry) place) }
    {
        match self.at(place) {
            None => false,
            Some(param) => !same_kind(param, kind),
        }
    }

    #[tactic(auto, using(crate::proofs::ParamLemmas::having))]
    /// Whether there is this parameter, of this kind.
    pub fn has(self, number: u32, kind: ParamKind) -> bool
        ensures { result ≡ has_param (params_seen self.entry) number kind }
    {
        match self.at(number as usize) {
            None => false,
            Some(param) => same_kind(param, kind),
        }
    }

    /// The parameters of a clause of a `dyn` type: all but the self type, then its term.
    fn for_clause(self, kind: ParamKind) -> Params<'a>
        requires { self.last ≡ None }
        ensures { params_seen result ≡ drop 1 (params_seen self.entry) ++ kind ∷ [] }
    {
        if self.first.is_empty() {
            Params {
                first: self.first,
                own: rest(self.own),
                last: Some(kind),
            }
        } else {
            Params {
                first: rest(self.first),
                own: self.own,
                last: Some(kind),
            }
        }
    }

    #[tactic(auto, using(crate::proofs::ParamLemmas::differing))]
    /// Whether a part is of another kind than its parameter.
    pub fn differs_in_kind(self, parts: Parts<'_>) -> bool
        ensures { result ≡ differs_in_kind (params_seen self.entry) (map (λ x. kind_of (node_of x)) (trees_seen parts.entry)) }
    {
        for i in 0..parts.len() {
            let kind = kind_of(parts.at(i).node());
            if self.differs_at(i, kind) {
                return true;
            }
        }
        false
    }
}

/// Whether a row asks for another number of parts.
pub fn differs_in_count(params: Option<Params<'_>>, count: usize) -> bool
    ensures { result ≡ differs_in_count (option_map params_seen params.entry) count }
{
    match params {
        None => false,
        Some(params) => !params.has_len(count),
    }
}

/// Whether a row asks for other kinds of parts.
pub fn asks_other_kinds(params: Option<Params<'_>>, parts: Parts<'_>) -> bool
    ensures { result ≡ asks_other_kinds (option_map params_seen params.entry) (map (λ x. kind_of (node_of x)) (trees_seen parts.entry)) }
{
    match params {
        None => false,
        Some(params) => params.differs_in_kind(parts),
    }
}

impl<'a> Params<'a> {
    /// The parameters that one list gives.
    pub fn of(params: &'a [ParamKind]) -> Params<'a>
        ensures all { params_seen result ≡ params.now }
        ensures open { result.last ≡ None }
    {
        Params {
            first: params,
            own: &[],
            last: None,
        }
    }

    /// These parameters, then one more type.
    pub fn with_alias(self) -> Params<'a>
        requires { self.last ≡ None }
        ensures { params_seen result ≡ params_seen self.entry ++ ParamKind.Ty ∷ [] }
    {
        Params {
            last: Some(ParamKind::Ty),
            ..self
        }
    }
}

impl Checker<'_> {
    /// The parameters of a trait.
    pub fn trait_params(&self, id: TraitId) -> Option<Params<'_>>
        ensures { option_map params_seen result ≡ trait_params self.now id }
    {
        let row = self.rows.trait_row(id)?;
        Some(Params::of(row.params.as_slice()))
    }

    /// The parameters of a projection of an item: its trait's, then its own.
    fn projection_params(&self, item: ItemId) -> Option<Params<'_>>
        ensures kinds { option_map params_seen result ≡ projection_params self.now item }
        ensures open { ForSome result (λ p. p.last ≡ None) }
    {
        let row = self.rows.item_row(item)?;
        let of_trait = self.rows.trait_row(row.trait_id)?;
        Some(Params {
            first: of_trait.params.as_slice(),
            own: row.own_params.as_slice(),
            last: None,
        })
    }

    /// The parameters of a clause that names a trait.
    fn trait_clause_params(&self, id: TraitId) -> Option<Params<'_>>
        ensures { option_map params_seen result ≡ trait_clause_params self.now id }
    {
        let row = self.rows.trait_row(id)?;
        Some(Params::of(rest(row.params.as_slice())))
    }

    /// The parameters of a clause that names an item.
    fn clause_params(&self, item: ItemId) -> Option<Params<'_>>
        ensures { option_map params_seen result ≡ clause_params self.now item }
    {
        let row = self.rows.item_row(item)?;
        let params = self.projection_params(item)?;
        Some(params.for_clause(kind_of_value(row.is_const)))
    }

    /// The parameters of an ADT.
    fn adt_params(&self, id: AdtId) -> Option<Params<'_>>
        ensures { option_map params_seen result ≡ adt_params self.now id }
    {
        let row = self.rows.adt_row(id)?;
        Some(Params::of(row.params.as_slice()))
    }

    /// The parameters of a function item.
    fn function_params(&self, id: FnId) -> Option<Params<'_>>
        ensures { option_map params_seen result ≡ function_params self.now id }
    {
        let row = self.rows.function_row(id)?;
        Some(Params::of(row.params.as_slice()))
    }

    /// The parameters of a closure.
    fn closure_params(&self, id: ClosureId) -> Option<Params<'_>>
        ensures { option_map params_seen result ≡ closure_params self.now id }
    {
        let row = self.rows.closure_row(id)?;
        Some(Params::of(row.params.as_slice()))
    }

    /// The parameters of a free alias.
    fn free_params(&self, id: FreeId) -> Option<Params<'_>>
        ensures { option_map params_seen result ≡ free_params self.now id }
    {
        let row = self.rows.free_row(id)?;
        Some(Params::of(row.params.as_slice()))
    }

    /// The parameters of an opaque type.
    fn opaque_params(&self, id: OpaqueId) -> Option<Params<'_>>
        ensures { option_map params_seen result ≡ opaque_params self.now id }
    {
        let row = self.rows.opaque_row(id)?;
        Some(Params::of(row.params.as_slice()))
    }

    /// The parameters of an alias of an inherent item: the self type, then its own.
    fn inherent_params(&self, id: InherentId) -> Option<Params<'_>>
        ensures { option_map params_seen result ≡ inherent_params self.now id }
    {
        let row = self.rows.inherent_row(id)?;
        Some(Params {
            first: &[ParamKind::Ty],
            own: row.own_params.as_slice(),
            last: None,
        })
    }

    /// What the arguments of an alias stand for, where a row says it.
    #[tactic(auto, unfolding(goal_tables::specs::Sites::params_of_alias))]
    fn params_of_alias(&self, kind: AliasTermKind) -> Option<Params<'_>>
        ensures { option_map params_seen result ≡ params_of_alias self.now kind }
    {
        match kind {
            AliasTermKind::ProjectionTy(id) | AliasTermKind::ProjectionConst(id) => {
                self.projection_params(id)
            }
            AliasTermKind::InherentTy(id) | AliasTermKind::InherentConst(id) => {
                self.inherent_params(id)
            }
            AliasTermKind::OpaqueTy(id) => self.opaque_params(id),
            AliasTermKind::FreeTy(id) | AliasTermKind::FreeConst(id) => self.free_params(id),
            AliasTermKind::UnevaluatedConst(_) => None,
        }
    }

    /// What the parts below a node stand for, where a row says it.
    #[tactic(auto, unfolding(goal_tables::specs::Sites::params_of))]
    pub fn params_of(&self, node: Node) -> Option<Params<'_>>
        ensures { option_map params_seen result ≡ params_of self.now node }
    {
        match node {
            Node::Head(Head::Adt(id, _)) => self.adt_params(id),
            Node::Head(Head::FnDef(id, _)) => self.function_params(id),
            Node::Head(Head::Closure(id, _)) => self.closure_params(id),
            Node::Head(Head::DynTrait(id, _)) => self.trait_clause_params(id),
            Node::Head(Head::DynProjection(item, _)) => self.clause_params(item),
            Node::Alias(kind) | Node::Head(Head::Misplaced(kind)) => self.params_of_alias(kind),
            _ => None,
        }
    }
}
