//! The parameters that stand in the terms and clauses of rows.
ghost use Rattle.std.specs.Prelude.{◌≡◌, None};
ghost use Rattle.goal_checks.specs.Params.{params_seen};
ghost use Rattle.goal_tables.specs.Rows.{trait_of, inherent_impl_of};
ghost use Rattle.goal_tables.specs.RowFaults.{params_of_trait_row, params_of_inherent_impl_row, container_params, item_scope, definition_scope, inherent_scope};

use crate::checker::Checker;
use crate::params::Params;
use goal_tables::rows::{Container, DefRow, InherentRow, ItemRow};
use goal_terms::answers::ParamKind;
use goal_terms::ids::{InherentImplId, TraitId};

impl Checker<'_> {
    /// The parameters of a trait, none without a row.
    fn params_of_trait_row(&self, id: TraitId) -> &[ParamKind]
        ensures { result.now ≡ params_of_trait_row (trait_of self.now id) }
    {
        match self.rows.trait_row(id) {
            None => &[],
            Some(row) => row.params.as_slice(),
        }
    }

    /// The parameters of an inherent impl, none without a row.
    fn params_of_inherent_impl_row(&self, id: InherentImplId) -> &[ParamKind]
        ensures { result.now ≡ params_of_inherent_impl_row (inherent_impl_of self.now id) }
    {
        match self.rows.inherent_impl_row(id) {
            None => &[],
            Some(row) => row.params.as_slice(),
        }
    }

    /// The parameters of what holds a definition, none without a row.
    fn container_params(&self, container: Container) -> &[ParamKind]
        ensures { result.now ≡ container_params self.now container }
    {
        match container {
            Container::Impl(id) => match self.rows.impl_row(id) {
                None => &[],
                Some(row) => row.params.as_slice(),
            },
            Container::Trait(id) => self.params_of_trait_row(id),
        }
    }

    /// The parameters of an item: its trait's, then its own.
    pub fn item_scope<'a>(&'a self, row: &'a ItemRow) -> Params<'a>
        ensures all { params_seen result ≡ item_scope self.now row.now }
        ensures open { result.last ≡ None }
    {
        Params {
            first: self.params_of_trait_row(row.trait_id),
            own: row.own_params.as_slice(),
            last: None,
        }
    }

    /// The parameters of a definition: its container's, then its own.
    pub fn definition_scope<'a>(&'a self, row: &'a DefRow) -> Params<'a>
        ensures { params_seen result ≡ definition_scope self.now row.now }
    {
        Params {
            first: self.container_params(row.container),
            own: row.own_params.as_slice(),
            last: None,
        }
    }

    /// The parameters of an inherent item: its impl's, then its own.
    pub fn inherent_scope<'a>(&'a self, row: &'a InherentRow) -> Params<'a>
        ensures { params_seen result ≡ inherent_scope self.now row.now }
    {
        Params {
            first: self.params_of_inherent_impl_row(row.impl_id),
            own: row.own_params.as_slice(),
            last: None,
        }
    }
}
