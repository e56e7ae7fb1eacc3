//! The faults that lie in the terms and clauses of rows, and in what rows name.
ghost use Rattle.std.specs.Prelude.{◌≡◌, None, is_none};
ghost use Rattle.std.specs.List.{list_any};
ghost use Rattle.goal_terms.specs.TreeOf.{tree_of_ty};
ghost use Rattle.goal_checks.specs.Params.{params_seen};
ghost use Rattle.goal_tables.specs.Rows.{item_of, impl_of};
ghost use Rattle.goal_tables.specs.Sites.{lies_in};
ghost use Rattle.goal_tables.specs.RowFaults.{if_unknown, if_kind, lies_in_option, lies_in_value, lies_in_const_bounds, lacks_self_type, lies_in_trait, lies_in_item, lies_in_impl, container_is_unknown, lies_in_definition_value, value_has_other_kind, lies_in_definition, source_is_unknown, lies_in_source, value_differs, lies_in_free, lies_in_inherent_impl, lies_in_inherent, lies_in_opaque, lies_in_field_info, lies_in_adt, lies_in_function, lies_in_closure, target_is_unknown, lies_in_lang, lies_in_trait_rows, lies_in_impl_rows, lies_in_alias_rows, lies_in_inherent_rows, lies_in_type_rows, lies_in_rows};

use crate::checker::Checker;
use crate::kinds::kind_of_value;
use crate::params::Params;
use goal_tables::faults::TermFault;
use goal_tables::rows::{
    AdtRow, ClosureRow, ConstBounds, Container, DefRow, DefValue, FieldInfo, FnRow, FreeRow,
    ImplRow, InherentImplRow, InherentRow, ItemRow, OpaqueRow, Source, SourceRow, TraitRow,
};
use goal_terms::answers::ParamKind;
use goal_terms::ids::{ImplId, ItemId};
use goal_terms::kinds::{kind_of, same_kind};
use goal_terms::lang::{LangRow, LangTarget};
use goal_terms::terms::{Term, Ty};
use goal_terms::view::TermRef;

/// Whether a trait has no self type.
fn lacks_self_type(params: &[ParamKind]) -> bool
    ensures { result ≡ lacks_self_type params.now }
{
    params.is_empty() || !same_kind(params[0], ParamKind::Ty)
}

/// Whether a type has no value, or a value of another kind than its row says.
fn value_differs(is_const: bool, value: &Option<Term>) -> bool
    ensures { result ≡ value_differs is_const value.now }
{
    match value {
        None => !is_const,
        Some(term) => !same_kind(kind_of(term.view().node()), kind_of_value(is_const)),
    }
}

impl Checker<'_> {
    /// Whether a fault lies in a type that may be there.
    fn lies_in_option(&self, params: Params<'_>, fault: TermFault, ty: &Option<Ty>) -> bool
        ensures { result ≡ lies_in_option self.now (params_seen params.entry) fault ty.now }
    {
        match ty {
            None => false,
            Some(ty) => self.lies_in(params, fault, TermRef::Ty(ty)),
        }
    }

    /// Whether a fault lies in a value that may be there.
    fn lies_in_value(&self, params: Params<'_>, fault: TermFault, value: &Option<Term>) -> bool
        ensures { result ≡ lies_in_value self.now (params_seen params.entry) fault value.now }
    {
        match value {
            None => false,
            Some(term) => self.lies_in(params, fault, term.view()),
        }
    }

    /// Whether a fault lies in the const bounds of an alias.
    fn lies_in_const_bounds(
        &self,
        params: Params<'_>,
        fault: TermFault,
        bounds: &Option<ConstBounds>,
    ) -> bool
        ensures { result ≡ lies_in_const_bounds self.now (params_seen params.entry) fault bounds.now }
    {
        match bounds {
            None => false,
            Some(bounds) => {
                self.lies_in_const_refs(params, fault, bounds.implied.as_slice())
                    || self.lies_in_const_refs(params, fault, bounds.conditions.as_slice())
            }
        }
    }

    /// Whether an item of a list has no row.
    fn some_item_is_unknown(&self, items: &[ItemId]) -> bool
        ensures { result ≡ list_any (λ i. is_none (item_of self.now i)) items.now }
    {
        items.iter().any(|item| self.rows.item_row(*item).is_none())
    }

    /// Whether a fault lies in a trait: in its predicates and conditions, its items or its self type.
    #[tactic(auto, unfolding(goal_tables::specs::RowFaults::lies_in_trait))]
    fn lies_in_trait(&self, fault: TermFault, row: &TraitRow) -> bool
        ensures { result ≡ lies_in_trait self.now fault row.now }
    {
        let params = Params::of(row.params.as_slice());
        self.lies_in_clauses(params, fault, row.predicates.as_slice())
            || self.lies_in_const_refs(params, fault, row.const_conditions.as_slice())
            || fault.if_unknown(self.some_item_is_unknown(row.items.as_slice()))
            || fault.if_kind(lacks_self_type(row.params.as_slice()))
    }

    /// Whether a fault lies in an item: in its where clauses and bounds, or its trait.
    #[tactic(auto, unfolding(goal_tables::specs::RowFaults::lies_in_item))]
    fn lies_in_item(&self, fault: TermFault, row: &ItemRow) -> bool
        ensures { result ≡ lies_in_item self.now fault row.now }
    {
        let params = self.item_scope(row);
        self.lies_in_clauses(params, fault, row.own_predicates.as_slice())
            || self.lies_in_clauses(params.with_alias(), fault, row.bounds.as_slice())
            || self.lies_in_const_bounds(params.with_alias(), fault, &row.const_bounds)
            || fault.if_unknown(self.rows.trait_row(row.trait_id).is_none())
    }

    /// Whether an impl of a list has no row.
    fn some_impl_is_unknown(&self, impls: &[ImplId]) -> bool
        ensures { result ≡ list_any (λ i. is_none (impl_of self.now i)) impls.now }
    {
        impls.iter().any(|id| self.rows.impl_row(*id).is_none())
    }

    /// Whether a fault lies in an impl: in its header, where clauses and conditions, or the impls that it lists.
    #[tactic(auto, unfolding(goal_tables::specs::RowFaults::lies_in_impl))]
    fn lies_in_impl(&self, fault: TermFault, row: &ImplRow) -> bool
        ensures { result ≡ lies_in_impl self.now fault row.now }
    {
        let params = Params::of(row.params.as_slice());
        self.lies_in_trait_args(params, fault, row.trait_id, row.trait_args.as_slice())
            || self.lies_in_clauses(params, fault, row.predicates.as_slice())
            || self.lies_in_const_refs(params, fault, row.const_conditions.as_slice())
            || row.is_const && self.const_fault(fault, row.trait_id)
            || fault.if_unknown(self.some_impl_is_unknown(row.more_special.as_slice()))
    }

    /// Whether what holds a definition has no row.
    fn container_is_unknown(&self, container: Container) -> bool
        ensures { result ≡ container_is_unknown self.now container }
    {
        match container {
            Container::Impl(id) => self.rows.impl_row(id).is_none(),
            Container::Trait(id) => self.rows.trait_row(id).is_none(),
        }
    }

    /// Whether a fault lies in the value of a definition.
    fn lies_in_definition_value(
        &self,
        params: Params<'_>,
        fault: TermFault,
        value: &DefValue,
    ) -> bool
        ensures { result ≡ lies_in_definition_value self.now (params_seen params.entry) fault value.now }
    {
        match value {
            DefValue::Missing | DefValue::Evaluated => false,
            DefValue::Term(term) => self.lies_in(params, fault, term.view()),
        }
    }

    /// Whether a definition's value is of another kind than its item.
    fn value_has_other_kind(&self, row: &DefRow) -> bool
        ensures { result ≡ value_has_other_kind self.now row.now }
    {
        let Some(item) = self.rows.item_row(row.item) else {
            return false;
        };
        let kind = kind_of_value(item.is_const);
        match &row.value {
            DefValue::Missing => false,
            DefValue::Term(term) => !same_kind(kind_of(term.view().node()), kind),
            DefValue::Evaluated => !same_kind(ParamKind::Const, kind),
        }
    }

    /// Whether a fault lies in a definition: in its value, its container or its item.
    #[tactic(auto, unfolding(goal_tables::specs::RowFaults::lies_in_definition))]
    fn lies_in_definition(&self, fault: TermFault, row: &DefRow) -> bool
        ensures { result ≡ lies_in_definition self.now fault row.now }
    {
        self.lies_in_definition_value(self.definition_scope(row), fault, &row.value)
            || fault.if_unknown(
                self.container_is_unknown(row.container) || self.rows.item_row(row.item).is_none(),
            )
            || fault.if_kind(self.value_has_other_kind(row))
    }

    /// Whether the definition that a source names has no row.
    fn source_is_unknown(&self, source: Source) -> bool
        ensures { result ≡ source_is_unknown self.now source }
    {
        match source {
            Source::Def { def_id, .. } => self.rows.definition_row(def_id).is_none(),
            Source::Broken(_) => false,
        }
    }

    /// Whether a fault lies in a source: in its impl, its item or its definition.
    #[tactic(auto, unfolding(goal_tables::specs::RowFaults::lies_in_source))]
    fn lies_in_source(&self, fault: TermFault, row: &SourceRow) -> bool
        ensures { result ≡ lies_in_source self.now fault row.now }
    {
        fault.if_unknown(
            self.rows.impl_row(row.impl_id).is_none()
                || self.rows.item_row(row.item_id).is_none()
                || self.source_is_unknown(row.source),
        )
    }

    /// Whether a fault lies in a free alias: in its where clauses or its value.
    #[tactic(auto, unfolding(goal_tables::specs::RowFaults::lies_in_free))]
    fn lies_in_free(&self, fault: TermFault, row: &FreeRow) -> bool
        ensures { result ≡ lies_in_free self.now fault row.now }
    {
        let params = Params::of(row.params.as_slice());
        self.lies_in_clauses(params, fault, row.predicates.as_slice())
            || self.lies_in_value(params, fault, &row.value)
            || fault.if_kind(value_differs(row.is_const, &row.value))
    }

    /// Whether a fault lies in the self type of an inherent impl.
    #[tactic(auto, unfolding(goal_tables::specs::RowFaults::lies_in_inherent_impl))]
    fn lies_in_inherent_impl(&self, fault: TermFault, row: &InherentImplRow) -> bool
        ensures { result ≡ lies_in_inherent_impl self.now fault row.now }
    {
        self.lies_in(
            Params::of(row.params.as_slice()),
            fault,
            TermRef::Ty(&row.self_ty),
        )
    }

    /// Whether a fault lies in an inherent item: in its where clauses, its value or its impl.
    #[tactic(auto, unfolding(goal_tables::specs::RowFaults::lies_in_inherent))]
    fn lies_in_inherent(&self, fault: TermFault, row: &InherentRow) -> bool
        ensures { result ≡ lies_in_inherent self.now fault row.now }
    {
        let params = self.inherent_scope(row);
        self.lies_in_clauses(params, fault, row.predicates.as_slice())
            || self.lies_in_value(params, fault, &row.value)
            || fault.if_unknown(self.rows.inherent_impl_row(row.impl_id).is_none())
            || fault.if_kind(value_differs(row.is_const, &row.value))
    }

    /// Whether a fault lies in an opaque type: in its hidden types or bounds.
    #[tactic(auto, unfolding(goal_tables::specs::RowFaults::lies_in_opaque))]
    fn lies_in_opaque(&self, fault: TermFault, row: &OpaqueRow) -> bool
        ensures { result ≡ lies_in_opaque self.now fault row.now }
    {
        let params = Params::of(row.params.as_slice());
        self.lies_in(params, fault, TermRef::Ty(&row.hidden))
            || self.lies_in(params, fault, TermRef::Ty(&row.typeck_hidden))
            || self.lies_in_clauses(params.with_alias(), fault, row.bounds.as_slice())
            || self.lies_in_const_bounds(params.with_alias(), fault, &row.const_bounds)
    }

    /// Whether a fault lies in what an ADT says of its field.
    fn lies_in_field_info(
        &self,
        params: Params<'_>,
        fault: TermFault,
        info: &Option<FieldInfo>,
    ) -> bool
        ensures { result ≡ lies_in_field_info self.now (params_seen params.entry) fault info.now }
    {
        match info {
            None => false,
            Some(info) => {
                self.lies_in(params, fault, TermRef::Ty(&info.base))
                    || self.lies_in(params, fault, TermRef::Ty(&info.ty))
            }
        }
    }

    /// Whether a fault lies in an ADT: in its types or its conditions.
    #[tactic(auto, unfolding(goal_tables::specs::RowFaults::lies_in_adt))]
    fn lies_in_adt(&self, fault: TermFault, row: &AdtRow) -> bool
        ensures { result ≡ lies_in_adt self.now fault row.now }
    {
        let params = Params::of(row.params.as_slice());
        self.lies_in_option(params, fault, &row.tail)
            || self.lies_in_option(params, fault, &row.sized_constraint)
            || self.lies_in(params, fault, TermRef::Ty(&row.discriminant))
            || self.lies_in_const_refs(params, fault, row.destruct_conditions.as_slice())
            || self.lies_in_field_info(params, fault, &row.field_info)
    }

    /// Whether a fault lies in a function item: in its signature or its conditions.
    #[tactic(auto, unfolding(goal_tables::specs::RowFaults::lies_in_function))]
    fn lies_in_function(&self, fault: TermFault, row: &FnRow) -> bool
        ensures { result ≡ lies_in_function self.now fault row.now }
    {
        let params = Params::of(row.params.as_slice());
        self.lies_in(params, fault, TermRef::Signature(&row.sig))
            || self.lies_in_const_refs(params, fault, row.const_conditions.as_slice())
    }

    /// Whether a fault lies in some of these types.
    fn lies_in_types(&self, params: Params<'_>, fault: TermFault, types: &[Ty]) -> bool
        ensures { result ≡ list_any (λ u. lies_in self.now (params_seen params.entry) fault (tree_of_ty u)) types.now }
    {
        types
            .iter()
            .any(|ty| self.lies_in(params, fault, TermRef::Ty(ty)))
    }

    /// Whether a fault lies in a closure: in its signature, what it holds, or its conditions.
    #[tactic(auto, unfolding(goal_tables::specs::RowFaults::lies_in_closure))]
    fn lies_in_closure(&self, fault: TermFault, row: &ClosureRow) -> bool
        ensures { result ≡ lies_in_closure self.now fault row.now }
    {
        let params = Params::of(row.params.as_slice());
        self.lies_in(params, fault, TermRef::Signature(&row.sig))
            || self.lies_in_types(params, fault, row.upvars.as_slice())
            || self.lies_in_const_refs(params, fault, row.const_conditions.as_slice())
    }

    /// Whether what a lang item names has no row.
    fn target_is_unknown(&self, target: LangTarget) -> bool
        ensures { result ≡ target_is_unknown self.now target }
    {
        match target {
            LangTarget::Trait(id) => self.rows.trait_row(id).is_none(),
            LangTarget::Item(id) => self.rows.item_row(id).is_none(),
            LangTarget::Adt(id) => self.rows.adt_row(id).is_none(),
        }
    }

    /// Whether a fault lies in what a lang item names.
    #[tactic(auto, unfolding(goal_tables::specs::RowFaults::lies_in_lang))]
    fn lies_in_lang(&self, fault: TermFault, row: &LangRow) -> bool
        ensures { result ≡ lies_in_lang self.now fault row.now }
    {
        fault.if_unknown(self.target_is_unknown(row.target))
    }

    /// Whether a fault lies in some trait.
    fn lies_in_traits(&self, fault: TermFault, rows: &[TraitRow]) -> bool
        ensures { result ≡ list_any (λ r. lies_in_trait self.now fault r) rows.now }
    {
        rows.iter().any(|row| self.lies_in_trait(fault, row))
    }

    /// Whether a fault lies in some item.
    fn lies_in_items(&self, fault: TermFault, rows: &[ItemRow]) -> bool
        ensures { result ≡ list_any (λ r. lies_in_item self.now fault r) rows.now }
    {
        rows.iter().any(|row| self.lies_in_item(fault, row))
    }

    /// Whether a fault lies in some lang item.
    fn lies_in_lang_items(&self, fault: TermFault, rows: &[LangRow]) -> bool
        ensures { result ≡ list_any (λ r. lies_in_lang self.now fault r) rows.now }
    {
        rows.iter().any(|row| self.lies_in_lang(fault, row))
    }

    /// Whether a fault lies in a trait, an item or a lang item.
    #[tactic(auto, unfolding(goal_tables::specs::RowFaults::lies_in_trait_rows))]
    fn lies_in_trait_rows(&self, fault: TermFault) -> bool
        ensures { result ≡ lies_in_trait_rows self.now fault }
    {
        let tables = self.rows.tables();
        self.lies_in_traits(fault, tables.traits.as_slice())
            || self.lies_in_items(fault, tables.items.as_slice())
            || self.lies_in_lang_items(fault, tables.lang_items.as_slice())
    }

    /// Whether a fault lies in some impl.
    fn lies_in_impls(&self, fault: TermFault, rows: &[ImplRow]) -> bool
        ensures { result ≡ list_any (λ r. lies_in_impl self.now fault r) rows.now }
    {
        rows.iter().any(|row| self.lies_in_impl(fault, row))
    }

    /// Whether a fault lies in some definition.
    fn lies_in_definitions(&self, fault: TermFault, rows: &[DefRow]) -> bool
        ensures { result ≡ list_any (λ r. lies_in_definition self.now fault r) rows.now }
    {
        rows.iter().any(|row| self.lies_in_definition(fault, row))
    }

    /// Whether a fault lies in some source.
    fn lies_in_sources(&self, fault: TermFault, rows: &[SourceRow]) -> bool
        ensures { result ≡ list_any (λ r. lies_in_source self.now fault r) rows.now }
    {
        rows.iter().any(|row| self.lies_in_source(fault, row))
    }

    /// Whether a fault lies in an impl, a definition or a source.
    #[tactic(auto, unfolding(goal_tables::specs::RowFaults::lies_in_impl_rows))]
    fn lies_in_impl_rows(&self, fault: TermFault) -> bool
        ensures { result ≡ lies_in_impl_rows self.now fault }
    {
        let tables = self.rows.tables();
        self.lies_in_impls(fault, tables.impls.as_slice())
            || self.lies_in_definitions(fault, tables.definitions.as_slice())
            || self.lies_in_sources(fault, tables.sources.as_slice())
    }

    /// Whether a fault lies in some free alias.
    fn lies_in_free_aliases(&self, fault: TermFault, rows: &[FreeRow]) -> bool
        ensures { result ≡ list_any (λ r. lies_in_free self.now fault r) rows.now }
    {
        rows.iter().any(|row| self.lies_in_free(fault, row))
    }

    /// Whether a fault lies in some opaque type.
    fn lies_in_opaque_types(&self, fault: TermFault, rows: &[OpaqueRow]) -> bool
        ensures { result ≡ list_any (λ r. lies_in_opaque self.now fault r) rows.now }
    {
        rows.iter().any(|row| self.lies_in_opaque(fault, row))
    }

    /// Whether a fault lies in a free alias or an opaque type.
    #[tactic(auto, unfolding(goal_tables::specs::RowFaults::lies_in_alias_rows))]
    fn lies_in_alias_rows(&self, fault: TermFault) -> bool
        ensures { result ≡ lies_in_alias_rows self.now fault }
    {
        let tables = self.rows.tables();
        self.lies_in_free_aliases(fault, tables.free_aliases.as_slice())
            || self.lies_in_opaque_types(fault, tables.opaque_types.as_slice())
    }

    /// Whether a fault lies in some inherent impl.
    fn lies_in_inherent_impls(&self, fault: TermFault, rows: &[InherentImplRow]) -> bool
        ensures { result ≡ list_any (λ r. lies_in_inherent_impl self.now fault r) rows.now }
    {
        rows.iter()
            .any(|row| self.lies_in_inherent_impl(fault, row))
    }

    /// Whether a fault lies in some inherent item.
    fn lies_in_inherent_items(&self, fault: TermFault, rows: &[InherentRow]) -> bool
        ensures { result ≡ list_any (λ r. lies_in_inherent self.now fault r) rows.now }
    {
        rows.iter().any(|row| self.lies_in_inherent(fault, row))
    }

    /// Whether a fault lies in an inherent impl or an inherent item.
    #[tactic(auto, unfolding(goal_tables::specs::RowFaults::lies_in_inherent_rows))]
    fn lies_in_inherent_rows(&self, fault: TermFault) -> bool
        ensures { result ≡ lies_in_inherent_rows self.now fault }
    {
        let tables = self.rows.tables();
        self.lies_in_inherent_impls(fault, tables.inherent_impls.as_slice())
            || self.lies_in_inherent_items(fault, tables.inherent_items.as_slice())
    }

    /// Whether a fault lies in some ADT.
    fn lies_in_adts(&self, fault: TermFault, rows: &[AdtRow]) -> bool
        ensures { result ≡ list_any (λ r. lies_in_adt self.now fault r) rows.now }
    {
        rows.iter().any(|row| self.lies_in_adt(fault, row))
    }

    /// Whether a fault lies in some function item.
    fn lies_in_functions(&self, fault: TermFault, rows: &[FnRow]) -> bool
        ensures { result ≡ list_any (λ r. lies_in_function self.now fault r) rows.now }
    {
        rows.iter().any(|row| self.lies_in_function(fault, row))
    }

    /// Whether a fault lies in some closure.
    fn lies_in_closures(&self, fault: TermFault, rows: &[ClosureRow]) -> bool
        ensures { result ≡ list_any (λ r. lies_in_closure self.now fault r) rows.now }
    {
        rows.iter().any(|row| self.lies_in_closure(fault, row))
    }

    /// Whether a fault lies in an ADT, a function item or a closure.
    #[tactic(auto, unfolding(goal_tables::specs::RowFaults::lies_in_type_rows))]
    fn lies_in_type_rows(&self, fault: TermFault) -> bool
        ensures { result ≡ lies_in_type_rows self.now fault }
    {
        let tables = self.rows.tables();
        self.lies_in_adts(fault, tables.adts.as_slice())
            || self.lies_in_functions(fault, tables.functions.as_slice())
            || self.lies_in_closures(fault, tables.closures.as_slice())
    }

    /// Whether a fault lies in some row.
    #[tactic(auto, unfolding(goal_tables::specs::RowFaults::lies_in_rows))]
    pub fn lies_in_rows(&self, fault: TermFault) -> bool
        ensures { result ≡ lies_in_rows self.now fault }
    {
        self.lies_in_trait_rows(fault)
            || self.lies_in_impl_rows(fault)
            || self.lies_in_alias_rows(fault)
            || self.lies_in_inherent_rows(fault)
            || self.lies_in_type_rows(fault)
    }
}
