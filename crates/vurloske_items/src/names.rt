//! The names by which terms are shown.
use crate::scope::Params;
use goal_terms::ids::{
    AdtId, ClosureId, FnId, ForeignId, FreeId, InherentId, ItemId, OpaqueId, TraitId,
};
use goal_text::names::{Name, TermNames, parameter_name};
use vurloske_ast::ast::{Ast, Ident};
use vurloske_names::definitions::places::Places;

/// The names of a text's items, and of parameters.
#[derive(Clone, Copy)]
pub struct ItemNames<'a> {
    pub ast: &'a Ast,
    pub places: &'a Places,
    pub params: &'a Params,
}

impl ItemNames<'_> {
    fn given(&self, ident: Ident) -> Name<'_> {
        Name::Given(self.ast.name(ident.name))
    }
}

impl TermNames for ItemNames<'_> {
    fn adt_name(&self, id: AdtId) -> Name<'_> {
        match self.places.adt_node(self.ast, id) {
            Some(node) => self.given(node.ident),
            None => Name::Numbered("Adt", id.0),
        }
    }

    fn trait_name(&self, id: TraitId) -> Name<'_> {
        match self.places.trait_node(self.ast, id) {
            Some(node) => self.given(node.ident),
            None => Name::Numbered("Trait", id.0),
        }
    }

    fn item_name(&self, id: ItemId) -> Name<'_> {
        match self.places.item_node(self.ast, id) {
            Some(node) => self.given(node.ident),
            None => Name::Numbered("Item", id.0),
        }
    }

    fn trait_name_of(&self, id: ItemId) -> Name<'_> {
        match self.places.item_entry(id) {
            Some(entry) => self.trait_name(entry.trait_id),
            None => Name::Numbered("TraitOf", id.0),
        }
    }

    fn trait_parameters_of(&self, id: ItemId) -> usize {
        let Some(entry) = self.places.item_entry(id) else {
            return 1;
        };
        match self.places.trait_node(self.ast, entry.trait_id) {
            Some(node) => node.generics.params.len.saturating_add(1),
            None => 1,
        }
    }

    fn free_name(&self, id: FreeId) -> Name<'_> {
        match self.places.free_node(self.ast, id) {
            Some(node) => self.given(node.ident),
            None => Name::Numbered("Free", id.0),
        }
    }

    fn opaque_name(&self, id: OpaqueId) -> Name<'_> {
        match self.places.opaque_node(self.ast, id) {
            Some(node) => self.given(node.ident),
            None => Name::Numbered("Opaque", id.0),
        }
    }

    fn inherent_name(&self, id: InherentId) -> Name<'_> {
        match self.places.inherent_node(self.ast, id) {
            Some(node) => self.given(node.ident),
            None => Name::Numbered("Inherent", id.0),
        }
    }

    fn fn_name(&self, id: FnId) -> Name<'_> {
        match self.places.fn_node(self.ast, id) {
            Some(node) => self.given(node.ident),
            None => Name::Numbered("function", id.0),
        }
    }

    fn closure_name(&self, id: ClosureId) -> Name<'_> {
        match self.places.closure_node(self.ast, id) {
            Some(node) => self.given(node.ident),
            None => Name::Numbered("closure", id.0),
        }
    }

    fn foreign_name(&self, id: ForeignId) -> Name<'_> {
        match self.places.foreign_node(self.ast, id) {
            Some(ident) => self.given(ident),
            None => Name::Numbered("Foreign", id.0),
        }
    }

    fn parameter_name(&self, index: u32) -> Name<'_> {
        match self.params.given_name(index) {
            Some(name) => Name::Given(self.ast.name(name)),
            None => parameter_name(index),
        }
    }

    fn region_parameter_name(&self, index: u32) -> Name<'_> {
        match self.params.given_name(index) {
            Some(name) => Name::Given(self.ast.name(name)),
            None => Name::Numbered("p", index),
        }
    }
}
