//! The rows of definitions, which stand in traits and in impls.
use crate::rows::impl_items::{Written, assoc_item, gives_value, how_written};
use crate::rows::impls::polarity;
use crate::rows::{Text, count};
use crate::terms::Lowering;
use goal_tables::rows::{Container, DefRow, DefValue};
use goal_terms::ids::{DefId, ImplId, ItemId, TraitId};
use indexmap::IndexSet;
use vurloske_ast::ast::{AssocItem, Impl};
use vurloske_ast::phrase::Phrase;
use vurloske_names::definitions::places::ItemEntry;
use vurloske_names::faults::{ItemFault, wrong_name};

/// Where a definition stands, and of which item it is.
#[derive(Clone, Copy, PartialEq, Eq, Hash)]
pub(super) enum DefSite {
    Trait(ItemId),
    Impl(ImplId, ItemId),
}

/// Where the definitions stand, in order of their ids: those in traits first, then those in impls.
pub(super) struct DefSites {
    sites: IndexSet<DefSite>,
}

impl Drop for DefSites {
    fn drop(self) {
        let DefSites { sites: _ } = self;
    }
}

impl DefSites {
    /// Where the definitions of a text stand. A trait has one of each item whose value it gives, or that
    /// some positive impl leaves out. A mistake where an impl says what none can say.
    pub(super) fn new(text: Text<'_>) -> Result<DefSites, ItemFault> {
        let mut sites = DefSites {
            sites: IndexSet::new(text.alloc),
        };
        let left_out = text.left_out()?;
        sites.add_in_traits(text, &left_out)?;
        sites.add_in_impls(text)?;
        Ok(sites)
    }

    /// The definition that stands somewhere.
    pub(super) fn id(&self, site: DefSite) -> Option<DefId> {
        let index = self.sites.get_index_of(&site)?;
        Some(DefId(u32::try_from(index).ok()?))
    }

    fn add_in_traits(
        &mut self,
        text: Text<'_>,
        left_out: &IndexSet<ItemId>,
    ) -> Result<(), ItemFault> {
        for number in 0..count(text.definitions.places.items.len()) {
            let id = ItemId(number);
            if text.trait_gives_value(id) || left_out.contains(&id) {
                self.sites.insert(DefSite::Trait(id))?;
            }
        }
        Ok(())
    }

    fn add_in_impls(&mut self, text: Text<'_>) -> Result<(), ItemFault> {
        for number in 0..count(text.definitions.places.impls.len()) {
            let id = ImplId(number);
            if let Some((node, trait_id)) = text.impl_with_trait(id)? {
                self.add_in_impl(text, id, &node, trait_id)?;
            }
        }
        Ok(())
    }

    fn add_in_impl(
        &mut self,
        text: Text<'_>,
        id: ImplId,
        node: &Impl,
        trait_id: TraitId,
    ) -> Result<(), ItemFault> {
        let is_positive = polarity(text.ast, &text.definitions.places, id, node).is_positive();
        for item in text.ast.assoc_items(node.items) {
            if !is_positive {
                return Err(wrong_name(item.ident, Phrase::ITEM_OF_A_POSITIVE_IMPL));
            }
            let item_id = text.item_for(trait_id, item)?;
            if let Written::Here = how_written(text.ast, item)? {
                if !self.sites.insert(DefSite::Impl(id, item_id))? {
                    return Err(wrong_name(item.ident, Phrase::NEW_IMPL_ITEM));
                }
            }
        }
        Ok(())
    }
}

impl Text<'_> {
    /// An impl with its trait.
    pub(super) fn impl_with_trait(self, id: ImplId) -> Result<Option<(Impl, TraitId)>, ItemFault> {
        let Some(node) = self.definitions.places.impl_node(self.ast, id) else {
            return Ok(None);
        };
        match node.trait_ {
            Some(trait_) => Ok(Some((node, self.trait_named(trait_)?))),
            None => Ok(None),
        }
    }

    /// Whether a trait gives its item a value.
    fn trait_gives_value(self, id: ItemId) -> bool {
        match self.definitions.places.item_node(self.ast, id) {
            Some(node) => gives_value(self.ast, &node),
            None => false,
        }
    }

    /// The items that some positive impl leaves out.
    fn left_out(self) -> Result<IndexSet<ItemId>, ItemFault> {
        let mut items = IndexSet::new(self.alloc);
        for number in 0..count(self.definitions.places.impls.len()) {
            let id = ImplId(number);
            if let Some((node, trait_id)) = self.impl_with_trait(id)? {
                if polarity(self.ast, &self.definitions.places, id, &node).is_positive() {
                    self.add_left_out(&node, trait_id, &mut items)?;
                }
            }
        }
        Ok(items)
    }

    fn add_left_out(
        self,
        node: &Impl,
        trait_id: TraitId,
        items: &mut IndexSet<ItemId>,
    ) -> Result<(), ItemFault> {
        let Some(trait_node) = self.definitions.places.trait_node(self.ast, trait_id) else {
            return Ok(());
        };
        for item in self.ast.assoc_items(trait_node.items) {
            if let Some(id) = self.definitions.item(trait_id, item.ident.name) {
                if assoc_item(self.ast, &self.definitions.places, node.items, id).is_none() {
                    items.insert(id)?;
                }
            }
        }
        Ok(())
    }

    /// Adds the rows of the definitions.
    pub(super) fn push_def_rows(
        self,
        sites: &DefSites,
        rows: &mut Vec<DefRow>,
    ) -> Result<(), ItemFault> {
        for (index, site) in sites.sites.iter().enumerate() {
            let id = DefId(u32::try_from(index).unwrap_or(u32::MAX));
            match *site {
                DefSite::Trait(item) => self.push_trait_def(id, item, rows)?,
                DefSite::Impl(impl_id, item) => self.push_impl_def(id, impl_id, item, rows)?,
            }
        }
        Ok(())
    }

    fn push_trait_def(
        self,
        id: DefId,
        item: ItemId,
        rows: &mut Vec<DefRow>,
    ) -> Result<(), ItemFault> {
        let Some(ItemEntry { trait_id, .. }) = self.definitions.places.item_entry(item) else {
            return Ok(());
        };
        let Some(node) = self.definitions.places.item_node(self.ast, item) else {
            return Ok(());
        };
        let mut lowering = Lowering::of_trait(self.alloc, self.ast, self.definitions, trait_id);
        let row = lowering.def_row(id, Container::Trait(trait_id), item, &node);
        lowering.scope.fault.keep(rows.push(row));
        lowering.scope.fault.result()
    }

    fn push_impl_def(
        self,
        id: DefId,
        impl_id: ImplId,
        item: ItemId,
        rows: &mut Vec<DefRow>,
    ) -> Result<(), ItemFault> {
        let Some(impl_node) = self.definitions.places.impl_node(self.ast, impl_id) else {
            return Ok(());
        };
        let Some(node) = assoc_item(self.ast, &self.definitions.places, impl_node.items, item)
        else {
            return Ok(());
        };
        let mut lowering = Lowering::of_impl(self.alloc, self.ast, self.definitions, &impl_node);
        let row = lowering.def_row(id, Container::Impl(impl_id), item, &node);
        lowering.scope.fault.keep(rows.push(row));
        lowering.scope.fault.result()
    }
}

impl Lowering<'_> {
    /// What a definition gives its item, in the scope of its container.
    fn def_row(
        &mut self,
        id: DefId,
        container: Container,
        item: ItemId,
        node: &AssocItem,
    ) -> DefRow {
        self.declare(node.generics);
        let own_params = self.own_kinds(node.generics.params);
        self.conditions(node.generics);
        DefRow {
            id,
            container,
            item,
            own_params,
            value: self.def_value(node),
        }
    }

    fn def_value(&mut self, node: &AssocItem) -> DefValue {
        if self.ast.has_attr(node.attrs, "evaluated") {
            return DefValue::Evaluated;
        }
        match node.value {
            Some(id) => DefValue::Term(self.value(node.is_const, id)),
            None => DefValue::Missing,
        }
    }
}
