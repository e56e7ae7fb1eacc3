//! Which definitions impls use.
use crate::rows::definitions::{DefSite, DefSites};
use crate::rows::impl_items::{Written, assoc_item, how_written};
use crate::rows::impls::polarity;
use crate::rows::{Text, count};
use goal_tables::rows::{Source, SourceRow};
use goal_terms::ids::{ImplId, ItemId, TraitId};
use vurloske_ast::ast::{AssocItem, Ident, Impl};
use vurloske_ast::phrase::Phrase;
use vurloske_names::faults::{ItemFault, wrong_name};

impl Text<'_> {
    /// Adds a row for each item of the trait of each positive impl.
    pub(super) fn push_source_rows(
        self,
        sites: &DefSites,
        rows: &mut Vec<SourceRow>,
    ) -> Result<(), ItemFault> {
        for number in 0..count(self.definitions.places.impls.len()) {
            let id = ImplId(number);
            if let Some((node, trait_id)) = self.impl_with_trait(id)? {
                if polarity(self.ast, &self.definitions.places, id, &node).is_positive() {
                    self.push_sources_of(sites, id, &node, trait_id, rows)?;
                }
            }
        }
        Ok(())
    }

    fn push_sources_of(
        self,
        sites: &DefSites,
        impl_id: ImplId,
        node: &Impl,
        trait_id: TraitId,
        rows: &mut Vec<SourceRow>,
    ) -> Result<(), ItemFault> {
        let Some(trait_node) = self.definitions.places.trait_node(self.ast, trait_id) else {
            return Ok(());
        };
        for item in self.ast.assoc_items(trait_node.items) {
            if let Some(item_id) = self.definitions.item(trait_id, item.ident.name) {
                if let Some(source) = self.source(sites, impl_id, node, item_id)? {
                    rows.push(SourceRow {
                        impl_id,
                        item_id,
                        source,
                    })?;
                }
            }
        }
        Ok(())
    }

    /// What an impl uses for an item of its trait.
    fn source(
        self,
        sites: &DefSites,
        impl_id: ImplId,
        node: &Impl,
        item: ItemId,
    ) -> Result<Option<Source>, ItemFault> {
        match assoc_item(self.ast, &self.definitions.places, node.items, item) {
            Some(written) => self.written_source(sites, impl_id, item, &written),
            None => Ok(definition(sites, DefSite::Trait(item), false)),
        }
    }

    /// What an impl uses for an item that it writes.
    fn written_source(
        self,
        sites: &DefSites,
        impl_id: ImplId,
        item: ItemId,
        node: &AssocItem,
    ) -> Result<Option<Source>, ItemFault> {
        match how_written(self.ast, node)? {
            Written::Here => {
                let site = DefSite::Impl(impl_id, item);
                Ok(definition(sites, site, node.is_default))
            }
            Written::From(name) => {
                let site = DefSite::Impl(self.impl_named(name)?, item);
                match definition(sites, site, node.is_default) {
                    Some(source) => Ok(Some(source)),
                    None => Err(wrong_name(name, Phrase::IMPL_THAT_GIVES_THIS_ITEM)),
                }
            }
            Written::Broken(number) => Ok(Some(Source::Broken(number))),
        }
    }

    /// The impl of a name.
    pub(super) fn impl_named(self, name: Ident) -> Result<ImplId, ItemFault> {
        match self.definitions.impl_named(name.name) {
            Some(id) => Ok(id),
            None => Err(wrong_name(name, Phrase::NAME_OF_AN_IMPL)),
        }
    }
}

fn definition(sites: &DefSites, site: DefSite, is_default: bool) -> Option<Source> {
    let def_id = sites.id(site)?;
    Some(Source::Def { def_id, is_default })
}
