//! Gathers the names of a text's items.
use crate::attributes::name_in_attr;
use crate::builtins::{Builtin, lang_item};
use crate::definitions::places::{InherentEntry, ItemEntry};
use crate::definitions::{Definition, Definitions, ItemKey, Named, Owners};
use crate::faults::{ItemFault, wrong_name};
use goal_terms::ids::{
    AdtId, ClosureId, FnId, ForeignId, FreeId, ImplId, InherentId, InherentImplId, ItemId,
    OpaqueId, TraitId,
};
use goal_terms::lang::{LangItem, LangRow, LangTarget};
use std::alloc::Global;
use vurloske_ast::ast::{
    Adt, AssocItem, Ast, AttrValue, Closure, Fn, Free, FreeValue, Generics, Ident, Impl, Item,
    ItemKind, Run, Symbol, Trait,
};
use vurloske_ast::phrase::Phrase;

/// What an item declares that declares nothing.
const NO_GENERICS: Generics = Generics {
    params: Run::EMPTY,
    where_clauses: Run::EMPTY,
};

/// Adds a place to a list, and gives its number there.
fn number_of(places: &mut Vec<usize>, place: usize) -> Result<u32, ItemFault> {
    let number = as_number(places.len())?;
    places.push(place)?;
    Ok(number)
}

fn as_number(len: usize) -> Result<u32, ItemFault> {
    match u32::try_from(len) {
        Ok(number) => Ok(number),
        Err(_) => Err(ItemFault::OutOfMemory),
    }
}

/// Which lang item attributes say that an item is.
fn lang_of(ast: &Ast, attrs: Run) -> Result<Option<LangItem>, ItemFault> {
    let Some(attr) = ast.attr_named(attrs, "lang") else {
        return Ok(None);
    };
    let found = match attr.value {
        AttrValue::Text(name) => lang_item(ast.name(name)),
        _ => None,
    };
    match found {
        Some(item) => Ok(Some(item)),
        None => Err(wrong_name(attr.ident, Phrase::NAME_OF_A_LANG_ITEM)),
    }
}

impl Definitions {
    /// Adds the names that no item declares.
    pub(super) fn add_builtins(&mut self, ast: &Ast) -> Result<(), ItemFault> {
        self.self_name = ast.symbol("Self");
        for number in 0..as_number(ast.names.len())? {
            let symbol = Symbol(number);
            if let Some(builtin) = Builtin::of(ast.name(symbol)) {
                let named = Named {
                    definition: Definition::Builtin(builtin),
                    generics: NO_GENERICS,
                };
                self.named.insert(symbol, named)?;
            }
        }
        Ok(())
    }

    /// Adds the items in order.
    pub(super) fn add_items(&mut self, alloc: Global, ast: &Ast) -> Result<(), ItemFault> {
        for (place, item) in ast.items.as_slice().iter().enumerate() {
            self.add_item(alloc, ast, place, item)?;
        }
        Ok(())
    }

    fn add_item(
        &mut self,
        alloc: Global,
        ast: &Ast,
        place: usize,
        item: &Item,
    ) -> Result<(), ItemFault> {
        match item.kind {
            ItemKind::Trait(node) => self.add_trait(ast, place, item.attrs, &node),
            ItemKind::Impl(node) => self.add_impl(alloc, ast, place, item.attrs, &node),
            ItemKind::Free(node) => self.add_free(place, &node),
            ItemKind::Adt(node) => self.add_adt(ast, place, item.attrs, &node),
            ItemKind::Fn(node) => self.add_fn(place, &node),
            ItemKind::Closure(node) => self.add_closure(place, &node),
            ItemKind::Foreign(ident) => self.add_foreign(place, ident),
        }
    }

    fn add_adt(
        &mut self,
        ast: &Ast,
        place: usize,
        attrs: Run,
        node: &Adt,
    ) -> Result<(), ItemFault> {
        let id = AdtId(number_of(&mut self.places.adts, place)?);
        self.add_lang(lang_of(ast, attrs)?, LangTarget::Adt(id))?;
        self.add_name(node.ident, Definition::Adt(id), node.generics)
    }

    fn add_fn(&mut self, place: usize, node: &Fn) -> Result<(), ItemFault> {
        let id = FnId(number_of(&mut self.places.functions, place)?);
        self.add_name(node.ident, Definition::Fn(id), node.generics)
    }

    fn add_closure(&mut self, place: usize, node: &Closure) -> Result<(), ItemFault> {
        let id = ClosureId(number_of(&mut self.places.closures, place)?);
        self.add_name(node.ident, Definition::Closure(id), node.generics)
    }

    fn add_foreign(&mut self, place: usize, ident: Ident) -> Result<(), ItemFault> {
        let id = ForeignId(number_of(&mut self.places.foreign_types, place)?);
        self.add_name(ident, Definition::Foreign(id), NO_GENERICS)
    }

    /// Says what a name is. A mistake where it is something already.
    fn add_name(
        &mut self,
        ident: Ident,
        definition: Definition,
        generics: Generics,
    ) -> Result<(), ItemFault> {
        let named = Named {
            definition,
            generics,
        };
        match self.named.insert(ident.name, named)? {
            Some(_) => Err(wrong_name(ident, Phrase::NEW_ITEM_NAME)),
            None => Ok(()),
        }
    }

    fn add_lang(&mut self, item: Option<LangItem>, target: LangTarget) -> Result<(), ItemFault> {
        let Some(item) = item else {
            return Ok(());
        };
        if let (LangItem::Output, LangTarget::Item(id)) = (item, target) {
            self.fn_once_output = Some(id);
        }
        self.lang_items.push(LangRow { item, target })?;
        Ok(())
    }

    fn add_trait(
        &mut self,
        ast: &Ast,
        place: usize,
        attrs: Run,
        node: &Trait,
    ) -> Result<(), ItemFault> {
        let id = TraitId(number_of(&mut self.places.traits, place)?);
        self.add_lang(lang_of(ast, attrs)?, LangTarget::Trait(id))?;
        self.add_name(node.ident, Definition::Trait(id), node.generics)?;
        for (index, item) in ast.assoc_items(node.items).iter().enumerate() {
            let place = node.items.first.saturating_add(index);
            self.add_trait_item(ast, id, place, item)?;
        }
        Ok(())
    }

    fn add_trait_item(
        &mut self,
        ast: &Ast,
        trait_id: TraitId,
        place: usize,
        item: &AssocItem,
    ) -> Result<(), ItemFault> {
        let id = ItemId(as_number(self.places.items.len())?);
        self.places.items.push(ItemEntry {
            name: item.ident.name,
            trait_id,
            is_const: item.is_const,
            place,
        })?;
        self.add_lang(lang_of(ast, item.attrs)?, LangTarget::Item(id))?;
        self.add_item_name(trait_id, item.ident, id)
    }

    /// Says which item of a trait a name is. A mistake where it is another one.
    fn add_item_name(
        &mut self,
        trait_id: TraitId,
        ident: Ident,
        id: ItemId,
    ) -> Result<(), ItemFault> {
        let name = ident.name;
        let before = self.item_ids.insert(ItemKey { trait_id, name }, id)?;
        if before.is_some() {
            return Err(wrong_name(ident, Phrase::NEW_TRAIT_ITEM_NAME));
        }
        let owners = match self.owners.get(&name) {
            Some(_) => Owners::Several,
            None => Owners::One(id),
        };
        self.owners.insert(name, owners)?;
        Ok(())
    }

    fn add_impl(
        &mut self,
        alloc: Global,
        ast: &Ast,
        place: usize,
        attrs: Run,
        node: &Impl,
    ) -> Result<(), ItemFault> {
        if node.trait_.is_none() {
            return self.add_inherent_impl(alloc, ast, place, node);
        }
        let id = ImplId(number_of(&mut self.places.impls, place)?);
        if let Some(attr) = ast.attr_named(attrs, "name") {
            let ident = name_in_attr(ast, &attr)?;
            if self.impl_names.insert(ident.name, id)?.is_some() {
                return Err(wrong_name(ident, Phrase::NEW_IMPL_NAME));
            }
        }
        Ok(())
    }

    fn add_inherent_impl(
        &mut self,
        alloc: Global,
        ast: &Ast,
        place: usize,
        node: &Impl,
    ) -> Result<(), ItemFault> {
        let impl_id = InherentImplId(number_of(&mut self.places.inherent_impls, place)?);
        for (index, item) in ast.assoc_items(node.items).iter().enumerate() {
            let id = InherentId(as_number(self.places.inherent_items.len())?);
            self.places.inherent_items.push(InherentEntry {
                name: item.ident.name,
                impl_id,
                self_ty: node.self_ty,
                is_const: item.is_const,
                place: node.items.first.saturating_add(index),
            })?;
            self.add_inherent_name(alloc, item.ident, id)?;
        }
        Ok(())
    }

    fn add_inherent_name(
        &mut self,
        alloc: Global,
        ident: Ident,
        id: InherentId,
    ) -> Result<(), ItemFault> {
        if let Some(ids) = self.inherent_ids.get_mut(&ident.name) {
            ids.push(id)?;
            return Ok(());
        }
        let mut ids = Vec::new(alloc);
        ids.push(id)?;
        self.inherent_ids.insert(ident.name, ids)?;
        Ok(())
    }

    fn add_free(&mut self, place: usize, node: &Free) -> Result<(), ItemFault> {
        let definition = if let FreeValue::Opaque(_) = node.value {
            Definition::Opaque(OpaqueId(number_of(&mut self.places.opaque_types, place)?))
        } else {
            let id = FreeId(number_of(&mut self.places.free_aliases, place)?);
            if node.is_const {
                Definition::FreeConst(id)
            } else {
                Definition::FreeTy(id)
            }
        };
        self.add_name(node.ident, definition, node.generics)
    }
}
