//! From an id to what was written.
use goal_terms::ids::{
    AdtId, ClosureId, FnId, ForeignId, FreeId, ImplId, InherentId, InherentImplId, ItemId,
    OpaqueId, TraitId,
};
use std::alloc::Global;
use vurloske_ast::ast::{
    Adt, AssocItem, Ast, Closure, Fn, Free, Ident, Impl, Item, ItemKind, Run, Symbol, TermId, Trait,
};

/// Where an item of a trait stands.
#[derive(Clone, Copy)]
pub struct ItemEntry {
    pub name: Symbol,
    pub trait_id: TraitId,
    pub is_const: bool,
    /// Its place in `Ast::assoc_items`.
    pub place: usize,
}

/// Where an item of an inherent impl stands.
#[derive(Clone, Copy)]
pub struct InherentEntry {
    pub name: Symbol,
    pub impl_id: InherentImplId,
    /// What the impl is for.
    pub self_ty: TermId,
    pub is_const: bool,
    /// Its place in `Ast::assoc_items`.
    pub place: usize,
}

/// Where the items of a text stand, by their ids. A number leads into `Ast::items`.
pub struct Places {
    pub traits: Vec<usize>,
    pub impls: Vec<usize>,
    pub inherent_impls: Vec<usize>,
    pub free_aliases: Vec<usize>,
    pub opaque_types: Vec<usize>,
    pub adts: Vec<usize>,
    pub functions: Vec<usize>,
    pub closures: Vec<usize>,
    pub foreign_types: Vec<usize>,
    pub items: Vec<ItemEntry>,
    pub inherent_items: Vec<InherentEntry>,
}

impl Drop for Places {
    fn drop(self) {
        let Places {
            traits: _,
            impls: _,
            inherent_impls: _,
            free_aliases: _,
            opaque_types: _,
            adts: _,
            functions: _,
            closures: _,
            foreign_types: _,
            items: _,
            inherent_items: _,
        } = self;
    }
}

/// The attributes of the item at a place of a list of places.
pub fn attrs_at(ast: &Ast, places: &[usize], number: u32) -> Run {
    match item_at(ast, places, number) {
        Some(item) => item.attrs,
        None => Run::EMPTY,
    }
}

/// The item at a place of a list of places.
fn item_at(ast: &Ast, places: &[usize], number: u32) -> Option<Item> {
    let place = places.get(number as usize)?;
    ast.items.get(*place).copied()
}

impl Places {
    /// Of no items.
    pub(crate) fn empty(alloc: Global) -> Places {
        Places {
            traits: Vec::new(alloc),
            impls: Vec::new(alloc),
            inherent_impls: Vec::new(alloc),
            free_aliases: Vec::new(alloc),
            opaque_types: Vec::new(alloc),
            adts: Vec::new(alloc),
            functions: Vec::new(alloc),
            closures: Vec::new(alloc),
            foreign_types: Vec::new(alloc),
            items: Vec::new(alloc),
            inherent_items: Vec::new(alloc),
        }
    }

    /// What was written of a trait.
    pub fn trait_node(&self, ast: &Ast, id: TraitId) -> Option<Trait> {
        match item_at(ast, &self.traits, id.0)?.kind {
            ItemKind::Trait(node) => Some(node),
            _ => None,
        }
    }

    /// What was written of an impl of a trait.
    pub fn impl_node(&self, ast: &Ast, id: ImplId) -> Option<Impl> {
        match item_at(ast, &self.impls, id.0)?.kind {
            ItemKind::Impl(node) => Some(node),
            _ => None,
        }
    }

    /// What was written of an impl of no trait.
    pub fn inherent_impl_node(&self, ast: &Ast, id: InherentImplId) -> Option<Impl> {
        match item_at(ast, &self.inherent_impls, id.0)?.kind {
            ItemKind::Impl(node) => Some(node),
            _ => None,
        }
    }

    /// What was written of a free alias or constant.
    pub fn free_node(&self, ast: &Ast, id: FreeId) -> Option<Free> {
        match item_at(ast, &self.free_aliases, id.0)?.kind {
            ItemKind::Free(node) => Some(node),
            _ => None,
        }
    }

    /// What was written of an opaque type.
    pub fn opaque_node(&self, ast: &Ast, id: OpaqueId) -> Option<Free> {
        match item_at(ast, &self.opaque_types, id.0)?.kind {
            ItemKind::Free(node) => Some(node),
            _ => None,
        }
    }

    /// What was written of a struct, an enum or a union.
    pub fn adt_node(&self, ast: &Ast, id: AdtId) -> Option<Adt> {
        match item_at(ast, &self.adts, id.0)?.kind {
            ItemKind::Adt(node) => Some(node),
            _ => None,
        }
    }

    /// What was written of a function.
    pub fn fn_node(&self, ast: &Ast, id: FnId) -> Option<Fn> {
        match item_at(ast, &self.functions, id.0)?.kind {
            ItemKind::Fn(node) => Some(node),
            _ => None,
        }
    }

    /// What was written of a closure.
    pub fn closure_node(&self, ast: &Ast, id: ClosureId) -> Option<Closure> {
        match item_at(ast, &self.closures, id.0)?.kind {
            ItemKind::Closure(node) => Some(node),
            _ => None,
        }
    }

    /// The name of a foreign type.
    pub fn foreign_node(&self, ast: &Ast, id: ForeignId) -> Option<Ident> {
        match item_at(ast, &self.foreign_types, id.0)?.kind {
            ItemKind::Foreign(ident) => Some(ident),
            _ => None,
        }
    }

    /// What is known of an item of a trait.
    pub fn item_entry(&self, id: ItemId) -> Option<ItemEntry> {
        self.items.get(id.0 as usize).copied()
    }

    /// What was written of an item in its trait.
    pub fn item_node(&self, ast: &Ast, id: ItemId) -> Option<AssocItem> {
        let entry = self.item_entry(id)?;
        ast.assoc_items.get(entry.place).copied()
    }

    /// What is known of an item of an inherent impl.
    pub fn inherent_entry(&self, id: InherentId) -> Option<InherentEntry> {
        self.inherent_items.get(id.0 as usize).copied()
    }

    /// What was written of an item in its inherent impl.
    pub fn inherent_node(&self, ast: &Ast, id: InherentId) -> Option<AssocItem> {
        let entry = self.inherent_entry(id)?;
        ast.assoc_items.get(entry.place).copied()
    }
}
