//! Which item a name is, and which name an item has.
ghost use Rattle.std.specs.Prelude.{◌≡◌, [], slice_get, IfSome, None, Some};
ghost use Rattle.std.specs.HashMap.{get};
ghost use Rattle.std.specs.Option.{option_and_then, option_map_or};
ghost use Rattle.vurloske_names.specs.Names.{item_key, only_owned, trait_defined};

mod collect;
pub mod places;
mod supertraits;

use crate::builtins::Builtin;
use crate::faults::ItemFault;
use goal_terms::ids::{
    AdtId, ClosureId, FnId, ForeignId, FreeId, ImplId, InherentId, InherentImplId, ItemId,
    OpaqueId, TraitId,
};
use goal_terms::lang::LangRow;
use goal_terms::predicates::Clause;
use indexmap::IndexMap;
use places::Places;
use std::alloc::Global;
use vurloske_ast::ast::{Ast, Generics, Symbol, TermId};

/// What a name is.
#[derive(Clone, Copy)]
pub enum Definition {
    Builtin(Builtin),
    Trait(TraitId),
    Adt(AdtId),
    FreeTy(FreeId),
    FreeConst(FreeId),
    Opaque(OpaqueId),
    Fn(FnId),
    Closure(ClosureId),
    Foreign(ForeignId),
}

/// What a name is, and what it declares.
#[derive(Clone, Copy)]
pub struct Named {
    pub definition: Definition,
    pub generics: Generics,
}

/// An item of a trait by its name.
#[derive(Clone, Copy, PartialEq, Eq, Hash)]
struct ItemKey {
    trait_id: TraitId,
    name: Symbol,
}

/// The traits that have an item of some name.
#[derive(Clone, Copy)]
enum Owners {
    One(ItemId),
    Several,
}

/// What the names of a text are.
pub struct Definitions {
    pub places: Places,
    named: IndexMap<Symbol, Named>,
    item_ids: IndexMap<ItemKey, ItemId>,
    owners: IndexMap<Symbol, Owners>,
    inherent_ids: IndexMap<Symbol, Vec<InherentId>>,
    impl_names: IndexMap<Symbol, ImplId>,
    pub lang_items: Vec<LangRow>,
    /// The item `FnOnce::Output`.
    pub fn_once_output: Option<ItemId>,
    /// What each trait says of its self type, by id.
    supertraits: Vec<Vec<Clause>>,
    /// The items of supertraits, by the traits below.
    inherited: IndexMap<ItemKey, ItemId>,
    /// The name `Self`, where the text has it.
    pub self_name: Option<Symbol>,
}

impl Drop for Definitions {
    fn drop(self) {
        let Definitions {
            places: _,
            named: _,
            item_ids: _,
            owners: _,
            inherent_ids: _,
            impl_names: _,
            lang_items: _,
            fn_once_output: _,
            supertraits: _,
            inherited: _,
            self_name: _,
        } = self;
    }
}

impl Definitions {
    /// The names of a text's items, in order of the text. A mistake where a name is doubled. What the
    /// traits say of their self types is added to it.
    pub fn new(alloc: Global, ast: &Ast) -> Result<Definitions, ItemFault> {
        let mut definitions = Definitions::empty(alloc);
        definitions.add_builtins(ast)?;
        definitions.add_items(alloc, ast)?;
        Ok(definitions)
    }

    fn empty(alloc: Global) -> Definitions {
        Definitions {
            places: Places::empty(alloc),
            named: IndexMap::new(alloc),
            item_ids: IndexMap::new(alloc),
            owners: IndexMap::new(alloc),
            inherent_ids: IndexMap::new(alloc),
            impl_names: IndexMap::new(alloc),
            lang_items: Vec::new(alloc),
            fn_once_output: None,
            supertraits: Vec::new(alloc),
            inherited: IndexMap::new(alloc),
            self_name: None,
        }
    }

    /// Whether a name is `Self`.
    pub fn is_self(&self, name: Symbol) -> bool {
        self.self_name == Some(name)
    }

    /// What a name is.
    pub fn named(&self, name: Symbol) -> Option<Named>
        ensures { result ≡ get ⟦<Symbol as PartialEq>⟧.eq self.now.named name }
    {
        self.named.get(&name).copied()
    }

    /// The item of a trait that has a name.
    pub fn item(&self, trait_id: TraitId, name: Symbol) -> Option<ItemId>
        ensures { result ≡ get ⟦<ItemKey as PartialEq>⟧.eq self.now.item_ids (record { trait_id = trait_id; name = name }) }
    {
        self.item_ids.get(&ItemKey { trait_id, name }).copied()
    }

    /// The trait of a name.
    pub fn trait_id(&self, name: Symbol) -> Option<TraitId>
        ensures { result ≡ option_and_then (λ n. trait_defined n.definition) (get ⟦<Symbol as PartialEq>⟧.eq self.now.named name) }
    {
        match self.named(name)?.definition {
            Definition::Trait(id) => Some(id),
            _ => None,
        }
    }

    /// The item of this name that a trait has, by itself or through a supertrait.
    pub fn item_through(&self, trait_id: TraitId, name: Symbol) -> Option<ItemId>
        ensures own { IfSome (get ⟦<ItemKey as PartialEq>⟧.eq self.now.item_ids (item_key trait_id name)) (λ id. result ≡ Some id) }
        ensures inherited { get ⟦<ItemKey as PartialEq>⟧.eq self.now.item_ids (item_key trait_id name) ≡ None →
            result ≡ get ⟦<ItemKey as PartialEq>⟧.eq self.now.inherited (item_key trait_id name) }
    {
        match self.item(trait_id, name) {
            Some(id) => Some(id),
            None => self.inherited.get(&ItemKey { trait_id, name }).copied(),
        }
    }

    /// The item of this name, if only one trait has such an item.
    pub fn only_item(&self, name: Symbol) -> Option<ItemId>
        ensures { result ≡ option_and_then only_owned (get ⟦<Symbol as PartialEq>⟧.eq self.now.owners name) }
    {
        match self.owners.get(&name) {
            Some(Owners::One(id)) => Some(*id),
            _ => None,
        }
    }

    /// The items of this name in impls of no trait.
    pub fn inherent_items_named(&self, name: Symbol) -> &[InherentId]
        ensures { result.now ≡ option_map_or (λ ids. ids.items) (get ⟦<Symbol as PartialEq>⟧.eq self.now.inherent_ids name) [] }
    {
        match self.inherent_ids.get(&name) {
            Some(ids) => ids.as_slice(),
            None => &[],
        }
    }

    /// The impl with `#[name(..)]`.
    pub fn impl_named(&self, name: Symbol) -> Option<ImplId>
        ensures { result ≡ get ⟦<Symbol as PartialEq>⟧.eq self.now.impl_names name }
    {
        self.impl_names.get(&name).copied()
    }

    /// What a trait says of its self type, under the trait's parameters.
    pub fn supertraits(&self, id: TraitId) -> &[Clause]
        ensures { result.now ≡ option_map_or (λ clauses. clauses.items) (slice_get self.now.supertraits.items id.0) [] }
    {
        match self.supertraits.get(id.0 as usize) {
            Some(clauses) => clauses.as_slice(),
            None => &[],
        }
    }
}
