ghost use Rattle.std.specs.Prelude.{◌≡◌};
ghost use Rattle.goal_tables.specs.ImplFaults.{is_reservation};
ghost use Rattle.goal_tables.specs.Rows.{row_count};
ghost use Rattle.goal_tables.specs.SourceFaults.{is_positive};

use goal_terms::answers::ParamKind;
use goal_terms::ids::{
    AdtId, ClosureId, DefId, FnId, FreeId, ImplId, InherentId, InherentImplId, ItemId, OpaqueId,
    TraitId,
};
use goal_terms::lang::LangRow;
use goal_terms::predicates::{Clause, TraitRef};
use goal_terms::terms::{FnSig, GenericArg, Term, Ty};
use std::alloc::Global;

/// A trait. Parameter 0 is the self type. `predicates` and `const_conditions` are those of a trait
/// alias, and are under the trait's parameters.
pub struct TraitRow {
    pub id: TraitId,
    pub params: Vec<ParamKind>,
    pub allows_const: bool,
    pub is_auto: bool,
    pub is_alias: bool,
    pub predicates: Vec<Clause>,
    pub const_conditions: Vec<TraitRef>,
    pub items: Vec<ItemId>,
}

impl Drop for TraitRow {
    fn drop(self) {
        let TraitRow {
            id: _,
            params: _,
            allows_const: _,
            is_auto: _,
            is_alias: _,
            predicates: _,
            const_conditions: _,
            items: _,
        } = self;
    }
}

/// The const bounds of an alias that has const conditions. One more type parameter after the last
/// stands for the alias itself.
pub struct ConstBounds {
    pub implied: Vec<TraitRef>,
    pub conditions: Vec<TraitRef>,
}

impl Drop for ConstBounds {
    fn drop(self) {
        let ConstBounds {
            implied: _,
            conditions: _,
        } = self;
    }
}

/// An item of a trait. A projection's arguments are the trait's parameters, then the item's own. In
/// `bounds` and `const_bounds` one more type parameter after the last stands for the alias itself.
pub struct ItemRow {
    pub id: ItemId,
    pub trait_id: TraitId,
    pub is_const: bool,
    pub own_params: Vec<ParamKind>,
    pub own_predicates: Vec<Clause>,
    pub bounds: Vec<Clause>,
    pub const_bounds: Option<ConstBounds>,
}

impl Drop for ItemRow {
    fn drop(self) {
        let ItemRow {
            id: _,
            trait_id: _,
            is_const: _,
            own_params: _,
            own_predicates: _,
            bounds: _,
            const_bounds: _,
        } = self;
    }
}

/// Whether an impl says that its trait holds. A reservation impl only bars a refutation, in coherence.
#[derive(Clone, Copy)]
pub enum ImplPolarity {
    Positive,
    Negative,
    Reservation,
}

impl ImplPolarity {
    /// Whether the impl says that its trait holds.
    pub fn is_positive(self) -> bool
        ensures { result ≡ is_positive self }
    {
        match self {
            ImplPolarity::Positive => true,
            ImplPolarity::Negative | ImplPolarity::Reservation => false,
        }
    }

    /// Whether the impl only bars a refutation.
    pub fn is_reservation(self) -> bool
        ensures { result ≡ is_reservation self }
    {
        match self {
            ImplPolarity::Positive | ImplPolarity::Negative => false,
            ImplPolarity::Reservation => true,
        }
    }
}

/// An impl of a trait, for the arguments of its header, the self type included.
pub struct ImplRow {
    pub id: ImplId,
    pub trait_id: TraitId,
    pub params: Vec<ParamKind>,
    pub trait_args: Vec<GenericArg>,
    pub polarity: ImplPolarity,
    pub is_const: bool,
    pub guaranteed_unsized: bool,
    pub predicates: Vec<Clause>,
    pub const_conditions: Vec<TraitRef>,
    pub more_special: Vec<ImplId>,
}

impl Drop for ImplRow {
    fn drop(self) {
        let ImplRow {
            id: _,
            trait_id: _,
            params: _,
            trait_args: _,
            polarity: _,
            is_const: _,
            guaranteed_unsized: _,
            predicates: _,
            const_conditions: _,
            more_special: _,
        } = self;
    }
}

/// Where a definition stands.
#[derive(Clone, Copy)]
pub enum Container {
    Impl(ImplId),
    Trait(TraitId),
}

/// What a definition gives its item. `Evaluated` is the value of a constant that would have to be
/// evaluated.
#[derive(Drop)]
pub enum DefValue {
    Missing,
    Term(Term),
    Evaluated,
}

/// A definition of an item. Its parameters are its container's, then its own.
pub struct DefRow {
    pub id: DefId,
    pub container: Container,
    pub item: ItemId,
    pub own_params: Vec<ParamKind>,
    pub value: DefValue,
}

impl Drop for DefRow {
    fn drop(self) {
        let DefRow {
            id: _,
            container: _,
            item: _,
            own_params: _,
            value: _,
        } = self;
    }
}

/// What an impl uses for an item. `Broken` has the number of the error that stands for the value.
#[derive(Clone, Copy)]
pub enum Source {
    Def { def_id: DefId, is_default: bool },
    Broken(u32),
}

/// Which definition an impl uses for an item of its trait.
pub struct SourceRow {
    pub impl_id: ImplId,
    pub item_id: ItemId,
    pub source: Source,
}

impl Drop for SourceRow {
    fn drop(self) {
        let SourceRow {
            impl_id: _,
            item_id: _,
            source: _,
        } = self;
    }
}

/// A free type alias or constant. Only a constant may lack its value.
pub struct FreeRow {
    pub id: FreeId,
    pub params: Vec<ParamKind>,
    pub is_const: bool,
    pub predicates: Vec<Clause>,
    pub value: Option<Term>,
}

impl Drop for FreeRow {
    fn drop(self) {
        let FreeRow {
            id: _,
            params: _,
            is_const: _,
            predicates: _,
            value: _,
        } = self;
    }
}

/// An impl of no trait.
pub struct InherentImplRow {
    pub id: InherentImplId,
    pub params: Vec<ParamKind>,
    pub self_ty: Ty,
}

impl Drop for InherentImplRow {
    fn drop(self) {
        let InherentImplRow {
            id: _,
            params: _,
            self_ty: _,
        } = self;
    }
}

/// An item of an inherent impl. Its parameters are the impl's, then its own; an alias of it has the
/// self type and then the item's own arguments. `predicates` are the impl's and its own.
pub struct InherentRow {
    pub id: InherentId,
    pub impl_id: InherentImplId,
    pub is_const: bool,
    pub own_params: Vec<ParamKind>,
    pub predicates: Vec<Clause>,
    pub value: Option<Term>,
}

impl Drop for InherentRow {
    fn drop(self) {
        let InherentRow {
            id: _,
            impl_id: _,
            is_const: _,
            own_params: _,
            predicates: _,
            value: _,
        } = self;
    }
}

/// An opaque type. In `bounds` and `const_bounds` one more type parameter after the last stands for
/// the type itself.
pub struct OpaqueRow {
    pub id: OpaqueId,
    pub params: Vec<ParamKind>,
    pub is_local: bool,
    pub hidden: Ty,
    pub typeck_hidden: Ty,
    pub bounds: Vec<Clause>,
    pub const_bounds: Option<ConstBounds>,
}

impl Drop for OpaqueRow {
    fn drop(self) {
        let OpaqueRow {
            id: _,
            params: _,
            is_local: _,
            hidden: _,
            typeck_hidden: _,
            bounds: _,
            const_bounds: _,
        } = self;
    }
}

/// What sort of type a declaration makes.
#[derive(Clone, Copy)]
pub enum AdtKind {
    Struct,
    Enum,
    Union,
}

/// What a field representing type says of its field.
pub struct FieldInfo {
    pub base: Ty,
    pub ty: Ty,
}

impl Drop for FieldInfo {
    fn drop(self) {
        let FieldInfo { base: _, ty: _ } = self;
    }
}

/// A struct, an enum or a union. The tail is read for structs alone.
pub struct AdtRow {
    pub id: AdtId,
    pub params: Vec<ParamKind>,
    pub kind: AdtKind,
    pub tail: Option<Ty>,
    pub sized_constraint: Option<Ty>,
    pub discriminant: Ty,
    pub destruct_conditions: Vec<TraitRef>,
    pub field_info: Option<FieldInfo>,
}

impl Drop for AdtRow {
    fn drop(self) {
        let AdtRow {
            id: _,
            params: _,
            kind: _,
            tail: _,
            sized_constraint: _,
            discriminant: _,
            destruct_conditions: _,
            field_info: _,
        } = self;
    }
}

/// A function item.
pub struct FnRow {
    pub id: FnId,
    pub params: Vec<ParamKind>,
    pub sig: FnSig,
    pub is_const: bool,
    pub const_conditions: Vec<TraitRef>,
}

impl Drop for FnRow {
    fn drop(self) {
        let FnRow {
            id: _,
            params: _,
            sig: _,
            is_const: _,
            const_conditions: _,
        } = self;
    }
}

/// How a closure may be called.
#[derive(Clone, Copy)]
pub enum ClosureKind {
    Fn,
    FnMut,
    FnOnce,
}

/// A closure.
pub struct ClosureRow {
    pub id: ClosureId,
    pub params: Vec<ParamKind>,
    pub kind: ClosureKind,
    pub sig: FnSig,
    pub upvars: Vec<Ty>,
    pub is_const: bool,
    pub const_conditions: Vec<TraitRef>,
}

impl Drop for ClosureRow {
    fn drop(self) {
        let ClosureRow {
            id: _,
            params: _,
            kind: _,
            sig: _,
            upvars: _,
            is_const: _,
            const_conditions: _,
        } = self;
    }
}

/// All rows, in lists. The first row of an id is the row of that id.
pub struct Tables {
    pub traits: Vec<TraitRow>,
    pub items: Vec<ItemRow>,
    pub impls: Vec<ImplRow>,
    pub definitions: Vec<DefRow>,
    pub sources: Vec<SourceRow>,
    pub free_aliases: Vec<FreeRow>,
    pub inherent_impls: Vec<InherentImplRow>,
    pub inherent_items: Vec<InherentRow>,
    pub opaque_types: Vec<OpaqueRow>,
    pub adts: Vec<AdtRow>,
    pub functions: Vec<FnRow>,
    pub closures: Vec<ClosureRow>,
    pub lang_items: Vec<LangRow>,
}

impl Tables {
    /// Tables without rows, whose lists grow by this allocator. It takes no memory.
    pub fn new(alloc: Global) -> Self
        ensures empty { row_count result ≡ 0 }
    {
        Tables {
            traits: Vec::new(alloc),
            items: Vec::new(alloc),
            impls: Vec::new(alloc),
            definitions: Vec::new(alloc),
            sources: Vec::new(alloc),
            free_aliases: Vec::new(alloc),
            inherent_impls: Vec::new(alloc),
            inherent_items: Vec::new(alloc),
            opaque_types: Vec::new(alloc),
            adts: Vec::new(alloc),
            functions: Vec::new(alloc),
            closures: Vec::new(alloc),
            lang_items: Vec::new(alloc),
        }
    }
}

impl Drop for Tables {
    fn drop(self) {
        let Tables {
            traits: _,
            items: _,
            impls: _,
            definitions: _,
            sources: _,
            free_aliases: _,
            inherent_impls: _,
            inherent_items: _,
            opaque_types: _,
            adts: _,
            functions: _,
            closures: _,
            lang_items: _,
        } = self;
    }
}
