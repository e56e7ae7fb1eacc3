//! For which traits the functions of the trait alias and of the built-in rules are.
ghost use Rattle.std.specs.Prelude.{◌≡◌};
ghost use Rattle.goal_tables.specs.Rows.{trait_of};
ghost use Rattle.goal_lists.specs.Builtins.{lang_of_trait};
ghost use Rattle.goal_kinds.specs.CandidateRules.{is_alias_row, is_rule_of, sizedness, copy_clone, fn_ptr_trait, fn_trait, tuple, pointee, discriminant_kind, destruct, field};

use goal_tables::lookup::IndexedTables;
use goal_terms::ids::TraitId;
use goal_terms::lang::{LangItem, LangTarget};

/// Whether a trait is a trait alias. It takes no memory.
pub(crate) fn is_alias(rows: &IndexedTables, trait_id: TraitId) -> bool
    ensures { result ≡ is_alias_row (trait_of rows.now trait_id) }
{
    match rows.trait_row(trait_id) {
        None => false,
        Some(row) => row.is_alias,
    }
}

/// The lang item that names a trait. It takes no memory.
pub(crate) fn lang_item(rows: &IndexedTables, trait_id: TraitId) -> Option<LangItem>
    ensures { result ≡ lang_of_trait rows.now trait_id }
{
    match rows.lang_naming(LangTarget::Trait(trait_id)) {
        None => None,
        Some(row) => Some(row.item),
    }
}

/// Whether a lang item is `Sized`.
pub(crate) fn is_sizedness(item: Option<LangItem>) -> bool
    ensures { result ≡ is_rule_of sizedness item }
{
    matches!(item, Some(LangItem::Sized))
}

/// Whether it is `Copy` or `Clone`.
pub(crate) fn is_copy_clone(item: Option<LangItem>) -> bool
    ensures { result ≡ is_rule_of copy_clone item }
{
    matches!(item, Some(LangItem::Copy | LangItem::Clone))
}

/// Whether it is `FnPtr`.
pub(crate) fn is_fn_ptr_trait(item: Option<LangItem>) -> bool
    ensures { result ≡ is_rule_of fn_ptr_trait item }
{
    matches!(item, Some(LangItem::FnPtr))
}

/// Whether it is `Fn`, `FnMut` or `FnOnce`.
pub(crate) fn is_fn_trait(item: Option<LangItem>) -> bool
    ensures { result ≡ is_rule_of fn_trait item }
{
    matches!(
        item,
        Some(LangItem::Fn | LangItem::FnMut | LangItem::FnOnce)
    )
}

/// Whether it is `Tuple`.
pub(crate) fn is_tuple(item: Option<LangItem>) -> bool
    ensures { result ≡ is_rule_of tuple item }
{
    matches!(item, Some(LangItem::Tuple))
}

/// Whether it is `Pointee`.
pub(crate) fn is_pointee(item: Option<LangItem>) -> bool
    ensures { result ≡ is_rule_of pointee item }
{
    matches!(item, Some(LangItem::Pointee))
}

/// Whether it is `DiscriminantKind`.
pub(crate) fn is_discriminant_kind(item: Option<LangItem>) -> bool
    ensures { result ≡ is_rule_of discriminant_kind item }
{
    matches!(item, Some(LangItem::DiscriminantKind))
}

/// Whether it is `Destruct`.
pub(crate) fn is_destruct(item: Option<LangItem>) -> bool
    ensures { result ≡ is_rule_of destruct item }
{
    matches!(item, Some(LangItem::Destruct))
}

/// Whether it is `Field`.
pub(crate) fn is_field(item: Option<LangItem>) -> bool
    ensures { result ≡ is_rule_of field item }
{
    matches!(item, Some(LangItem::Field))
}
