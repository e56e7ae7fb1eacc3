//! What impls say of the items of their traits.
use crate::rows::Text;
use goal_terms::ids::{ItemId, TraitId};
use vurloske_ast::ast::{AssocItem, Ast, Ident, Run};
use vurloske_ast::phrase::Phrase;
use vurloske_names::attributes::{expect_attrs, name_in_attr, number_in_attr};
use vurloske_names::definitions::places::Places;
use vurloske_names::faults::{ItemFault, wrong_name};

/// Where an item that an impl writes gets its value.
#[derive(Clone, Copy)]
pub(super) enum Written {
    /// It is given here.
    Here,
    /// In the impl of this name.
    From(Ident),
    /// Nowhere: an error with this number stands for it.
    Broken(u32),
}

/// The item of a name among those of a trait or an impl.
pub(super) fn assoc_item(
    ast: &Ast,
    places: &Places,
    items: Run,
    item: ItemId,
) -> Option<AssocItem> {
    let name = places.item_entry(item)?.name;
    for node in ast.assoc_items(items) {
        if node.ident.name == name {
            return Some(*node);
        }
    }
    None
}

/// Whether a trait or an impl gives an item that it writes a value.
pub(super) fn gives_value(ast: &Ast, node: &AssocItem) -> bool {
    node.value.is_some() || ast.has_attr(node.attrs, "evaluated")
}

/// Where an item that an impl writes gets its value. A mistake where it has none, or where it has one
/// beside that of another impl.
pub(super) fn how_written(ast: &Ast, node: &AssocItem) -> Result<Written, ItemFault> {
    expect_attrs(ast, node.attrs, &["from", "broken", "evaluated"])?;
    let from = ast.attr_named(node.attrs, "from");
    let broken = ast.attr_named(node.attrs, "broken");
    match (gives_value(ast, node), from, broken) {
        (true, None, None) => Ok(Written::Here),
        (false, Some(attr), None) => Ok(Written::From(name_in_attr(ast, &attr)?)),
        (false, None, Some(attr)) => Ok(Written::Broken(number_in_attr(ast, &attr)?)),
        _ => Err(wrong_name(node.ident, Phrase::ITEM_WITH_ONE_VALUE)),
    }
}

impl Text<'_> {
    /// The item of a trait that one of an impl is for. A mistake where the trait has none of this name,
    /// or one of another kind.
    pub(super) fn item_for(self, trait_id: TraitId, node: &AssocItem) -> Result<ItemId, ItemFault> {
        let Some(id) = self.definitions.item(trait_id, node.ident.name) else {
            return Err(wrong_name(node.ident, Phrase::ITEM_OF_THE_TRAIT));
        };
        match self.definitions.places.item_entry(id) {
            Some(entry) if entry.is_const && !node.is_const => {
                Err(wrong_name(node.ident, Phrase::CONSTANT_OF_THE_TRAIT))
            }
            Some(entry) if !entry.is_const && node.is_const => {
                Err(wrong_name(node.ident, Phrase::TYPE_OF_THE_TRAIT))
            }
            _ => Ok(id),
        }
    }
}
