//! The lang items that a text has where it names none.
use crate::faults::{ItemFault, wrong_name};
use vurloske_ast::ast::{Ast, Ident, ItemKind};
use vurloske_ast::phrase::Phrase;

/// The traits, the items and the struct that built-in rules know.
pub const PRELUDE: &str = "#[lang = \"sized\"]
trait Sized {}
#[lang = \"copy\"]
const trait Copy: [const] Clone {}
#[lang = \"clone\"]
const trait Clone {}
#[lang = \"fn\"]
const trait Fn<Args>: [const] FnMut<Args> {}
#[lang = \"fn_mut\"]
const trait FnMut<Args>: [const] FnOnce<Args> {}
#[lang = \"fn_once\"]
const trait FnOnce<Args> {
    #[lang = \"fn_once_output\"]
    type Output;
}
#[lang = \"fn_ptr_trait\"]
trait FnPtr {}
#[lang = \"tuple_trait\"]
trait Tuple {}
#[lang = \"pointee_trait\"]
trait Pointee {
    #[lang = \"metadata_type\"]
    type Metadata;
}
#[lang = \"discriminant_kind\"]
trait DiscriminantKind {
    #[lang = \"discriminant_type\"]
    type Discriminant;
}
#[lang = \"destruct\"]
const trait Destruct {}
#[lang = \"field_trait\"]
trait Field {
    #[lang = \"field_base\"]
    type Base;
    #[lang = \"field_type\"]
    type Type;
}
#[lang = \"dyn_metadata\"]
struct DynMetadata<T>;
";

/// Whether one of the prelude's items is called so.
fn is_name(name: &str) -> bool {
    match name {
        "Sized"
        | "Copy"
        | "Clone"
        | "Fn"
        | "FnMut"
        | "FnOnce"
        | "FnPtr"
        | "Tuple"
        | "Pointee"
        | "DiscriminantKind"
        | "Destruct"
        | "Field"
        | "DynMetadata" => true,
        _ => false,
    }
}

/// A mistake at the first item of a text that is called as one of the prelude's.
pub fn check_names(ast: &Ast) -> Result<(), ItemFault> {
    for item in ast.items.as_slice() {
        if let Some(ident) = declared(&item.kind) {
            if is_name(ast.name(ident.name)) {
                return Err(wrong_name(ident, Phrase::NEW_ITEM_NAME));
            }
        }
    }
    Ok(())
}

/// The name that an item declares.
fn declared(item: &ItemKind) -> Option<Ident> {
    match item {
        ItemKind::Trait(node) => Some(node.ident),
        ItemKind::Impl(_) => None,
        ItemKind::Free(node) => Some(node.ident),
        ItemKind::Adt(node) => Some(node.ident),
        ItemKind::Fn(node) => Some(node.ident),
        ItemKind::Closure(node) => Some(node.ident),
        ItemKind::Foreign(ident) => Some(*ident),
    }
}

/// Whether an item of a text, or an item of one of its traits, says that it is a lang item.
pub fn has_lang_items(ast: &Ast) -> bool {
    has_lang_attr(ast) || has_lang_attr_in_trait(ast)
}

fn has_lang_attr(ast: &Ast) -> bool {
    for item in ast.items.as_slice() {
        if ast.has_attr(item.attrs, "lang") {
            return true;
        }
    }
    false
}

fn has_lang_attr_in_trait(ast: &Ast) -> bool {
    for item in ast.assoc_items.as_slice() {
        if ast.has_attr(item.attrs, "lang") {
            return true;
        }
    }
    false
}
