//! What attributes say of items.
use crate::faults::{ItemFault, wrong_name};
use vurloske_ast::ast::{Ast, Attr, AttrArg, AttrValue, Ident, Run, Term, TermId, TermKind};
use vurloske_ast::phrase::Phrase;

/// A mistake where an attribute is none of some names, or stands twice.
pub fn expect_attrs(ast: &Ast, attrs: Run, names: &[&str]) -> Result<(), ItemFault> {
    let attrs = ast.attrs(attrs);
    for (place, attr) in attrs.iter().enumerate() {
        if !is_among(ast.name(attr.ident.name), names) {
            return Err(wrong_name(attr.ident, Phrase::ATTRIBUTE_OF_SUCH_AN_ITEM));
        }
        if first_of_name(attrs, attr.ident) != Some(place) {
            return Err(wrong_name(attr.ident, Phrase::NEW_ATTRIBUTE));
        }
    }
    Ok(())
}

fn is_among(name: &str, names: &[&str]) -> bool {
    for other in names {
        if *other == name {
            return true;
        }
    }
    false
}

/// The place of the first attribute with a name.
fn first_of_name(attrs: &[Attr], ident: Ident) -> Option<usize> {
    for (place, attr) in attrs.iter().enumerate() {
        if attr.ident.name == ident.name {
            return Some(place);
        }
    }
    None
}

/// The arguments of an attribute. None where it has no parentheses.
pub fn args_in_attr<'a>(ast: &'a Ast, attr: &Attr) -> &'a [AttrArg] {
    match attr.value {
        AttrValue::Args(run) => ast.attr_args(run),
        _ => &[],
    }
}

/// The one term in an attribute's parentheses, as in `#[tail(str)]`.
pub fn term_in_attr(ast: &Ast, attr: &Attr) -> Result<TermId, ItemFault> {
    match args_in_attr(ast, attr) {
        [AttrArg::Term(id)] => Ok(*id),
        _ => Err(wrong_name(attr.ident, Phrase::ATTRIBUTE_WITH_ONE_TERM)),
    }
}

/// The one name in an attribute's parentheses, as in `#[name(one)]`.
pub fn name_in_attr(ast: &Ast, attr: &Attr) -> Result<Ident, ItemFault> {
    match ast.plain_name(term_in_attr(ast, attr)?) {
        Some(ident) => Ok(ident),
        None => Err(wrong_name(attr.ident, Phrase::ATTRIBUTE_WITH_ONE_NAME)),
    }
}

/// The name that an attribute's argument is, if it is one.
pub fn name_in_arg(ast: &Ast, arg: &AttrArg) -> Option<Ident> {
    match arg {
        AttrArg::Term(id) => ast.plain_name(*id),
        _ => None,
    }
}

/// The one number in an attribute's parentheses, as in `#[broken(7)]`.
pub fn number_in_attr(ast: &Ast, attr: &Attr) -> Result<u32, ItemFault> {
    let term = ast.term(term_in_attr(ast, attr)?);
    if let Some(
        Term {
            kind: TermKind::Literal(value),
            ..
        },
    ) = term
    {
        if let Ok(number) = u32::try_from(value) {
            return Ok(number);
        }
    }
    Err(wrong_name(attr.ident, Phrase::ATTRIBUTE_WITH_ONE_NUMBER))
}
