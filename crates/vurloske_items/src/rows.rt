//! The rows of a text's items.
mod adts;
mod closures;
mod conditions;
mod definitions;
mod free_aliases;
mod functions;
mod impl_items;
mod impls;
mod inherent;
mod items;
mod lang;
mod opaque_types;
mod sources;
mod traits;

use crate::terms::Lowering;
use definitions::DefSites;
use goal_tables::rows::Tables;
use goal_terms::answers::ParamKind;
use goal_terms::ids::TraitId;
use std::alloc::Global;
use vurloske_ast::ast;
use vurloske_ast::ast::{Ast, Generics, Run, Segment, TermId};
use vurloske_ast::phrase::Phrase;
use vurloske_names::attributes::term_in_attr;
use vurloske_names::definitions::Definitions;
use vurloske_names::faults::{ItemFault, wrong_name};

/// The rows of a text's items, in order of their ids.
///
/// A mistake is the first place where an item names what nothing is, or where it says what no row can
/// say. Whether the rows fit together is for the check of tables to find.
pub fn lower_items(
    alloc: Global,
    ast: &Ast,
    definitions: &Definitions,
) -> Result<Tables, ItemFault> {
    let mut tables = Tables::new(alloc);
    let text = Text {
        alloc,
        ast,
        definitions,
    };
    text.push_rows(&mut tables)?;
    Ok(tables)
}

/// A text with what its names are: all that rows are made of.
#[derive(Clone, Copy)]
struct Text<'a> {
    alloc: Global,
    ast: &'a Ast,
    definitions: &'a Definitions,
}

impl<'a> Text<'a> {
    fn push_rows(self, tables: &mut Tables) -> Result<(), ItemFault> {
        self.push_trait_rows(&mut tables.traits)?;
        self.push_item_rows(&mut tables.items)?;
        self.push_impl_rows(&mut tables.impls)?;
        self.push_definitions(tables)?;
        self.push_aliases(tables)?;
        self.push_types(tables)?;
        self.push_lang_rows(&mut tables.lang_items)
    }

    /// Adds the definitions, and which of them the impls use.
    fn push_definitions(self, tables: &mut Tables) -> Result<(), ItemFault> {
        let sites = DefSites::new(self)?;
        self.push_def_rows(&sites, &mut tables.definitions)?;
        self.push_source_rows(&sites, &mut tables.sources)
    }

    /// Adds the aliases that no trait has.
    fn push_aliases(self, tables: &mut Tables) -> Result<(), ItemFault> {
        self.push_free_rows(&mut tables.free_aliases)?;
        self.push_inherent_impl_rows(&mut tables.inherent_impls)?;
        self.push_inherent_rows(&mut tables.inherent_items)?;
        self.push_opaque_rows(&mut tables.opaque_types)
    }

    /// Adds the types that items declare.
    fn push_types(self, tables: &mut Tables) -> Result<(), ItemFault> {
        self.push_adt_rows(&mut tables.adts)?;
        self.push_fn_rows(&mut tables.functions)?;
        self.push_closure_rows(&mut tables.closures)
    }

    /// In the scope of an item that declares parameters by itself.
    fn lowering_of(self, generics: Generics) -> Lowering<'a> {
        Lowering::of_generics(self.alloc, self.ast, self.definitions, generics)
    }

    /// The trait that a name is.
    fn trait_named(self, trait_: Segment) -> Result<TraitId, ItemFault> {
        match self.definitions.trait_id(trait_.ident.name) {
            Some(id) => Ok(id),
            None => Err(wrong_name(trait_.ident, Phrase::TRAIT)),
        }
    }
}

impl Lowering<'_> {
    /// The kinds of an item's own parameters.
    fn own_kinds(&mut self, params: Run) -> Vec<ParamKind> {
        let ast = self.ast;
        let mut kinds = Vec::new(self.alloc);
        for param in ast.params(params) {
            self.scope.fault.keep(kinds.push(kind_of(param.kind)));
        }
        kinds
    }

    /// The one term of the attribute of a name, where there is this attribute.
    fn term_of_attr(&mut self, attrs: Run, name: &str) -> Option<TermId> {
        let attr = self.ast.attr_named(attrs, name)?;
        match term_in_attr(self.ast, &attr) {
            Ok(term) => Some(term),
            Err(fault) => {
                self.scope.fault.fail(fault);
                None
            }
        }
    }
}

fn kind_of(written: ast::ParamKind) -> ParamKind {
    match written {
        ast::ParamKind::Lifetime => ParamKind::Lifetime,
        ast::ParamKind::Ty => ParamKind::Ty,
        ast::ParamKind::Const => ParamKind::Const,
    }
}

/// How many ids a list of so many items has.
fn count(len: usize) -> u32 {
    u32::try_from(len).unwrap_or(u32::MAX)
}
