//! What a text's names are, with what its traits say of their self types.
use crate::clauses::{Conditions, MaybeConst};
use crate::terms::Lowering;
use goal_terms::ids::TraitId;
use goal_terms::predicates::Clause;
use goal_terms::terms::Ty;
use std::alloc::Global;
use vurloske_ast::ast::Ast;
use vurloske_names::definitions::Definitions;
use vurloske_names::faults::ItemFault;

/// What the names of a text are. A mistake where a name is doubled, or where what a trait says of its self
/// type is none. Where that names an item of a supertrait's supertrait, traits that stand further up are
/// known.
pub fn define(alloc: Global, ast: &Ast) -> Result<Definitions, ItemFault> {
    let mut definitions = Definitions::new(alloc, ast)?;
    for number in 0..definitions.places.traits.len() {
        let id = TraitId(u32::try_from(number).unwrap_or(u32::MAX));
        let clauses = supertraits_of(alloc, ast, &definitions, id)?;
        definitions.push_supertraits(clauses)?;
    }
    definitions.add_inherited(alloc, ast)?;
    Ok(definitions)
}

/// What a trait says of its self type, under the trait's parameters: the bounds in its head, then
/// those of `where Self: ..`.
fn supertraits_of(
    alloc: Global,
    ast: &Ast,
    definitions: &Definitions,
    id: TraitId,
) -> Result<Vec<Clause>, ItemFault> {
    let mut conditions = Conditions::new(alloc, MaybeConst::Clause);
    if let Some(node) = definitions.places.trait_node(ast, id) {
        let mut lowering = Lowering::of_trait(alloc, ast, definitions, id);
        lowering.bounds(&Ty::Param(0), node.bounds, &mut conditions);
        lowering.self_clauses(node.generics.where_clauses, &mut conditions);
        lowering.scope.fault.result()?;
    }
    Ok(conditions.into_predicates())
}
