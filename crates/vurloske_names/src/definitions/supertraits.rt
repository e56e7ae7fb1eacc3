//! What traits say of their self types.
use crate::definitions::{Definitions, ItemKey};
use crate::faults::ItemFault;
use goal_terms::ids::TraitId;
use goal_terms::predicates::{Clause, ClauseKind};
use std::alloc::Global;
use vurloske_ast::ast::{AssocItem, Ast};

impl Definitions {
    /// Adds what the next trait says of its self type.
    pub fn push_supertraits(&mut self, clauses: Vec<Clause>) -> Result<(), ItemFault> {
        self.supertraits.push(clauses)?;
        Ok(())
    }

    /// Adds for each trait the items of its supertraits, the nearest first. What each says of its self type
    /// is there.
    pub fn add_inherited(&mut self, alloc: Global, ast: &Ast) -> Result<(), ItemFault> {
        for number in 0..self.places.traits.len() {
            let id = TraitId(u32::try_from(number).unwrap_or(u32::MAX));
            let above = self.traits_above(alloc, id)?;
            self.inherit(ast, id, above.as_slice())?;
        }
        Ok(())
    }

    /// A trait and its supertraits, the nearest first.
    fn traits_above(&self, alloc: Global, id: TraitId) -> Result<Vec<TraitId>, ItemFault> {
        let mut above = Vec::new(alloc);
        above.push(id)?;
        for place in 0..self.places.traits.len() {
            let Some(id) = above.get(place).copied() else {
                return Ok(above);
            };
            push_new_traits(&mut above, self.supertraits(id))?;
        }
        Ok(above)
    }

    /// Gives a trait the items of others, the first of a name.
    fn inherit(&mut self, ast: &Ast, id: TraitId, above: &[TraitId]) -> Result<(), ItemFault> {
        for other in above {
            if let Some(node) = self.places.trait_node(ast, *other) {
                self.inherit_items(id, *other, ast.assoc_items(node.items))?;
            }
        }
        Ok(())
    }

    fn inherit_items(
        &mut self,
        trait_id: TraitId,
        other: TraitId,
        items: &[AssocItem],
    ) -> Result<(), ItemFault> {
        for item in items {
            let name = item.ident.name;
            let key = ItemKey { trait_id, name };
            if let Some(id) = self.item(other, name) {
                if self.inherited.get(&key).is_none() {
                    self.inherited.insert(key, id)?;
                }
            }
        }
        Ok(())
    }
}

/// Adds the traits that clauses name, each once.
fn push_new_traits(traits: &mut Vec<TraitId>, clauses: &[Clause]) -> Result<(), ItemFault> {
    for clause in clauses {
        if let ClauseKind::Trait(predicate) = &clause.kind {
            let id = predicate.trait_ref.def_id;
            if !traits.contains(&id) {
                traits.push(id)?;
            }
        }
    }
    Ok(())
}
