//! What a `where` block assumes.
ghost use Rattle.std.specs.Prelude.{◌≡◌, []};

use crate::clauses::{Conditions, MaybeConst};
use crate::scope::{Params, Scope};
use crate::terms::Lowering;
use goal_terms::predicates::Clause;
use std::alloc::Global;
use vurloske_ast::ast::{Ast, Position, Run};
use vurloske_names::definitions::Definitions;
use vurloske_names::elaboration::elaborate;
use vurloske_names::faults::ItemFault;

/// Parameters and clauses that hold in a block, the outermost block's first.
pub struct Environment {
    pub params: Params,
    /// What is written, then what it says through supertraits.
    pub clauses: Vec<Clause>,
    /// How many of the clauses are written.
    written: usize,
}

impl Drop for Environment {
    fn drop(self) {
        let Environment {
            params: _,
            clauses: _,
            written: _,
        } = self;
    }
}

impl Environment {
    /// No parameters and no clauses.
    pub fn empty(alloc: Global) -> Environment
        ensures { result.clauses.items ≡ [] }
    {
        Environment {
            params: Params::new(alloc),
            clauses: Vec::new(alloc),
            written: 0,
        }
    }

    /// With the head of a block: a run of `Ast::where_clauses`. A name that no item has becomes a type
    /// parameter. A mistake where a clause is none.
    pub fn extended(
        &self,
        alloc: Global,
        ast: &Ast,
        definitions: &Definitions,
        head: Run,
    ) -> Result<Environment, ItemFault> {
        let mut extended = self.written_part(alloc)?;
        let at = head_position(ast, head);
        let mut lowering = Lowering::new(
            alloc,
            ast,
            definitions,
            Scope::of_head(alloc, &self.params),
        );
        let mut conditions = Conditions::new(alloc, MaybeConst::Clause);
        lowering.note_where(head);
        lowering.where_clauses(head, &mut conditions);
        lowering.scope.fault.result()?;
        extended.params.append(&lowering.scope.params)?;
        extended.add_written(conditions)?;
        elaborate(alloc, definitions, &mut extended.clauses, at)?;
        Ok(extended)
    }

    /// The parameters, and the clauses that are written.
    fn written_part(&self, alloc: Global) -> Result<Environment, ItemFault> {
        let mut copy = Environment::empty(alloc);
        copy.params.append(&self.params)?;
        for clause in self.clauses.as_slice().iter().take(self.written) {
            copy.clauses.push(clause.clone()?)?;
        }
        copy.written = copy.clauses.len();
        Ok(copy)
    }

    fn add_written(&mut self, conditions: Conditions) -> Result<(), ItemFault> {
        for clause in conditions.into_predicates() {
            self.clauses.push(clause)?;
        }
        self.written = self.clauses.len();
        Ok(())
    }
}

/// Where the first of some where clauses stands.
fn head_position(ast: &Ast, head: Run) -> Position {
    match ast.where_clauses(head).first() {
        Some(clause) => clause.at,
        None => Position { line: 0, column: 0 },
    }
}
