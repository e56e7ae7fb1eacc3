//! What goals with inference variables are answered, by canonical variables: those of a goal are numbered from 0 on, in
//! the order in which they stand in it, and those that are made for its answer come behind them.
ghost use Rattle.std.specs.Prelude.{◌<◌, length, IfOk, IfSome};
ghost use Rattle.goal_interner.specs.TableMeaning.{Keeps};

use crate::search_graph::AskedInput;
use crate::written_out::is_small;
use goal_infer::renumbering::{number_region, number_variables, renumber, renumber_region};
use goal_interner::term_nodes::{OutOfMemory, TermId};
use goal_interner::term_table::TermTable;
use goal_terms::answers::VarKind;
use goal_terms::terms::Region;
use std::alloc::Global;

/// What a goal that holds leaves, by canonical variables.
#[derive(Drop)]
pub struct CanonicalResponse {
    /// The kinds of the variables that are made for it.
    pub vars: Vec<VarKind>,
    /// Variables of the goal, each with what it stands for.
    pub var_values: Vec<(TermId, TermId)>,
    pub region_equations: Vec<(Region, Region)>,
    /// The head form, if one is asked for.
    pub form: Option<TermId>,
}

/// How much there is in a response.
#[derive(Clone, Copy)]
pub struct ResponseCounts {
    pub vars: usize,
    pub var_values: usize,
    pub region_equations: usize,
}

impl CanonicalResponse {
    /// One that leaves nothing.
    pub fn new(alloc: Global) -> CanonicalResponse {
        CanonicalResponse {
            vars: Vec::new(alloc),
            var_values: Vec::new(alloc),
            region_equations: Vec::new(alloc),
            form: None,
        }
    }

    /// How much there is of each.
    pub fn counts(&self) -> ResponseCounts {
        ResponseCounts {
            vars: self.vars.len(),
            var_values: self.var_values.len(),
            region_equations: self.region_equations.len(),
        }
    }
}

/// The number of a term by canonical variables, if it is one, and not too large to be written out. A variable that has
/// no canonical number gets the next. Only memory is refused.
pub fn canonicalize(
    terms: &mut TermTable,
    names: &mut Vec<(u32, u32)>,
    id: TermId,
) -> Result<Option<TermId>, OutOfMemory>
    ensures kept { Keeps terms.old terms.new }
{
    if id.0 as usize >= terms.len() || !is_small(terms, id) {
        return Ok(None);
    }
    number_variables(terms, id, names)?;
    Ok(Some(renumber(terms, names, id)?))
}

/// The number of a term by other numbers of its variables, if it is one. Only memory is refused.
pub fn renumbered_in(
    terms: &mut TermTable,
    numbers: &[(u32, u32)],
    id: TermId,
) -> Result<Option<TermId>, OutOfMemory>
    ensures kept { Keeps terms.old terms.new }
{
    if id.0 as usize >= terms.len() {
        return Ok(None);
    }
    Ok(Some(renumber(terms, numbers, id)?))
}

/// The same of two terms.
pub fn renumbered_both(
    terms: &mut TermTable,
    numbers: &[(u32, u32)],
    pair: (TermId, TermId),
) -> Result<Option<(TermId, TermId)>, OutOfMemory>
    ensures kept { Keeps terms.old terms.new }
    ensures first { IfOk result (λ o. IfSome o (λ p. p.0.0 < length terms.new)) }
    ensures second { IfOk result (λ o. IfSome o (λ p. p.1.0 < length terms.new)) }
{
    let count = terms.len();
    if pair.0.0 as usize >= count || pair.1.0 as usize >= count {
        return Ok(None);
    }
    let first = renumber(terms, numbers, pair.0)?;
    let second = renumber(terms, numbers, pair.1)?;
    Ok(Some((first, second)))
}

/// Lists the equations of lifetimes that came since a goal began, by canonical variables. Only memory is refused.
pub fn list_equations(
    equations: &[(Region, Region)],
    asked: &mut AskedInput,
    made: &mut CanonicalResponse,
) -> Result<(), OutOfMemory> {
    for place in asked.begun.equated..equations.len() {
        list_equation(equations[place], &mut asked.names, made)?;
    }
    Ok(())
}

/// Lists an equation of lifetimes by canonical variables.
fn list_equation(
    equation: (Region, Region),
    names: &mut Vec<(u32, u32)>,
    made: &mut CanonicalResponse,
) -> Result<(), OutOfMemory> {
    number_region(Some(equation.0), names)?;
    number_region(Some(equation.1), names)?;
    made.region_equations
        .push(renumbered_equation(names, equation))?;
    Ok(())
}

/// An equation of lifetimes by other numbers.
pub fn renumbered_equation(numbers: &[(u32, u32)], equation: (Region, Region)) -> (Region, Region) {
    (
        renumber_region(numbers, equation.0),
        renumber_region(numbers, equation.1),
    )
}

/// Lists the kinds of the variables that have the canonical numbers from `own` on, and says whether all of them were made
/// since a goal began. Only memory is refused.
pub fn list_kinds(
    kinds: &[VarKind],
    asked: &AskedInput,
    own: usize,
    made: &mut CanonicalResponse,
) -> Result<bool, OutOfMemory> {
    for place in own..asked.names.len() {
        let number = asked.names[place].0 as usize;
        if number < asked.begun.variables || number >= kinds.len() {
            return Ok(false);
        }
        made.vars.push(kinds[number])?;
    }
    Ok(true)
}

/// Canonical numbers of variables, each with the variable's own.
pub fn numbers_by_canonical(
    alloc: Global,
    names: &[(u32, u32)],
) -> Result<Vec<(u32, u32)>, OutOfMemory> {
    let mut numbers = Vec::with_capacity(alloc, names.len())?;
    for name in names {
        numbers.push((name.1, name.0))?;
    }
    Ok(numbers)
}
