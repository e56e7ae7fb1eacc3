//! Terms with other numbers for their variables.
ghost use Rattle.std.specs.Prelude.{◌≡◌, ◌<◌, length, IfOk, OnOk};
ghost use Rattle.goal_interner.specs.TableMeaning.{tree_at, Keeps};
ghost use Rattle.goal_infer.specs.Renumbering.{number_for, renumbered_region, renumbered_variable, renumbered_head, renumbered_node, renumbered};
ghost use Rattle.goal_infer.specs.Renumbering.{has_pair, with_pair, numbered_region, numbered_node, numbered};

use crate::resolve::number;
use goal_interner::term_nodes::{OutOfMemory, TermId};
use goal_interner::term_table::TermTable;
use goal_terms::heads::{Head, Node, Variable};
use goal_terms::regions::region_of;
use goal_terms::terms::{InferTy, Region};

/// What stands for a number: the second of the first pair that begins with it, or the number itself.
#[tactic(auto, unfolding(crate::specs::Renumbering::number_for))]
fn number_for(numbers: &[(u32, u32)], number: u32) -> u32
    ensures { result ≡ number_for numbers.now number }
{
    numbers
        .iter()
        .find(|pair| pair.0 == number)
        .map(|pair| pair.1)
        .unwrap_or(number)
}

/// The lifetime, with another number if it is a variable: the second of the first pair that begins with
/// its own. It stays where there is none, and so does any other lifetime.
pub fn renumber_region(numbers: &[(u32, u32)], region: Region) -> Region
    ensures { result ≡ renumbered_region numbers.now region }
{
    match region {
        Region::Var(number) => Region::Var(number_for(numbers, number)),
        _ => region,
    }
}

/// The inference variable, with another number likewise.
fn renumber_variable(numbers: &[(u32, u32)], variable: Variable) -> Variable
    ensures { result ≡ renumbered_variable numbers.now variable }
{
    match variable {
        Variable::Ty(InferTy::TyVar(number)) => {
            Variable::Ty(InferTy::TyVar(number_for(numbers, number)))
        }
        Variable::Ty(InferTy::IntVar(number)) => {
            Variable::Ty(InferTy::IntVar(number_for(numbers, number)))
        }
        Variable::Ty(InferTy::FloatVar(number)) => {
            Variable::Ty(InferTy::FloatVar(number_for(numbers, number)))
        }
        Variable::Const(number) => Variable::Const(number_for(numbers, number)),
    }
}

/// The constructor, with another number for the lifetime that it names itself.
fn renumber_head(numbers: &[(u32, u32)], head: Head) -> Head
    ensures { result ≡ renumbered_head numbers.now head }
{
    match head {
        Head::Ref(region, mutability) => Head::Ref(renumber_region(numbers, region), mutability),
        Head::Dynamic(count, region) => Head::Dynamic(count, renumber_region(numbers, region)),
        Head::Lifetime(region) => Head::Lifetime(renumber_region(numbers, region)),
        _ => head,
    }
}

/// What stands at a place of a term, with another number.
fn renumber_node(numbers: &[(u32, u32)], node: Node) -> Node
    ensures { result ≡ renumbered_node numbers.now node }
{
    match node {
        Node::Head(head) => Node::Head(renumber_head(numbers, head)),
        Node::Alias(_) => node,
        Node::Variable(variable) => Node::Variable(renumber_variable(numbers, variable)),
    }
}

/// The number of the term with other numbers for its inference variables and region variables: for each
/// the second of the first pair that begins with its own. It stays where there is none. The table gets the
/// term if it isn't there yet. Want of memory or of numbers is the only refusal; then the table may have
/// got some of the parts.
pub fn renumber(
    table: &mut TermTable,
    numbers: &[(u32, u32)],
    id: TermId,
) -> Result<TermId, OutOfMemory>
    requires within { id.0 < length table.old }
    ensures kept { Keeps table.old table.new }
    ensures within { IfOk result (λ r. r.0 < length table.new) }
    ensures tree { IfOk result (λ r. tree_at table.new r ≡ renumbered numbers.now (tree_at table.old id)) }
{
    let node = renumber_node(numbers, table.node(id));
    let count = table.parts(id).len();
    let mut made = Vec::with_capacity(table.allocator(), count)?;
    for place in 0..count {
        let part = table.part(id, place);
        let number = renumber(table, numbers, part)?;
        made.push(number)?;
    }
    table.intern_node(node, made)
}

/// Whether a pair begins with a number.
#[tactic(auto, unfolding(crate::specs::Renumbering::has_pair))]
fn has_pair(numbers: &[(u32, u32)], number: u32) -> bool
    ensures { result ≡ has_pair numbers.now number }
{
    numbers.iter().any(|pair| pair.0 == number)
}

/// Adds a pair for a number that none begins with: it, and how many there were.
fn add_pair(numbers: &mut Vec<(u32, u32)>, number: u32) -> Result<(), OutOfMemory>
    ensures { OnOk result (numbers.new.items ≡ with_pair numbers.old.items number) }
{
    if has_pair(numbers.as_slice(), number) {
        return Ok(());
    }
    let next = numbers.len();
    if next >= u32::MAX as usize {
        return Err(OutOfMemory);
    }
    numbers.push((number, next as u32))?;
    Ok(())
}

/// Gives a lifetime that is a region variable a pair, as `number_variables` does. Want of memory is the only
/// refusal, also where there would be 2^32 pairs; then nothing changes.
pub fn number_region(
    region: Option<Region>,
    numbers: &mut Vec<(u32, u32)>,
) -> Result<(), OutOfMemory>
    ensures { OnOk result (numbers.new.items ≡ numbered_region region numbers.old.items) }
{
    match region {
        Some(Region::Var(number)) => add_pair(numbers, number),
        _ => Ok(()),
    }
}

/// Adds a pair for the variable that a node is, or that its lifetime is.
fn number_node(node: Node, numbers: &mut Vec<(u32, u32)>) -> Result<(), OutOfMemory>
    ensures { OnOk result (numbers.new.items ≡ numbered_node node numbers.old.items) }
{
    match node {
        Node::Head(_) => number_region(region_of(node), numbers),
        Node::Alias(_) => Ok(()),
        Node::Variable(variable) => add_pair(numbers, number(variable)),
    }
}

/// Gives each inference variable and each region variable of a term a pair, if none begins with its
/// number: that number, and how many pairs there were. They get it in the order in which they stand
/// there, a node before its parts, and these from left to right.
///
/// Want of memory is the only refusal, also where there would be 2^32 pairs. Some variables may have got
/// theirs then.
pub fn number_variables(
    table: &TermTable,
    id: TermId,
    numbers: &mut Vec<(u32, u32)>,
) -> Result<(), OutOfMemory>
    requires { id.0 < length table.now }
    ensures { OnOk result (numbers.new.items ≡ numbered (tree_at table.now id) numbers.old.items) }
{
    number_node(table.node(id), numbers)?;
    for part in table.parts(id) {
        number_variables(table, *part, numbers)?;
    }
    Ok(())
}
