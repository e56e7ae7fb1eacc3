//! Headers of which constructors stand against aliases.
ghost use Rattle.std.specs.Prelude.{◌≡◌, ◌<◌, length, IfOk, OnOk, IsTrue};
ghost use Rattle.std.specs.List.{AllZip};
ghost use Rattle.goal_interner.specs.TableMeaning.{tree_at, AreBelow, Keeps};
ghost use Rattle.goal_solver.specs.OpenHeaders.{is_entered, trees_at, HaveOneSort, IsPutAt, ArePutAt, IsFormIn, Lists};

use goal_interner::term_nodes::{OutOfMemory, TermId};
use goal_interner::term_table::TermTable;
use goal_terms::compare::Regions;
use goal_terms::heads::{Head, Node};
use goal_terms::sorts::Sort;
use goal_terms::view::{Parts, TermRef};

/// An alias, and what was found as its head form.
#[derive(Clone, Copy)]
pub(crate) struct FoundForm {
    pub alias: TermId,
    pub form: TermId,
}

/// Whether two terms are both types, or both constants.
pub(crate) fn have_one_sort(terms: &TermTable, first: TermId, second: TermId) -> bool
    requires first { first.0 < length terms.now }
    requires second { second.0 < length terms.now }
    ensures { IsTrue result → HaveOneSort (tree_at terms.now first) (tree_at terms.now second) }
{
    match (terms.node(first).sort(), terms.node(second).sort()) {
        (Sort::Ty, Sort::Ty) => true,
        (Sort::Const, Sort::Const) => true,
        _ => false,
    }
}

/// Whether a header is gone into below a node: a constructor that is no parameter.
fn is_entered(node: Node) -> bool
    ensures { result ≡ is_entered node }
{
    match node {
        Node::Head(Head::TyParam(_)) => false,
        Node::Head(Head::ConstParam(_)) => false,
        Node::Head(_) => true,
        Node::Alias(_) => false,
        Node::Variable(_) => false,
    }
}

/// Lists the aliases of given terms against which a constructor of a header stands, each once, but for those that are
/// passed over.
#[cycle(aliases)]
pub(crate) fn list_aliases(
    terms: &TermTable,
    header: Parts<'_>,
    given: &[TermId],
    passed: &[TermId],
    found: &mut Vec<TermId>,
) -> Result<(), OutOfMemory>
    requires given { AreBelow (length terms.now) given.now }
    requires found { AreBelow (length terms.now) found.old.items }
    ensures found { OnOk result (AreBelow (length terms.now) found.new.items) }
{
    if header.len() != given.len() {
        return Ok(());
    }
    for i in 0..given.len() {
        list_against(terms, header.at(i), given[i], passed, found)?;
    }
    Ok(())
}

/// The same of one given term.
#[cycle(aliases)]
fn list_against(
    terms: &TermTable,
    header: TermRef<'_>,
    given: TermId,
    passed: &[TermId],
    found: &mut Vec<TermId>,
) -> Result<(), OutOfMemory>
    requires given { given.0 < length terms.now }
    requires found { AreBelow (length terms.now) found.old.items }
    ensures found { OnOk result (AreBelow (length terms.now) found.new.items) }
{
    let node = header.node();
    if !terms.has_alias(given) || !is_entered(node) {
        return Ok(());
    }
    let top = terms.node(given);
    if let Node::Alias(_) = top {
        return list_alias(given, passed, found);
    }
    if !node.is_same(top, Regions::Forgotten) {
        return Ok(());
    }
    list_aliases(terms, header.parts(), terms.parts(given), passed, found)
}

/// Lists an alias behind others, unless it is there, or is passed over.
fn list_alias(alias: TermId, passed: &[TermId], found: &mut Vec<TermId>) -> Result<(), OutOfMemory>
    ensures { OnOk result (Lists alias found.old.items found.new.items) }
{
    if passed.contains(&alias) || found.contains(&alias) {
        return Ok(());
    }
    found.push(alias)?;
    Ok(())
}

/// The given terms with a head form in place of its alias, wherever a constructor of a header stands against that. Want
/// of memory or of numbers is the only refusal.
#[cycle(put)]
pub(crate) fn put_form(
    terms: &mut TermTable,
    found: FoundForm,
    header: Parts<'_>,
    given: &[TermId],
) -> Result<Vec<TermId>, OutOfMemory>
    requires found { IsFormIn terms.old found }
    requires given { AreBelow (length terms.old) given.now }
    ensures kept { Keeps terms.old terms.new }
    ensures within { IfOk result (λ made. AreBelow (length terms.new) made.items) }
    ensures put { IfOk result (λ made. ArePutAt terms.old found header.entry given.now terms.new made.items) }
    ensures sorts { IfOk result (λ made. AllZip HaveOneSort (trees_at terms.old given.now) (trees_at terms.new made.items)) }
{
    if header.len() != given.len() {
        let copy = given.to_vec(terms.allocator())?;
        return Ok(copy);
    }
    let mut made = Vec::with_capacity(terms.allocator(), given.len())?;
    for i in 0..given.len() {
        let id = put_against(terms, found, header.at(i), given[i])?;
        made.push(id)?;
    }
    Ok(made)
}

/// The same of one given term.
#[cycle(put)]
fn put_against(
    terms: &mut TermTable,
    found: FoundForm,
    header: TermRef<'_>,
    given: TermId,
) -> Result<TermId, OutOfMemory>
    requires found { IsFormIn terms.old found }
    requires given { given.0 < length terms.old }
    ensures kept { Keeps terms.old terms.new }
    ensures within { IfOk result (λ id. id.0 < length terms.new) }
    ensures put { IfOk result (λ id. IsPutAt terms.old found header.entry given terms.new id) }
    ensures sort { IfOk result (λ id. HaveOneSort (tree_at terms.old given) (tree_at terms.new id)) }
{
    let node = header.node();
    if !terms.has_alias(given) || !is_entered(node) {
        return Ok(given);
    }
    if terms.same_term(given, found.alias) {
        return Ok(found.form);
    }
    let top = terms.node(given);
    if !node.is_same(top, Regions::Forgotten) {
        return Ok(given);
    }
    let parts = terms.parts(given).to_vec(terms.allocator())?;
    let made = put_form(terms, found, header.parts(), &parts)?;
    terms.intern_node(top, made)
}
