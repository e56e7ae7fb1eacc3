//! What has to be asked to find out whether a header clashes with given terms.
ghost use Rattle.std.specs.Prelude.{◌≡◌, ◌<◌, ◌↔◌, length, map, IfOk};
ghost use Rattle.std.specs.List.{All};
ghost use Rattle.goal_interner.specs.TableMeaning.{tree_at, AreBelow};
ghost use Rattle.goal_terms.specs.View.{tree_of_ref, trees_seen};
ghost use Rattle.goal_lists.specs.Interned.{erased_at, erased_all, AreIn};
ghost use Rattle.goal_eval.specs.Outcomes.{header_terms};
ghost use Rattle.goal_eval.specs.HeaderWords.{erased_ref, is_whole, IsKnown, MayStand, MayAllStand, QuestionIn, MeetingClashes, MeetingIn, AddsClash, AsksClash, ForEachKnown, SomeClash, erased_refs, erased_trees};

use crate::relate::header_places::parameter_at;
use goal_interner::term_nodes::{OutOfMemory, TermId};
use goal_interner::term_table::TermTable;
use goal_terms::compare::Regions;
use goal_terms::heads::Node;
use goal_terms::terms::GenericArg;
use goal_terms::view::{Parts, TermRef};
use std::alloc::Global;

/// What is asked of a place of a header: nothing, since constructors or lengths differ; whether the
/// instance of a parameter or an alias is unequal to a given term; or whether a constructor differs
/// from what an alias stands for.
#[derive(Clone, Copy)]
pub enum Question<'a> {
    Differs,
    Instance(TermRef<'a>, TermId),
    Behind(TermRef<'a>, TermId),
}

/// How a part of a header and a given term meet: they can't clash, something is asked of them, or their
/// parts are to be compared in pairs.
#[derive(Clone, Copy)]
pub enum Meeting<'a> {
    Nothing,
    Asks(Question<'a>),
    Parts,
}

/// Whether a header's part is compared as a whole: a parameter or an alias.
fn is_whole(node: Node) -> bool
    ensures { result ≡ is_whole node }
{
    match node {
        Node::Head(_) => parameter_at(node).is_some(),
        Node::Alias(_) => true,
        Node::Variable(_) => false,
    }
}

/// How a part of a header and a given term meet.
fn meet<'a>(terms: &TermTable, header: TermRef<'a>, given: TermId) -> Meeting<'a>
    requires within { given.0 < length terms.now }
    requires stands { MayStand (tree_of_ref header) (tree_at terms.now given) }
    ensures within { MeetingIn terms.now header.entry given result }
    ensures says { ForEachKnown (λ L ks. L.clash (IsKnown ks) (erased_ref header.entry) (erased_at terms.now given) ↔ MeetingClashes L ks terms.now header.entry given result) }
{
    let node = header.node();
    if is_whole(node) {
        return Meeting::Asks(Question::Instance(header, given));
    }
    let Node::Head(_) = node else {
        return Meeting::Nothing;
    };
    let other = terms.node(given);
    match other {
        Node::Alias(_) => Meeting::Asks(Question::Behind(header, given)),
        Node::Variable(_) => Meeting::Nothing,
        Node::Head(_) => {
            if node.is_same(other, Regions::Forgotten) {
                Meeting::Parts
            } else {
                Meeting::Asks(Question::Differs)
            }
        }
    }
}

/// Adds what has to be asked to find out whether a header's part clashes with a given term.
#[cycle(questions)]
pub(crate) fn ask<'a>(
    terms: &TermTable,
    header: TermRef<'a>,
    given: TermId,
    questions: &mut Vec<Question<'a>>,
) -> Result<(), OutOfMemory>
    requires within { given.0 < length terms.now }
    requires stands { MayStand (tree_of_ref header) (tree_at terms.now given) }
    requires asked { All (QuestionIn terms.now) questions.old.items }
    ensures asked { IfOk result (λ d. All (QuestionIn terms.now) questions.new.items) }
    ensures says { IfOk result (λ d. AddsClash terms.now questions.old questions.new (λ L ks. L.clash (IsKnown ks) (erased_ref header.entry) (erased_at terms.now given))) }
{
    match meet(terms, header, given) {
        Meeting::Nothing => Ok(()),
        Meeting::Asks(question) => {
            questions.push(question)?;
            Ok(())
        }
        Meeting::Parts => ask_parts(terms, header.parts(), terms.parts(given), questions),
    }
}

/// The same of parts in pairs.
#[cycle(questions)]
pub(crate) fn ask_parts<'a>(
    terms: &TermTable,
    parts: Parts<'a>,
    given: &[TermId],
    questions: &mut Vec<Question<'a>>,
) -> Result<(), OutOfMemory>
    requires within { AreBelow (length terms.now) given.now }
    requires stand { MayAllStand (trees_seen parts) (map (tree_at terms.now) given.now) }
    requires asked { All (QuestionIn terms.now) questions.old.items }
    ensures asked { IfOk result (λ d. All (QuestionIn terms.now) questions.new.items) }
    ensures says { IfOk result (λ d. AddsClash terms.now questions.old questions.new (λ L ks. SomeClash L ks (erased_refs parts.entry) (erased_trees terms.now given.now))) }
{
    if parts.len() != given.len() {
        questions.push(Question::Differs)?;
        return Ok(());
    }
    for i in 0..parts.len() {
        ask(terms, parts.at(i), given[i], questions)?;
    }
    Ok(())
}

/// What has to be asked of one part.
pub(crate) fn questions_of<'a>(
    alloc: Global,
    terms: &TermTable,
    header: TermRef<'a>,
    given: TermId,
) -> Result<Vec<Question<'a>>, OutOfMemory>
    requires within { given.0 < length terms.now }
    requires stands { MayStand (tree_of_ref header) (tree_at terms.now given) }
    ensures asked { IfOk result (λ questions. All (QuestionIn terms.now) questions.items) }
    ensures says { IfOk result (λ questions. AsksClash terms.now questions (λ L ks. L.clash (IsKnown ks) (erased_ref header.entry) (erased_at terms.now given))) }
{
    let mut questions = Vec::new(alloc);
    ask(terms, header, given, &mut questions)?;
    Ok(questions)
}

/// What has to be asked of a header's arguments.
pub(crate) fn questions_of_args<'a>(
    alloc: Global,
    terms: &TermTable,
    header: &'a [GenericArg],
    given: &[TermId],
) -> Result<Vec<Question<'a>>, OutOfMemory>
    requires { AreIn terms.now given.now }
    ensures asked { IfOk result (λ questions. All (QuestionIn terms.now) questions.items) }
    ensures says { IfOk result (λ questions. AsksClash terms.now questions (λ L ks. SomeClash L ks (header_terms header.now) (erased_all terms.now given.now))) }
{
    let mut questions = Vec::new(alloc);
    ask_parts(terms, Parts::Args(header), given, &mut questions)?;
    Ok(questions)
}
