//! Whether a header clashes with given arguments.
ghost use Rattle.std.specs.Prelude.{IfErr, IfOk};
ghost use Rattle.std.specs.List.{All};
ghost use Rattle.goal_interner.specs.TableMeaning.{Keeps};
ghost use Rattle.goal_lists.specs.Interned.{IsIn, AreIn};
ghost use Rattle.goal_lists.specs.Words.{Exists};
ghost use Rattle.goal_eval.specs.HeaderWords.{is_any, asked_terms, asked_given, IsBehind, KnownIn, filled_trees, ClashAgainst, ClashAt, QuestionIn, Fills, TestOutcome, SomeClash};
ghost use Rattle.goal_eval.specs.Effects.{AreSound, IsStop};

use crate::eval::effects::Effects;
use crate::eval::head_forms::head_form;
use crate::eval::outcomes::{Found, Setting, Stop};
use crate::relate::equality::compare_terms;
use crate::relate::header_args::{FilledArgs, instance_of, mentions_unknown};
use crate::relate::header_places::Against;
use crate::relate::header_questions::{Question, questions_of, questions_of_args};
use crate::relate::headers::AskedHeader;
use goal_interner::term_table::TermTable;
use goal_lists::outcomes::Outcome;
use goal_terms::compare::Regions;

/// Whether the instance of a header's parameter or alias, whose parameters are known, is unequal to a
/// given term.
#[tactic(auto, using(crate::proofs::CacheLemmas::caching))]
#[cycle(closed)]
fn instance_clashes(
    setting: &Setting<'_>,
    terms: &mut TermTable,
    effects: &mut Effects,
    filled: &FilledArgs<'_>,
    against: Against<'_>,
    depth: u32,
) -> Result<bool, Stop>
    requires effects { AreSound setting.now terms.old effects.old }
    requires known { KnownIn terms.old filled.now.known.now }
    requires args { AreIn terms.old filled.now.args.items }
    requires fills { Fills filled.now.known.now filled.now.args.items }
    requires within { QuestionIn terms.old (Question.Instance against.header against.given) }
    ensures effects { AreSound setting.now terms.new effects.new }
    ensures kept { Keeps terms.old terms.new }
    ensures stops { IfErr result (IsStop setting.now) }
    ensures says { IfOk result (TestOutcome setting.now depth (λ L. ClashAgainst L (filled_trees terms.old filled.now) terms.old against.entry)) }
{
    if mentions_unknown(filled.known, against.header) {
        return Ok(false);
    }
    let instance = instance_of(terms, against.header, &filled.args)?;
    match compare_terms(setting, terms, effects, instance, against.given, depth)? {
        Outcome::Refuted => Ok(true),
        Outcome::Holds => Ok(false),
        Outcome::Undecided => Ok(false),
    }
}

/// Whether a question about a header's place has the answer that header and given term clash.
#[cycle(closed)]
fn question_clashes(
    setting: &Setting<'_>,
    terms: &mut TermTable,
    effects: &mut Effects,
    filled: &FilledArgs<'_>,
    question: Question<'_>,
    depth: u32,
) -> Result<bool, Stop>
    requires effects { AreSound setting.now terms.old effects.old }
    requires known { KnownIn terms.old filled.now.known.now }
    requires args { AreIn terms.old filled.now.args.items }
    requires fills { Fills filled.now.known.now filled.now.args.items }
    requires within { QuestionIn terms.old question }
    ensures effects { AreSound setting.now terms.new effects.new }
    ensures kept { Keeps terms.old terms.new }
    ensures stops { IfErr result (IsStop setting.now) }
    ensures says { IfOk result (TestOutcome setting.now depth (λ L. ClashAt L (filled_trees terms.old filled.now) terms.old question.entry)) }
{
    match question {
        Question::Differs => Ok(true),
        Question::Instance(header, given) => {
            let against = Against { header, given };
            instance_clashes(setting, terms, effects, filled, against, depth)
        }
        Question::Behind(header, given) => {
            let against = Against { header, given };
            behind_clashes(setting, terms, effects, filled, against, depth)
        }
    }
}

/// Whether a constructor of a header clashes with what an alias stands for.
#[cycle(closed)]
fn behind_clashes(
    setting: &Setting<'_>,
    terms: &mut TermTable,
    effects: &mut Effects,
    filled: &FilledArgs<'_>,
    against: Against<'_>,
    depth: u32,
) -> Result<bool, Stop>
    requires effects { AreSound setting.now terms.old effects.old }
    requires known { KnownIn terms.old filled.now.known.now }
    requires args { AreIn terms.old filled.now.args.items }
    requires fills { Fills filled.now.known.now filled.now.args.items }
    requires within { IsBehind terms.old is_any against.header against.given }
    ensures effects { AreSound setting.now terms.new effects.new }
    ensures kept { Keeps terms.old terms.new }
    ensures stops { IfErr result (IsStop setting.now) }
    ensures says { IfOk result (TestOutcome setting.now depth (λ L. ClashAgainst L (filled_trees terms.old filled.now) terms.old against.entry)) }
{
    if depth == 0 {
        return Ok(false);
    }
    let header = against.header;
    match head_form(setting, terms, effects, against.given, depth - 1)? {
        Found::Refuted => Ok(true),
        Found::Undecided => Ok(false),
        Found::Is(form) => {
            if !header.node().is_same(terms.node(form), Regions::Forgotten) {
                return Ok(true);
            }
            let formed = Against {
                header,
                given: form,
            };
            form_clashes(setting, terms, effects, filled, formed, depth - 1)
        }
    }
}

/// Whether a part of a header clashes with a given term.
#[cycle(closed)]
fn form_clashes(
    setting: &Setting<'_>,
    terms: &mut TermTable,
    effects: &mut Effects,
    filled: &FilledArgs<'_>,
    against: Against<'_>,
    depth: u32,
) -> Result<bool, Stop>
    requires effects { AreSound setting.now terms.old effects.old }
    requires known { KnownIn terms.old filled.now.known.now }
    requires args { AreIn terms.old filled.now.args.items }
    requires fills { Fills filled.now.known.now filled.now.args.items }
    requires within { IsIn terms.old against.given }
    ensures effects { AreSound setting.now terms.new effects.new }
    ensures kept { Keeps terms.old terms.new }
    ensures stops { IfErr result (IsStop setting.now) }
    ensures says { IfOk result (TestOutcome setting.now depth (λ L. ClashAgainst L (filled_trees terms.old filled.now) terms.old against.entry)) }
{
    let questions = questions_of(setting.allocator(), terms, against.header, against.given)?;
    any_clash(setting, terms, effects, filled, &questions, depth)
}

/// Whether some question has the answer that header and given term clash.
#[cycle(closed)]
fn any_clash(
    setting: &Setting<'_>,
    terms: &mut TermTable,
    effects: &mut Effects,
    filled: &FilledArgs<'_>,
    questions: &[Question<'_>],
    depth: u32,
) -> Result<bool, Stop>
    requires effects { AreSound setting.now terms.old effects.old }
    requires known { KnownIn terms.old filled.now.known.now }
    requires args { AreIn terms.old filled.now.args.items }
    requires fills { Fills filled.now.known.now filled.now.args.items }
    requires within { All (QuestionIn terms.old) questions.now }
    ensures effects { AreSound setting.now terms.new effects.new }
    ensures kept { Keeps terms.old terms.new }
    ensures stops { IfErr result (IsStop setting.now) }
    ensures says { IfOk result (TestOutcome setting.now depth (λ L. Exists (ClashAt L (filled_trees terms.old filled.now) terms.old) questions.now)) }
{
    for i in 0..questions.len() {
        if question_clashes(setting, terms, effects, filled, questions[i], depth)? {
            return Ok(true);
        }
    }
    Ok(false)
}

/// Whether a header, some of whose parameters are known, clashes with given arguments.
#[cycle(closed)]
pub(crate) fn header_clashes(
    setting: &Setting<'_>,
    terms: &mut TermTable,
    effects: &mut Effects,
    asked: &AskedHeader<'_>,
    filled: &FilledArgs<'_>,
    depth: u32,
) -> Result<bool, Stop>
    requires effects { AreSound setting.now terms.old effects.old }
    requires given { AreIn terms.old asked.now.given.now }
    requires known { KnownIn terms.old filled.now.known.now }
    requires args { AreIn terms.old filled.now.args.items }
    requires fills { Fills filled.now.known.now filled.now.args.items }
    ensures effects { AreSound setting.now terms.new effects.new }
    ensures kept { Keeps terms.old terms.new }
    ensures stops { IfErr result (IsStop setting.now) }
    ensures says { IfOk result (TestOutcome setting.now depth (λ L. SomeClash L (filled_trees terms.old filled.now) (asked_terms asked.now) (asked_given terms.old asked.now))) }
{
    let questions = questions_of_args(setting.allocator(), terms, asked.header, asked.given)?;
    any_clash(setting, terms, effects, filled, &questions, depth)
}
