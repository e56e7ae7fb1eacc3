//! Goes through the statements of a text in order.
ghost use Rattle.std.specs.Prelude.{◌≡◌, ◌↔◌, ◌+◌, IsErr, IfOk};

use crate::asking::ask;
use crate::endings::Ending;
use crate::expectations::{Expectation, expectation_of};
use crate::printing::{AnswerLine, print_prelude};
use crate::program::Program;
use crate::scenes::{Progress, Scene};
use goal_terms::terms::Term;
use std::{io, mem};
use vurloske_answers::answers::Answer;
use vurloske_ast::ast::{Goal, Ident, Position, Run, Statement, StatementKind};
use vurloske_ast::mistake::{Found, Mistake};
use vurloske_ast::phrase::{Expected, Phrase};
use vurloske_items::environment::Environment;
use vurloske_items::goals::{AskedGoal, lower_goal};
use vurloske_names::modes::Mode;

/// How deep blocks may nest.
const MAX_NESTING: u32 = 500;

/// Answers the goals of a text, a line a goal, and does what is said between them. After an `Err` no more
/// is written.
pub fn answer_statements<W: io::Write>(program: &Program<'_>, out: &mut W) -> Result<(), Ending> {
    let mut scene = Scene::outermost(program.alloc);
    let mut progress = Progress::new(program.alloc);
    let file = program.ast.file;
    run_statements(program, out, &mut scene, &mut progress, file, MAX_NESTING)
}

/// A run of statements. So many blocks may nest in it.
#[cycle(statements)]
fn run_statements<W: io::Write>(
    program: &Program<'_>,
    out: &mut W,
    scene: &mut Scene,
    progress: &mut Progress,
    statements: Run,
    depth: u32,
) -> Result<(), Ending> {
    for statement in program.ast.statements(statements) {
        run_statement(program, out, scene, progress, *statement, depth)?;
    }
    Ok(())
}

#[cycle(statements)]
fn run_statement<W: io::Write>(
    program: &Program<'_>,
    out: &mut W,
    scene: &mut Scene,
    progress: &mut Progress,
    statement: Statement,
    depth: u32,
) -> Result<(), Ending> {
    match statement.kind {
        StatementKind::Where(head, body) => {
            let depth = deeper(statement.at, depth)?;
            let outer = enter_where(program, scene, head)?;
            let ended = run_statements(program, out, scene, progress, body, depth);
            scene.environment = outer;
            ended
        }
        StatementKind::Mode(word, names, body) => {
            let depth = deeper(statement.at, depth)?;
            let outer = enter_mode(program, scene, word, names)?;
            let ended = run_statements(program, out, scene, progress, body, depth);
            scene.mode = outer;
            ended
        }
        StatementKind::Limit(limit) => {
            progress.limit = limit;
            Ok(())
        }
        StatementKind::Goal(goal) => {
            answer_goal(program, out, scene, progress, &goal, statement.at)
        }
        StatementKind::Accesses => print_accesses(program, out, scene, progress),
        StatementKind::Faults => print_faults(program, out, scene, progress),
        StatementKind::Regions => print_regions(program, out, scene, progress),
        StatementKind::Prelude => print_prelude(out),
    }
}

/// Prints what the last goal's answer would have read of another mode.
fn print_accesses<W: io::Write>(
    program: &Program<'_>,
    out: &mut W,
    scene: &Scene,
    progress: &Progress,
) -> Result<(), Ending> {
    let names = program.names(&scene.environment);
    progress.records.print_accesses(out, &names)
}

/// Prints the faults of the items that the last goal met.
fn print_faults<W: io::Write>(
    program: &Program<'_>,
    out: &mut W,
    scene: &Scene,
    progress: &Progress,
) -> Result<(), Ending> {
    let names = program.names(&scene.environment);
    progress.records.print_faults(out, program.tables, &names)
}

/// Prints which lifetimes the last goal's answer equates.
fn print_regions<W: io::Write>(
    program: &Program<'_>,
    out: &mut W,
    scene: &Scene,
    progress: &Progress,
) -> Result<(), Ending> {
    let names = program.names(&scene.environment);
    progress.records.print_regions(out, &names)
}

/// How deep blocks may nest in one that begins at a place. A mistake where none may.
fn deeper(at: Position, depth: u32) -> Result<u32, Mistake>
    ensures less { IfOk result (λ inner. inner + 1 ≡ depth) }
    ensures full { IsErr result ↔ (depth ≡ 0) }
{
    match depth.checked_sub(1) {
        Some(depth) => Ok(depth),
        None => Err(Mistake {
            at,
            expected: Expected::Phrase(Phrase::LESS_NESTING),
            found: Found::Word(Phrase::BLOCK),
        }),
    }
}

/// Begins to assume what the head of a block says, beside what was assumed, which it gives back.
fn enter_where(program: &Program<'_>, scene: &mut Scene, head: Run) -> Result<Environment, Ending> {
    let outer = &scene.environment;
    let inner = outer.extended(program.alloc, program.ast, program.definitions, head)?;
    Ok(mem::replace(&mut scene.environment, inner))
}

/// Begins to ask in the mode that a block names, and gives back the mode before.
fn enter_mode(
    program: &Program<'_>,
    scene: &mut Scene,
    word: Ident,
    names: Run,
) -> Result<Mode, Ending> {
    let inner = Mode::named(program.alloc, program.ast, program.definitions, word, names)?;
    Ok(mem::replace(&mut scene.mode, inner))
}

/// Answers a goal on a line of its own. An ending where another answer is expected.
fn answer_goal<W: io::Write>(
    program: &Program<'_>,
    out: &mut W,
    scene: &mut Scene,
    progress: &mut Progress,
    goal: &Goal,
    at: Position,
) -> Result<(), Ending> {
    let expectation = expectation_of(program.ast, goal.attrs)?;
    let (answer, expected) = answer_to(program, scene, progress, goal, expectation)?;
    let names = program.names(&scene.environment);
    let line = AnswerLine {
        text: program.text,
        goal,
        line: at.line,
        answer: &answer,
        values: &progress.records.values,
    };
    line.print(out, &names)?;
    match expectation {
        None => Ok(()),
        Some(expectation) => expectation.check(program.alloc, &names, &answer, &expected),
    }
}

/// What a goal is answered, and the term that it is expected to be answered, if a term is.
fn answer_to(
    program: &Program<'_>,
    scene: &mut Scene,
    progress: &mut Progress,
    goal: &Goal,
    expectation: Option<Expectation>,
) -> Result<(Answer, Option<Term>), Ending> {
    let AskedGoal {
        variables,
        asked,
        expected,
    } = lower_goal(
        program.alloc,
        program.ast,
        program.definitions,
        &scene.environment,
        goal,
        expectation.and_then(|expectation| expectation.term()),
    )?;
    let answer = ask(program.tables, scene, progress, &variables, asked)?;
    Ok((answer, expected))
}
