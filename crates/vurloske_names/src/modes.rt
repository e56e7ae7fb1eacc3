//! The modes in which goals are asked.
ghost use Rattle.std.specs.Prelude.{◌≡◌, ◌↔◌, [], false, slice_get, IfOk, IfSome};
ghost use Rattle.std.specs.String.{string_bytes};
ghost use Rattle.goal_terms.specs.declared.modes.TypingMode.TheVariants as typing;
ghost use Rattle.vurloske_names.specs.Modes.{IsModeNamed, IsModeOf, IsOutermost, phase_text};
ghost use Rattle.vurloske_ast.specs.Lists.{part_of};
ghost use Rattle.vurloske_ast.specs.Spelling.{IsNamed};

use crate::definitions::{Definition, Definitions};
use crate::faults::{ItemFault, wrong_name};
use goal_terms::ids::OpaqueId;
use goal_terms::modes::TypingMode;
use std::alloc::Global;
use vurloske_ast::ast::{Ast, Ident, Run};
use vurloske_ast::phrase::Phrase;

/// The phase of checking in which goals are asked, and whether a goal is refused for which the erased
/// mode doesn't suffice.
#[derive(Drop)]
pub struct Mode {
    pub typing_mode: TypingMode,
    pub stop_on_rerun: bool,
}

impl Mode {
    /// The mode outside of blocks: no opaque type is being defined.
    pub fn outermost(alloc: Global) -> Mode
        ensures { IsOutermost result }
    {
        Mode::from(TypingMode::Analysis {
            defining_opaque_types: Vec::new(alloc),
        })
    }

    /// The mode that a block names. A mistake where there is no such mode, or a name is not that of an
    /// opaque type.
    pub fn named(
        alloc: Global,
        ast: &Ast,
        definitions: &Definitions,
        word: Ident,
        names: Run,
    ) -> Result<Mode, ItemFault>
        ensures { IfOk result (λ m. IfSome (slice_get ast.now.names.keys word.name.0) (λ t. IsModeNamed (string_bytes t) m.typing_mode)) }
    {
        match Phase::of(ast.name(word.name)) {
            Some(phase) => mode_of(alloc, ast, definitions, phase, names),
            None => Err(wrong_name(word, Phrase::MODE)),
        }
    }
}

/// A phase of checking, as a text names it.
#[derive(Clone, Copy)]
enum Phase {
    Analysis,
    Borrowck,
    PostBorrowckAnalysis,
    Erased,
    Coherence,
    PostAnalysis,
}

impl Phase {
    /// The phase that is written so.
    fn of(text: &str) -> Option<Phase>
        ensures { IsNamed phase_text text.now result }
    {
        match text {
            "analysis" => Some(Phase::Analysis),
            "borrowck" => Some(Phase::Borrowck),
            "post_borrowck_analysis" => Some(Phase::PostBorrowckAnalysis),
            "erased" => Some(Phase::Erased),
            "coherence" => Some(Phase::Coherence),
            "post_analysis" => Some(Phase::PostAnalysis),
            _ => None,
        }
    }
}

/// The mode of a phase, with these names of opaque types, or with `stop`.
fn mode_of(
    alloc: Global,
    ast: &Ast,
    definitions: &Definitions,
    phase: Phase,
    names: Run,
) -> Result<Mode, ItemFault>
    ensures { IfOk result (λ mode. IsModeOf phase mode.typing_mode) }
{
    match phase {
        Phase::Analysis => Ok(Mode::from(TypingMode::Analysis {
            defining_opaque_types: opaque_types(alloc, ast, definitions, names)?,
        })),
        Phase::Borrowck => Ok(Mode::from(TypingMode::Borrowck {
            defining_opaque_types: opaque_types(alloc, ast, definitions, names)?,
        })),
        Phase::PostBorrowckAnalysis => Ok(Mode::from(TypingMode::PostBorrowckAnalysis {
            defined_opaque_types: opaque_types(alloc, ast, definitions, names)?,
        })),
        Phase::Erased => erased(ast, names),
        Phase::Coherence => without_names(ast, names, TypingMode::Coherence),
        Phase::PostAnalysis => without_names(ast, names, TypingMode::PostAnalysis),
    }
}

impl From<TypingMode> for Mode {
    ghost use Rattle.std.specs.Prelude.{◌≡◌, false};

    ghost from_gives = { λ t m. m ≡ record { typing_mode = t; stop_on_rerun = false } };

    fn from(typing_mode: TypingMode) -> Mode {
        Mode {
            typing_mode,
            stop_on_rerun: false,
        }
    }
}

/// `erased` or `erased(stop)`
fn erased(ast: &Ast, names: Run) -> Result<Mode, ItemFault>
    ensures mode { IfOk result (λ m. m.typing_mode ≡ typing.ErasedNotCoherence) }
    ensures runs_on { IfOk result (λ m. (m.stop_on_rerun ≡ false) ↔ (part_of ast.now.idents.items names ≡ [])) }
{
    match ast.idents(names) {
        [] => Ok(Mode::from(TypingMode::ErasedNotCoherence)),
        [only] if ast.name(only.name) == "stop" => Ok(Mode {
            typing_mode: TypingMode::ErasedNotCoherence,
            stop_on_rerun: true,
        }),
        [first, ..] => Err(wrong_name(*first, Phrase::STOP)),
    }
}

/// A mode that takes no names.
fn without_names(ast: &Ast, names: Run, mode: TypingMode) -> Result<Mode, ItemFault>
    ensures { IfOk result (λ m. m.typing_mode ≡ mode) }
{
    match ast.idents(names) {
        [] => Ok(Mode::from(mode)),
        [first, ..] => Err(wrong_name(*first, Phrase::NO_NAME)),
    }
}

/// The opaque types of these names.
fn opaque_types(
    alloc: Global,
    ast: &Ast,
    definitions: &Definitions,
    names: Run,
) -> Result<Vec<OpaqueId>, ItemFault> {
    let mut ids = Vec::new(alloc);
    for name in ast.idents(names) {
        ids.push(opaque_type(definitions, *name)?)?;
    }
    Ok(ids)
}

fn opaque_type(definitions: &Definitions, name: Ident) -> Result<OpaqueId, ItemFault> {
    match definitions.named(name.name) {
        Some(named) => match named.definition {
            Definition::Opaque(id) => Ok(id),
            _ => Err(wrong_name(name, Phrase::OPAQUE_TYPE)),
        },
        None => Err(wrong_name(name, Phrase::OPAQUE_TYPE)),
    }
}
