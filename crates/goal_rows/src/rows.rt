//! The rows: each asks one question of the program, and prints the answer.
use crate::answer::Answer;
use crate::ask::Asked::{
    Accesses, DelayedFaults, Equal, Holds, HoldsConst, HoldsMaybeConst, Limit, ProjectionImpl,
    Term, TwoArguments,
};
use crate::ask::{Asked, Question, ask};
use crate::faults::RowsFault;
use goal_checks::checked::{CheckedTables, check_tables};
use goal_program::asked_terms::AskedAlias::{
    Discriminant, Free, FreeConst, Inherent, Metadata, Opaque, Output, PairA, TrA, TraitAssoc,
};
use goal_program::asked_terms::AskedType::{
    Bool, Byte, ByteAndStr, OwnB, Param, Str, Struct, Unit, VecOf,
};
use goal_program::names::{FREE_A, FREE_B, FREE_C, HID, P, Q, W, X, Y, Z};
use goal_program::settings::Environment::{Empty, HasTwoTerms, IsMaybeConst, IsOwn, IsSized};
use goal_program::settings::Mode::{Analysis, Erased, ErasedThatStops, PostAnalysis};
use goal_program::settings::{Environment, Mode};
use goal_program::tables::whole_tables;
use goal_tables::faults::TableFault;
use goal_terms::scalars::UintTy::{U8, U16};
use std::alloc::Global;
use std::io;

/// A row: a label, what is asked, what is assumed, the phase of checking, and the limit on the depth.
type Row = (&'static str, Asked, Environment, Mode, u32);

/// Metadata, discriminants and outputs.
const BUILT_IN_ROWS: &[Row] = &[
    ("01a", Term(Metadata(Bool)), Empty, Analysis, 2),
    ("01b", Term(Metadata(Bool)), Empty, Analysis, 1),
    ("01c", Term(Metadata(Bool)), Empty, Analysis, 0),
    ("02a", Term(Metadata(Str)), Empty, Analysis, 2),
    ("02b", Term(Metadata(Unit)), Empty, Analysis, 2),
    ("03a", Term(Metadata(ByteAndStr)), Empty, Analysis, 3),
    ("03b", Term(Metadata(ByteAndStr)), Empty, Analysis, 2),
    ("04a", Term(Metadata(Param)), IsSized, Analysis, 2),
    ("04b", Term(Metadata(Param)), Empty, Analysis, 2),
    ("05a", Term(Discriminant(Param)), Empty, Analysis, 2),
];

fn built_in_rows() -> &'static [Row] {
    BUILT_IN_ROWS
}

/// Free aliases, and items of traits with parameters.
const ALIAS_ROWS: &[Row] = &[
    ("06a", Term(Free(FREE_A)), Empty, Analysis, 1),
    ("06b", Term(Free(FREE_B)), Empty, Analysis, 2),
    ("06c", Term(Free(FREE_B)), Empty, Analysis, 1),
    ("07a", Term(TraitAssoc), Empty, Analysis, 2),
    ("08a", Term(Output(U8)), Empty, Analysis, 3),
    ("08b", Term(Output(U8)), Empty, Analysis, 2),
    ("08c", Term(Output(U16)), Empty, Analysis, 2),
    ("09a", Term(TrA(Param)), HasTwoTerms, Analysis, 3),
    ("09b", Term(TrA(Param)), HasTwoTerms, Analysis, 128),
];

fn alias_rows() -> &'static [Row] {
    ALIAS_ROWS
}

/// Impls of one trait, also negative and const ones.
const IMPL_ROWS: &[Row] = &[
    ("10a", Term(PairA(U8)), Empty, Analysis, 4),
    ("10b", Term(PairA(U8)), Empty, Analysis, 3),
    ("10c", Term(PairA(U16)), Empty, Analysis, 4),
    ("11a", Term(TrA(Struct(X))), Empty, Analysis, 128),
    ("12a", Term(TrA(Struct(Y))), Empty, Analysis, 2),
    ("12b", HoldsConst(Struct(Y)), Empty, Analysis, 2),
    ("12c", Holds(Struct(Z)), Empty, Analysis, 1),
    ("12d", HoldsConst(Struct(Z)), Empty, Analysis, 2),
];

fn impl_rows() -> &'static [Row] {
    IMPL_ROWS
}

/// Const goals under an environment, and the opaque type.
const CONST_ROWS: &[Row] = &[
    ("13a", HoldsMaybeConst(Param), IsMaybeConst, Analysis, 2),
    ("13b", HoldsConst(Param), IsMaybeConst, Analysis, 2),
    ("14a", Term(Opaque(HID)), Empty, Analysis, 1),
    ("14b", Term(Opaque(HID)), Empty, PostAnalysis, 1),
    ("14c", Term(Opaque(HID)), Empty, Erased, 1),
    ("14d", Accesses(Opaque(HID)), Empty, Erased, 1),
    ("14e", Term(Opaque(HID)), Empty, ErasedThatStops, 1),
];

fn const_rows() -> &'static [Row] {
    CONST_ROWS
}

/// Items without values, and impls that are refused.
const FAULT_ROWS: &[Row] = &[
    ("15a", Term(TrA(Struct(W))), Empty, Analysis, 2),
    ("15b", DelayedFaults(TrA(Struct(W))), Empty, Analysis, 2),
    ("15c", Term(TrA(Str)), Empty, Analysis, 2),
    ("15d", DelayedFaults(TrA(Str)), Empty, Analysis, 2),
    ("16a", ProjectionImpl, Empty, Analysis, 0),
    ("17a", Term(TrA(Struct(Z))), Empty, Analysis, 2),
    ("17b", Term(TrA(Struct(Z))), Empty, Analysis, 1),
    ("17c", Term(TrA(Struct(P))), Empty, Analysis, 2),
];

fn fault_rows() -> &'static [Row] {
    FAULT_ROWS
}

/// Equations, inherent and constant aliases, and the limit.
const EQUATION_ROWS: &[Row] = &[
    ("18a", Equal(Metadata(Bool), Unit), Empty, Analysis, 4),
    ("18b", Equal(Metadata(Bool), Unit), Empty, Analysis, 3),
    ("18c", Equal(Metadata(Bool), Byte), Empty, Analysis, 4),
    ("19a", Term(Inherent), Empty, Analysis, 1),
    ("20a", Term(FreeConst(FREE_C)), Empty, Analysis, 128),
    ("21a", Limit, Empty, Analysis, 129),
];

fn equation_rows() -> &'static [Row] {
    EQUATION_ROWS
}

/// An item whose trait is bound, wrong arguments, and const impls.
const OWN_ROWS: &[Row] = &[
    ("22a", Holds(OwnB), IsOwn, Analysis, 3),
    ("22b", Term(TrA(OwnB)), IsOwn, Analysis, 4),
    ("22c", Term(TrA(OwnB)), IsOwn, Analysis, 3),
    ("23a", TwoArguments(Struct(Z)), Empty, Analysis, 1),
    ("24a", HoldsConst(VecOf(Q)), Empty, Analysis, 3),
    ("24b", HoldsConst(VecOf(Z)), Empty, Analysis, 3),
    ("24c", HoldsConst(VecOf(Q)), Empty, Analysis, 2),
];

fn own_rows() -> &'static [Row] {
    OWN_ROWS
}

/// Prints the rows. After an `Err` no more is written.
pub fn print_rows<W: io::Write>(alloc: Global, out: &mut W) -> Result<(), RowsFault> {
    match check_tables(whole_tables(alloc)?) {
        Ok(tables) => print_answers(alloc, &tables, out),
        Err(TableFault::OutOfMemory) => Err(RowsFault::OutOfMemory),
        Err(_) => Err(RowsFault::Tables),
    }
}

/// Prints the answers in order: each table is a function's, since the check takes long over long ones.
fn print_answers<W: io::Write>(
    alloc: Global,
    tables: &CheckedTables,
    out: &mut W,
) -> Result<(), RowsFault> {
    print_part(alloc, tables, out, built_in_rows())?;
    print_part(alloc, tables, out, alias_rows())?;
    print_part(alloc, tables, out, impl_rows())?;
    print_part(alloc, tables, out, const_rows())?;
    print_part(alloc, tables, out, fault_rows())?;
    print_part(alloc, tables, out, equation_rows())?;
    print_part(alloc, tables, out, own_rows())
}

fn print_part<W: io::Write>(
    alloc: Global,
    tables: &CheckedTables,
    out: &mut W,
    rows: &[Row],
) -> Result<(), RowsFault> {
    for row in rows {
        let answer = answer_to(alloc, tables, row)?;
        print_row(out, row.0, &answer)?;
    }
    Ok(())
}

fn answer_to(alloc: Global, tables: &CheckedTables, row: &Row) -> Result<Answer, RowsFault> {
    let (_, asked, environment, mode, limit) = *row;
    let question = Question {
        asked,
        environment,
        mode,
        limit,
    };
    ask(alloc, tables, question)
}

fn print_row<W: io::Write>(out: &mut W, label: &str, answer: &Answer) -> Result<(), RowsFault> {
    match writeln!(out, "{label} {answer}") {
        Ok(()) => Ok(()),
        Err(_) => Err(RowsFault::Output),
    }
}
