//! What the last goal's context recorded, and what its answer equates and gives variables.
ghost use Rattle.std.specs.Prelude.{◌≡◌, [], OnOk};

use crate::endings::{Ending, output};
use goal_checks::checked::CheckedTables;
use goal_solver::context::EvalCtxt;
use goal_terms::answers::{Certainty, DelayedFault, OpaqueAccess, Response};
use goal_terms::ids::{DefId, ItemId};
use goal_terms::terms::{Region, Term};
use goal_terms::view::TermRef;
use goal_text::names::TermNames;
use goal_text::text::Shown;
use std::alloc::{AllocError, Global};
use std::{fmt, io};
use vurloske_items::names::ItemNames;

/// What the last goal's context recorded, in the order of first entry, the lifetimes that its answer equates, and what
/// the goal's variables become where it is a yes.
pub struct Records {
    accesses: Vec<OpaqueAccess>,
    faults: Vec<DelayedFault>,
    pub equations: Vec<(Region, Region)>,
    pub values: Vec<(u32, Term)>,
}

impl Drop for Records {
    fn drop(self) {
        let Records {
            accesses: _,
            faults: _,
            equations: _,
            values: _,
        } = self;
    }
}

impl Records {
    /// Nothing was asked yet.
    pub fn new(alloc: Global) -> Records
        ensures accesses { result.accesses.items ≡ [] }
        ensures faults { result.faults.items ≡ [] }
        ensures equations { result.equations.items ≡ [] }
        ensures values { result.values.items ≡ [] }
    {
        Records {
            accesses: Vec::new(alloc),
            faults: Vec::new(alloc),
            equations: Vec::new(alloc),
            values: Vec::new(alloc),
        }
    }

    /// Forgets what was recorded.
    pub fn clear(&mut self)
        ensures accesses { self.new.accesses.items ≡ [] }
        ensures faults { self.new.faults.items ≡ [] }
        ensures equations { self.new.equations.items ≡ [] }
        ensures values { self.new.values.items ≡ [] }
    {
        self.accesses.clear();
        self.faults.clear();
        self.equations.clear();
        self.values.clear();
    }

    /// Keeps what a context recorded in place of what was recorded before.
    pub fn keep(&mut self, context: &EvalCtxt<'_>) -> Result<(), AllocError>
        ensures accesses { OnOk result (self.new.accesses.items ≡ context.now.accesses) }
        ensures faults { OnOk result (self.new.faults.items ≡ context.now.delayed_faults) }
        ensures equations { self.new.equations ≡ self.old.equations }
        ensures values { self.new.values ≡ self.old.values }
    {
        self.accesses.clear();
        self.faults.clear();
        self.accesses.extend_from_slice(context.opaque_accesses())?;
        self.faults.extend_from_slice(context.delayed_faults())
    }

    /// Keeps what an answer equates, and what it gives the goal's own variables if it is a yes. `expected` is the
    /// variable that takes an alias's term.
    pub fn keep_response(
        &mut self,
        response: &Response,
        expected: Option<u32>,
    ) -> Result<(), AllocError> {
        self.equations
            .extend_from_slice(&response.region_equations)?;
        if let Certainty::Maybe = response.certainty {
            return Ok(());
        }
        for (variable, term) in &response.var_values {
            if *variable < response.base && Some(*variable) != expected {
                self.values.push((*variable, term.clone()?))?;
            }
        }
        Ok(())
    }

    /// Prints what the answer would have read of another mode: `accesses: IfPostAnalysis`.
    pub fn print_accesses<W: io::Write>(
        &self,
        out: &mut W,
        names: &ItemNames<'_>,
    ) -> Result<(), Ending> {
        let shown = ShownAccesses {
            accesses: &self.accesses,
            names,
        };
        output(writeln!(out, "accesses: {shown}"))
    }

    /// Prints which lifetimes the answer equates: `regions: 'a == 'b`.
    pub fn print_regions<W: io::Write>(
        &self,
        out: &mut W,
        names: &ItemNames<'_>,
    ) -> Result<(), Ending> {
        let shown = ShownRegions {
            equations: &self.equations,
            names,
        };
        output(writeln!(out, "regions: {shown}"))
    }

    /// Prints the faults of the items that were met: `faults: MissingItem(A of Tr)`.
    pub fn print_faults<W: io::Write>(
        &self,
        out: &mut W,
        tables: &CheckedTables,
        names: &ItemNames<'_>,
    ) -> Result<(), Ending> {
        let shown = ShownFaults {
            faults: &self.faults,
            tables,
            names,
        };
        output(writeln!(out, "faults: {shown}"))
    }
}

/// What variables become, each behind a comma.
#[derive(Clone, Copy)]
pub struct ShownValues<'a> {
    pub values: &'a [(u32, Term)],
    pub names: &'a ItemNames<'a>,
}

impl fmt::Display for ShownValues<'_> {
    fn fmt<W: fmt::Write>(&self, f: &mut fmt::Formatter<W>) -> fmt::Result {
        for (variable, term) in self.values {
            let term = term.view();
            let names = self.names;
            let shown = Shown { term, names };
            write!(f, ", ?{variable} = {shown}")?;
        }
        Ok(())
    }
}

/// Accesses in order, or `none`.
#[derive(Clone, Copy)]
struct ShownAccesses<'a> {
    accesses: &'a [OpaqueAccess],
    names: &'a ItemNames<'a>,
}

impl fmt::Display for ShownAccesses<'_> {
    fn fmt<W: fmt::Write>(&self, f: &mut fmt::Formatter<W>) -> fmt::Result {
        if self.accesses.is_empty() {
            return f.write_str("none");
        }
        for (place, access) in self.accesses.iter().enumerate() {
            f.write_str(separator(place))?;
            match *access {
                OpaqueAccess::IfDefining(id) => {
                    let name = self.names.opaque_name(id);
                    write!(f, "IfDefining({name})")?;
                }
                OpaqueAccess::IfPostAnalysis => f.write_str("IfPostAnalysis")?,
                OpaqueAccess::Always => f.write_str("Always")?,
            }
        }
        Ok(())
    }
}

/// Equations of lifetimes in order, or `none`.
#[derive(Clone, Copy)]
struct ShownRegions<'a> {
    equations: &'a [(Region, Region)],
    names: &'a ItemNames<'a>,
}

impl fmt::Display for ShownRegions<'_> {
    fn fmt<W: fmt::Write>(&self, f: &mut fmt::Formatter<W>) -> fmt::Result {
        if self.equations.is_empty() {
            return f.write_str("none");
        }
        for (place, equation) in self.equations.iter().enumerate() {
            f.write_str(separator(place))?;
            let names = self.names;
            let left = Shown {
                term: TermRef::Lifetime(equation.0),
                names,
            };
            let right = Shown {
                term: TermRef::Lifetime(equation.1),
                names,
            };
            write!(f, "{left} == {right}")?;
        }
        Ok(())
    }
}

/// Faults in order, or `none`.
#[derive(Clone, Copy)]
struct ShownFaults<'a> {
    faults: &'a [DelayedFault],
    tables: &'a CheckedTables,
    names: &'a ItemNames<'a>,
}

impl fmt::Display for ShownFaults<'_> {
    fn fmt<W: fmt::Write>(&self, f: &mut fmt::Formatter<W>) -> fmt::Result {
        if self.faults.is_empty() {
            return f.write_str("none");
        }
        for (place, fault) in self.faults.iter().enumerate() {
            f.write_str(separator(place))?;
            let shown = ShownFault {
                fault: *fault,
                tables: self.tables,
                names: self.names,
            };
            write!(f, "{shown}")?;
        }
        Ok(())
    }
}

#[derive(Clone, Copy)]
struct ShownFault<'a> {
    fault: DelayedFault,
    tables: &'a CheckedTables,
    names: &'a ItemNames<'a>,
}

impl fmt::Display for ShownFault<'_> {
    fn fmt<W: fmt::Write>(&self, f: &mut fmt::Formatter<W>) -> fmt::Result {
        match self.fault {
            DelayedFault::MissingItem(id) => match item_defined_by(self.tables, id) {
                Some(item) => {
                    let name = self.names.item_name(item);
                    let of = self.names.trait_name_of(item);
                    write!(f, "MissingItem({name} of {of})")
                }
                None => f.write_str("MissingItem"),
            },
            DelayedFault::AutoTrait(id) => {
                let name = self.names.trait_name(id);
                write!(f, "AutoTrait({name})")
            }
        }
    }
}

/// The item that a definition is for.
fn item_defined_by(tables: &CheckedTables, id: DefId) -> Option<ItemId> {
    let row = tables.rows().definition_row(id)?;
    Some(row.item)
}

/// What comes before the record at a place.
fn separator(place: usize) -> &'static str {
    if place == 0 { "" } else { ", " }
}
