//! A table in which each distinct term stands once, and has a number.
ghost use Rattle.std.specs.Prelude.{◌≡◌, ◌<◌, ◌≤◌, ◌+◌, ◌^◌, List, [], length, map, IfOk, OnErr, IsTrue, ◌↔◌};
ghost use Rattle.goal_terms.specs.Folding.{shifted};
ghost use Rattle.goal_terms.specs.Tree.{node_of, parts_of};
ghost use Rattle.goal_terms.specs.Sorts.{Fits, part_at};
ghost use Rattle.goal_terms.specs.TreeWith.{tree_with};
ghost use Rattle.goal_interner.specs.TableMeaning.{tree_at, AreBelow, HasTerm, Keeps, IsOnly};
ghost use Rattle.goal_interner.specs.TermFlags.{flags_of};

use crate::term_flags::TermFlags;
use crate::term_nodes::{OutOfMemory, TermId, TermNode};
use goal_terms::heads::Node;
use goal_terms::sorts::Sort;
use indexmap::IndexSet;
use std::alloc::Global;
use std::marker::Model;

/// Types, constants and their parts, each once, with its flags. The number of a term never changes.
#[derive(Drop)]
pub struct TermTable {
    nodes: IndexSet<TermNode>,
    flags: Vec<TermFlags>,
}

impl Model for TermTable {
    ghost use Rattle.std.specs.Prelude.{List};
    ghost use Rattle.goal_terms.specs.Tree.{Tree};
    ghost use Rattle.goal_terms.specs.TreeCode.{trees_code};

    ghost Value = { List Tree };

    ghost coded = { trees_code };

    ghost use Rattle.goal_interner.specs.TableMeaning.{trees_of_nodes};
    ghost use Rattle.goal_interner.specs.TermFlags.{AreFlagged};

    ghost view = { λ a. trees_of_nodes a.nodes.keys };

    ghost invariant = { λ a. AreFlagged a.nodes.keys a.flags.items };
}

#[tactic(auto, using(crate::proofs::TableLemmas::table_facts))]
impl TermTable {
    /// A table without terms. It takes no memory.
    pub fn new(alloc: Global) -> Self
        ensures { result ≡ [] }
    {
        TermTable {
            nodes: IndexSet::new(alloc),
            flags: Vec::new(alloc),
        }
    }

    /// Where the table's memory comes from.
    pub fn allocator(&self) -> Global {
        *self.nodes.allocator()
    }

    /// How many numbers there are. They begin with 0.
    pub fn len(&self) -> usize
        ensures count { result ≡ length self.now }
        ensures small { result < 2 ^ 32 }
    {
        self.nodes.len()
    }

    /// What stands at the top of a term. The term's parts fit it.
    pub fn node(&self, id: TermId) -> Node
        requires { id.0 < length self.now }
        ensures top { result ≡ node_of (tree_at self.now id) }
        ensures fits { Fits result (parts_of (tree_at self.now id)) }
    {
        self.nodes.as_slice()[id.0 as usize].node
    }

    /// The numbers of the parts of a term, each smaller than its own.
    pub fn parts(&self, id: TermId) -> &[TermId]
        requires { id.0 < length self.now }
        ensures trees { map (tree_at self.now) result.now ≡ parts_of (tree_at self.now id) }
        ensures earlier { AreBelow id.0 result.now }
    {
        self.nodes.as_slice()[id.0 as usize].parts.as_slice()
    }

    /// The number of the part of a term at a place, counted from 0.
    pub fn part(&self, id: TermId, place: usize) -> TermId
        requires within { id.0 < length self.now }
        requires place { place < length (parts_of (tree_at self.now id)) }
        ensures tree { tree_at self.now result ≡ part_at (tree_at self.now id) place }
        ensures earlier { result.0 < id.0 }
    {
        self.parts(id)[place]
    }

    /// Whether an error, an alias or an inference variable stands anywhere in a term. It takes no
    /// memory.
    pub fn flags(&self, id: TermId) -> TermFlags
        requires { id.0 < length self.now }
        ensures { result ≡ flags_of (tree_at self.now id) }
    {
        self.flags[id.0 as usize]
    }

    /// A law: below no binder a term is itself, and no other number has it.
    pub fn below_no_binder(&self, id: TermId)
        requires { id.0 < length self.now }
        ensures itself { shifted 0 0 (tree_at self.now id) ≡ tree_at self.now id }
        ensures only { IsOnly self.now id (tree_at self.now id) }
    {
        let _nodes = &self.nodes;
    }

    /// The number of the term with this node and these parts, which fit it and are in the table. It
    /// adds the term if it isn't there yet.
    /// Want of memory or of numbers is the only refusal, and then the table stays as it was.
    pub fn intern_node(&mut self, node: Node, parts: Vec<TermId>) -> Result<TermId, OutOfMemory>
        requires within { AreBelow (length self.old) parts.items }
        requires fits { Fits node (map (tree_at self.old) parts.items) }
        ensures within { IfOk result (λ id. id.0 < length self.new) }
        ensures tree { IfOk result (λ id. tree_at self.new id ≡ tree_with node (map (tree_at self.old) parts.items)) }
        ensures only { IfOk result (λ id. IsOnly self.new id (tree_with node (map (tree_at self.old) parts.items))) }
        ensures kept { Keeps self.old self.new }
        ensures grown { length self.new ≤ length self.old + 1 }
        ensures known { IfOk result (λ id. id.0 < length self.old → self.new ≡ self.old) }
        ensures refused { OnErr result (self.new ≡ self.old) }
    {
        let added = TermNode { node, parts };
        if let Some(place) = self.nodes.get_index_of(&added) {
            return Ok(TermId(place as u32));
        }
        if self.nodes.len() >= u32::MAX as usize {
            return Err(OutOfMemory);
        }
        let flags = self.flags_with(node, added.parts.as_slice());
        self.flags.reserve(1)?;
        let (place, _) = self.nodes.insert_full(added)?;
        self.flags.push_reserved(flags);
        Ok(TermId(place as u32))
    }

    /// Whether two numbers are those of one term. They are equal then, and only then.
    pub fn same_term(&self, a: TermId, b: TermId) -> bool
        requires first { a.0 < length self.now }
        requires second { b.0 < length self.now }
        ensures equal { IsTrue result ↔ (a ≡ b) }
        ensures identical { IsTrue result ↔ (tree_at self.now a ≡ tree_at self.now b) }
    {
        let _nodes = &self.nodes;
        a == b
    }

    /// Whether a type or a constant has this number. It takes no memory.
    pub fn contains(&self, id: TermId) -> bool
        ensures { IsTrue result ↔ HasTerm self.now id }
    {
        if id.0 as usize >= self.len() {
            return false;
        }
        matches!(self.node(id).sort(), Sort::Ty | Sort::Const)
    }
}
