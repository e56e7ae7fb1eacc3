//! Interning of terms with other leaves.
ghost use Rattle.std.specs.Prelude.{◌≡◌, ◌<◌, ◌≤◌, ◌+◌, length, map, IfOk, IfSome};
ghost use Rattle.std.specs.List.{All};
ghost use Rattle.std.specs.Option.{option_map, option_and_then};
ghost use Rattle.goal_terms.specs.Folding.{shifted, shifting, instance, instantiating, folded, argument_of, lifetime_of, region_instance};
ghost use Rattle.goal_terms.specs.Sorts.{IsArgument};
ghost use Rattle.goal_interner.specs.TableMeaning.{tree_at, AreBelow, Keeps, IsOnly};
ghost use Rattle.goal_terms.specs.Tops.{depth_of_parts, folded_top, argument_for};
ghost use Rattle.goal_terms.specs.Tree.{tree_size};
ghost use Rattle.goal_terms.specs.View.{tree_of_ref};

use crate::term_nodes::{OutOfMemory, TermId};
use crate::term_table::TermTable;
use goal_terms::answers::ParamKind;
use goal_terms::folders::shift_region;
use goal_terms::heads::{Head, Node};
use goal_terms::kinds::{kind_of, same_kind};
use goal_terms::terms::Region;
use goal_terms::view::TermRef;

impl TermTable {
    /// The number of a term with arguments, given by their numbers, in place of its parameters. It is
    /// added if it isn't there yet. A parameter for which there is no argument of its kind stays, and
    /// an argument that comes to stand below binders of the term is shifted by their number.
    /// Want of memory or of numbers is the only refusal; then the table may have got some of the
    /// term's parts.
    pub fn intern_under(
        &mut self,
        term: TermRef<'_>,
        args: &[TermId],
    ) -> Result<TermId, OutOfMemory>
        requires within { AreBelow (length self.old) args.now }
        requires arguments { All IsArgument (map (tree_at self.old) args.now) }
        ensures within { IfOk result (λ id. id.0 < length self.new) }
        ensures tree { IfOk result (λ id. tree_at self.new id ≡ instance (map (tree_at self.old) args.now) (tree_of_ref term.entry)) }
        ensures only { IfOk result (λ id. IsOnly self.new id (instance (map (tree_at self.old) args.now) (tree_of_ref term.entry))) }
        ensures kept { Keeps self.old self.new }
        ensures grown { length self.new ≤ length self.old + tree_size (instance (map (tree_at self.old) args.now) (tree_of_ref term.entry)) }
    {
        self.intern_below(term, args, 0)
    }

    #[tactic(auto, using(crate::proofs::InternLemmas::interning))]
    /// The same of a part that stands below binders of the term.
    fn intern_below(
        &mut self,
        term: TermRef<'_>,
        args: &[TermId],
        binders: u32,
    ) -> Result<TermId, OutOfMemory>
        requires within { AreBelow (length self.old) args.now }
        requires arguments { All IsArgument (map (tree_at self.old) args.now) }
        ensures within { IfOk result (λ id. id.0 < length self.new) }
        ensures tree { IfOk result (λ id. tree_at self.new id ≡ folded (instantiating (map (tree_at self.old) args.now)) binders (tree_of_ref term.entry)) }
        ensures only { IfOk result (λ id. IsOnly self.new id (folded (instantiating (map (tree_at self.old) args.now)) binders (tree_of_ref term.entry))) }
        ensures kept { Keeps self.old self.new }
        ensures grown { length self.new ≤ length self.old + tree_size (folded (instantiating (map (tree_at self.old) args.now)) binders (tree_of_ref term.entry)) }
    {
        let node = term.node();
        if let Some(arg) = self.argument_for(args, node) {
            return self.shift_whole(arg, binders);
        }
        let below = node.binders_below(binders);
        let parts = term.parts();
        let mut numbers = Vec::with_capacity(self.allocator(), parts.len())?;
        for i in 0..parts.len() {
            let number = self.intern_below(parts.at(i), args, below)?;
            numbers.push(number)?;
        }
        let top = self.node_under(args, node, binders);
        self.intern_node(top, numbers)
    }

    /// The number of a term below `by` more binders. Below none it is its own, and nothing is gone over.
    fn shift_whole(&mut self, id: TermId, by: u32) -> Result<TermId, OutOfMemory>
        requires { id.0 < length self.old }
        ensures within { IfOk result (λ new. new.0 < length self.new) }
        ensures tree { IfOk result (λ new. tree_at self.new new ≡ shifted by 0 (tree_at self.old id)) }
        ensures only { IfOk result (λ new. IsOnly self.new new (shifted by 0 (tree_at self.old id))) }
        ensures kept { Keeps self.old self.new }
        ensures grown { length self.new ≤ length self.old + tree_size (shifted by 0 (tree_at self.old id)) }
    {
        if by == 0 {
            self.below_no_binder(id);
            return Ok(id);
        }
        self.shift_number(id, by, 0)
    }

    /// The number of a term below `by` more binders, as a part that stands below binders of the whole.
    fn shift_number(&mut self, id: TermId, by: u32, binders: u32) -> Result<TermId, OutOfMemory>
        requires { id.0 < length self.old }
        ensures within { IfOk result (λ new. new.0 < length self.new) }
        ensures tree { IfOk result (λ new. tree_at self.new new ≡ shifted by binders (tree_at self.old id)) }
        ensures only { IfOk result (λ new. IsOnly self.new new (shifted by binders (tree_at self.old id))) }
        ensures kept { Keeps self.old self.new }
        ensures grown { length self.new ≤ length self.old + tree_size (shifted by binders (tree_at self.old id)) }
    {
        let node = self.node(id);
        let below = node.binders_below(binders);
        let count = self.parts(id).len();
        let mut numbers = Vec::with_capacity(self.allocator(), count)?;
        for place in 0..count {
            let part = self.part(id, place);
            let number = self.shift_number(part, by, below)?;
            numbers.push(number)?;
        }
        self.intern_node(node.shifted(by, binders), numbers)
    }

    #[tactic(auto, unfolding(goal_terms::specs::Tops::folded_top))]
    /// The node with an argument in place of the parameter that its own lifetime is.
    fn node_under(&self, args: &[TermId], node: Node, binders: u32) -> Node
        requires { AreBelow (length self.now) args.now }
        ensures { result ≡ folded_top (instantiating (map (tree_at self.now) args.now)) binders node }
    {
        let Node::Head(head) = node else {
            return node;
        };
        Node::Head(match head {
            Head::Ref(region, mutability) => {
                Head::Ref(self.region_under(args, region, binders), mutability)
            }
            Head::Dynamic(count, region) => {
                Head::Dynamic(count, self.region_under(args, region, binders))
            }
            Head::Lifetime(region) => Head::Lifetime(self.region_under(args, region, binders)),
            other => other,
        })
    }

    #[tactic(auto, unfolding(goal_terms::specs::Folding::region_instance))]
    fn region_under(&self, args: &[TermId], region: Region, binders: u32) -> Region
        requires { AreBelow (length self.now) args.now }
        ensures { result ≡ region_instance (map (tree_at self.now) args.now) binders region }
    {
        let Region::Param(index) = region else {
            return region;
        };
        match self.lifetime_argument(args, index) {
            Some(arg) => shift_region(binders, 0, arg),
            None => region,
        }
    }

    /// The argument at a place, if it is a lifetime.
    fn lifetime_argument(&self, args: &[TermId], index: u32) -> Option<Region>
        requires { AreBelow (length self.now) args.now }
        ensures { result ≡ option_and_then lifetime_of (argument_of (map (tree_at self.now) args.now) ParamKind.Lifetime index) }
    {
        let arg = self.argument_of(args, ParamKind::Lifetime, index)?;
        match self.node(arg) {
            Node::Head(Head::Lifetime(region)) => Some(region),
            _ => None,
        }
    }

    #[tactic(auto, unfolding(goal_terms::specs::Tops::argument_for))]
    /// The argument that stands for a node, if that is a parameter.
    fn argument_for(&self, args: &[TermId], node: Node) -> Option<TermId>
        requires { AreBelow (length self.now) args.now }
        ensures tree { option_map (tree_at self.now) result ≡ argument_for (map (tree_at self.now) args.now) node }
        ensures within { IfSome result (λ id. id.0 < length self.now) }
    {
        match node {
            Node::Head(Head::TyParam(index)) => self.argument_of(args, ParamKind::Ty, index),
            Node::Head(Head::ConstParam(index)) => self.argument_of(args, ParamKind::Const, index),
            _ => None,
        }
    }

    /// The argument at a place, if it is of a kind.
    fn argument_of(&self, args: &[TermId], kind: ParamKind, index: u32) -> Option<TermId>
        requires { AreBelow (length self.now) args.now }
        ensures tree { option_map (tree_at self.now) result ≡ argument_of (map (tree_at self.now) args.now) kind index }
        ensures within { IfSome result (λ id. id.0 < length self.now) }
    {
        if index as usize >= args.len() {
            return None;
        }
        let arg = args[index as usize];
        if !same_kind(kind_of(self.node(arg)), kind) {
            return None;
        }
        Some(arg)
    }
}
