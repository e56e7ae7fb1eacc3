//! Goals.
use crate::parser::bounds::parse_constness;
use crate::parser::terms::{parse_segment, parse_term};
use crate::reader::Reader;
use vurloske_ast::ast::{Bound, Goal, GoalKind, Run, Span, TermId};
use vurloske_ast::phrase::Phrase;
use vurloske_ast::token::Sign;

/// `T: Tr;`, `<T as Tr>::A = ?;`, `<T as Tr>::A == u8;`, behind its attributes.
pub(crate) fn parse_goal(reader: &mut Reader, depth: u32, attrs: Run) -> Goal {
    let start = reader.start();
    let term = parse_term(reader, depth);
    let subject = Span {
        start,
        end: reader.end(),
    };
    let kind = parse_goal_kind(reader, depth, term);
    let text = Span {
        start,
        end: reader.end(),
    };
    reader.expect(Sign::Semi);
    Goal {
        attrs,
        text,
        subject,
        kind,
    }
}

/// What is asked of a term.
fn parse_goal_kind(reader: &mut Reader, depth: u32, term: TermId) -> GoalKind {
    if reader.eat(Sign::Colon) {
        return GoalKind::Holds(term, parse_goal_bound(reader, depth));
    }
    if reader.eat(Sign::EqEq) {
        return GoalKind::Equal(term, parse_term(reader, depth));
    }
    if reader.eat(Sign::Eq) {
        reader.expect(Sign::Question);
    } else {
        reader.mistake(Phrase::COLON_OR_ANY_EQ);
    }
    GoalKind::Normalizes(term)
}

/// `Tr`, `const Tr`, `[const] Tr`
fn parse_goal_bound(reader: &mut Reader, depth: u32) -> Bound {
    let at = reader.at();
    let constness = parse_constness(reader);
    let trait_ = parse_segment(reader, depth, Phrase::TRAIT);
    Bound {
        binder: Run::EMPTY,
        constness,
        is_relaxed: false,
        trait_,
        at,
    }
}
