//! The edges of the ranges of two lists, in order, without those that are at one place in both.
ghost use Rattle.std.specs.Prelude.{◌≡◌, ◌<◌, ◌∷◌, [], ⊤, List, MatchOption, length};
ghost use Rattle.rangemap_core.specs.engine.Endpoints.{EndpointOf, endpoint_of};
ghost use Rattle.rangemap_core.specs.Sets.{ranges};
ghost use Rattle.rangemap_unions.specs.Edges.{crossed, edges_of, parts_between, parts_ready};

use rangemap_core::cursor::{Cursor, Peek};
use rangemap_core::kind::{Endpoint, Kind};
use std::marker::Model;

/// The start or the end of a range.
#[derive(Drop)]
pub struct Edge<C: Cursor> {
    pair: (C::Given, C::GivenValue),
    is_end: bool,
}

impl<C: Cursor> Model for Edge<C> {
    ghost use Rattle.rangemap_core.specs.engine.Endpoints.{EndpointOf};
    ghost use Rattle.rangemap_core.specs.Shown.{shown_range};
    ghost use Rattle.rangemap_unions.specs.Edges.{edge_at};

    ghost Value = { EndpointOf C.Range };

    ghost view = { λ s. edge_at s.is_end (shown_range C.given s.pair) };
}

impl<C: Cursor> Edge<C> {
    /// Returns the edge as an endpoint of its range.
    pub fn endpoint<'b>(&'b self) -> Endpoint<'b, C::Range>
    where
        C::Value: 'b,
        C::Range: 'b,
        ensures { endpoint_of result ≡ self.now }
    {
        let range = C::parts(&self.pair).0;
        if self.is_end {
            Endpoint::End(range)
        } else {
            Endpoint::Start(range)
        }
    }
}

/// The edges that are left of one list.
#[derive(Drop)]
pub struct Side<C: Cursor> {
    cursor: C,
    // Whether the start of the next range was passed.
    is_inside: bool,
}

impl<C: Cursor> Model for Side<C> {
    ghost use Rattle.std.specs.Prelude.{List};
    ghost use Rattle.rangemap_core.specs.engine.Endpoints.{EndpointOf};
    ghost use Rattle.rangemap_core.specs.Sets.{ranges};
    ghost use Rattle.rangemap_unions.specs.Edges.{edges_left};

    ghost Value = { List (EndpointOf C.Range) };

    ghost view = { λ s. edges_left s.is_inside (ranges (C.left s.cursor)) };
}

impl<C: Peek> Side<C> {
    // Returns the edges of the ranges that the cursor has left.
    fn over(cursor: C) -> Self
        ensures { result ≡ edges_of (ranges (C.left cursor)) }
    {
        Side {
            cursor,
            is_inside: false,
        }
    }

    // Returns the next edge without passing it.
    fn peek(&mut self) -> Option<Edge<C>>
        ensures same { self.new ≡ self.old }
        ensures next { MatchOption result (self.old ≡ [])
            (λ edge. (rest : List (EndpointOf C.Range)) × (self.old ≡ edge ∷ rest)) }
    {
        let pair = self.cursor.peek()?;
        let is_end = self.is_inside;
        Some(Edge { pair, is_end })
    }

    // Passes the next edge.
    fn pass(&mut self)
        ensures { (edge : EndpointOf C.Range) → (rest : List (EndpointOf C.Range))
            → self.old ≡ edge ∷ rest → self.new ≡ rest }
    {
        if self.is_inside {
            let _ = self.cursor.take_first();
        }
        self.is_inside = !self.is_inside;
    }

    // Takes the next edge.
    fn take(&mut self) -> Option<Edge<C>>
        ensures { MatchOption result ((self.old ≡ []) × (self.new ≡ []))
            (λ edge. self.old ≡ edge ∷ self.new) }
    {
        let edge = self.peek()?;
        self.pass();
        Some(edge)
    }
}

/// The edges that are left of both lists.
#[derive(Drop)]
pub struct Sides<C: Cursor> {
    left: Side<C>,
    right: Side<C>,
}

impl<C: Peek> Sides<C> {
    /// Returns the edges of the ranges that two cursors have left.
    pub fn over(left: C, right: C) -> Self
        ensures left { result.left ≡ edges_of (ranges (C.left left)) }
        ensures right { result.right ≡ edges_of (ranges (C.left right)) }
    {
        Sides {
            left: Side::over(left),
            right: Side::over(right),
        }
    }

    // Takes the next edge that is not at the place of one of the other list.
    fn take<Q: Kind<C::Range>>(&mut self) -> Option<Edge<C>>
        ensures { MatchOption result
            ((crossed Q.kind Q.end_place self.old.left self.old.right ≡ [])
            × (crossed Q.kind Q.end_place self.new.left self.new.right ≡ []))
            (λ edge. crossed Q.kind Q.end_place self.old.left self.old.right
            ≡ edge ∷ crossed Q.kind Q.end_place self.new.left self.new.right) }
    {
        'alike: while let Some(left) = self.left.peek() {
            let Some(right) = self.right.peek() else {
                self.left.pass();
                return Some(left);
            };
            if Q::is_before(left.endpoint(), right.endpoint()) {
                self.left.pass();
                return Some(left);
            }
            self.right.pass();
            if Q::is_before(right.endpoint(), left.endpoint()) {
                return Some(right);
            }
            // Both lists go on alike here.
            self.left.pass();
        }
        self.right.take()
    }

    /// Takes the two edges of the next part.
    pub fn next_pair<Q: Kind<C::Range>>(&mut self) -> Option<(Edge<C>, Edge<C>)>
        ensures parts { parts_between Q.kind Q.end_place Q.part_of
            (crossed Q.kind Q.end_place self.old.left self.old.right)
            ≡ parts_ready Q.kind Q.end_place Q.part_of result
            (crossed Q.kind Q.end_place self.new.left self.new.right) }
        ensures fewer { MatchOption result ⊤
            (λ _. length (crossed Q.kind Q.end_place self.new.left self.new.right)
            < length (crossed Q.kind Q.end_place self.old.left self.old.right)) }
    {
        let from = self.take::<Q>()?;
        let to = self.take::<Q>()?;
        Some((from, to))
    }
}
