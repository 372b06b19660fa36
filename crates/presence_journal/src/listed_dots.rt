//! The dots that a list shows, in pieces: a list of a topic shares those that stayed since the list before it.
ghost use Rattle.std.specs.Prelude.{◌≡◌, ◌≤◌, ◌∷◌, ◌++◌, length, IfOk, IfSome, option_map};
ghost use Rattle.presence_journal.specs.RowDots.{dots_in};
ghost use Rattle.presence_journal.specs.ListedDots.{piece_dots, pieces_dots, walk_dots, same_dots, IsNext, BeginsWith};

use crate::shared_rows::dots_of_rows;
use presence_base::{Dot, Row};
use std::alloc::{AllocError, Global};
use std::collections::BTreeMap;
use std::marker::Model;
use std::sync::Arc;

/// So many dots and fewer lie in one piece that nothing shares.
const MAX_FEW: usize = 64;

/// Behind its first dot a piece that is made anew has so many at most.
const MAX_MORE: usize = 127;

/// Where there are more before the next piece that stayed, it has so many.
const HALF_MORE: usize = 63;

/// What a dot takes, in bytes.
const DOT_BYTES: u64 = 56;

/// What a piece takes beside the dots behind its first one, its place in the list among it.
const PIECE_BYTES: u64 = 128;

/// What the place of a piece in a list takes.
const PLACE_BYTES: u64 = 8;

// Some dots that follow one another in a list.
#[derive(Debug, Drop)]
struct HeldPiece {
    first: Dot,
    more: Vec<Dot>,
}

// The same, for all lists that have them.
#[derive(Debug, Drop)]
struct Piece {
    held: Arc<HeldPiece, Global>,
}

// The pieces of a list, and the bytes that it shares with no list before it.
#[derive(Debug, Drop)]
struct Pieced {
    pieces: Vec<Piece>,
    new_bytes: u64,
}

// Where the dots lie.
#[derive(Debug, Drop)]
enum HeldList {
    Nowhere,
    Few(Arc<Vec<Dot>, Global>),
    Pieces(Arc<Pieced, Global>),
}

/// The dots that a list or a get showed. Its clones share them.
#[derive(Debug)]
pub struct ListedDots {
    held: HeldList,
}

impl Drop for ListedDots {
    fn drop(self) {
        let ListedDots { held } = self;
        drop(held);
    }
}

impl Model for ListedDots {
    ghost use Rattle.std.specs.Prelude.{List};
    ghost use Rattle.std.specs.Coded.{coded_list};
    ghost use Rattle.presence_base.specs.declared.dots.Dot.{Dot};
    ghost use Rattle.presence_base.specs.Codes.{dot_code};
    ghost use Rattle.presence_journal.specs.ListedDots.{held_list};

    ghost Value = { List Dot };

    ghost coded = { coded_list dot_code };

    ghost view = { λ d. held_list d.held };
}

impl Clone for ListedDots {
    ghost use Rattle.std.specs.Prelude.{◌≡◌};

    ghost is_clone = { λ d e. e ≡ d };

    fn clone(&self) -> Result<ListedDots, AllocError> {
        let held = match &self.held {
            HeldList::Nowhere => HeldList::Nowhere,
            HeldList::Few(dots) => HeldList::Few(Arc::try_clone(dots)?),
            HeldList::Pieces(pieces) => HeldList::Pieces(Arc::try_clone(pieces)?),
        };
        Ok(ListedDots { held })
    }
}

// The dots of a list that are not gone over yet: those of a piece, and those of the pieces behind it.
#[derive(Clone, Copy)]
struct Walk<'a> {
    rest: &'a [Dot],
    pieces: &'a [Piece],
}

// The next dot, and those behind it.
fn next_dot(walk: Walk) -> Option<(&Dot, Walk)>
    ensures { IsNext (walk_dots walk.entry) (option_map (λ x. (x.0.now, walk_dots x.1)) result) }
{
    if let Some((dot, rest)) = walk.rest.split_first() {
        let pieces = walk.pieces;
        return Some((dot, Walk { rest, pieces }));
    }
    let (piece, pieces) = walk.pieces.split_first()?;
    let rest = piece.held.more.as_slice();
    Some((&piece.held.first, Walk { rest, pieces }))
}

// Whether two lists have the same dots, however they lie.
#[tactic(auto, using(crate::proofs::ListedLemmas::sameness))]
fn are_same(one: Walk, other: Walk) -> bool
    ensures { result ≡ same_dots (walk_dots one.entry) (walk_dots other.entry) }
{
    let mut left = one;
    let mut against = other;
    while let Some((dot, behind)) = next_dot(left) {
        let Some((at, others)) = next_dot(against) else {
            return false;
        };
        if !dot.cmp(at).is_eq() {
            return false;
        }
        left = behind;
        against = others;
    }
    next_dot(against).is_none()
}

// The pieces of the list before, by their first dots.
#[derive(Drop)]
struct Before<'a> {
    pieces: &'a [Piece],
    places: BTreeMap<Dot, usize>,
}

impl<'a> Before<'a> {
    fn new(alloc: Global, pieces: &'a [Piece]) -> Result<Before<'a>, AllocError> {
        let mut places = BTreeMap::new(alloc);
        for (place, piece) in pieces.iter().enumerate() {
            places.insert(piece.held.first, place)?;
        }
        Ok(Before { pieces, places })
    }

    // The piece that began with a dot.
    fn piece(&self, dot: &Dot) -> Option<&Piece> {
        let place = self.places.get(dot)?;
        self.pieces.get(*place)
    }
}

// The rows behind those of a piece, where rows begin with its dots.
fn behind_piece<'a>(rows: &'a [(Dot, Row)], piece: &Piece) -> Option<&'a [(Dot, Row)]>
    ensures { IfSome result (λ left. BeginsWith (piece_dots piece.now) rows.now left.now) }
{
    let (row, more) = rows.split_first()?;
    if !row.0.cmp(&piece.held.first).is_eq() {
        return None;
    }
    let mut left = more;
    let mut dots = piece.held.more.as_slice();
    while let Some((dot, others)) = dots.split_first() {
        let Some((row, behind)) = left.split_first() else {
            return None;
        };
        if !row.0.cmp(dot).is_eq() {
            return None;
        }
        left = behind;
        dots = others;
    }
    Some(left)
}

// How many of the rows behind a first one go into its piece: those before the next one that began a piece, or half as many as
// there may be where that is too far.
fn count_more(more: &[(Dot, Row)], before: &Before) -> usize
    ensures { result ≤ length more.now }
{
    for (place, row) in more.iter().enumerate() {
        if place == MAX_MORE {
            return HALF_MORE;
        }
        if before.piece(&row.0).is_some() {
            return place;
        }
    }
    more.len()
}

// A piece, the rows behind it, and the bytes that it takes in this list alone.
#[derive(Drop)]
struct NextPiece<'a> {
    piece: Piece,
    left: &'a [(Dot, Row)],
    new_bytes: u64,
}

// A new piece of a row and some of those behind it.
fn new_piece<'a>(
    alloc: Global,
    first: &Dot,
    more: &'a [(Dot, Row)],
    before: &Before,
) -> Result<NextPiece<'a>, AllocError>
    ensures dots { IfOk result (λ n. first.now ∷ dots_in more.now ≡ piece_dots n.piece ++ dots_in n.left.now) }
    ensures fewer { IfOk result (λ n. length n.left.now ≤ length more.now) }
{
    let (some, left) = more.split_at(count_more(more, before));
    let dots = dots_of_rows(alloc, some)?;
    let new_bytes = (some.len() as u64)
        .saturating_mul(DOT_BYTES)
        .saturating_add(PIECE_BYTES);
    let held = HeldPiece {
        first: *first,
        more: dots,
    };
    let held = Arc::new(alloc, held)?;
    let piece = Piece { held };
    Ok(NextPiece {
        piece,
        left,
        new_bytes,
    })
}

// The piece that rows begin with: that of the list before, where all its dots are there, else a new one.
fn next_piece<'a>(
    alloc: Global,
    first: &Dot,
    rows: &'a [(Dot, Row)],
    more: &'a [(Dot, Row)],
    before: &Before,
) -> Result<NextPiece<'a>, AllocError>
    requires { dots_in rows.now ≡ first.now ∷ dots_in more.now }
    ensures dots { IfOk result (λ n. BeginsWith (piece_dots n.piece) rows.now n.left.now) }
    ensures fewer { IfOk result (λ n. length n.left.now ≤ length more.now) }
{
    let Some(piece) = before.piece(first) else {
        return new_piece(alloc, first, more, before);
    };
    let Some(left) = behind_piece(rows, piece) else {
        return new_piece(alloc, first, more, before);
    };
    let held = Arc::try_clone(&piece.held)?;
    let piece = Piece { held };
    Ok(NextPiece {
        piece,
        left,
        new_bytes: PLACE_BYTES,
    })
}

// The pieces of the dots of these rows.
#[tactic(auto, using(crate::proofs::ListedLemmas::one_more))]
fn pieces_of(alloc: Global, rows: &[(Dot, Row)], before: &Before) -> Result<Pieced, AllocError>
    ensures { IfOk result (λ p. pieces_dots p.pieces.items ≡ dots_in rows.now) }
{
    let mut pieces = Vec::new(alloc);
    let mut new_bytes: u64 = 0;
    let mut rest = rows;
    while let Some((row, more)) = rest.split_first() {
        let NextPiece {
            piece,
            left,
            new_bytes: bytes,
        } = next_piece(alloc, &row.0, rest, more, before)?;
        pieces.push(piece)?;
        new_bytes = new_bytes.saturating_add(bytes);
        rest = left;
    }
    Ok(Pieced { pieces, new_bytes })
}

// The pieces of the list before, if there is one.
fn pieces_before(before: Option<&ListedDots>) -> &[Piece] {
    match before {
        Some(list) => list.pieces(),
        None => &[],
    }
}

impl ListedDots {
    ghost use Rattle.std.specs.Prelude.{◌≡◌, IfOk};
    ghost use Rattle.presence_journal.specs.RowDots.{dots_in};
    ghost use Rattle.presence_journal.specs.ListedDots.{same_dots, walk_dots};

    /// These dots, shared with no list. None of them take no memory.
    pub fn new(alloc: Global, dots: Vec<Dot>) -> Result<ListedDots, AllocError>
        ensures { IfOk result (λ d. d ≡ dots.items) }
    {
        let held = if dots.is_empty() {
            HeldList::Nowhere
        } else {
            HeldList::Few(Arc::new(alloc, dots)?)
        };
        Ok(ListedDots { held })
    }

    /// The dots of these rows. It shares the pieces of the list before, if there is one, of which all dots stayed: what changed
    /// since costs some dots for each change, and else one place for some dozens of them.
    pub fn of_rows(
        alloc: Global,
        rows: &[(Dot, Row)],
        before: Option<&ListedDots>,
    ) -> Result<ListedDots, AllocError>
        ensures { IfOk result (λ d. d ≡ dots_in rows.now) }
    {
        if rows.len() <= MAX_FEW {
            let dots = dots_of_rows(alloc, rows)?;
            return ListedDots::new(alloc, dots);
        }
        let before = Before::new(alloc, pieces_before(before))?;
        let pieces = pieces_of(alloc, rows, &before)?;
        let held = HeldList::Pieces(Arc::new(alloc, pieces)?);
        Ok(ListedDots { held })
    }

    /// The bytes that it took when it was made, those that it shares with the list before not among them. No contract speaks
    /// of it.
    pub fn new_bytes(&self) -> u64 {
        match &self.held {
            HeldList::Nowhere => 0,
            HeldList::Few(dots) => (dots.len() as u64).saturating_mul(DOT_BYTES),
            HeldList::Pieces(pieces) => pieces.new_bytes,
        }
    }

    /// A copy of the dots, one behind another.
    #[tactic(auto, using(crate::proofs::ListedLemmas::moved_on))]
    pub fn to_vec(&self, alloc: Global) -> Result<Vec<Dot>, AllocError>
        ensures { IfOk result (λ v. v.items ≡ self.now) }
    {
        let mut dots = Vec::new(alloc);
        let mut left = self.walk();
        while let Some((dot, behind)) = next_dot(left) {
            dots.push(*dot)?;
            left = behind;
        }
        Ok(dots)
    }

    /// Whether another list has the same dots. Takes no memory.
    pub fn is_same(&self, other: &ListedDots) -> bool
        ensures { result ≡ same_dots self.now other.now }
    {
        are_same(self.walk(), other.walk())
    }

    // Its pieces, where it has some.
    fn pieces(&self) -> &[Piece] {
        match &self.held {
            HeldList::Pieces(pieces) => pieces.pieces.as_slice(),
            _ => &[],
        }
    }

    // All its dots, none of them gone over.
    fn walk(&self) -> Walk
        ensures { walk_dots result ≡ self.now }
    {
        match &self.held {
            HeldList::Nowhere => Walk {
                rest: &[],
                pieces: &[],
            },
            HeldList::Few(dots) => Walk {
                rest: dots.as_slice(),
                pieces: &[],
            },
            HeldList::Pieces(pieces) => Walk {
                rest: &[],
                pieces: pieces.pieces.as_slice(),
            },
        }
    }
}
