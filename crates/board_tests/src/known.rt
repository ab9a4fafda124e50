//! What is known from induction over fewer frames, or by structural hashing: its pairs stay counted while the classes split.
ghost use Rattle.std.specs.Prelude.{◌≡◌, ◌≤◌, ◌+◌, ◌<◌};
ghost use Rattle.refine_board.specs.Running.{IsOwed};

use crate::boards::{EntryRow, Players, answer, ask, begins_so, played};
use crate::circuits::{
    CONTRADICTION, PRODUCT_AND_COMPLEMENT, PRODUCT_TWICE, STUCK, TOGGLE, WIRE, pair_of,
};
use product_machine::Product;
use refine_board::{Board, Offer, Run};
use std::alloc::{AllocError, Global};
use std::sync::Wait;
use std::test::Fail;
use verdict_stamp::{Known, Stamp, Verdict, Version, greatest_classes};

// Hands an offer in by what is known of its pair, or gives it back where nothing is.
fn hand_known<'v, 'p, L: Run>(
    board: &mut Board<'v, 'p, L>,
    offer: Offer<'p, L>,
    stamp: &Stamp<'p>,
    known: &Known<'p>,
)
    requires own { IsOwed L.pair L.k L.list offer }
    requires stamp { stamp.now ≡ offer.stamp }
{
    let version = board.versions().at(stamp);
    match Verdict::known(version, offer.pair(), known) {
        Some(verdict) => {
            board.keep(offer, verdict, stamp);
        }
        None => board.back(offer),
    }
}

// Asks, and answers so.
fn answer_known<'v, 'p, L: Run>(
    rt: &impl Wait,
    board: &mut Board<'v, 'p, L>,
    known: &Known<'p>,
    party: u32,
) -> Result<(), AllocError>
    requires party { party < L.workers + 1 }
{
    if let Some(offer) = ask(rt, board, party)? {
        let stamp = offer.stamp().copy();
        hand_known(board, offer, &stamp, known);
    }
    Ok(())
}

// The second party answers a pair by what is known, and then the first the one that it took, by a proof.
fn answer_after<'v, 'p, L: Run>(
    rt: &impl Wait,
    alloc: Global,
    board: &mut Board<'v, 'p, L>,
    known: &Known<'p>,
    offer: Offer<'p, L>,
) -> Result<(), AllocError>
    requires workers { 2 ≤ L.workers }
{
    let second = answer_known(rt, board, known, 1);
    answer(alloc, board, offer)?;
    second
}

// The first party takes a pair, the second answers one by what is known; then the first splits the classes. What is open then the
// first answers by what is known.
pub(crate) fn known_turns<'v, 'p, L: Run>(
    rt: &impl Wait,
    alloc: Global,
    board: &mut Board<'v, 'p, L>,
    known: &Known<'p>,
) -> Result<(), AllocError>
    requires workers { 2 ≤ L.workers }
{
    match ask(rt, board, 0)? {
        Some(offer) => answer_after(rt, alloc, board, known, offer)?,
        None => answer_known(rt, board, known, 1)?,
    }
    answer_known(rt, board, known, 0)?;
    answer_known(rt, board, known, 1)
}

// Whether the pair of the constant and the left latch, which is known from one frame, stays counted on a board for two frames
// when the input is split off.
fn stays_known(rt: &impl Wait, alloc: Global, product: &Product, known: &Known<'_>) -> bool {
    const ENTRIES: &[EntryRow] = &[
        (0, 0, "offered", [0, 1]),
        (1, 0, "offered", [0, 2]),
        (1, 1, "counted", [0, 2]),
        (0, 1, "split", [0, 1]),
        (0, 2, "offered", [0, 3]),
        (0, 3, "counted", [0, 3]),
        (1, 2, "done", [0, 0]),
    ];
    match played(rt, alloc, product, 2, Players::ByKnown(known)) {
        Ok(end) => end.journal.len() == 7 && begins_so(&end.journal, ENTRIES),
        Err(_) => false,
    }
}

// What is known from one frame.
fn known_of<'p>(alloc: Global, product: &'p Product) -> Result<Known<'p>, AllocError> {
    let greatest = greatest_classes(alloc, product, 1)?;
    Known::of(alloc, greatest.product(), greatest.k(), greatest.classes())
}

fn stays_counted(rt: &impl Wait, alloc: Global, product: &Product) -> bool {
    match known_of(alloc, product) {
        Ok(known) => stays_known(rt, alloc, product, &known),
        Err(_) => false,
    }
}

// The same of two latches that stay at 0.
fn stay_counted(rt: &impl Wait, alloc: Global) -> bool {
    match pair_of(alloc, STUCK, STUCK) {
        Ok(product) => stays_counted(rt, alloc, &product),
        Err(_) => false,
    }
}

#[test]
fn a_known_pair_stays_counted_when_the_classes_split(rt: HostRuntime) -> Result<(), Fail> {
    assert!(rt; stay_counted(&rt, rt.alloc()));
    Ok(())
}

// Two netlists, and by place the least place that is equal to it in every state, up to complement.
type TwinRow = (&'static str, &'static str, &'static [u32]);

const TWINS: &[TwinRow] = &[
    (
        PRODUCT_TWICE,
        PRODUCT_AND_COMPLEMENT,
        &[0, 1, 2, 3, 3, 5, 3, 3],
    ),
    (CONTRADICTION, WIRE, &[0, 1, 0]),
    (TOGGLE, TOGGLE, &[0, 1, 2]),
];

// Whether these are the least places of known classes.
fn are_least(known: &Known<'_>, least: &[u32]) -> bool {
    let classes = known.classes();
    if classes.len() as usize != least.len() {
        return false;
    }
    for place in 0..classes.len() {
        if classes.rep(place) != least[place as usize] {
            return false;
        }
    }
    true
}

// Whether hashing shows a pair's places to be equal to these.
fn has_twins(alloc: Global, product: &Product, least: &[u32]) -> Result<bool, AllocError> {
    let first = Version::first(alloc, product, 1)?;
    let found = Known::twins(alloc, product, first.classes());
    drop(first);
    match found? {
        Some(known) => Ok(are_least(&known, least)),
        None => Ok(false),
    }
}

// The same of two netlists.
fn shows_twins(alloc: Global, row: &TwinRow) -> bool {
    match pair_of(alloc, row.0, row.1) {
        Ok(product) => has_twins(alloc, &product, row.2) == Ok(true),
        Err(_) => false,
    }
}

#[test]
fn hashing_finds_what_stands_twice(rt: HostRuntime) -> Result<(), Fail> {
    let alloc = rt.alloc();
    for row in TWINS {
        assert!(rt; shows_twins(alloc, row));
    }
    Ok(())
}
