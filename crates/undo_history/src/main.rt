//! The moves of a piece on a board, with an undo history.
#![tactic(auto)]

ghost use Rattle.std.specs.Prelude.{◌≡◌, ◌≢◌, ◌↔◌, ◌⊎◌, ◌+◌, ◌-◌, ◌^◌, [], ◌∷◌, ◌++◌, length, IfOk, IfErr, IsErrAnd};
ghost use Rattle.versions.specs.declared.faults.Fault.TheVariants.{Long, Range};
ghost use Rattle.versions.specs.History.{present};

use anyhow::Result;
use elem_core::{Code, Element};
use versions::{History, Refused};

/// A place on the board. Places are ordered by their rows, and in a row by their columns.
#[derive(Clone, Copy, Debug, PartialEq, Eq, PartialOrd, Ord)]
pub struct Place {
    pub row: u32,
    pub column: u32,
}

impl Element for Place {
    ghost use Rattle.std.specs.FinMap.{nat_cmp-IsAntisymmetric};
    ghost use Rattle.undo_history.specs.Place.{first-equal};

    ghost code_of = { λ place. place.row };

    fn code(&self) -> Code {
        u64::from(self.row)
    }

    ghost equal_codes = { λ x y same. nat_cmp-IsAntisymmetric x.row y.row (first-equal _ _ same) };
}

/// To undo what was put behind the others gives the very lists back. It says how many elements there were with it.
pub fn push_and_undo<T: Element>(history: &mut History<T>, element: T) -> Result<u32, Refused<T>>
    ensures back { history.new ≡ history.old }
    ensures between { IfOk result (λ count. count ≡ length (present history.old) + 1) }
    ensures given_back { IfErr result (λ r. r.element ≡ element) }
    ensures long { (IsErrAnd result (λ r. r.fault ≡ Long)) ↔ (length (present history.old) ≡ 2 ^ 32 - 1) }
    ensures no_range { IfErr result (λ r. r.fault ≢ Range) }
{
    history.push(element)?;
    let between = history.len();
    history.undo();
    Ok(between)
}

/// To undo the second of two changes leaves the first, and all that was before. It says how many elements there were with both.
pub fn push_two_undo_one<T: Element>(
    history: &mut History<T>,
    first: T,
    second: T,
) -> Result<u32, Refused<T>>
    ensures first { IfOk result (λ _. history.new ≡ (present history.old ++ first ∷ []) ∷ history.old) }
    ensures between { IfOk result (λ count. count ≡ length (present history.old) + 2) }
    ensures refused { IfErr result (λ r. (r.element ≡ first) × (history.new ≡ history.old) ⊎ (r.element ≡ second) × (history.new ≡ (present history.old ++ first ∷ []) ∷ history.old)) }
{
    history.push(first)?;
    push_and_undo(history, second)
}

fn main(rt: HostRuntime) -> Result<()> {
    let (here, there) = (Place { row: 2, column: 5 }, Place { row: 4, column: 5 });
    let mut moves = History::new(rt.alloc())?;
    run(&rt, &mut moves, (here, there, here))
}

// Of three moves the first is left.
fn run(rt: &HostRuntime, moves: &mut History<Place>, places: (Place, Place, Place)) -> Result<()>
    ensures { IfOk result (λ _. present moves.new ≡ present moves.old ++ places.0 ∷ []) }
{
    moves.push(places.0)?;
    push_two_undo_one(moves, places.1, places.2)?;
    show(rt, moves)?;
    moves.undo();
    show(rt, moves)
}

fn show(rt: &HostRuntime, moves: &History<Place>) -> Result<()> {
    for place in moves.iter() {
        println!(rt; "{:?}", place)?;
    }
    println!(rt; "of {} moves", moves.len())?;
    Ok(())
}
