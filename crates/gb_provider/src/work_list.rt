//! Evaluates one expression with a work list instead of recursion, so that no chain is too long.
//!
//! Input: entries with their rules ([`Entries`]), the state of each (new, open or known), and the
//! entry to evaluate. Output: its answer is known in the states; or the circle into which it runs.
//! The steps:
//!
//! 1. The entry is opened: it is the path.
//! 2. The last entry of the path is taken off, and one evaluation step of it is made (`look`).
//! 3. If that gives an answer, the entry is known. If it waits for an operand, the entry is put
//!    back. An operand that is open is on the path: the path from it on is the circle. Any other is
//!    opened at the end of the path. Step 2 follows, until the path is empty.
//!
//! What makes it right (`IsSearch` in `specs/Search.antt`): each known answer is that of the
//! definition and follows from known ones; the open entries are those of the path, each once; and
//! each waits for the next. It ends, since entries only go from new to open and to known. The cost:
//! one step for each entry that is needed, and one for each wait. After a circle or a lack of
//! memory open entries remain, so the callers forget all states.
ghost use Rattle.std.specs.Prelude.{◌≡◌, ◌<◌, [], ◌∷◌, ◌++◌, ℕ, List, length, IfOk, OnOk, Some, None};
ghost use Rattle.std.specs.Prelude.{slice_index, slice_set, slice_get, ◌≢◌};
ghost use Rattle.std.specs.Bool.{OnTrue, OnFalse};
ghost use Rattle.gb_provider.specs.Rounds.{Rule};
ghost use Rattle.gb_provider.specs.Search.{IsLook, IsPastAt, IsPathEnd, IsSound, IsEvaluated, WaitsWithin};
ghost use Rattle.gb_provider.specs.Search.{known};

use crate::evaluation::{Look, Reading, State};
use std::alloc::{AllocError, Global};

/// Entries, each with a rule that reads others.
pub(crate) trait Entries {
    type Answer: Drop;

    ghost rules: { Self → List (Rule ℕ Self.Answer) };

    /// One evaluation step of an entry, given the known answers, which continues after its first
    /// operands.
    fn look(
        &mut self,
        states: &[State<Self::Answer>],
        at: usize,
        past: usize,
    ) -> Result<Look<Self::Answer>, AllocError>
        requires states { length states.now ≡ length (rules self.old) }
        requires at { at < length (rules self.old) }
        requires past { IsPastAt (rules self.old) (known states.now) at past }
        ensures look { IfOk result (λ found. IsLook (rules self.old) (known states.now) at found.reading) }
        ensures within { IfOk result (λ found. WaitsWithin (length states.now) found.reading) }
        ensures past { IfOk result (λ found. IsPastAt (rules self.old) (known states.now) at found.past) }
        ensures kept { self.new ≡ self.old };
}

/// The end of a path from an entry of it on, which is a circle.
fn circle_from(
    alloc: Global,
    path: &[usize],
    operand: usize,
) -> Result<Option<Vec<usize>>, AllocError>
    requires { (k : ℕ) × (k < length path.now) × (slice_index path.now k ≡ operand) }
    ensures { IsPathEnd path.now operand result }
{
    for i in 0..path.len() {
        if path[i] == operand {
            let circle = path[i..].to_vec(alloc)?;
            return Ok(Some(circle));
        }
    }
    unreachable!()
}

/// Puts an entry back at the end of a path, with how many of its operands need not be read again.
fn keep(
    path: &mut Vec<usize>,
    pasts: &mut Vec<usize>,
    at: usize,
    past: usize,
) -> Result<(), AllocError>
    ensures path { OnOk result (path.new.items ≡ path.old.items ++ at ∷ []) }
    ensures pasts { OnOk result (pasts.new.items ≡ pasts.old.items ++ past ∷ []) }
{
    path.push(at)?;
    pasts.push(past)?;
    Ok(())
}

/// Opens an entry, at the end of a path.
fn enter<A: Drop>(
    states: &mut Vec<State<A>>,
    path: &mut Vec<usize>,
    pasts: &mut Vec<usize>,
    operand: usize,
) -> Result<(), AllocError>
    requires { operand < length states.old.items }
    ensures states { OnOk result (states.new.items ≡ slice_set states.old.items operand State.Open) }
    ensures path { OnOk result (path.new.items ≡ path.old.items ++ operand ∷ []) }
    ensures pasts { OnOk result (pasts.new.items ≡ pasts.old.items ++ 0 ∷ []) }
{
    path.push(operand)?;
    pasts.push(0)?;
    put(states, operand, State::Open);
    Ok(())
}

/// Replaces a state.
fn put<A: Drop>(states: &mut Vec<State<A>>, at: usize, state: State<A>)
    requires { at < length states.old.items }
    ensures { states.new.items ≡ slice_set states.old.items at state }
{
    states[at] = state;
}

fn is_open<A>(states: &Vec<State<A>>, at: usize) -> bool
    requires { at < length states.now.items }
    ensures open { OnTrue result (slice_get states.now.items at ≡ Some State.Open) }
    ensures closed { OnFalse result (slice_get states.now.items at ≢ Some State.Open) }
{
    match &states[at] {
        State::Open => true,
        _ => false,
    }
}

fn is_known<A>(states: &Vec<State<A>>, at: usize) -> bool
    requires { at < length states.now.items }
    ensures known { OnTrue result (known states.now.items at ≢ None) }
    ensures unknown { OnFalse result (known states.now.items at ≡ None) }
{
    match &states[at] {
        State::Known(_) => true,
        _ => false,
    }
}

/// Evaluates an entry: afterwards its answer is known, unless it runs into a circle.
pub(crate) fn evaluate<E: Entries>(
    alloc: Global,
    entries: &mut E,
    states: &mut Vec<State<E::Answer>>,
    entry: usize,
) -> Result<Option<Vec<usize>>, AllocError>
    requires entry { entry < length (E.rules entries.old) }
    requires same { length states.old.items ≡ length (E.rules entries.old) }
    requires sound { IsSound (E.rules entries.old) states.old.items }
    ensures evaluated { IsEvaluated (E.rules entries.old) entry states.new.items result }
    ensures kept { entries.new ≡ entries.old }
{
    if is_known(states, entry) {
        return Ok(None);
    }
    let mut path = Vec::new(alloc);
    let mut pasts = Vec::new(alloc);
    evaluate_along(alloc, entries, states, entry, &mut path, &mut pasts)
}

/// Evaluates an entry that is not known, with two lists of the open entries: their numbers, and how
/// many operands of each need not be read again.
fn evaluate_along<E: Entries>(
    alloc: Global,
    entries: &mut E,
    states: &mut Vec<State<E::Answer>>,
    entry: usize,
    path: &mut Vec<usize>,
    pasts: &mut Vec<usize>,
) -> Result<Option<Vec<usize>>, AllocError>
    requires entry { entry < length (E.rules entries.old) }
    requires same { length states.old.items ≡ length (E.rules entries.old) }
    requires sound { IsSound (E.rules entries.old) states.old.items }
    requires unknown { known states.old.items entry ≡ None }
    requires path { path.old.items ≡ [] }
    requires pasts { pasts.old.items ≡ [] }
    ensures evaluated { IsEvaluated (E.rules entries.old) entry states.new.items result }
    ensures kept { entries.new ≡ entries.old }
{
    enter(states, path, pasts, entry)?;
    while let Some(at) = path.pop() {
        let Some(past) = pasts.pop() else {
            unreachable!()
        };
        let look = entries.look(states, at, past)?;
        let Look { reading, past } = look;
        match reading {
            Reading::Settles(answer) => put(states, at, State::Known(answer)),
            Reading::Waits(operand) => {
                keep(path, pasts, at, past)?;
                if is_open(states, operand) {
                    return circle_from(alloc, path, operand);
                }
                enter(states, path, pasts, operand)?;
            }
        }
    }
    Ok(None)
}
