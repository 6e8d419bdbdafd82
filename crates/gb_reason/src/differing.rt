//! How parts of two runs differ.
ghost use Rattle.std.specs.Prelude.{◌≡◌, ◌∷◌, ◌++◌, [], if◌then◌else◌, length, IfOk, OnOk};
ghost use Rattle.std.specs.Cmp.Lexicographic.{pointwise};
ghost use Rattle.std.specs.List.{flat_map, list_any, zip};
ghost use Rattle.gb_reason.specs.Reasons.{first_other, has_kind, kind_reason, of_action, of_arguments, part};
ghost use Rattle.gb_reason.specs.Same.{is_value};

use crate::reason::{Reason, copied};
use gb_core::name::Name;
use gb_core::value::Value;
use gb_history::record::OutputRecord;
use gb_history::same::Same;
use gb_plan::task::Action;
use gb_tree::changes::compare;
use gb_tree::prints::Prints;
use std::alloc::{AllocError, Global};

/// A named part of a run that another run has too.
pub(crate) trait Part {
    ghost use Rattle.std.specs.Prelude.{◌≡◌, ◌++◌, Bool, List, OnOk};
    ghost use Rattle.gb_reason.specs.declared.reason.Reason.{Reason as Reported};

    ghost is_declared: { Self → Self → Bool };

    ghost reported: { Self × Self → List Reported };

    /// Whether the other is declared in the same way.
    fn is_declared_as(&self, other: &Self) -> bool
        ensures { result ≡ is_declared self.now other.now };

    /// Adds how the other differs.
    fn report(
        &self,
        other: &Self,
        alloc: Global,
        reasons: &mut Vec<Reason>,
    ) -> Result<(), AllocError>
        ensures { OnOk result (reasons.new.items ≡ reasons.old.items ++ reported (self.now, other.now)) };
}

/// Whether both lists declare equally many, each as the one at the same index.
fn are_declared_as<T: Part>(old: &[T], new: &[T]) -> bool
    ensures { result ≡ pointwise T.is_declared old.now new.now }
{
    if old.len() != new.len() {
        return false;
    }
    for (at, one) in old.iter().enumerate() {
        if !one.is_declared_as(&new[at]) {
            return false;
        }
    }
    true
}

/// Adds how each differs from the one at the same index.
fn report_each<T: Part>(
    alloc: Global,
    old: &[T],
    new: &[T],
    reasons: &mut Vec<Reason>,
) -> Result<(), AllocError>
    requires { length old.now ≡ length new.now }
    ensures { OnOk result (reasons.new.items ≡ reasons.old.items
        ++ flat_map T.reported (zip old.now new.now)) }
{
    for (at, one) in old.iter().enumerate() {
        one.report(&new[at], alloc, reasons)?;
    }
    Ok(())
}

/// Adds the one reason if the two are declared differently, and else how each differs.
pub(crate) fn report_part<T: Part>(
    alloc: Global,
    old: &[T],
    new: &[T],
    otherwise: Reason,
    reasons: &mut Vec<Reason>,
) -> Result<(), AllocError>
    ensures { OnOk result (reasons.new.items
        ≡ reasons.old.items ++ part T.is_declared T.reported otherwise old.now new.now) }
{
    if are_declared_as(old, new) {
        drop(otherwise);
        return report_each(alloc, old, new, reasons);
    }
    reasons.push(otherwise)?;
    Ok(())
}

/// Adds how actions differ: one by one if they are of the same kinds in order, and else by their
/// kinds.
pub(crate) fn report_actions(
    alloc: Global,
    old: &[Action],
    new: &[Action],
    reasons: &mut Vec<Reason>,
) -> Result<(), AllocError>
    ensures { OnOk result (reasons.new.items ≡ reasons.old.items
        ++ part has_kind of_action (kind_reason old.now new.now) old.now new.now) }
{
    if are_declared_as(old, new) {
        return report_each(alloc, old, new, reasons);
    }
    reasons.push(kind_reason(old, new)?)?;
    Ok(())
}

/// How actions differ if they are not all of the same kinds in order.
fn kind_reason(old: &[Action], new: &[Action]) -> Result<Reason, AllocError>
    ensures { IfOk result (λ reason. reason ≡ kind_reason old.now new.now) }
{
    if let Some(kind) = first_other(old, new)? {
        return Ok(Reason::ActionAdded(kind));
    }
    Ok(match first_other(new, old)? {
        Some(kind) => Reason::ActionRemoved(kind),
        None => Reason::ActionOrder,
    })
}

/// The kind of the first action whose kind none of the others has.
fn first_other(others: &[Action], actions: &[Action]) -> Result<Option<Name>, AllocError>
    ensures { IfOk result (λ found. found ≡ first_other others.now actions.now) }
{
    for action in actions {
        if !has_one_like(others, action) {
            return Ok(Some(action.kind.copy()?));
        }
    }
    Ok(None)
}

/// Whether one of the actions is of this one's kind.
fn has_one_like(actions: &[Action], action: &Action) -> bool
    ensures { result ≡ list_any (has_kind action.now) actions.now }
{
    actions.iter().any(|other| action.kind == other.kind)
}

/// Adds the arguments that differ.
fn report_arguments(
    alloc: Global,
    kind: &Name,
    old: &[Value],
    new: &[Value],
    reasons: &mut Vec<Reason>,
) -> Result<(), AllocError>
    requires { length old.now ≡ length new.now }
    ensures { OnOk result (reasons.new.items
        ≡ reasons.old.items ++ of_arguments kind.now 1 old.now new.now) }
{
    for (at, was) in old.iter().enumerate() {
        report_argument(alloc, kind, at + 1, was, &new[at], reasons)?;
    }
    Ok(())
}

/// Adds an argument, if it differs.
fn report_argument(
    alloc: Global,
    kind: &Name,
    number: usize,
    was: &Value,
    is: &Value,
    reasons: &mut Vec<Reason>,
) -> Result<(), AllocError>
    ensures { OnOk result (reasons.new.items ≡ reasons.old.items
        ++ (if is_value was.now is.now then [] else Reason.Argument kind.now number was.now is.now ∷ [])) }
{
    if is_value(was, is) {
        return Ok(());
    }
    let kind = kind.copy()?;
    reasons.push(Reason::Argument(kind, number, was.copy(alloc)?, is.copy(alloc)?))?;
    Ok(())
}

/// Whether the two values are the same.
fn is_value(one: &Value, other: &Value) -> bool
    ensures { result ≡ is_value one.now other.now }
{
    one.is_same(other)
}

impl Part for (Name, Value) {
    ghost use Rattle.gb_reason.specs.Reasons.{has_name, of_value};

    ghost is_declared = { has_name };

    ghost reported = { of_value };

    fn is_declared_as(&self, other: &(Name, Value)) -> bool {
        self.0 == other.0
    }

    fn report(
        &self,
        other: &(Name, Value),
        alloc: Global,
        reasons: &mut Vec<Reason>,
    ) -> Result<(), AllocError> {
        if !is_value(&self.1, &other.1) {
            let name = self.0.copy()?;
            reasons.push(Reason::Value(name, self.1.copy(alloc)?, other.1.copy(alloc)?))?;
        }
        Ok(())
    }
}

impl Part for Action {
    ghost use Rattle.gb_reason.specs.Reasons.{has_kind, of_action};

    ghost is_declared = { has_kind };

    ghost reported = { of_action };

    fn is_declared_as(&self, other: &Action) -> bool {
        self.kind == other.kind
    }

    fn report(
        &self,
        other: &Action,
        alloc: Global,
        reasons: &mut Vec<Reason>,
    ) -> Result<(), AllocError> {
        if self.version != other.version {
            reasons.push(Reason::ActionVersion(self.kind.copy()?))?;
            return Ok(());
        }
        let (was, is) = (self.args.as_slice(), other.args.as_slice());
        if was.len() != is.len() {
            reasons.push(Reason::ArgumentCount(self.kind.copy()?))?;
            return Ok(());
        }
        report_arguments(alloc, &self.kind, was, is, reasons)
    }
}

impl Part for OutputRecord {
    ghost use Rattle.gb_reason.specs.Reasons.{is_output, of_output};

    ghost is_declared = { is_output };

    ghost reported = { of_output };

    fn is_declared_as(&self, other: &OutputRecord) -> bool {
        self.prints.name() == other.prints.name()
            && self.form.is(other.form)
            && self.place == other.place
    }

    fn report(
        &self,
        other: &OutputRecord,
        alloc: Global,
        reasons: &mut Vec<Reason>,
    ) -> Result<(), AllocError> {
        let changes = compare(alloc, &self.prints, &other.prints)?;
        for change in changes.as_slice() {
            reasons.push(Reason::Output(self.place.copy()?, copied(change)?))?;
        }
        Ok(())
    }
}

impl Part for Prints {
    ghost use Rattle.gb_reason.specs.Reasons.{has_name, of_files};

    ghost is_declared = { has_name };

    ghost reported = { of_files };

    fn is_declared_as(&self, other: &Prints) -> bool {
        self.name() == other.name()
    }

    fn report(
        &self,
        other: &Prints,
        alloc: Global,
        reasons: &mut Vec<Reason>,
    ) -> Result<(), AllocError> {
        let changes = compare(alloc, self, other)?;
        for change in changes.as_slice() {
            reasons.push(Reason::File(self.name().copy()?, copied(change)?))?;
        }
        Ok(())
    }
}
