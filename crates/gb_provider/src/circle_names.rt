//! The names on a circle.
ghost use Rattle.std.specs.Prelude.{◌≡◌, ◌+◌, ◌++◌, ◌<◌, ◌≤◌, ◌≢◌, IfOk, drop, length, slice_get};
ghost use Rattle.std.specs.Prelude.{take, Some, ℕ, [], ◌∷◌};
ghost use Rattle.std.specs.declared.cmp.Ordering.TheVariants.{Less, Greater};
ghost use Rattle.std.specs.Bool.{OnTrue, OnFalse};
ghost use Rattle.gb_provider.specs.Names.{label, names_of, names_on, names_order, IsLeastRound};

use crate::expression::Expression;
use gb_core::text::{Text, Texts};
use std::alloc::{AllocError, Global};
use std::cmp::Ordering;

fn label(alloc: Global, owner: &str, name: &str) -> Result<Text, AllocError>
    ensures { IfOk result (λ text. text ≡ label owner.now name.now) }
{
    let mut text = String::from_str(alloc, owner)?;
    text.push_str("#")?;
    text.push_str(name)?;
    Text::new(text)
}

/// Appends the text that a circle shows of an owner and a name.
fn push_label(alloc: Global, owner: &str, name: &str, names: &mut Texts) -> Result<(), AllocError>
    ensures { IfOk result (λ _. names.new ≡ names.old ++ label owner.now name.now ∷ []) }
{
    names.push(label(alloc, owner, name)?)?;
    Ok(())
}

/// Appends the name of a property or an output.
fn push_name<M, F, Z>(
    alloc: Global,
    node: &Expression<M, F, Z>,
    names: &mut Texts,
) -> Result<(), AllocError>
    ensures { IfOk result (λ _. names.new ≡ names.old ++ names_of (Some node.now)) }
{
    match node {
        Expression::OfProperty(property) => {
            push_label(
                alloc,
                property.project.as_str(),
                property.name.as_str(),
                names,
            )
        }
        Expression::OfOutput(output) => {
            let chosen = &output.chosen;
            push_label(alloc, chosen.task.as_str(), chosen.output.as_str(), names)
        }
        Expression::Constant(_) => Ok(()),
        Expression::Listed(_) => Ok(()),
        Expression::Mapped(_, _) => Ok(()),
        Expression::FlatMapped(_, _) => Ok(()),
        Expression::Zipped(_, _, _) => Ok(()),
        Expression::OrElse(_, _) => Ok(()),
    }
}

fn push_name_at<M, F, Z>(
    alloc: Global,
    nodes: &[Expression<M, F, Z>],
    number: usize,
    names: &mut Texts,
) -> Result<(), AllocError>
    ensures { IfOk result (λ _. names.new ≡ names.old ++ names_of (slice_get nodes.now number)) }
{
    match nodes.get(number) {
        Some(node) => push_name(alloc, node, names)?,
        None => {}
    }
    Ok(())
}

/// The names along these expressions.
fn names_on<M, F, Z>(
    alloc: Global,
    nodes: &[Expression<M, F, Z>],
    circle: &[usize],
) -> Result<Texts, AllocError>
    ensures { IfOk result (λ names. names ≡ names_on nodes.now circle.now) }
{
    let mut names = Texts::new(alloc);
    for number in circle {
        push_name_at(alloc, nodes, *number, &mut names)?;
    }
    Ok(names)
}

/// Whether the rotation of `count` names at one position precedes that at another.
fn is_before(names: &[Text], count: usize, place: usize, other: usize) -> bool
    requires place { place + count ≤ length names.now }
    requires other { other + count ≤ length names.now }
    ensures before { OnTrue result
        (names_order (take count (drop place names.now)) (take count (drop other names.now)) ≡ Less) }
    ensures not_before { OnFalse result
        (names_order (take count (drop other names.now)) (take count (drop place names.now)) ≢ Greater) }
{
    let round = &names[place..place + count];
    match round.cmp(&names[other..other + count]) {
        Ordering::Less => true,
        Ordering::Equal => false,
        Ordering::Greater => false,
    }
}

/// The position of the least rotation of `count` names, which the list contains twice in a row.
fn least_place(names: &[Text], count: usize) -> usize
    requires { count + count ≡ length names.now }
    ensures within { result ≤ count }
    ensures least { (k : ℕ) → k < count
        → names_order (take count (drop result names.now)) (take count (drop k names.now)) ≢ Greater }
{
    let mut least = 0;
    for i in 0..count {
        if is_before(names, count, i, least) {
            least = i;
        }
    }
    least
}

/// Appends copies of texts.
fn push_copies(texts: &[Text], to: &mut Texts) -> Result<(), AllocError>
    ensures { IfOk result (λ _. to.new ≡ to.old ++ texts.now) }
{
    for text in texts {
        to.push(text.copy()?)?;
    }
    Ok(())
}

/// The least rotation of names.
fn least_round(alloc: Global, names: Texts) -> Result<Texts, AllocError>
    ensures { IfOk result (λ round. IsLeastRound names round) }
{
    let count = names.as_slice().len();
    let mut twice = names.copy(alloc)?;
    twice.append(names)?;
    let least = least_place(twice.as_slice(), count);
    let mut round = Texts::new(alloc);
    push_copies(&twice.as_slice()[least..least + count], &mut round)?;
    Ok(round)
}

/// The names on a circle: the least of their rotations, in the order by bytes.
pub(crate) fn circle_names<M, F, Z>(
    alloc: Global,
    nodes: &[Expression<M, F, Z>],
    circle: &[usize],
) -> Result<Texts, AllocError>
    ensures { IfOk result (λ names. IsLeastRound (names_on nodes.now circle.now) names) }
{
    let names = names_on(alloc, nodes, circle)?;
    let round = least_round(alloc, names)?;
    Ok(round)
}
