//! `graph`: the plan of a request, as a graph.
ghost use Rattle.std.specs.Prelude.{◌≡◌, IfErr, IfOk, IfSome, map, string_bytes};
ghost use Rattle.std.specs.Io.KnownBytes.{Appends};
ghost use Rattle.gb_cli.specs.Answered.{given_of};
ghost use Rattle.gb_declare.specs.Registered.{registry_said};
ghost use Rattle.gb_folder.specs.Calls.{OnlyReads};
ghost use Rattle.gb_graph.specs.Answer.{IsRefusalOf};
ghost use Rattle.gb_printer.specs.Printing.{Prints};
ghost use Rattle.gb_registry.specs.Tables.{tables_of};
ghost use Rattle.gb_ask_command.specs.Graph.{IsDrawing};
ghost use Rattle.gb_ask_command.specs.Reply.{Reply as Replied, reply_status, reply_text};
ghost use Rattle.gb_ask_command.specs.Coloured.{ArePredicted, IsGraphAnswer, found_in};
ghost use Rattle.gb_ask_command.specs.Replies.{IsGraphReply, Replies};

use crate::arguments::{Colouring, Style};
use crate::drawing::draw_requested;
use crate::predicting::predict_build;
use crate::printed_reply::{Reply, print_reply};
use crate::read_scripts::read_asked;
use crate::why_output::Answer;
use gb_action::actions::Actions;
use gb_cli::program::asked_by;
use gb_folder::folder::Folder;
use gb_predict::predicted_outcome::Prediction;
use gb_printer::printer::Printer;
use gb_project::script_tasks::ScriptTasks;
use gb_provider::transforms::Transforms;
use gb_registry::configured::Configured;
use gb_registry::tables::Tables;
use gb_report::fault::Fault;
use gb_semantics::events::Invocation;
use std::alloc::Global;

/// Prints the plan of the arguments' request as a graph in this style. If colours are requested,
/// they show the outcome of each task. No colour is shown if a build cannot be predicted, or for a
/// task that does not start. The exit status is 0; it is 1 if a build of the request would be
/// refused, and 2 if the arguments are not understood.
pub fn run<A: Actions, T: Transforms, F: Folder, W: Printer>(
    alloc: Global,
    folder: &mut F,
    style: Style,
    colouring: Colouring,
    words: Result<Vec<String>, Fault>,
    writer: &mut W,
    tables: &Tables<A, T>,
) -> Option<u8>
    // Over any folder: no change is requested.
    ensures reads { OnlyReads F.device folder.old folder.new }
    ensures reported { (reply : Replied)
        × Replies (IsGraphAnswer (tables_of T.meanings A.meanings tables.now) (F.device.faithful folder.new)
        (record { contents = F.device.contents folder.old; failures = F.device.failures folder.old })
        (F.device.failures folder.new) style colouring)
        (given_of (λ words. map string_bytes words.items) words) reply
        × Prints W.contents W.whole (reply_text reply) writer.old writer.new
        × IfSome result (λ status.
        Appends (W.contents writer.old) (W.contents writer.new) (reply_text reply)
        × (status ≡ reply_status reply)) }
{
    let reply = replied(alloc, folder, style, colouring, words, tables);
    let status = print_reply(alloc, writer, &reply);
    drop(reply);
    status
}

fn replied<A: Actions, T: Transforms, F: Folder>(
    alloc: Global,
    folder: &mut F,
    style: Style,
    colouring: Colouring,
    words: Result<Vec<String>, Fault>,
    tables: &Tables<A, T>,
) -> Reply
    ensures reads { OnlyReads F.device folder.old folder.new }
    ensures replies { Replies (IsGraphAnswer (tables_of T.meanings A.meanings tables.now)
        (F.device.faithful folder.new)
        (record { contents = F.device.contents folder.old; failures = F.device.failures folder.old })
        (F.device.failures folder.new) style colouring)
        (given_of (λ words. map string_bytes words.items) words) result }
{
    match asked_by(alloc, words) {
        Ok(invocation) => draw_coloured(alloc, folder, style, colouring, tables, &invocation),
        Err(fault) => Err(fault),
    }
}

/// The graph of the request, with the requested colours.
fn draw_coloured<A: Actions, T: Transforms, F: Folder>(
    alloc: Global,
    folder: &mut F,
    style: Style,
    colouring: Colouring,
    tables: &Tables<A, T>,
    invocation: &Invocation,
) -> Reply
    ensures reads { OnlyReads F.device folder.old folder.new }
    ensures reply { IsGraphAnswer (tables_of T.meanings A.meanings tables.now) (F.device.faithful folder.new)
        (record { contents = F.device.contents folder.old; failures = F.device.failures folder.old })
        (F.device.failures folder.new) style colouring invocation.now result }
{
    let predicted = predicted(alloc, folder, colouring, tables, invocation);
    draw(
        alloc,
        folder,
        style,
        predicted.as_slice(),
        tables,
        invocation,
    )
}

/// The predictions for the request, as `why` has them; none if no colours are requested or it is
/// refused.
fn predicted<A: Actions, T: Transforms, F: Folder>(
    alloc: Global,
    folder: &mut F,
    colouring: Colouring,
    tables: &Tables<A, T>,
    invocation: &Invocation,
) -> Vec<Prediction>
    ensures reads { OnlyReads F.device folder.old folder.new }
    ensures predicted { ArePredicted (tables_of T.meanings A.meanings tables.now)
        (F.device.faithful folder.new)
        (record { contents = F.device.contents folder.old; failures = F.device.failures folder.old })
        (F.device.failures folder.new) colouring invocation.now result.items }
{
    match colouring {
        Colouring::Plain => Vec::new(alloc),
        Colouring::Outcomes => {
            let answer = predict_build(alloc, folder, tables, invocation);
            found_in(alloc, answer)
        }
    }
}

/// The predictions of an answer; none if it is refused.
fn found_in(alloc: Global, answer: Answer) -> Vec<Prediction>
    ensures { result.items ≡ found_in answer }
{
    match answer {
        Ok(predicted) => predicted,
        Err(fault) => {
            drop(fault);
            Vec::new(alloc)
        }
    }
}

/// The graph of the request, over the scripts of a folder, with the colours of these predictions.
fn draw<A: Actions, T: Transforms, F: Folder>(
    alloc: Global,
    folder: &mut F,
    style: Style,
    predicted: &[Prediction],
    tables: &Tables<A, T>,
    invocation: &Invocation,
) -> Reply
    ensures reads { OnlyReads F.device folder.old folder.new }
    ensures reply { IsGraphReply (tables_of T.meanings A.meanings tables.now) (F.device.faithful folder.new)
        (record { contents = F.device.contents folder.old; failures = F.device.failures folder.old })
        (F.device.failures folder.new) style predicted.now invocation.now result }
{
    match read_asked(alloc, folder, tables, invocation) {
        Ok(configured) => draw_registered(alloc, style, predicted, &configured, invocation),
        Err(fault) => Err(fault),
    }
}

fn draw_registered<A: Actions, T: Transforms>(
    alloc: Global,
    style: Style,
    predicted: &[Prediction],
    configured: &Configured<'_, A, T>,
    invocation: &Invocation,
) -> Reply
    ensures drawing { let tables = tables_of T.meanings A.meanings configured.now.tables.now in
        IfOk result (λ text. IsDrawing style predicted.now (registry_said tables configured.now.registry)
        invocation.now.requested invocation.now.excluded (string_bytes text)) }
    ensures fault { let tables = tables_of T.meanings A.meanings configured.now.tables.now in
        IfErr result (IsRefusalOf (registry_said tables configured.now.registry)
        invocation.now.requested invocation.now.excluded) }
{
    let mut tasks = ScriptTasks::declare(alloc, configured)?;
    let requested = invocation.requested.as_slice();
    let excluded = invocation.excluded.as_slice();
    draw_requested(alloc, style, predicted, &mut tasks, requested, excluded)
}
