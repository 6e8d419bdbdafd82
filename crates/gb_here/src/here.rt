//! The program in the current directory, over any kinds of actions and functions of values.
ghost use Rattle.std.specs.Prelude.{◌≤◌, IfOk};

use crate::arguments::command_words;
use crate::lock::locks_for;
use crate::on_disk::run_on_disk;
use crate::refused::print_refusal;
use gb_action::actions::Actions;
use gb_action::table::{ActionTable, TableFault};
use gb_cli::program::UNPRINTED;
use gb_disk::disk::DiskFolder;
use gb_printer::last::Last;
use gb_printer::page::Page;
use gb_provider::table::TransformTable;
use gb_provider::transforms::Transforms;
use gb_registry::tables::Tables;
use std::alloc::AllocError;
use std::fs::File;
use std::io::{self, BufWriter};
use std::rt::{Env, Files};

/// The functions of values that scripts may name.
pub type Functions<T> = TransformTable<
    <T as Transforms>::Map,
    <T as Transforms>::FlatMap,
    <T as Transforms>::Zip,
    <T as Transforms>::Test,
>;

/// Builds the current directory with these kinds and functions, as the arguments of the command
/// request, under its locks where the system gives them, and prints the output. The exit status is
/// 0 where the build was successful, 2 if an argument is not understood (fault 96), and else 1: also
/// where there is no table, as two kinds have one name (fault 41) or memory ran out (fault 3), and
/// where nothing can be printed.
pub fn build_here<A: Actions, T: Transforms, R: Files<File = File> + Env + Print + AllocGlobal>(
    rt: &R,
    actions: Result<ActionTable<A::Stored>, TableFault>,
    transforms: Functions<T>,
) -> u8
    ensures { result ≤ 2 }
{
    let answered = match actions {
        Ok(actions) => built::<A, T, R>(
            rt,
            Tables {
                actions,
                transforms,
            },
        ),
        Err(fault) => refused(rt, fault),
    };
    answered.unwrap_or(UNPRINTED)
}

/// Builds it with these tables, while no other build of it runs.
fn built<A: Actions, T: Transforms, R: Files<File = File> + Env + Print + AllocGlobal>(
    rt: &R,
    tables: Tables<A, T>,
) -> Result<u8, AllocError>
    ensures { IfOk result (λ status. status ≤ 2) }
{
    let held = locks_for(rt)?;
    let status = built_alone(rt, &tables);
    drop(held);
    status
}

/// Builds it with these tables.
fn built_alone<A: Actions, T: Transforms, R: Files + Env + Print + AllocGlobal>(
    rt: &R,
    tables: &Tables<A, T>,
) -> Result<u8, AllocError>
    ensures { IfOk result (λ status. status ≤ 2) }
{
    let alloc = rt.alloc();
    let mut folder = DiskFolder::for_one_build(rt, String::new(alloc));
    let Ok(writer) = BufWriter::new(alloc, io::writer(rt)) else {
        return Err(AllocError);
    };
    let mut page = Last::new(Page::new(writer));
    let words = command_words(rt);
    let status = run_on_disk(alloc, &mut folder, words, &mut page, tables);
    Ok(status.unwrap_or(UNPRINTED))
}

/// Prints why there is no table.
fn refused<R: Print + AllocGlobal>(rt: &R, fault: TableFault) -> Result<u8, AllocError>
    ensures { IfOk result (λ status. status ≤ 2) }
{
    let Ok(mut writer) = BufWriter::new(rt.alloc(), io::writer(rt)) else {
        return Err(AllocError);
    };
    Ok(print_refusal(&mut writer, fault))
}
