//! All functions of values by name.
//!
//! The table is filled in steps, so that each step holds few boxes: every exit of a function drops
//! all boxes that it holds.
ghost use Rattle.std.specs.Prelude.{◌≡◌, ◌++◌, ◌∷◌, [], false, bytes_eq, IfErr, IfOk, OnOk};
ghost use Rattle.std.specs.List.{list_any};
ghost use Rattle.gb_provider.specs.declared.table.Transform.TheVariants as uses;
ghost use Rattle.gb_provider.specs.declared.fault.TableFault.TheVariants.{OutOfMemory};
ghost use Rattle.gb_kinds.specs.Functions.{map_means, map_arity, flat_map_means, flat_map_arity, zip_means};
ghost use Rattle.gb_kinds.specs.Functions.{zip_arity, test_means, test_arity, Keeps, KeepsOfTwo};
ghost use Rattle.gb_kinds.specs.FunctionNames.{numbers, text_functions, part_functions, other_functions};
ghost use Rattle.gb_kinds.specs.FunctionNames.{value_functions};

use crate::functions::{
    APPEND, CHILD, CONCAT, EQUALS, IS_TRUE, JOIN, NON_EMPTY, OUTPUT, SPLIT, UPPER,
};
use crate::stored::{
    FlatRun, MapRun, StoredFlat, StoredMap, StoredTest, StoredZip, TestRun, ZipRun,
};
use gb_core::name::Name;
use gb_provider::fault::TableFault;
use gb_provider::table::TransformTable;
use std::alloc::Global;

/// The functions of values by name.
pub type FunctionTable = TransformTable<StoredMap, StoredFlat, StoredZip, StoredTest>;

/// The table of all functions of values, each with its closure.
pub fn function_table(
    alloc: Global,
    upper: MapRun,
    append: MapRun,
    non_empty: MapRun,
    split: MapRun,
    join: MapRun,
    child: MapRun,
    output: FlatRun,
    concat: ZipRun,
    is_true: TestRun,
    equals: TestRun,
) -> Result<FunctionTable, TableFault>
    requires upper { Keeps (map_means UPPER) (MapRun.pre upper) (MapRun.post upper) }
    requires append { Keeps (map_means APPEND) (MapRun.pre append) (MapRun.post append) }
    requires non_empty { Keeps (map_means NON_EMPTY) (MapRun.pre non_empty) (MapRun.post non_empty) }
    requires split { Keeps (map_means SPLIT) (MapRun.pre split) (MapRun.post split) }
    requires join { Keeps (map_means JOIN) (MapRun.pre join) (MapRun.post join) }
    requires child { Keeps (map_means CHILD) (MapRun.pre child) (MapRun.post child) }
    requires output { Keeps (flat_map_means OUTPUT) (FlatRun.pre output) (FlatRun.post output) }
    requires concat { KeepsOfTwo (zip_means CONCAT) (ZipRun.pre concat) (ZipRun.post concat) }
    requires is_true { Keeps (test_means IS_TRUE) (TestRun.pre is_true) (TestRun.post is_true) }
    requires equals { Keeps (test_means EQUALS) (TestRun.pre equals) (TestRun.post equals) }
    ensures ok { IfOk result (λ table.
        numbers table (λ f. f.kind) (λ f. f.kind) (λ f. f.kind) (λ f. f.kind) ≡ value_functions) }
    ensures err { IfErr result (λ fault. fault ≡ OutOfMemory) }
{
    let mut table = map_table(alloc, upper, append, non_empty, split, join, child)?;
    add_other_functions(alloc, &mut table, output, concat)?;
    add_tests(alloc, &mut table, is_true, equals)?;
    Ok(table)
}

/// The table of the functions of `map`.
fn map_table(
    alloc: Global,
    upper: MapRun,
    append: MapRun,
    non_empty: MapRun,
    split: MapRun,
    join: MapRun,
    child: MapRun,
) -> Result<FunctionTable, TableFault>
    requires upper { Keeps (map_means UPPER) (MapRun.pre upper) (MapRun.post upper) }
    requires append { Keeps (map_means APPEND) (MapRun.pre append) (MapRun.post append) }
    requires non_empty { Keeps (map_means NON_EMPTY) (MapRun.pre non_empty) (MapRun.post non_empty) }
    requires split { Keeps (map_means SPLIT) (MapRun.pre split) (MapRun.post split) }
    requires join { Keeps (map_means JOIN) (MapRun.pre join) (MapRun.post join) }
    requires child { Keeps (map_means CHILD) (MapRun.pre child) (MapRun.post child) }
    ensures ok { IfOk result (λ table.
        numbers table (λ f. f.kind) (λ f. f.kind) (λ f. f.kind) (λ f. f.kind)
        ≡ text_functions ++ part_functions) }
    ensures err { IfErr result (λ fault. fault ≡ OutOfMemory) }
{
    let mut table = FunctionTable::new(alloc);
    add_text_functions(alloc, &mut table, upper, append, non_empty)?;
    add_part_functions(alloc, &mut table, split, join, child)?;
    Ok(table)
}

/// Adds those that map a text to an empty table.
fn add_text_functions(
    alloc: Global,
    table: &mut FunctionTable,
    upper: MapRun,
    append: MapRun,
    non_empty: MapRun,
) -> Result<(), TableFault>
    requires upper { Keeps (map_means UPPER) (MapRun.pre upper) (MapRun.post upper) }
    requires append { Keeps (map_means APPEND) (MapRun.pre append) (MapRun.post append) }
    requires non_empty { Keeps (map_means NON_EMPTY) (MapRun.pre non_empty) (MapRun.post non_empty) }
    requires before { numbers table.old (λ f. f.kind) (λ f. f.kind) (λ f. f.kind) (λ f. f.kind) ≡ [] }
    ensures ok { OnOk result (numbers table.new (λ f. f.kind) (λ f. f.kind) (λ f. f.kind) (λ f. f.kind)
        ≡ text_functions) }
    ensures err { IfErr result (λ fault. fault ≡ OutOfMemory) }
{
    add_map(alloc, table, "upper", UPPER, 0, upper)?;
    add_map(alloc, table, "append", APPEND, 1, append)?;
    add_map(alloc, table, "nonEmpty", NON_EMPTY, 0, non_empty)?;
    Ok(())
}

/// Adds those that take or return a list or a place, after those that map a text.
fn add_part_functions(
    alloc: Global,
    table: &mut FunctionTable,
    split: MapRun,
    join: MapRun,
    child: MapRun,
) -> Result<(), TableFault>
    requires split { Keeps (map_means SPLIT) (MapRun.pre split) (MapRun.post split) }
    requires join { Keeps (map_means JOIN) (MapRun.pre join) (MapRun.post join) }
    requires child { Keeps (map_means CHILD) (MapRun.pre child) (MapRun.post child) }
    requires before { numbers table.old (λ f. f.kind) (λ f. f.kind) (λ f. f.kind) (λ f. f.kind)
        ≡ text_functions }
    ensures ok { OnOk result (numbers table.new (λ f. f.kind) (λ f. f.kind) (λ f. f.kind) (λ f. f.kind)
        ≡ text_functions ++ part_functions) }
    ensures err { IfErr result (λ fault. fault ≡ OutOfMemory) }
{
    add_map(alloc, table, "split", SPLIT, 1, split)?;
    add_map(alloc, table, "join", JOIN, 1, join)?;
    add_map(alloc, table, "child", CHILD, 1, child)?;
    Ok(())
}

/// Adds those of `flatMap` and `zip`, after all others but the tests.
fn add_other_functions(
    alloc: Global,
    table: &mut FunctionTable,
    output: FlatRun,
    concat: ZipRun,
) -> Result<(), TableFault>
    requires output { Keeps (flat_map_means OUTPUT) (FlatRun.pre output) (FlatRun.post output) }
    requires concat { KeepsOfTwo (zip_means CONCAT) (ZipRun.pre concat) (ZipRun.post concat) }
    requires before { numbers table.old (λ f. f.kind) (λ f. f.kind) (λ f. f.kind) (λ f. f.kind)
        ≡ text_functions ++ part_functions }
    ensures ok { OnOk result (numbers table.new (λ f. f.kind) (λ f. f.kind) (λ f. f.kind) (λ f. f.kind)
        ≡ text_functions ++ part_functions ++ other_functions) }
    ensures err { IfErr result (λ fault. fault ≡ OutOfMemory) }
{
    add_flat(alloc, table, "output", OUTPUT, 1, output)?;
    add_zip(alloc, table, "concat", CONCAT, 0, concat)?;
    Ok(())
}

/// Adds the tests, after all others.
fn add_tests(
    alloc: Global,
    table: &mut FunctionTable,
    is_true: TestRun,
    equals: TestRun,
) -> Result<(), TableFault>
    requires is_true { Keeps (test_means IS_TRUE) (TestRun.pre is_true) (TestRun.post is_true) }
    requires equals { Keeps (test_means EQUALS) (TestRun.pre equals) (TestRun.post equals) }
    requires before { numbers table.old (λ f. f.kind) (λ f. f.kind) (λ f. f.kind) (λ f. f.kind)
        ≡ text_functions ++ part_functions ++ other_functions }
    ensures ok { OnOk result (numbers table.new (λ f. f.kind) (λ f. f.kind) (λ f. f.kind) (λ f. f.kind)
        ≡ value_functions) }
    ensures err { IfErr result (λ fault. fault ≡ OutOfMemory) }
{
    add_test(alloc, table, "isTrue", IS_TRUE, 0, is_true)?;
    add_test(alloc, table, "equals", EQUALS, 1, equals)?;
    Ok(())
}

/// Adds a function of `map` under a name that no other has.
fn add_map(
    alloc: Global,
    table: &mut FunctionTable,
    name: &str,
    kind: u16,
    arity: u8,
    run: MapRun,
) -> Result<(), TableFault>
    requires counted { arity ≡ map_arity kind }
    requires keeps { Keeps (map_means kind) (MapRun.pre run) (MapRun.post run) }
    requires other { list_any (λ e. bytes_eq e.0 name.now)
        (numbers table.old (λ f. f.kind) (λ f. f.kind) (λ f. f.kind) (λ f. f.kind)) ≡ false }
    ensures ok { OnOk result (numbers table.new (λ f. f.kind) (λ f. f.kind) (λ f. f.kind) (λ f. f.kind)
        ≡ numbers table.old (λ f. f.kind) (λ f. f.kind) (λ f. f.kind) (λ f. f.kind)
        ++ (name.now, uses.Map kind) ∷ []) }
    ensures err { IfErr result (λ fault. fault ≡ OutOfMemory) }
{
    let stored = StoredMap::new(kind, arity, run);
    let name = Name::read(alloc, name).map_err(|_| TableFault::OutOfMemory)?;
    table.add_map(&name, stored)
}

/// Adds a function of `flatMap` under a name that no other has.
fn add_flat(
    alloc: Global,
    table: &mut FunctionTable,
    name: &str,
    kind: u16,
    arity: u8,
    run: FlatRun,
) -> Result<(), TableFault>
    requires counted { arity ≡ flat_map_arity kind }
    requires keeps { Keeps (flat_map_means kind) (FlatRun.pre run) (FlatRun.post run) }
    requires other { list_any (λ e. bytes_eq e.0 name.now)
        (numbers table.old (λ f. f.kind) (λ f. f.kind) (λ f. f.kind) (λ f. f.kind)) ≡ false }
    ensures ok { OnOk result (numbers table.new (λ f. f.kind) (λ f. f.kind) (λ f. f.kind) (λ f. f.kind)
        ≡ numbers table.old (λ f. f.kind) (λ f. f.kind) (λ f. f.kind) (λ f. f.kind)
        ++ (name.now, uses.FlatMap kind) ∷ []) }
    ensures err { IfErr result (λ fault. fault ≡ OutOfMemory) }
{
    let stored = StoredFlat::new(kind, arity, run);
    let name = Name::read(alloc, name).map_err(|_| TableFault::OutOfMemory)?;
    table.add_flat(&name, stored)
}

/// Adds a function of `zip` under a name that no other has.
fn add_zip(
    alloc: Global,
    table: &mut FunctionTable,
    name: &str,
    kind: u16,
    arity: u8,
    run: ZipRun,
) -> Result<(), TableFault>
    requires counted { arity ≡ zip_arity kind }
    requires keeps { KeepsOfTwo (zip_means kind) (ZipRun.pre run) (ZipRun.post run) }
    requires other { list_any (λ e. bytes_eq e.0 name.now)
        (numbers table.old (λ f. f.kind) (λ f. f.kind) (λ f. f.kind) (λ f. f.kind)) ≡ false }
    ensures ok { OnOk result (numbers table.new (λ f. f.kind) (λ f. f.kind) (λ f. f.kind) (λ f. f.kind)
        ≡ numbers table.old (λ f. f.kind) (λ f. f.kind) (λ f. f.kind) (λ f. f.kind)
        ++ (name.now, uses.Zip kind) ∷ []) }
    ensures err { IfErr result (λ fault. fault ≡ OutOfMemory) }
{
    let stored = StoredZip::new(kind, arity, run);
    let name = Name::read(alloc, name).map_err(|_| TableFault::OutOfMemory)?;
    table.add_zip(&name, stored)
}

/// Adds a test under a name that no other has.
fn add_test(
    alloc: Global,
    table: &mut FunctionTable,
    name: &str,
    kind: u16,
    arity: u8,
    run: TestRun,
) -> Result<(), TableFault>
    requires counted { arity ≡ test_arity kind }
    requires keeps { Keeps (test_means kind) (TestRun.pre run) (TestRun.post run) }
    requires other { list_any (λ e. bytes_eq e.0 name.now)
        (numbers table.old (λ f. f.kind) (λ f. f.kind) (λ f. f.kind) (λ f. f.kind)) ≡ false }
    ensures ok { OnOk result (numbers table.new (λ f. f.kind) (λ f. f.kind) (λ f. f.kind) (λ f. f.kind)
        ≡ numbers table.old (λ f. f.kind) (λ f. f.kind) (λ f. f.kind) (λ f. f.kind)
        ++ (name.now, uses.Test kind) ∷ []) }
    ensures err { IfErr result (λ fault. fault ≡ OutOfMemory) }
{
    let stored = StoredTest::new(kind, arity, run);
    let name = Name::read(alloc, name).map_err(|_| TableFault::OutOfMemory)?;
    table.add_test(&name, stored)
}
