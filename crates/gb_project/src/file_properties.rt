//! The file properties of a task.
ghost use Rattle.std.specs.Prelude.{◌≡◌, All, IfOk, if◌then◌else◌, length, map, true};
ghost use Rattle.std.specs.List.{flat_map};
ghost use Rattle.gb_registry.specs.Tables.{tables_of};
ghost use Rattle.gb_tree.specs.Pattern.{is_pattern, spelled_out};
ghost use Rattle.gb_tree.specs.declared.property.Naming.TheVariants.{NameOnly, Relative};
ghost use Rattle.gb_declare.specs.Borrowed.{named_in};
ghost use Rattle.gb_declare.specs.Realised.{files_under};
ghost use Rattle.gb_declare.specs.Whole.{spots, whole};
ghost use Rattle.gb_project.specs.Over.{known_names};
ghost use Rattle.gb_project.specs.Evaluated.{files_of};
ghost use Rattle.gb_project.specs.Parts.{HasPatterns, HavePatterns};
ghost use Rattle.gb_project.specs.Rows.{AreWithin, HaveValues, IsAt, ReportsOf};

use crate::context::Context;
use crate::parts::split_at;
use crate::row_values::places;
use gb_action::actions::Actions;
use gb_core::name::Name;
use gb_core::path::TaskPath;
use gb_core::text::Text;
use gb_plan::task::{FileProperties, FileProperty, Patterns, Places};
use gb_provider::expression::Node;
use gb_provider::providers::Providers;
use gb_provider::transforms::Transforms;
use gb_report::fault::Fault;
use gb_script::script::InputFiles;
use gb_tree::pattern::{Pattern, PatternFault};
use gb_tree::property::Naming;
use std::alloc::{AllocError, Global};
use std::collections::BTreeMap;

fn pattern(alloc: Global, text: &Text) -> Result<Pattern, AllocError>
    requires { is_pattern text.now ≡ true }
    ensures { IfOk result (λ pattern. pattern ≡ spelled_out text.now) }
{
    match Pattern::read(alloc, text.as_str()) {
        Ok(pattern) => Ok(pattern),
        Err(PatternFault::OutOfMemory) => Err(AllocError),
        Err(PatternFault::BadPattern) => unreachable!(),
    }
}

fn patterns(alloc: Global, texts: &[Text]) -> Result<Patterns, AllocError>
    requires { All (λ text. is_pattern text ≡ true) texts.now }
    ensures { IfOk result (λ patterns. patterns ≡ map spelled_out texts.now) }
{
    let mut found = Vec::new(alloc);
    for text in texts {
        found.push(pattern(alloc, text)?)?;
    }
    Ok(Patterns::from_vec(found))
}

/// The property as declared, with these roots.
fn with_roots(
    alloc: Global,
    name: &Name,
    files: &InputFiles,
    roots: Places,
) -> Result<FileProperty, AllocError>
    requires { HasPatterns files.now }
    ensures { IfOk result (λ property. property ≡ record {
      name = name.now;
      incremental = files.now.incremental;
      skip_when_empty = files.now.skip_when_empty;
      naming = if files.now.name_only then NameOnly else Relative;
      roots = roots;
      include = map spelled_out files.now.include;
      exclude = map spelled_out files.now.exclude;
    }) }
{
    let include = patterns(alloc, files.include.as_slice())?;
    let exclude = patterns(alloc, files.exclude.as_slice())?;
    Ok(FileProperty {
        name: name.copy()?,
        incremental: files.incremental,
        skip_when_empty: files.skip_when_empty,
        naming: if files.name_only {
            Naming::NameOnly
        } else {
            Naming::Relative
        },
        roots,
        include,
        exclude,
    })
}

/// A file property, whose roots must be places (33, 34).
fn property<A: Actions, T: Transforms>(
    alloc: Global,
    context: &Context<'_, A, T>,
    providers: &mut Providers<'_, T>,
    path: &TaskPath,
    name: &Name,
    files: &InputFiles,
    row: &[Node],
) -> Result<FileProperty, Fault>
    requires within { AreWithin providers.old.nodes row.now }
    requires patterns { HasPatterns files.now }
    ensures reported { let tables = tables_of T.meanings A.meanings context.now.tables.now in
        ReportsOf tables (known_names context.now.projects.now context.now.tasks.now)
        context.now.faults.now providers.old.nodes (IsAt path.now) row.now files.now.from
        (λ source at. files_under tables source at (spots tables source) (whole tables source)
        (name.now, files.now)) result }
    ensures given { IfOk result (λ _. HaveValues T.meanings providers.old.nodes row.now) }
    ensures kept { providers.new ≡ providers.old }
{
    let roots = places(alloc, context, providers, path, name, row)?;
    Ok(with_roots(alloc, name, files, roots)?)
}

/// The file properties of a task by their names, whose roots must be places (33, 34).
pub fn properties<A: Actions, T: Transforms>(
    alloc: Global,
    context: &Context<'_, A, T>,
    providers: &mut Providers<'_, T>,
    path: &TaskPath,
    files: &BTreeMap<Name, &InputFiles>,
    row: &[Node],
) -> Result<FileProperties, Fault>
    requires within { AreWithin providers.old.nodes row.now }
    requires count { length row.now ≡ length (flat_map (λ property. property.1.from) (named_in files.now)) }
    requires patterns { HavePatterns (named_in files.now) }
    ensures reported { let tables = tables_of T.meanings A.meanings context.now.tables.now in
        ReportsOf tables (known_names context.now.projects.now context.now.tasks.now)
        context.now.faults.now providers.old.nodes (IsAt path.now) row.now
        (flat_map (λ property. property.1.from) (named_in files.now))
        (λ source at. files_of tables source at (named_in files.now)) result }
    ensures given { IfOk result (λ _. HaveValues T.meanings providers.old.nodes row.now) }
    ensures kept { providers.new ≡ providers.old }
{
    let mut found = Vec::new(alloc);
    let mut rest = row;
    for (name, files) in files.iter() {
        let (roots, others) = split_at(rest, files.from.as_slice().len());
        let read = property(alloc, context, providers, path, name, *files, roots)?;
        found.push(read)?;
        rest = others;
    }
    Ok(FileProperties::from_vec(found))
}
