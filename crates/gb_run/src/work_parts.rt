//! Does a computed work in a folder, part after part.
ghost use Rattle.std.specs.Prelude.{◌≡◌, ◌++◌, [], ◌∷◌, List, map};
ghost use Rattle.gb_folder.specs.Calls.{Call};
ghost use Rattle.gb_folder.specs.Device.{Leads};
ghost use Rattle.gb_plan.specs.Task.{Text};
ghost use Rattle.gb_run.specs.Work.{DoesParts};
ghost use Rattle.gb_run.specs.Worked.{part_held};

use crate::doing::do_steps;
use crate::work::Part;
use gb_core::text::Texts;
use gb_folder::folder::Folder;
use gb_report::fault::Fault;
use std::alloc::Global;

/// Does these parts, one after another, up to the first step that fails. The lines of a part are
/// printed once it is done.
pub fn do_parts<F: Folder>(
    alloc: Global,
    folder: &mut F,
    parts: &[Part],
    lines: &mut Texts,
) -> Result<(), Fault>
    ensures { (calls : List Call) × (printed : List Text) × Leads F.device folder.old calls folder.new
        × DoesParts (map part_held parts.now) calls printed result × (lines.new ≡ lines.old ++ printed) }
{
    for part in parts.iter() {
        do_part(alloc, folder, part, lines)?;
    }
    Ok(())
}

fn do_part<F: Folder>(
    alloc: Global,
    folder: &mut F,
    part: &Part,
    lines: &mut Texts,
) -> Result<(), Fault>
    ensures { (calls : List Call) × (printed : List Text) × Leads F.device folder.old calls folder.new
        × DoesParts (map part_held (part.now ∷ [])) calls printed result
        × (lines.new ≡ lines.old ++ printed) }
{
    do_steps(folder, part.steps.as_slice())?;
    let printed = part.lines.copy(alloc)?;
    lines.append(printed)?;
    Ok(())
}
