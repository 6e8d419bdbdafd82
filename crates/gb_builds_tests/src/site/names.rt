//! Two tables with a kind of the same name.
use crate::building::is_reported;
use crate::site::offering::builtin;
use gb_action::table::TableFault;
use gb_here::refused::print_refused;
use gb_pages::kinds::Markdown;
use gb_with::beside::{beside, only};
use gb_with::by_file::ByFile;
use std::alloc::Global;
use std::test::Fail;

/// Why the kind of pages cannot be added next to the built-in kind with its name.
fn refusal(alloc: Global) -> Result<Option<TableFault>, Fail> {
    let own = only::<ByFile<Markdown>>(alloc, "copyFiles", 1)?;
    Ok(beside(alloc, builtin(alloc)?, own).err())
}

/// The output for a refusal.
fn printed(alloc: Global, fault: TableFault) -> Result<String, Fail> {
    let mut out = Vec::new(alloc);
    if !print_refused(&mut out, fault) {
        return Err(Fail::new("not printed"));
    }
    Ok(String::from_utf8(out)?)
}

#[test]
fn a_name_of_a_built_in_kind_is_refused(rt: HostRuntime) -> Result<(), Fail> {
    let alloc = rt.alloc();
    assert_eq!(rt; refusal(alloc)?, Some(TableFault::DuplicateAction));
    let text = printed(alloc, TableFault::DuplicateAction)?;
    is_reported("REFUSED 41 duplicate action\nBUILD FAILED\n", text.as_str())
}
