//! Front matter of pages: keys in a layout, titles, and the order of dates.
use crate::site::offering::{Kinds, offered};
use crate::site::steps::{Step, exists, go_on};
use gb_action::actions::Actions;
use gb_folder::memory::MemoryFolder;
use gb_kinds::builtin::Builtin;
use gb_provider::transforms::Transforms;
use gb_registry::tables::Tables;
use std::alloc::Global;
use std::test::Fail;

/// A site of three pages; one has no title other than its heading.
const PAGES: [Step<'static>; 6] = [
    Step::Put(
        "build.gb",
        b"register html : markdown { doFirst checkPages inputFiles src incremental from dir(\"pages\") \
outputDir out = dir(\"build/html\") }
register site : sitePages { inputFiles src incremental from task(\"html\").flatMap(output(\"out\")) \
inputFiles texts incremental from dir(\"pages\") inputFiles layout from file(\"layout.html\") \
outputDir out = dir(\"build/site\") }
register all : index(\"All\", \"date\") { inputFiles src incremental from dir(\"pages\") \
outputDir out = dir(\"build/all\") }
",
    ),
    Step::Put(
        "layout.html",
        b"<title>{{title}}</title>\n<p>{{author}} {{root}} {{</p>\n{{content}}",
    ),
    Step::Put(
        "pages/a.md",
        b"---\ntitle: 1 < 2\nauthor: I\ndate: 2026-01-02\n---\nX\n",
    ),
    Step::Put(
        "pages/d/b.md",
        b"---\nauthor: \"You\"\ntitle: B\ndate: 2026-03-01\n---\nY\n",
    ),
    Step::Put(
        "pages/c.md",
        b"---\nauthor: I\ndate: 2025-12-31\n---\n# C\n",
    ),
    Step::Run(
        "site all",
        3,
        "> Task :html\nADDED a.md\nADDED c.md\nADDED d/b.md\n> Task :site\n> Task :all\nBUILD SUCCESSFUL\n\
3 actionable tasks: 3 executed\n",
    ),
];

/// A page without a key of the layout, and one whose front matter has no end; then it is removed.
const FAULTS: [Step<'static>; 6] = [
    Step::Put("pages/c.md", b"# C\n"),
    Step::Run(
        "site",
        1,
        "> Task :html\nMODIFIED c.md\n> Task :site FAILED\n\
FAILED :site: 42 layout.html:2: c.md has no author\nBUILD FAILED\n\
2 actionable tasks: 2 executed\n",
    ),
    Step::Put("pages/c.md", b"---\nauthor: I\n# C\n"),
    Step::Run(
        "site",
        0,
        "> Task :html FAILED\nFAILED :html: 42 c.md:1: no end of the front matter\nBUILD FAILED\n\
1 actionable task: 1 executed\n",
    ),
    Step::Delete("pages/c.md"),
    Step::Run(
        "site all",
        3,
        "> Task :html\nADDED a.md\nADDED d/b.md\n> Task :site\n> Task :all\nBUILD SUCCESSFUL\n\
3 actionable tasks: 3 executed\n",
    ),
];

/// All pages, the latest first.
const ALL: &str = "<h1>All</h1>
<ul>
<li><a href=\"d/b.html\">B</a></li>
<li><a href=\"a.html\">1 &lt; 2</a></li>
<li><a href=\"c.html\">C</a></li>
</ul>
";

/// The same without the removed page.
const LEFT: &str = "<h1>All</h1>
<ul>
<li><a href=\"d/b.html\">B</a></li>
<li><a href=\"a.html\">1 &lt; 2</a></li>
</ul>
";

/// Fails if the results or the files differ.
fn are_filled<A: Actions, T: Transforms>(alloc: Global, tables: &Tables<A, T>) -> Result<(), Fail> {
    let mut folder = MemoryFolder::new(alloc);
    are_filled_in(alloc, &mut folder, tables)
}

fn are_filled_in<A: Actions, T: Transforms>(
    alloc: Global,
    folder: &mut MemoryFolder,
    tables: &Tables<A, T>,
) -> Result<(), Fail> {
    go_on(alloc, folder, tables, &PAGES)?;
    exists(
        alloc,
        folder,
        "build/site/a.html",
        "<title>1 &lt; 2</title>\n<p>I  {{</p>\n<p>X</p>\n",
    )?;
    exists(
        alloc,
        folder,
        "build/site/d/b.html",
        "<title>B</title>\n<p>&quot;You&quot; ../ {{</p>\n<p>Y</p>\n",
    )?;
    exists(alloc, folder, "build/all/index.html", ALL)?;
    go_on(alloc, folder, tables, &FAULTS)?;
    exists(alloc, folder, "build/all/index.html", LEFT)
}

#[test]
fn pages_have_keys(rt: HostRuntime) -> Result<(), Fail> {
    let (actions, transforms) = offered(rt.alloc())?;
    let tables = Tables::<Kinds, Builtin> {
        actions,
        transforms,
    };
    are_filled(rt.alloc(), &tables)
}
