//! Addresses on pages: those that could run code are left out, and those of files refer to the
//! files.
use crate::site::offering::{Kinds, offered};
use crate::site::steps::{Step, exists, go_on};
use gb_action::actions::Actions;
use gb_folder::memory::MemoryFolder;
use gb_kinds::builtin::Builtin;
use gb_provider::transforms::Transforms;
use gb_registry::tables::Tables;
use std::alloc::Global;
use std::test::Fail;

/// A page of links, and pages whose names have signs with a meaning in an address.
const PAGES: [Step<'static>; 8] = [
    Step::Put(
        "build.gb",
        b"register html : markdown { inputFiles src from file(\"links.md\") outputDir out = dir(\"build/h\") }
register all : index(\"All\") { inputFiles src from dir(\"pages\") outputDir out = dir(\"build/all\") }",
    ),
    Step::Put("links.md", LINKS),
    Step::Put("pages/100%.md", b"# A\n"),
    Step::Put("pages/C#.md", b"B\n"),
    Step::Put("pages/What now?.md", b"# C\n"),
    Step::Put("pages/a:b.md", b"# D\n"),
    Step::Run(
        "html",
        1,
        "> Task :html\nBUILD SUCCESSFUL\n1 actionable task: 1 executed\n",
    ),
    Step::Run(
        "all",
        1,
        "> Task :all\nBUILD SUCCESSFUL\n1 actionable task: 1 executed\n",
    ),
];

/// Files with links to each other; then one to a missing file, and one to a missing fragment.
const LED: [Step<'static>; 8] = [
    Step::Put(
        "build.gb",
        b"register site : copyFiles { doFirst checkLinks inputFiles src from dir(\"out\") \
outputDir out = dir(\"build/site\") }",
    ),
    Step::Put(
        "out/a.html",
        b"<a href=\"d/b.html#x\"> <a href=\"https://e.org/\"> <a href=\"#y\" id=\"y\">\n\
<img src=\"C%23.png\">",
    ),
    Step::Put("out/C#.png", b""),
    Step::Put(
        "out/d/b.html",
        b"<p id=\"x\"><a href=\"../a.html?q\"> <a href=\"/d/./b.html\">",
    ),
    Step::Run("site", 1, LED_DONE),
    Step::Put("out/d/b.html", b"<p>\n<a href=\"../../a.html\">"),
    Step::Run(
        "site",
        0,
        "> Task :site FAILED\nFAILED :site: 42 a.html:1: no fragment at d/b.html#x\nBUILD FAILED\n\
1 actionable task: 1 executed\n",
    ),
    Step::Put("out/a.html", b""),
];

const LED_DONE: &str = "> Task :site\nBUILD SUCCESSFUL\n1 actionable task: 1 executed\n";

/// The other link leads out of the site.
const LED_OUT: [Step<'static>; 1] = [Step::Run(
    "site",
    0,
    "> Task :site FAILED\nFAILED :site: 42 d/b.html:2: no file at ../../a.html\nBUILD FAILED\n\
1 actionable task: 1 executed\n",
)];

const LINKS: &[u8] = b"[a](javascript:1)
[b](JavaScript:1)
[c](java\tscript:1)
[d](\x01javascript:1)
[e](data:text/html,1)
[f](vbscript:1)
[g](HTTPS://e.org/?a=\"b\"&c)
[h](b.html?at=1:2)
[i](mailto:a@e.org)
[j](#part)
";

const LINKED: &str = "<p><a>a</a>
<a>b</a>
[c](java\tscript:1)
<a>d</a>
<a>e</a>
<a>f</a>
<a href=\"HTTPS://e.org/?a=%22b%22&amp;c\">g</a>
<a href=\"b.html?at=1:2\">h</a>
<a href=\"mailto:a@e.org\">i</a>
<a href=\"#part\">j</a></p>
";

const ALL: &str = "<h1>All</h1>
<ul>
<li><a href=\"100%25.html\">A</a></li>
<li><a href=\"C%23.html\">C#</a></li>
<li><a href=\"What%20now%3F.html\">C</a></li>
<li><a href=\"a%3Ab.html\">D</a></li>
</ul>
";

/// Fails if the addresses of a page differ.
fn are_safe<A: Actions, T: Transforms>(alloc: Global, tables: &Tables<A, T>) -> Result<(), Fail> {
    let mut folder = MemoryFolder::new(alloc);
    go_on(alloc, &mut folder, tables, &PAGES)?;
    exists(alloc, &mut folder, "build/h/links.md", LINKED)?;
    exists(alloc, &mut folder, "build/all/index.html", ALL)?;
    go_on(alloc, &mut folder, tables, &LED)?;
    go_on(alloc, &mut folder, tables, &LED_OUT)
}

#[test]
fn no_address_runs_code(rt: HostRuntime) -> Result<(), Fail> {
    let (actions, transforms) = offered(rt.alloc())?;
    let tables = Tables::<Kinds, Builtin> {
        actions,
        transforms,
    };
    are_safe::<Kinds, Builtin>(rt.alloc(), &tables)
}
