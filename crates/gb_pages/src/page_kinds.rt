//! The kinds of pages by name.
ghost use Rattle.std.specs.Prelude.{◌≡◌, ◌∷◌, [], codes, IfOk};
ghost use Rattle.gb_with.specs.declared.both.Either.TheVariants.{First, Second};

use crate::checked::CheckPages;
use crate::index_page::Index;
use crate::kinds::Markdown;
use crate::links::CheckLinks;
use crate::site_pages::SitePages;
use crate::template::Template;
use gb_action::actions::Actions;
use gb_action::table::{ActionTable, TableFault};
use gb_with::beside::{beside, only};
use gb_with::both::Both;
use gb_with::by_file::ByFile;
use gb_with::of_trees::{Checks, OfTrees};
use gb_with::renamed::Renamed;
use std::alloc::Global;

/// The kinds that work on all pages at once, at paths that they know.
type AtOnce = Both<Laid, Both<OfTrees<Index>, Checking>>;

/// Those that put pages into a layout.
type Laid = Both<OfTrees<Template>, OfTrees<SitePages>>;

/// The kinds that make nothing.
type Checking = Both<Checks<CheckPages>, Checks<CheckLinks>>;

/// All kinds of pages.
pub type Pages = Both<ByFile<Markdown>, Both<OfTrees<Renamed<Markdown>>, AtOnce>>;

/// The table of all kinds of pages, each in its version.
pub fn page_actions(alloc: Global) -> Result<ActionTable<<Pages as Actions>::Stored>, TableFault>
    ensures { IfOk result (λ table. table ≡ (codes "markdown", First 5)
        ∷ (codes "htmlPages", Second (First 5))
        ∷ (codes "template", Second (Second (First (First 1))))
        ∷ (codes "sitePages", Second (Second (First (Second 2))))
        ∷ (codes "index", Second (Second (Second (First 4))))
        ∷ (codes "checkPages", Second (Second (Second (Second (First 2)))))
        ∷ (codes "checkLinks", Second (Second (Second (Second (Second 1))))) ∷ []) }
{
    let others = at_once(alloc)?;
    let pages = only::<OfTrees<Renamed<Markdown>>>(alloc, "htmlPages", 5)?;
    let others = beside(alloc, pages, others)?;
    let markdown = only::<ByFile<Markdown>>(alloc, "markdown", 5)?;
    beside(alloc, markdown, others)
}

/// The table of the kinds that work on all pages at once.
fn at_once(alloc: Global) -> Result<ActionTable<<AtOnce as Actions>::Stored>, TableFault>
    ensures { IfOk result (λ table. table ≡ (codes "template", First (First 1))
        ∷ (codes "sitePages", First (Second 2)) ∷ (codes "index", Second (First 4))
        ∷ (codes "checkPages", Second (Second (First 2)))
        ∷ (codes "checkLinks", Second (Second (Second 1))) ∷ []) }
{
    let check = checking(alloc)?;
    let index = only::<OfTrees<Index>>(alloc, "index", 4)?;
    let others = beside(alloc, index, check)?;
    beside(alloc, laid(alloc)?, others)
}

/// The table of the kinds that put pages into a layout.
fn laid(alloc: Global) -> Result<ActionTable<<Laid as Actions>::Stored>, TableFault>
    ensures { IfOk result (λ table.
        table ≡ (codes "template", First 1) ∷ (codes "sitePages", Second 2) ∷ []) }
{
    let site = only::<OfTrees<SitePages>>(alloc, "sitePages", 2)?;
    let template = only::<OfTrees<Template>>(alloc, "template", 1)?;
    beside(alloc, template, site)
}

/// The table of the kinds that make nothing.
fn checking(alloc: Global) -> Result<ActionTable<<Checking as Actions>::Stored>, TableFault>
    ensures { IfOk result (λ table.
        table ≡ (codes "checkPages", First 2) ∷ (codes "checkLinks", Second 1) ∷ []) }
{
    let links = only::<Checks<CheckLinks>>(alloc, "checkLinks", 1)?;
    let pages = only::<Checks<CheckPages>>(alloc, "checkPages", 2)?;
    beside(alloc, pages, links)
}
