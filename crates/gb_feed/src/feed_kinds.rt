//! The kinds of feeds by name.
ghost use Rattle.std.specs.Prelude.{◌≡◌, ◌∷◌, [], codes, IfOk};
ghost use Rattle.gb_with.specs.declared.both.Either.TheVariants.{First, Second};

use crate::feed::AtomFeed;
use crate::site_map::SiteMap;
use gb_action::actions::Actions;
use gb_action::table::{ActionTable, TableFault};
use gb_with::beside::{beside, only};
use gb_with::both::Both;
use gb_with::of_trees::OfTrees;
use std::alloc::Global;

/// All kinds of feeds.
pub type Feeds = Both<OfTrees<SiteMap>, OfTrees<AtomFeed>>;

/// The table of all kinds of feeds, each in its version.
pub fn feed_actions(alloc: Global) -> Result<ActionTable<<Feeds as Actions>::Stored>, TableFault>
    ensures { IfOk result (λ table.
        table ≡ (codes "siteMap", First 2) ∷ (codes "atomFeed", Second 2) ∷ []) }
{
    let feed = only::<OfTrees<AtomFeed>>(alloc, "atomFeed", 2)?;
    let map = only::<OfTrees<SiteMap>>(alloc, "siteMap", 2)?;
    beside(alloc, map, feed)
}
