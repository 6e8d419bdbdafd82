//! The address of a site, and texts in XML.
ghost use Rattle.std.specs.Prelude.{◌≡◌, ◌++◌, codes, Err, IfOk, OnOk};
ghost use Rattle.gb_action.specs.declared.reply.ActionFault.TheVariants.{ActionFailed};
ghost use Rattle.gb_feed.specs.Sites.{is_site, xml, xml_address, xml_byte};

use gb_action::reply::ActionFault;
use gb_core::text::Text;
use gb_markdown::address::{address_of, has_scheme, is_safe};
use gb_markdown::rendered::text;
use std::alloc::{AllocError, Global};

/// Whether an address may be the address of a site: it is safe, has a scheme and ends in `/`.
pub(crate) fn is_site(base: &[u8]) -> bool
    ensures { result ≡ is_site base.now }
{
    is_safe(base) && has_scheme(base) && base.strip_suffix(b"/").is_some()
}

/// The failure of a kind whose argument is not the address of a site.
pub(crate) fn no_site(alloc: Global, base: &str) -> Result<ActionFault, AllocError>
    ensures { IfOk result (λ fault. fault ≡ ActionFailed (codes "no address of a site: " ++ base.now)) }
{
    let text = Text::new(format!(in alloc; "no address of a site: {base}")?)?;
    Ok(ActionFault::ActionFailed(text))
}

/// Writes a text without its control characters, and escapes the signs that have a meaning in XML.
pub(crate) fn xml(made: &mut Vec<u8>, words: &[u8]) -> Result<(), AllocError>
    ensures { OnOk result (made.new.items ≡ made.old.items ++ xml words.now) }
{
    for byte in words {
        xml_byte(made, *byte)?;
    }
    Ok(())
}

fn xml_byte(made: &mut Vec<u8>, byte: u8) -> Result<(), AllocError>
    ensures { OnOk result (made.new.items ≡ made.old.items ++ xml_byte byte) }
{
    if byte < b' ' {
        return Ok(());
    }
    text(made, &[byte])
}

/// Writes the address of the page at a path of a site.
#[tactic(auto, unfolding(crate::specs::Sites::xml_address))]
pub(crate) fn xml_address(
    alloc: Global,
    made: &mut Vec<u8>,
    base: &[u8],
    path: &[u8],
) -> Result<(), AllocError>
    ensures { OnOk result (made.new.items ≡ made.old.items ++ xml_address base.now path.now) }
{
    let address = address_of(alloc, path)?;
    xml(made, base)?;
    xml(made, address.as_slice())
}
