//! The pieces of a page, written one after the other.
ghost use Rattle.std.specs.Prelude.{◌≡◌, ◌++◌, ◌∷◌, [], OnOk};
ghost use Rattle.gb_markdown.specs.Pieces.{name_of, escaped, escaped_byte, piece_text, Open, Close, Link};
ghost use Rattle.gb_markdown.specs.Pieces.{Text};
ghost use Rattle.gb_markdown.specs.Pieces.{Picture, Listing, Coded, Named, attribute_begun, attribute_text};
ghost use Rattle.gb_markdown.specs.Pieces.{attributes_text, address_in, value_in, attributes_of};

use crate::address::is_safe;
use std::alloc::AllocError;

/// The elements of a page: each has a beginning and an end, except a rule, a break and a picture.
#[derive(Clone, Copy)]
pub enum Element {
    /// `h1`, the heading of the page.
    HeadingOne,
    /// `h2`, the heading of a part.
    HeadingTwo,
    /// `h3`, the heading of a smaller part.
    HeadingThree,
    /// `h4`, a heading.
    HeadingFour,
    /// `h5`, a heading.
    HeadingFive,
    /// `h6`, a heading.
    HeadingSix,
    /// `p`, a paragraph.
    Paragraph,
    /// `ul`, a list.
    Items,
    /// `ol`, a list whose items have numbers.
    Numbered,
    /// `li`, an item of a list.
    Item,
    /// `blockquote`, what is quoted.
    Quote,
    /// `em`, stressed words.
    Emphasis,
    /// `strong`, words with stronger stress.
    Strong,
    /// `code`, words of code.
    Code,
    /// `pre`, lines of code.
    Block,
    /// `a`, a link.
    Anchor,
    /// `table`, a table.
    Table,
    /// `thead`, the first row of a table.
    Head,
    /// `tbody`, the other rows of a table.
    Body,
    /// `tr`, a row of a table.
    Row,
    /// `th`, a cell of the first row.
    HeadCell,
    /// `td`, a cell.
    Cell,
    /// `img`, a picture.
    Image,
    /// `hr`, a rule.
    Rule,
    /// `br`, the end of a line.
    Break,
}

impl Element {
    /// The word of its tags in HTML.
    pub fn name(self) -> &'static [u8]
        ensures { result.now ≡ name_of self }
    {
        match self {
            Element::HeadingOne => b"h1",
            Element::HeadingTwo => b"h2",
            Element::HeadingThree => b"h3",
            Element::HeadingFour => b"h4",
            Element::HeadingFive => b"h5",
            Element::HeadingSix => b"h6",
            Element::Paragraph => b"p",
            Element::Items => b"ul",
            Element::Numbered => b"ol",
            Element::Item => b"li",
            Element::Quote => b"blockquote",
            Element::Emphasis => b"em",
            Element::Strong => b"strong",
            Element::Code => b"code",
            Element::Block => b"pre",
            Element::Anchor => b"a",
            Element::Table => b"table",
            Element::Head => b"thead",
            Element::Body => b"tbody",
            Element::Row => b"tr",
            Element::HeadCell => b"th",
            Element::Cell => b"td",
            Element::Image => b"img",
            Element::Rule => b"hr",
            Element::Break => b"br",
        }
    }
}

/// An attribute of a tag.
#[derive(Clone, Copy)]
pub enum Attribute {
    /// The address of a link's target.
    Href,
    /// The address of a picture.
    Source,
    /// What a picture shows.
    Shown,
    /// The title of a link or a picture.
    Title,
    /// The language of code.
    Language,
    /// The number of a list's first item.
    Start,
    /// The name by which a link leads to a heading.
    Name,
}

impl Attribute {
    /// The text before its value in a tag.
    fn begun(self) -> &'static [u8]
        ensures { result.now ≡ attribute_begun self }
    {
        match self {
            Attribute::Href => b" href=\"",
            Attribute::Source => b" src=\"",
            Attribute::Shown => b" alt=\"",
            Attribute::Title => b" title=\"",
            Attribute::Language => b" class=\"language-",
            Attribute::Start => b" start=\"",
            Attribute::Name => b" id=\"",
        }
    }
}

/// Begins an element.
pub fn open(page: &mut Vec<u8>, element: Element) -> Result<(), AllocError>
    ensures { OnOk result (page.new.items ≡ page.old.items ++ piece_text (Open element)) }
{
    begin(page, element)?;
    page.push(b'>')?;
    Ok(())
}

/// Begins the tag that begins an element.
fn begin(page: &mut Vec<u8>, element: Element) -> Result<(), AllocError>
    ensures { OnOk result (page.new.items ≡ page.old.items ++ (60 ∷ name_of element)) }
{
    page.push(b'<')?;
    page.extend_from_slice(element.name())?;
    Ok(())
}

/// Ends an element.
pub fn close(page: &mut Vec<u8>, element: Element) -> Result<(), AllocError>
    ensures { OnOk result (page.new.items ≡ page.old.items ++ piece_text (Close element)) }
{
    page.extend_from_slice(b"</")?;
    page.extend_from_slice(element.name())?;
    page.push(b'>')?;
    Ok(())
}

/// Begins a link to an address, if that is safe, with a title, if that is not empty; [`Element::Anchor`] ends
/// it.
pub fn link(page: &mut Vec<u8>, address: &[u8], title: &[u8]) -> Result<(), AllocError>
    ensures { OnOk result (page.new.items ≡ page.old.items ++ piece_text (Link address.now title.now)) }
{
    begin(page, Element::Anchor)?;
    address_in(page, Attribute::Href, address)?;
    value_in(page, Attribute::Title, title)?;
    page.push(b'>')?;
    Ok(())
}

/// Writes a picture of what is at an address, if that is safe.
pub fn picture(
    page: &mut Vec<u8>,
    address: &[u8],
    shown: &[u8],
    title: &[u8],
) -> Result<(), AllocError>
    ensures { OnOk result (page.new.items ≡ page.old.items
        ++ piece_text (Picture address.now shown.now title.now)) }
{
    begin(page, Element::Image)?;
    address_in(page, Attribute::Source, address)?;
    write_attribute(page, Attribute::Shown, shown)?;
    value_in(page, Attribute::Title, title)?;
    page.push(b'>')?;
    Ok(())
}

/// Begins a list whose items are numbered from this number on.
pub fn numbered(page: &mut Vec<u8>, first: &[u8]) -> Result<(), AllocError>
    ensures { OnOk result (page.new.items ≡ page.old.items ++ piece_text (Listing first.now)) }
{
    begin(page, Element::Numbered)?;
    value_in(page, Attribute::Start, first)?;
    page.push(b'>')?;
    Ok(())
}

/// Begins code in a language, if one is given.
pub fn code(page: &mut Vec<u8>, language: &[u8]) -> Result<(), AllocError>
    ensures { OnOk result (page.new.items ≡ page.old.items ++ piece_text (Coded language.now)) }
{
    begin(page, Element::Code)?;
    value_in(page, Attribute::Language, language)?;
    page.push(b'>')?;
    Ok(())
}

/// Begins an element with a name.
pub fn named(page: &mut Vec<u8>, element: Element, name: &[u8]) -> Result<(), AllocError>
    ensures { OnOk result (page.new.items ≡ page.old.items ++ piece_text (Named element name.now)) }
{
    begin(page, element)?;
    value_in(page, Attribute::Name, name)?;
    page.push(b'>')?;
    Ok(())
}

/// Writes an attribute that holds an address, if that is safe.
fn address_in(page: &mut Vec<u8>, name: Attribute, address: &[u8]) -> Result<(), AllocError>
    ensures { OnOk result
        (page.new.items ≡ page.old.items ++ attributes_text (address_in name address.now)) }
{
    if is_safe(address) {
        write_attribute(page, name, address)?;
    }
    Ok(())
}

/// Writes an attribute, if its value is not empty.
fn value_in(page: &mut Vec<u8>, name: Attribute, value: &[u8]) -> Result<(), AllocError>
    ensures { OnOk result
        (page.new.items ≡ page.old.items ++ attributes_text (value_in name value.now)) }
{
    if !value.is_empty() {
        write_attribute(page, name, value)?;
    }
    Ok(())
}

/// Writes an attribute of a tag.
fn write_attribute(page: &mut Vec<u8>, name: Attribute, value: &[u8]) -> Result<(), AllocError>
    ensures { OnOk result (page.new.items ≡ page.old.items ++ attribute_text (name, value.now)) }
{
    page.extend_from_slice(name.begun())?;
    text(page, value)?;
    page.push(b'"')?;
    Ok(())
}

/// Writes a text, and escapes the signs that have a meaning on a page.
pub fn text(page: &mut Vec<u8>, text: &[u8]) -> Result<(), AllocError>
    ensures { OnOk result (page.new.items ≡ page.old.items ++ escaped text.now) }
{
    for byte in text {
        escape(page, *byte)?;
    }
    Ok(())
}

fn escape(page: &mut Vec<u8>, byte: u8) -> Result<(), AllocError>
    ensures { OnOk result (page.new.items ≡ page.old.items ++ escaped_byte byte) }
{
    match byte {
        b'<' => page.extend_from_slice(b"&lt;")?,
        b'>' => page.extend_from_slice(b"&gt;")?,
        b'&' => page.extend_from_slice(b"&amp;")?,
        b'"' => page.extend_from_slice(b"&quot;")?,
        _ => page.push(byte)?,
    }
    Ok(())
}
