//! What follows from the definitions alone, each the contract of a function that does nothing.
ghost use Rattle.gb_picture.specs.Laws.{DotReadsBack, MermaidHasNoSpecial, ShowsNoHidden, XmlHasNoMarkup};

/// No hidden character of a text is shown.
pub fn shows_no_hidden()
    ensures { ShowsNoHidden }
{}

/// No name ends a text of DOT.
pub fn dot_reads_back()
    ensures { DotReadsBack }
{}

/// No name breaks out of XML.
pub fn xml_has_no_markup()
    ensures { XmlHasNoMarkup }
{}

/// No name breaks out of a text of Mermaid.
pub fn mermaid_has_no_special()
    ensures { MermaidHasNoSpecial }
{}
