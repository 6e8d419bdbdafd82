//! What holds of every page.
ghost use Rattle.gb_markdown.specs.Laws.{TextsAreEscaped, AddressesAreSafe, PathsAreSafe};

/// No text and no value of an attribute ends a tag or an attribute, and none begins one.
pub fn texts_are_escaped()
    ensures { TextsAreEscaped }
{}

/// No address on a page has a scheme that can run code.
pub fn addresses_are_safe()
    ensures { AddressesAreSafe }
{}

/// The address of a file is safe, whatever the name of the file.
pub fn paths_are_safe()
    ensures { PathsAreSafe }
{}
