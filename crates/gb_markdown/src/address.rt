//! Addresses: which may be those of links, and how a path is written as one.
ghost use Rattle.std.specs.Prelude.{◌≡◌, ◌≤◌, ◌++◌, length, IfOk, OnOk};
ghost use Rattle.std.specs.List.{prefix_len};
ghost use Rattle.gb_markdown.specs.Addresses.{is_safe, is_visible, has_scheme, has_safe_scheme, begins};
ghost use Rattle.gb_markdown.specs.Addresses.{address_of, as_page, encoded_byte, is_in_path, is_plain};
ghost use Rattle.gb_markdown.specs.Addresses.{is_meant, leads_within, link_address, link_byte, page_address};

use percent_encoding::percent_encode_byte;
use std::alloc::{AllocError, Global};

/// Whether a link may have the address: it has no control character, no white space, and no scheme
/// other than `http`, `https` and `mailto`.
pub fn is_safe(address: &[u8]) -> bool
    ensures { result ≡ is_safe address.now }
{
    is_visible(address) && has_safe_scheme(address)
}

/// Whether no byte is a control character or white space.
fn is_visible(address: &[u8]) -> bool
    ensures { result ≡ is_visible address.now }
{
    for byte in address {
        if *byte <= b' ' || *byte == 0x7f {
            return false;
        }
    }
    true
}

/// Whether the address has no scheme, or one that only opens a page or writes a letter.
fn has_safe_scheme(address: &[u8]) -> bool
    ensures { result ≡ has_safe_scheme address.now }
{
    !has_scheme(address)
        || begins(address, b"http:")
        || begins(address, b"https:")
        || begins(address, b"mailto:")
}

/// Whether a `:` precedes each `/`, `?` and `#`.
pub fn has_scheme(address: &[u8]) -> bool
    ensures { result ≡ has_scheme address.now }
{
    for byte in address {
        match byte {
            b':' => return true,
            b'/' | b'?' | b'#' => return false,
            _ => {}
        }
    }
    false
}

/// Whether the address begins with a scheme, in letters of either case.
fn begins(address: &[u8], scheme: &[u8]) -> bool
    ensures { result ≡ begins scheme.now address.now }
{
    let mut rest = address;
    for letter in scheme {
        let Some((byte, others)) = rest.split_first() else {
            return false;
        };
        if !byte.eq_ignore_ascii_case(letter) {
            return false;
        }
        rest = others;
    }
    true
}

/// The address of a text's page, from the address of the text: `.html` replaces `.md`.
pub(crate) fn page_address(alloc: Global, address: &[u8]) -> Result<Vec<u8>, AllocError>
    ensures { IfOk result (λ made. made.items ≡ page_address address.now) }
{
    if leads_within(address) {
        let end = path_length(address);
        as_page(alloc, &address[..end], &address[end..])
    } else {
        address.to_vec(alloc)
    }
}

/// Whether an address refers to a file of the site: it has neither a scheme nor a host.
fn leads_within(address: &[u8]) -> bool
    ensures { result ≡ leads_within address.now }
{
    !(has_scheme(address) || begins(address, b"//"))
}

/// How long the path of an address is.
fn path_length(address: &[u8]) -> usize
    ensures value { result ≡ prefix_len is_in_path address.now }
    ensures within { result ≤ length address.now }
{
    address.iter().take_while(|byte| is_in_path(**byte)).count()
}

fn is_in_path(byte: u8) -> bool
    ensures { result ≡ is_in_path byte }
{
    !(byte == b'?' || byte == b'#')
}

/// A path with `.html` instead of `.md` at its end, and the rest after it.
fn as_page(alloc: Global, path: &[u8], rest: &[u8]) -> Result<Vec<u8>, AllocError>
    ensures { IfOk result (λ made. made.items ≡ as_page path.now rest.now) }
{
    let mut made = Vec::new(alloc);
    match path.strip_suffix(b".md") {
        Some(front) => {
            made.extend_from_slice(front)?;
            made.extend_from_slice(b".html")?;
        }
        None => made.extend_from_slice(path)?,
    }
    made.extend_from_slice(rest)?;
    Ok(made)
}

/// An address as it is written in a link: each byte except letters, digits and the signs of
/// addresses as `%XX`.
pub(crate) fn link_address(alloc: Global, address: &[u8]) -> Result<Vec<u8>, AllocError>
    ensures { IfOk result (λ made. made.items ≡ link_address address.now) }
{
    let mut made = Vec::new(alloc);
    for byte in address {
        link_byte(&mut made, *byte)?;
    }
    Ok(made)
}

/// Writes a byte of an address.
fn link_byte(made: &mut Vec<u8>, byte: u8) -> Result<(), AllocError>
    ensures { OnOk result (made.new.items ≡ made.old.items ++ link_byte byte) }
{
    if is_meant(byte) {
        made.push(byte)?;
    } else {
        made.extend_from_slice(percent_encode_byte(byte).as_bytes())?;
    }
    Ok(())
}

/// Whether a byte is a letter, a digit, or a sign with a meaning in an address.
fn is_meant(byte: u8) -> bool
    ensures { result ≡ is_meant byte }
{
    byte.is_ascii_alphanumeric()
        || (b'#' <= byte && byte <= b'/')
        || matches!(byte, b'!' | b':' | b';' | b'=' | b'?' | b'@' | b'_' | b'~')
}

/// The address of the file at a path: each byte except letters, digits and `-._~/` as `%XX`.
pub fn address_of(alloc: Global, path: &[u8]) -> Result<Vec<u8>, AllocError>
    ensures { IfOk result (λ address. address.items ≡ address_of path.now) }
{
    let mut address = Vec::new(alloc);
    for byte in path {
        encode(&mut address, *byte)?;
    }
    Ok(address)
}

/// Writes a byte of a path.
fn encode(address: &mut Vec<u8>, byte: u8) -> Result<(), AllocError>
    ensures { OnOk result (address.new.items ≡ address.old.items ++ encoded_byte byte) }
{
    if is_plain(byte) {
        address.push(byte)?;
    } else {
        address.extend_from_slice(percent_encode_byte(byte).as_bytes())?;
    }
    Ok(())
}

/// Whether a byte means itself in an address.
fn is_plain(byte: u8) -> bool
    ensures { result ≡ is_plain byte }
{
    byte.is_ascii_alphanumeric() || matches!(byte, b'-' | b'.' | b'_' | b'~' | b'/')
}
