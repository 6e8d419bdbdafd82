//! Tests of a site that is built with custom kinds (`gb_pages`, by `gb_with`), over a folder in
//! memory and with a custom listener: the script is a short form of the one of `gb_site`.

mod counting;
mod faults;
mod keys;
mod leaving_out;
mod links;
mod names;
mod offering;
mod renaming;
mod rewritten;
mod sites;
mod steps;
mod versions;
