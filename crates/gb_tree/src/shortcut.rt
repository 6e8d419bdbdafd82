//! The forms of pattern that people write most, which one comparison of texts answers: no wildcard at
//! all, `**/` and one more segment, a folder and `/**`, and a segment whose only wildcard is a leading
//! `*`.
ghost use Rattle.std.specs.Prelude.{◌≡◌, ◌≤◌, ◌++◌, ◌∷◌, [], codes, false, length, not, ℕ, List, IfSome};
ghost use Rattle.std.specs.Prelude.{◌&&◌, ◌==◌};
ghost use Rattle.std.specs.List.{list_any};
ghost use Rattle.gb_core.specs.Place.{is_under, segments};
ghost use Rattle.gb_tree.specs.Pattern.{is_double_star, is_wild};

use gb_core::place::lies_beneath;

/// Whether the text contains a `*` or a `?`.
pub(crate) fn has_wild(text: &str) -> bool
    ensures { result ≡ list_any is_wild text.now }
{
    text.as_bytes().iter().any(|b| *b == b'*' || *b == b'?')
}

/// Whether the item of a pattern matches any number of segments.
pub(crate) fn is_double_star(item: &str) -> bool
    ensures { result ≡ is_double_star item.now }
{
    item == "**"
}

/// The item that follows `**/`, as `*.md` in `**/*.md`, if it is the last item and not `**` itself.
pub(crate) fn after_folders(pattern: &str) -> Option<&str>
    ensures items { IfSome result (λ item. segments pattern.now ≡ codes "**" ∷ item.now ∷ []) }
    ensures single { IfSome result (λ item. is_double_star item.now ≡ false) }
    ensures within { IfSome result (λ item. length item.now ≤ length pattern.now) }
{
    match pattern.split_once('/') {
        Some((first, item)) if is_double_star(first) && is_single(item) => Some(item),
        _ => None,
    }
}

/// Whether the text is one item of a pattern, and not `**`.
fn is_single(text: &str) -> bool
    ensures { result ≡ (not (list_any (λ b. b == 47) text.now) && not (is_double_star text.now)) }
{
    !has_slash(text) && !is_double_star(text)
}

fn has_slash(text: &str) -> bool
    ensures { result ≡ list_any (λ b. b == 47) text.now }
{
    text.as_bytes().iter().any(|b| *b == b'/')
}

/// The folder before a final `/**`, as `src` in `src/**`, if no other item of the pattern has a
/// wildcard.
pub(crate) fn before_all(pattern: &str) -> Option<&str>
    ensures text { IfSome result (λ folder. pattern.now ≡ folder.now ++ codes "/**") }
    ensures plain { IfSome result (λ folder. list_any is_wild folder.now ≡ false) }
{
    match pattern.strip_suffix("/**") {
        Some(folder) if !has_wild(folder) => Some(folder),
        _ => None,
    }
}

/// The end of a segment after a leading `*`, as `.md` in `*.md`, if it is the only wildcard.
pub(crate) fn after_star(pattern: &str) -> Option<&str>
    ensures text { IfSome result (λ end. pattern.now ≡ 42 ∷ end.now) }
    ensures plain { IfSome result (λ end. list_any is_wild end.now ≡ false) }
{
    match pattern.strip_prefix('*') {
        Some(end) if !has_wild(end) => Some(end),
        _ => None,
    }
}

/// The last segment of a path.
pub(crate) fn last_of(path: &str) -> &str
    ensures { (prefix : List (List ℕ)) × (segments path.now ≡ prefix ++ result.now ∷ []) }
{
    match path.rsplit_once('/') {
        Some((_, last)) => last,
        None => path,
    }
}

/// Whether the path is the folder or lies under it.
pub(crate) fn is_under(path: &str, folder: &str) -> bool
    ensures { result ≡ is_under path.now folder.now }
{
    path == folder || lies_beneath(path.as_bytes(), folder.as_bytes())
}
