//! Matching names with patterns.

ghost use Rattle.std.specs.Prelude.{◌≡◌, ◌↔◌, ◌==◌, IsTrue, option_map};
ghost use Rattle.std.specs.List.{position};
ghost use Rattle.at_base.specs.Text.{is_only, same_name};
ghost use Rattle.nbp.specs.Matching as spec;
ghost use Rattle.nbp.specs.Matching.{Matches, is_around};

/// The byte of a pattern that matches any run of bytes.
const WILDCARD: u8 = 0xC5;

fn is_equals(pattern: &[u8]) -> bool
    ensures { result ≡ is_only 61 pattern.now }
{
    match pattern {
        [b] => *b == b'=',
        _ => false,
    }
}

/// Whether the texts are equal, ignoring case.
pub(crate) fn same(a: &[u8], b: &[u8]) -> bool
    ensures { result ≡ same_name a.now b.now }
{
    a.eq_ignore_ascii_case(b)
}

/// Whether the name begins with `before`, and the rest of it ends with `after`, ignoring case.
fn is_between(before: &[u8], after: &[u8], name: &[u8]) -> bool
    ensures { result ≡ is_around before.now after.now name.now }
{
    before.len() + after.len() <= name.len()
        && same(before, &name[..before.len()])
        && same(after, &name[name.len() - after.len()..])
}

/// The index of the first wildcard.
fn wildcard_in(pattern: &[u8]) -> Option<usize>
    ensures { result ≡ position (λ b. b == 0xC5) pattern.now }
{
    pattern.iter().position(|b| *b == WILDCARD)
}

/// The bytes before the first wildcard and those after it, if the pattern has one.
fn split_at_wildcard(pattern: &[u8]) -> Option<(&[u8], &[u8])>
    ensures { option_map (λ x. (x.0.now, x.1.now)) result ≡ spec.split_at_wildcard pattern.now }
{
    let at = wildcard_in(pattern)?;
    Some((&pattern[..at], &pattern[at + 1..]))
}

/// Whether a pattern other than `=` matches the name.
fn is_like(pattern: &[u8], name: &[u8]) -> bool
    ensures { result ≡ spec.is_like pattern.now name.now (spec.split_at_wildcard pattern.now) }
{
    match split_at_wildcard(pattern) {
        Some((before, after)) => is_between(before, after, name),
        None => same(pattern, name),
    }
}

/// Whether the pattern matches the name, ignoring the case of ASCII letters. `=` matches every
/// name. A pattern without the byte C5 matches only itself. In a pattern with C5, the first C5
/// matches any run of bytes, and any other C5 matches itself. Allocates nothing.
///
/// Inside AppleTalk, the chapter on NBP.
pub fn matches(pattern: &[u8], name: &[u8]) -> bool
    ensures exact { IsTrue result ↔ Matches pattern.now name.now }
    ensures test { result ≡ spec.matches pattern.now name.now }
{
    is_equals(pattern) || is_like(pattern, name)
}
