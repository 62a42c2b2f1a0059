//! Pages of a zone list.

ghost use Rattle.std.specs.Prelude.{◌≡◌, ◌≤◌, ◌+◌, ◌++◌, [], length, IfOk, IsOk, IsOkUnless, OnOk};
ghost use Rattle.zip_zones.specs.Answers.{page_user};
ghost use Rattle.zip_zones.specs.Pages.{fitting, from_index, name_bytes, names_bytes, page};

use at_base::{Bytes, Error, Name};
use std::alloc::Global;

/// The greatest number of bytes of names in a page: the data of one response.
pub const MAX_PAGE: usize = 578;

/// A part of a zone list: the data of one response.
///
/// Inside AppleTalk, the chapter on ZIP.
#[derive(Debug, Drop)]
pub struct Page {
    /// Whether the list ends with these names.
    pub last: bool,
    /// The number of names.
    pub count: u16,
    /// The names, each length-prefixed.
    pub bytes: Bytes,
}

impl Page {
    /// The user bytes of the response with this page: 1 for the last page, else 0; then 0; then the
    /// number of names in two bytes.
    pub fn user(&self) -> [u8; 4]
        ensures { result ≡ page_user self.now }
    {
        let count = self.count.to_be_bytes();
        [u8::from(self.last), 0, count[0], count[1]]
    }
}

/// Appends a length-prefixed name.
pub(crate) fn put_name(bytes: &mut Vec<u8>, name: &Name) -> Result<(), Error>
    ensures put { OnOk result (bytes.new.items ≡ bytes.old.items ++ name_bytes name.now) }
    ensures few { OnOk result (length bytes.new.items ≤ length bytes.old.items + 33) }
    ensures err { IsOkUnless result Error.Memory }
{
    let text = name.as_slice();
    bytes.push(text.len() as u8)?;
    bytes.extend_from_slice(text)?;
    Ok(())
}

/// Appends as many names as fit into `room` bytes, and returns their number. Error: `Memory`, which
/// no names never need.
fn put_names(bytes: &mut Vec<u8>, room: usize, names: &[Name]) -> Result<usize, Error>
    ensures count { IfOk result (λ count. count ≡ length (fitting room names.now)) }
    ensures few { IfOk result (λ count. count ≤ room) }
    ensures short { OnOk result (length bytes.new.items ≤ length bytes.old.items + room) }
    ensures put { OnOk result
        (bytes.new.items ≡ bytes.old.items ++ names_bytes (fitting room names.now)) }
    ensures none { names.now ≡ [] → IsOk result }
    ensures err { IsOkUnless result Error.Memory }
{
    match names {
        [] => Ok(0),
        [name, rest @ ..] => {
            let len = name.as_slice().len() + 1;
            if room < len {
                return Ok(0);
            }
            put_name(bytes, name)?;
            let count = put_names(bytes, room - len, rest)?;
            Ok(count + 1)
        }
    }
}

/// The names from an index on, where both 0 and 1 mean the first name.
fn names_after(start: u16, names: &[Name]) -> &[Name]
    ensures { result.now ≡ from_index start names.now }
{
    let skipped = start.saturating_sub(1) as usize;
    if names.len() < skipped {
        return &[];
    }
    &names[skipped..]
}

/// The page that begins with the name at an index, from 1: as many names as fit into 578 bytes.
/// Index 0 counts as 1. Past the end the page has no names, and is the last.
///
/// Inside AppleTalk, the chapter on ZIP. Error: `Memory`, which a page past the end never needs.
pub fn zone_list_page(alloc: Global, start: u16, names: &[Name]) -> Result<Page, Error>
    ensures ok { IfOk result (λ made. made ≡ page start names.now) }
    ensures short { IfOk result (λ made. length made.bytes ≤ 578) }
    ensures none { from_index start names.now ≡ [] → IsOk result }
    ensures refused { IsOkUnless result Error.Memory }
{
    let rest = names_after(start, names);
    let mut bytes = Vec::new(alloc);
    let count = put_names(&mut bytes, MAX_PAGE, rest)?;
    Ok(Page {
        last: count == rest.len(),
        count: count as u16,
        bytes: Bytes::from_vec(bytes),
    })
}
