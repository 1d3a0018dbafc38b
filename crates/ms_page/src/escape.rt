//! Texts of the input between tags.
ghost use Rattle.std.specs.Prelude.{◌≡◌, ◌++◌, ◌⊎◌, OnOk, string_bytes};
ghost use Rattle.ms_page.specs.Escape.{escaped, entity};

use std::alloc::{AllocError, Global};
use std::str::from_utf8;

/// Appends a name to a page as escaped text: nothing else of the name ever stands in the page. The
/// escaped bytes are in memory of the allocator before they are appended, and an error means that a
/// growth was refused.
pub fn push_name(alloc: Global, text: &mut String, name: &str) -> Result<(), AllocError>
    ensures { OnOk result ((string_bytes text.new ≡ string_bytes text.old ++ escaped name.now)
        ⊎ (string_bytes text.new ≡ string_bytes text.old)) }
{
    let mut bytes = Vec::new(alloc);
    push_escaped(&mut bytes, name)?;
    match from_utf8(bytes.as_slice()) {
        Ok(escaped) => text.push_str(escaped),
        // What stands for a byte of UTF-8 is that byte or ASCII, so this can't come.
        Err(_) => Ok(()),
    }
}

/// Appends a text of the input to a page's bytes, with a reference in place of each byte that
/// begins or ends something in HTML: of `<`, `>`, `&` and `"`. Takes memory.
pub fn push_escaped(page: &mut Vec<u8>, text: &str) -> Result<(), AllocError>
    ensures { OnOk result (page.new.items ≡ page.old.items ++ escaped text.now) }
{
    for byte in text.as_bytes() {
        push_byte(page, *byte)?;
    }
    Ok(())
}

/// Appends what stands for a byte.
fn push_byte(page: &mut Vec<u8>, byte: u8) -> Result<(), AllocError>
    ensures { OnOk result (page.new.items ≡ page.old.items ++ entity byte) }
{
    if byte == b'<' {
        page.extend_from_slice(b"&lt;")
    } else if byte == b'>' {
        page.extend_from_slice(b"&gt;")
    } else if byte == b'&' {
        page.extend_from_slice(b"&amp;")
    } else if byte == b'"' {
        page.extend_from_slice(b"&quot;")
    } else {
        page.push(byte)?;
        Ok(())
    }
}
