// How an upload ended, by the lent flash before its first write and at its end, and which pages changed between.
#![tactic(auto)]

ghost use Rattle.std.specs.Prelude.{◌≡◌, ◌*◌};
ghost use Rattle.byte_parts.specs.Parts.{part};
ghost use Rattle.upload_ends.specs.Ends.{begins_with, upload_end, page_changed};

use byte_parts::{first, from};
use byte_slices::matches;

// How an upload ended.
#[derive(Clone, Copy)]
pub enum UploadEnd {
    // The working flash begins with the image.
    Whole,
    // It does not, and some of its bytes changed since the first write.
    Partly,
    // It does not, and is as it was before the first write.
    Unchanged,
}

// n bytes from a place on, or as many as there are.
fn part_of<'a>(bytes: &'a [u8], at: usize, n: usize) -> &'a [u8]
    ensures { result.now ≡ part at n bytes.now }
{
    first(from(bytes, at), n)
}

// Whether the bytes begin with the image.
fn begins_with(bytes: &[u8], image: &[u8]) -> bool
    ensures { result ≡ begins_with bytes.now image.now }
{
    matches(first(bytes, image.len()), image)
}

// How an upload of the image ended, by the lent flash before its first write and at its end.
pub fn upload_end(
    offset: usize,
    size: usize,
    image: &[u8],
    earlier: &[u8],
    flash: &[u8],
) -> UploadEnd
    ensures { result ≡ upload_end offset size image.now earlier.now flash.now }
{
    let new = part_of(flash, offset, size);
    if begins_with(new, image) {
        return UploadEnd::Whole;
    }
    if matches(part_of(earlier, offset, size), new) {
        return UploadEnd::Unchanged;
    }
    UploadEnd::Partly
}

// Page k of the bytes; none where that lies past the end, or where a page has no bytes.
fn page_of<'a>(page: usize, bytes: &'a [u8], k: usize) -> &'a [u8]
    ensures { result.now ≡ part (k * page) page bytes.now }
{
    if page == 0 {
        return &bytes[0..0];
    }
    if bytes.len() / page < k {
        return &bytes[0..0];
    }
    part_of(bytes, k * page, page)
}

// Whether page k of the working flash has changed.
pub fn page_changed(page: usize, offset: usize, k: usize, earlier: &[u8], flash: &[u8]) -> bool
    ensures { result ≡ page_changed page offset k earlier.now flash.now }
{
    !matches(
        page_of(page, from(earlier, offset), k),
        page_of(page, from(flash, offset), k),
    )
}
