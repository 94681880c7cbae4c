// Which pages the board rewrote: after each call the flash is compared with its copy where the upload stands.
ghost use Rattle.std.specs.Prelude.{◌<◌, ◌≤◌};
ghost use Rattle.state.specs.View.{largest_page};

use crate::memory::{Memory, PAGES, copy};
use bench_output::Output;
use profile::Profile;
use state::State;
use upload_ends::page_changed;

// A frame may have reached so many pages, up to that of its last byte.
const REACHED: usize = 6;

// The page of a profile, by which pages are numbered here; the largest page for a profile that has none.
pub fn page_size(p: Profile) -> usize
    ensures { (0 < result) × (result ≤ largest_page) }
{
    match p.page {
        size @ 1..=State::LARGEST_PAGE => size,
        _ => State::LARGEST_PAGE,
    }
}

impl Memory {
    // How often a page was rewritten.
    pub fn times(&self, page: usize) -> u8 {
        self.times.get(page).copied().unwrap_or(0)
    }

    // One more rewriting of a page.
    fn count_page(&mut self, page: usize) {
        if let Some(times) = self.times.get_mut(page) {
            *times = times.saturating_add(1);
        }
    }

    // Makes the copy of a page anew.
    fn copy_page(&mut self, offset: usize, size: usize, page: usize) {
        let start = offset.saturating_add(page.saturating_mul(size));
        let end = start.saturating_add(size);
        if end <= self.copy.len() && end <= self.flash.len() {
            copy(&mut self.copy[start..end], &self.flash[start..end]);
        }
    }

    // A page that may have been rewritten: whether it was.
    fn track_page(
        &mut self,
        output: &mut Output,
        verbose: bool,
        offset: usize,
        size: usize,
        page: usize,
    ) -> bool {
        if !page_changed(size, offset, page, &self.copy, &self.flash) {
            return false;
        }
        self.copy_page(offset, size, page);
        self.count_page(page);
        if verbose {
            output.tell(format_args!("  changed: page {page} erased and rewritten\n"));
        }
        true
    }

    // Whether a page was rewritten, up to the page of `next`.
    pub fn track(&mut self, output: &mut Output, verbose: bool, p: Profile, next: usize) -> bool {
        let size = page_size(p);
        let first = (next / size).saturating_sub(REACHED - 1);
        let mut rewritten = false;
        for page in first..first.saturating_add(REACHED) {
            rewritten |= self.track_page(output, verbose, p.offset, size, page);
        }
        rewritten
    }

    // Says each page that changed since the first write of an upload.
    pub fn tell_uploaded(&self, output: &mut Output, p: Profile) {
        output.say("  changed since the first write: page");
        for page in 0..PAGES {
            if page_changed(p.page, p.offset, page, &self.earlier, &self.flash) {
                output.tell(format_args!(" {page}"));
            }
        }
        output.say("\n");
    }
}
