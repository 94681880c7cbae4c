// The bench's bytes: the flash that it lends, the flash as it was before, and the bytes that a line gives.
use bench_output::Output;
use bench_script::fields::Fault;
use bench_script::image::{data, file};
use state::State;
use std::alloc::{AllocError, Global};
use std::fs::Files;

// The length of the lent flash.
pub const FLASH: usize = 131072;
// One byte more than the flash has, by which a file with too many is told.
const IMAGE: usize = FLASH + 1;
// The most pages that a working flash has.
pub const PAGES: usize = State::LARGEST_FLASH / State::SMALLEST_PAGE;

#[derive(Drop)]
pub struct Memory {
    pub(crate) flash: Vec<u8>,
    // the flash as it was after the last call, and how often each of its pages was rewritten since
    pub(crate) copy: Vec<u8>,
    pub(crate) times: Vec<u8>,
    // the flash before the first write of an upload
    pub(crate) earlier: Vec<u8>,
    // the bytes that a line gave, from the first byte on
    image: Vec<u8>,
}

// Copies bytes to a place of the same length; to any other it copies nothing.
pub(crate) fn copy(to: &mut [u8], from: &[u8]) {
    if to.len() == from.len() {
        to.copy_from_slice(from);
    }
}

impl Memory {
    // Erased flash, and nothing rewritten.
    pub fn new(alloc: Global) -> Result<Memory, AllocError> {
        Ok(Memory {
            flash: vec![in alloc; 0xff; FLASH]?,
            copy: vec![in alloc; 0xff; FLASH]?,
            times: vec![in alloc; 0; PAGES]?,
            earlier: vec![in alloc; 0xff; FLASH]?,
            image: vec![in alloc; 0; IMAGE]?,
        })
    }

    pub fn flash(&self) -> &[u8] {
        &self.flash
    }

    // The flash, to be lent to a call.
    pub fn lent_flash(&mut self) -> &mut [u8] {
        &mut self.flash
    }

    // The flash before the first write of an upload.
    pub fn earlier_flash(&self) -> &[u8] {
        &self.earlier
    }

    // The bytes of the image from one place to another, as far as it has them.
    pub fn image(&self, from: usize, end: usize) -> &[u8] {
        let end = end.min(FLASH);
        self.image.get(from.min(end)..end).unwrap_or(&[])
    }

    // An upload begins: the flash as it is now is kept.
    pub fn keep_earlier(&mut self) {
        copy(&mut self.earlier, &self.flash);
    }

    // The map begins anew: nothing was rewritten, and the copy is as the flash.
    pub fn restart_map(&mut self) {
        self.times.fill(0);
        copy(&mut self.copy, &self.flash);
    }

    // The bytes that a line gives, put into the image: how many.
    pub fn load_data(
        &mut self,
        output: &mut Output,
        files: &impl Files,
        s: &[u8],
    ) -> Result<usize, Fault> {
        data(output, files, s, &mut self.image)
    }

    // The bytes of a file, put into the image: how many.
    pub fn load_file(
        &mut self,
        output: &mut Output,
        files: &impl Files,
        name: &[u8],
    ) -> Result<usize, Fault> {
        file(output, files, name, &mut self.image)
    }

    // The flash, all of it one byte; the map begins anew.
    pub fn fill_flash(&mut self, b: u8) {
        self.flash.fill(b);
        self.restart_map();
    }

    // The first n bytes of the image are put into the flash, from its first byte on; the map begins anew.
    pub fn load_flash(&mut self, n: usize) {
        if n <= self.image.len() && n <= self.flash.len() {
            copy(&mut self.flash[..n], &self.image[..n]);
        }
        self.restart_map();
    }
}
