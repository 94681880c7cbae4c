// Requests that the master makes and sends.
use crate::frames::Exchange;
use crate::replies::Silence;
use crate::session::Session;
use bench_wording::meaning;
use bench_wording::reply::{Asked, part};
use byte_slices::matches;
use encoder::encode::encode;
use rules::requests::{EncodeError, Request};
use std::ops::Range;
use upload_ends::UploadEnd;

// Nothing was sent.
fn unsent() -> Exchange {
    Exchange {
        reply: Err(Silence::Expected),
        result: None,
    }
}

impl Session {
    // A command to where the master sends.
    pub fn command(&self, code: usize, length: usize, verbose: bool) -> Asked {
        Asked {
            bus: self.bench.bus(),
            code,
            length,
            address: (self.bench.to % 256) as u8,
            verbose,
        }
    }

    // A general call.
    pub fn general(&self) -> Asked {
        Asked {
            bus: self.bench.bus(),
            code: 0x46,
            length: 0,
            address: 0,
            verbose: true,
        }
    }

    // What a request asks.
    fn asked_by(&self, r: Request, verbose: bool) -> Asked {
        match r {
            Request::Plain(code) => self.command(code, 0, verbose),
            Request::SetAddress { .. } => self.command(0x01, 0, verbose),
            Request::Write { .. } => self.command(0x06, 0, verbose),
            Request::Read { length, .. } => self.command(0x08, length, verbose),
            Request::ResetAddress | Request::Reset => self.general(),
        }
    }

    // A request that the master did not make, with n data bytes.
    fn tell_unmade(&mut self, e: EncodeError, r: Request, n: usize) {
        let bench = &self.bench;
        meaning::tell_unmade(
            &mut self.output,
            e,
            bench.bus(),
            bench.profile.longest,
            r,
            bench.to,
            n,
        );
    }

    // A request that the master makes and sends; of one that is not verbose only what must not be missed is said. A write's data are
    // this part of the image.
    pub fn request(&mut self, r: Request, verbose: bool, image: Range<usize>) -> Exchange {
        let mut frame = [0u8; 512];
        let bench = &self.bench;
        let bytes = self.memory.image(image.start, image.end);
        match encode(
            bench.bus(),
            bench.profile.longest,
            r,
            bench.to,
            bytes,
            &mut frame,
        ) {
            Ok(n) if n <= frame.len() => {
                let asked = self.asked_by(r, verbose);
                self.send(asked, &mut frame[..n])
            }
            Ok(_) => unsent(),
            Err(e) => {
                self.tell_unmade(e, r, image.end.saturating_sub(image.start));
                unsent()
            }
        }
    }

    // How an upload of the first n bytes of the image ended.
    pub fn upload_end(&self, n: usize) -> UploadEnd {
        upload_ends::upload_end(
            self.bench.profile.offset,
            self.bench.profile.size,
            self.memory.image(0, n),
            self.memory.earlier_flash(),
            self.memory.flash(),
        )
    }

    // Whether a read gave the bytes of the image from one place to another.
    pub fn is_image(&self, done: &Exchange, from: usize, end: usize) -> bool {
        match (&done.reply, &done.result) {
            (Ok(reply), Some(r)) => matches(
                part(reply.as_slice(), r.start, r.len),
                self.memory.image(from, end),
            ),
            _ => false,
        }
    }
}
