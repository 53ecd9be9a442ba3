// Reading a file line by line.
ghost use Rattle.std.specs.Prelude.{◌≡◌, ◌+◌, ◌<◌, ◌≤◌, length, MatchResult};
ghost use Rattle.frames.specs.declared.faults.FileFault.TheVariants.{TooLong};
ghost use Rattle.frames.specs.Frames.{FrameRead, NextFails};
ghost use Rattle.frames.specs.Lines.{most_bytes};

use crate::faults::{FileFault, next_frame};
use crate::frame::Frame;
use crate::lines::MOST_BYTES;
use crate::unread::Unread;

impl<'a> Unread<'a> {
    // All of a file; one that is too long is not read.
    pub fn of(bytes: &'a [u8]) -> Result<Unread<'a>, FileFault>
        ensures { MatchResult result (λ u. (length bytes.now ≤ most_bytes) × (u.rest.now ≡ bytes.now) × (u.line ≡ 1)) (λ e. (most_bytes < length bytes.now) × (e ≡ TooLong)) }
    {
        if bytes.len() > MOST_BYTES {
            return Err(FileFault::TooLong);
        }
        Ok(Unread {
            rest: bytes,
            line: 1,
        })
    }

    // The bytes that are yet to be read.
    pub fn rest(&self) -> &'a [u8]
        ensures { result.now ≡ self.now.rest.now }
    {
        self.rest
    }

    // The number of the line that they begin with.
    pub fn line(&self) -> u32
        ensures { result ≡ self.now.line }
    {
        self.line
    }

    // Reads the frame of the next line.
    pub fn next_frame(&mut self) -> Result<Frame<'a>, FileFault>
        ensures { MatchResult result (λ f. FrameRead self.old.rest.now f self.new.rest.now × (self.new.line ≡ self.old.line + 1)) (λ e. NextFails self.old.rest.now self.old.line e × (self.new ≡ self.old)) }
    {
        let (frame, after) = next_frame(self.rest, self.line)?;
        self.rest = after;
        self.line += 1;
        Ok(frame)
    }
}
