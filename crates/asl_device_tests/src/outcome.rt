//! What the words come to over readers and writers.

/// The status, what was written and what was said.
#[derive(Drop)]
pub struct Outcome {
    pub status: Option<u8>,
    pub output: Vec<u8>,
    pub errors: Vec<u8>,
}

impl Outcome {
    /// Whether nothing was written, and this was said.
    pub fn is_refused(&self, said: &[u8]) -> bool {
        self.status == Some(1) && self.output.is_empty() && self.errors.as_slice() == said
    }

    /// Whether all was written.
    pub fn is_done(&self, output: &[u8]) -> bool {
        self.status == Some(0) && self.output.as_slice() == output && self.errors.is_empty()
    }

    /// Whether a read is named that went wrong; nothing where none did, and the command is done.
    pub fn names_read(&self, went_wrong: bool, output: &[u8]) -> Option<bool> {
        if went_wrong {
            return Some(self.is_refused(b"asl: Read\n"));
        }
        if self.is_done(output) {
            None
        } else {
            Some(false)
        }
    }

    /// Whether a write is named that went wrong after a first part; nothing where none did, and the command is done.
    pub fn names_write(&self, went_wrong: bool, output: &[u8]) -> Option<bool> {
        if went_wrong {
            let named = self.errors.as_slice() == b"asl: Write\n".as_slice();
            let first = output.starts_with(self.output.as_slice())
                && self.output.len() < output.len();
            return Some(self.status == Some(1) && named && first);
        }
        if self.is_done(output) {
            None
        } else {
            Some(false)
        }
    }
}
